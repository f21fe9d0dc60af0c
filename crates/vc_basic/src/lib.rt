//! The weight sets that need no fractions: truth values, residues, whole numbers and the tropical semiring.
#![tactic(auto)]

mod residues;
mod steps;
mod tropical;
mod truths;
mod wholes;

pub use residues::F2;
pub use tropical::{Nmin, NminValue};
pub use truths::B;
pub use wholes::Z;
