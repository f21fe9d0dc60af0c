//! The rational numbers as weights.
#![tactic(auto)]

mod field;
mod fraction;
mod products;
mod rationals;
mod splits;
mod sums;
mod texts;

pub use fraction::Fraction;
pub use rationals::Q;
