//! The label sets of two to four tapes.
#![tactic(auto)]

mod cuts;
mod label;
mod tuple;

pub use label::TupleLabel;
pub use tuple::Tuple;
