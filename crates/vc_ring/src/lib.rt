//! Weight sets as semirings: the traits, the faults that the crates share, and sums.
#![tactic(auto)]

mod faults;
mod field;
mod semiring;
mod sums;
mod weighed;

pub use faults::{Limit, MakeFault, Measure, NumberFault, Overflow, StarFault, SumFault};
pub use field::{Field, Split};
pub use semiring::Semiring;
pub use sums::sum;
pub use weighed::Weighed;
