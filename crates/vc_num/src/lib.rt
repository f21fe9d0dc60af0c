//! Whole numbers: sums and products that say where they pass the range, greatest common divisors and decimal text.
#![tactic(auto)]

mod checked;
mod decimals;
mod divisors;
mod numerals;

pub use checked::{checked_add, checked_mul, checked_sub, divide, product, scaled};
pub use decimals::{DecimalFault, read_decimal};
pub use divisors::gcd;
pub use numerals::{NumeralFault, read_magnitude, read_natural, read_whole};
