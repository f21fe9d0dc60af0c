//! Trees of weighted expressions, and their coefficients by the definition.
#![tactic(auto)]

mod by_definition;
mod fault;
mod tree;
mod word_pairs;

pub use by_definition::coefficient;
pub use fault::SlowFault;
pub use tree::Tree;
