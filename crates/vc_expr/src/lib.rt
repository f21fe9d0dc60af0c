//! A store of weighted expressions that only grows, in which each tree has one node.
#![tactic(auto)]

mod expr;
mod facts;
mod fault;
mod folds;
mod laws;
mod node;
mod operations;
mod products;
mod reading;
mod store;
mod stored;
mod sums;
mod trees;
mod weights;

pub use expr::Expr;
pub use fault::ExprFault;
pub use laws::{names_keep_their_trees, stores_are_valid};
pub use node::Node;
pub use store::Exprs;
