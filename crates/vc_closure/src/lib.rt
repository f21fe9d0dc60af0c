//! Empty circuits of automata, and automata without empty labels.
#![tactic(auto)]

mod bring;
mod circuits;
mod closure;
mod fault;
mod laws;
mod moves;
mod rounds;
mod rows;
mod search;
mod settle;
mod sums;

pub use circuits::{circuit_empty_on, empty_circuit};
pub use closure::proper;
pub use fault::ProperFault;
pub use laws::closings_keep_futures;
