//! Members that are found from first ones, by number, and automata whose states stand for them.
#![tactic(auto)]

mod exploration;
mod explored;
mod laws;
mod moves;
mod search;
mod weights;

pub use exploration::Exploration;
pub use explored::explore;
pub use laws::{explored_automata_stand_for_members, members_are_few};
pub use moves::Moves;
pub use search::{Search, SearchFault};
