//! Weighted automata, which a builder sums up from states and transitions.
#![tactic(auto)]

mod automaton;
mod builder;
mod copies;
mod gathering;
mod laws;
mod links;
mod moves;
mod proper;
mod starts;
mod transition;
mod useful;
mod with_labels;

pub use automaton::Automaton;
pub use builder::Builder;
pub use gathering::gather;
pub use laws::{
    automata_are_valid, drafts_are_sums, drafts_are_valid, labels_are_over_wider_sets,
    proper_automata_are_proper, states_are_added, transitions_are_added, transitions_are_in_order,
};
pub use proper::Proper;
pub use transition::Transition;
pub use useful::trim;
