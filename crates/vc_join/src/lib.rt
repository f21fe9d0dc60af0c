//! Products of automata over single letters: conjunction and shuffle.
#![tactic(auto)]

mod conjoined;
mod laws;
mod meet;
mod mix;
mod pairs;
mod runs;
mod shuffled;
mod weights;
mod wider;

pub use conjoined::conjunction;
pub use laws::{
    items_are_in_order, pairs_that_move_alone_are_shuffles,
    pairs_with_equal_labels_are_conjunctions, shuffled_items_are_in_order,
};
pub use shuffled::shuffle;
pub use wider::widen;
