//! Definitions and laws of automata whose states are combinations of the states of others, and of tables of weights.
#![tactic(auto)]

mod conjugates;
mod tables;

pub use conjugates::{conjugates_have_one_series, letter_conjugates_have_one_series};
pub use tables::tables_give_moves;
