//! The reader of daut files.
#![tactic(auto)]

mod add;
mod check;
mod fault;
mod label;
mod law;
mod names;
mod read;

pub use fault::DautFault;
pub use law::{
    built_automata_are_spelled, readings_exclude_each_other, refusals_are_additions,
    texts_spell_one_automaton,
};
pub use read::read_daut;
