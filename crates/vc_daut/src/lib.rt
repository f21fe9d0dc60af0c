//! The text of automata: daut files.
#![tactic(auto)]

mod append;
mod law;
mod targets;
mod write;

pub use law::automata_have_texts;
pub use vc_lines::{HeadFault, context_lines_have_one_text, daut_context};
pub use vc_reader::{
    DautFault, built_automata_are_spelled, read_daut, readings_exclude_each_other,
    refusals_are_additions, texts_spell_one_automaton,
};
pub use write::write_daut;
