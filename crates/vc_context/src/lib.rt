//! Contexts, which are a label set and a weight set, and their texts.
#![tactic(auto)]

mod context;
mod joined;
mod laws;
mod letters;
mod pieces;
mod reader;
mod tapes;
mod writer;

pub use context::{AnyContext, AnyLabels, ContextFault, Weights};
pub use laws::{contexts_have_texts, labels_have_tapes, texts_are_read};
pub use reader::read_context;
pub use writer::write_context;
