//! Texts of expressions and of words.
#![tactic(auto)]

mod build;
mod closing;
mod depth;
mod fault;
mod form;
mod label_text;
mod labels;
mod laws;
mod over;
mod parser;
mod parts;
mod places;
mod read;
mod reader;
mod state;
mod step;
mod text_laws;
mod tokens;
mod word_laws;
mod words;
mod writer;

pub use fault::TextFault;
pub use laws::{
    canonical_texts_are_read, faults_have_one_place, steps_make_expressions, texts_spell_one_tree,
    tokens_have_their_tree,
};
pub use reader::read_expr;
pub use text_laws::{
    read_expressions_have_their_series, read_trees_are_built, texts_have_one_answer,
};
pub use word_laws::{texts_spell_one_word, word_texts_are_read};
pub use words::{WordFault, read_word, write_word};
pub use writer::write_expr;
