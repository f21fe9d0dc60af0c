//! Words of one to four tapes, alphabets, and what a set of labels is.
#![tactic(auto)]

mod alphabet;
mod extend;
mod label_set;
mod laws;
mod tape_set;
mod word;
mod word_buf;

pub use alphabet::{Alphabet, Ascending};
pub use label_set::{LabelFault, LabelSet};
pub use laws::{alphabets_are_sets, tapes_are_cut, words_are_ordered, words_are_over_sets};
pub use tape_set::{TapeKind, TapeSet};
pub use word::Word;
pub use word_buf::WordBuf;
