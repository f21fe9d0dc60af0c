//! The label sets of one tape: letters, nullable letters and words.
#![tactic(auto)]

mod laws;
mod letters;
mod nullable;
mod words;

pub use laws::letters_have_one_letter;
pub use letters::{Letter, Letters};
pub use nullable::Nullable;
pub use words::{WordLabel, Words};
