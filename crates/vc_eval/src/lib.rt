//! Coefficients of automata at words.
#![tactic(auto)]

mod evaluator;
mod gather;
mod laws;
mod letters;
mod marks;
mod rows;
mod runs;
mod size;
mod tuple;
mod words;

pub use evaluator::Evaluator;
pub use laws::letters_are_labels;
pub use tuple::eval_tuple;
