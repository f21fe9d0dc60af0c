//! The top call: words, files and sinks in, a status out.
#![tactic(auto)]

mod automata;
mod context;
mod evaluation;
mod expression;
mod input;
mod law;
mod message;
mod operation;
mod plan;
mod product;
mod refusal;
mod standard;
mod status;
mod top;
mod word;

pub use law::answers_are_determined;
pub use status::Status;
pub use top::{refuse, run};
