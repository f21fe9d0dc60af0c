//! The lines of a daut file, by their tokens, and its context line.
#![tactic(auto)]

mod context;
mod fault;
mod head;
mod law;
mod line;
mod lines;

pub use context::daut_context;
pub use fault::HeadFault;
pub use head::{Head, head_of};
pub use law::context_lines_have_one_text;
pub use line::{Entry, Line, cut_entry, entry_of, line_of, name_of};
pub use lines::cut_line;
