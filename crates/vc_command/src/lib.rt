//! The words of a command line, and the request that they give.
#![tactic(auto)]

mod command;
mod law;
mod line;
mod number;
mod request;

pub use law::{limits_are_in_range, lines_are_spelled};
pub use request::{Request, RequestFault, request_of};
