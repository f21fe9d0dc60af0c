use thiserror::Error;

/// Why a file has no context line. Lines are counted from 1.
#[derive(Clone, Copy, Debug, PartialEq, Eq, Error)]
pub enum HeadFault {
    /// The first line that is not blank is no context line, or all lines are blank, and then this is the last one.
    #[error("no context in line {line}")]
    Syntax { line: u64 },
}
