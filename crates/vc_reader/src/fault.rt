use std::alloc::AllocError;
use vc_ring::{Limit, Overflow};

/// Why a file does not make an automaton. Lines are counted from 1.
#[derive(Debug, Drop)]
pub enum DautFault<V> {
    /// The first line that is outside the grammar.
    Syntax { line: u64 },
    /// The first label that is not in the label set, from one place of its line to another.
    NotALabel { line: u64, from: usize, to: usize },
    /// A number that is past its range, or a sum of equal entries that is.
    Overflow { line: u64, of: Overflow<V> },
    /// The file names too many states, or too many transitions.
    Limit(Limit),
    /// There was no memory.
    Memory(AllocError),
}
