use crate::alphabet::Alphabet;

/// How many letters a part of a label has.
#[derive(Clone, Copy, Debug, PartialEq, Eq)]
pub enum TapeKind {
    /// One letter: `lal`.
    Letters,

    /// One letter or none: `lan`.
    Nullable,

    /// Any number of letters: `law`.
    Words,
}

/// The parts that a label may have on one tape.
#[derive(Clone, Copy, Debug, PartialEq, Eq)]
pub struct TapeSet {
    pub kind: TapeKind,
    pub alphabet: Alphabet,
}
