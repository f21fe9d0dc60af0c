//! What the parser has read.

use crate::step::Step;
use vc_lex::Token;

/// What stands before the operand that is read, from the last open parenthesis on.
#[derive(Clone, Copy, Debug)]
pub(crate) struct Level {
    /// Members of a sum, each with `+` after it.
    pub(crate) members: usize,
    /// Whether a shuffle with `:` after it stands there.
    pub(crate) shuffled: bool,
    /// Whether a conjunction with `&` after it stands there.
    pub(crate) conjunct: bool,
    /// From which one on the pending weights are of this level.
    pub(crate) weights: usize,
    /// Factors of a product.
    pub(crate) factors: usize,
}

/// What may come next.
#[derive(Clone, Copy, Debug)]
pub(crate) enum Phase {
    /// An operand.
    Wanted,
    /// A label was read, and may go on.
    Label,
    /// Another operand was read.
    Operand,
    /// A part of a label, after a bar.
    Barred,
}

#[derive(Drop)]
pub(crate) struct Parser<'t> {
    pub(crate) steps: Vec<Step<'t>>,
    /// The levels of the open parentheses, the last one at the end.
    pub(crate) outer: Vec<Level>,
    /// The weights that wait for their operands.
    pub(crate) pending: Vec<Token<'t>>,
    pub(crate) level: Level,
    pub(crate) phase: Phase,
}
