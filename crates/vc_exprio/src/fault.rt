//! Why a text gives no expression.
ghost use Rattle.std.specs.Prelude.{◌≡◌};

use std::alloc::AllocError;
use vc_expr::{Expr, ExprFault};
use vc_ring::{Limit, Overflow};

/// Why a text gives no expression. Places are in bytes from 0. Where several causes stand, the
/// first of them in this order is told, but for the limits: that of bytes comes first, and that of
/// depth before `NotALabel`; and a number past its range comes before `InvalidStar`.
#[derive(Clone, Copy, Debug, PartialEq, Eq)]
pub enum TextFault<V> {
    /// The text has too many bytes, or its tree is too deep.
    Limit(Limit),

    /// No token begins at this byte, which is the first such.
    BadByte { at: usize },

    /// The tokens are no expression: the place of the first token behind the longest front with
    /// which an expression can begin, or the length of the text.
    NotAnExpression { at: usize },

    /// The first label that is no label of the context begins here.
    NotALabel { at: usize },

    /// The first `&` or `:` stands here, and labels are not of single letters.
    NotInContext { at: usize },

    /// The constant term of a star's operand has no star.
    InvalidStar { operand: Expr, constant: V },

    /// A number of a weight is past its range, or a step of building does not fit.
    Overflow(Overflow<V>),

    /// There was no memory.
    Memory(AllocError),
}

impl<V> From<AllocError> for TextFault<V> {
    ghost use Rattle.vc_exprio.specs.declared.fault.TextFault.TheVariants.{Memory};

    ghost from_gives = { λ error fault. fault ≡ Memory error };

    fn from(error: AllocError) -> TextFault<V> {
        TextFault::Memory(error)
    }
}

impl<V> From<ExprFault<V>> for TextFault<V> {
    ghost use Rattle.vc_exprio.specs.BuildAnswers.{text_fault};

    ghost from_gives = { λ fault text. text ≡ text_fault fault };

    fn from(fault: ExprFault<V>) -> TextFault<V> {
        match fault {
            ExprFault::InvalidStar { operand, constant } => {
                TextFault::InvalidStar { operand, constant }
            }
            ExprFault::Overflow(step) => TextFault::Overflow(step),
            ExprFault::Memory(error) => TextFault::Memory(error),
        }
    }
}
