//! Why an expression was not made.
ghost use Rattle.std.specs.Prelude.{◌≡◌};

use crate::expr::Expr;
use std::alloc::AllocError;
use vc_ring::Overflow;

/// Why an expression was not made. Each name of the store has its tree as before.
#[derive(Clone, Copy, Debug, PartialEq, Eq)]
pub enum ExprFault<V> {
    /// The constant term of a star's operand has no star.
    InvalidStar { operand: Expr, constant: V },

    /// A product of weights, or a step of a constant term, does not fit.
    Overflow(Overflow<V>),

    /// There was no memory.
    Memory(AllocError),
}

impl<V> From<AllocError> for ExprFault<V> {
    ghost use Rattle.vc_expr.specs.declared.fault.ExprFault.TheVariants.{Memory};

    ghost from_gives = { λ error fault. fault ≡ Memory error };

    fn from(error: AllocError) -> ExprFault<V> {
        ExprFault::Memory(error)
    }
}

impl<V> From<Overflow<V>> for ExprFault<V> {
    ghost use Rattle.vc_expr.specs.declared.fault.ExprFault.TheVariants.{Overflow};

    ghost from_gives = { λ step fault. fault ≡ Overflow step };

    fn from(step: Overflow<V>) -> ExprFault<V> {
        ExprFault::Overflow(step)
    }
}
