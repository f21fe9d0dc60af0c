use thiserror::Error;
use vc_atoms::{Letters, Nullable, Words};
use vc_tuple::Tuple;

/// The label set of a context.
#[derive(Clone, Copy, Debug)]
pub enum AnyLabels {
    /// One letter: `lal`.
    Letters(Letters),
    /// One letter or none: `lan`.
    Nullable(Nullable),
    /// Any number of letters: `law`.
    Words(Words),
    /// Two to four tapes: `lat`.
    Tuple(Tuple),
}

/// The weight set of a context.
#[derive(Clone, Copy, Debug, PartialEq, Eq)]
pub enum Weights {
    /// The truth values.
    B,
    /// The field of two elements.
    F2,
    /// The whole numbers.
    Z,
    /// The rational numbers.
    Q,
    /// The natural numbers and infinity, with the lesser and the sum.
    Nmin,
}

/// The labels and the weights of an automaton or of an expression.
#[derive(Clone, Copy, Debug)]
pub struct AnyContext {
    pub labels: AnyLabels,
    pub weights: Weights,
}

/// Why a text gives no context.
#[derive(Clone, Copy, Debug, PartialEq, Eq, Error)]
pub enum ContextFault {
    /// The text spells none.
    #[error("no context")]
    NotAContext,
}
