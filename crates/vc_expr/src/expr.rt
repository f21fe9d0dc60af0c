//! Names of expressions.

/// A name of an expression in a store. It means something in the store that gave it alone.
#[derive(Clone, Copy, Debug, PartialEq, Eq, Hash)]
pub struct Expr {
    pub(crate) at: usize,
}
