//! The first level of an expression.

use crate::expr::Expr;
use vc_label::LabelSet;
use vc_ring::Semiring;

/// The first level of an expression, whose parts have names. `Both` is the conjunction.
#[derive(Drop)]
pub enum Node<'e, L: LabelSet, S: Semiring> {
    Zero,
    One,
    Atom(&'e L::Label),
    Sum(&'e [Expr]),
    Product(&'e [Expr]),
    Star(Expr),
    Weight(S::Value, Expr),
    Both(Expr, Expr),
    Shuffle(Expr, Expr),
}
