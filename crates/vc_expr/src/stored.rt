//! The nodes of a store.
ghost use Rattle.std.specs.Prelude.{◌≡◌, ◌↔◌, true};
ghost use Rattle.vc_expr.specs.Nodes.{row_of};
ghost use Rattle.vc_expr.specs.declared.stored.Stored.{Stored};

use crate::expr::Expr;
use vc_label::LabelSet;
use vc_ring::Semiring;

/// A node of a store: an operation on expressions that have names.
#[derive(PartialEq, Eq, Hash, Drop)]
pub(crate) enum Stored<B, V> {
    Zero,
    One,
    Atom(B),
    Sum(Vec<Expr>),
    Product(Vec<Expr>),
    Star(Expr),
    Weight(V, Expr),
    Both(Expr, Expr),
    Shuffle(Expr, Expr),
}

/// Two nodes compare equal exactly where they stand for the same.
pub(crate) fn equal_nodes_are_told<L: LabelSet, S: Semiring>()
    ensures { (a b : Stored L.Label S.Value)
        → (⟦<Stored<L::Label, S::Value> as PartialEq>⟧.eq a b ≡ true)
        ↔ (row_of L.parts a ≡ row_of L.parts b) }
{}
