//! The forms of expressions.
ghost use Rattle.std.specs.Prelude.{◌≡◌};
ghost use Rattle.vc_expr.specs.Names.{Has, tree_of};
ghost use Rattle.vc_exprio.specs.Writing.{rank, rank_of};

use vc_expr::{Expr, Exprs, Node};
use vc_label::LabelSet;
use vc_ring::Semiring;

/// The forms of expressions, from the loosest to the tightest.
#[derive(Clone, Copy)]
pub(crate) enum Form {
    Sum,
    Shuffle,
    Conjunction,
    Product,
    Prefixed,
    Postfixed,
}

impl Form {
    /// Greater where the form is tighter.
    pub(crate) fn rank(self) -> u8
        ensures { result ≡ rank self }
    {
        match self {
            Form::Sum => 0,
            Form::Shuffle => 1,
            Form::Conjunction => 2,
            Form::Product => 3,
            Form::Prefixed => 4,
            Form::Postfixed => 5,
        }
    }
}

/// The form that the canonical text of an expression has.
pub(crate) fn form_of<L: LabelSet, S: Semiring>(exprs: &Exprs<L, S>, e: Expr) -> Form
    requires { Has exprs.now e }
    ensures { rank result ≡ rank_of (tree_of exprs.now e) }
{
    match exprs.node(e) {
        Node::Zero => Form::Postfixed,
        Node::One => Form::Postfixed,
        Node::Atom(_) => Form::Postfixed,
        Node::Sum(_) => Form::Sum,
        Node::Product(_) => Form::Product,
        Node::Star(_) => Form::Postfixed,
        Node::Weight(_, _) => Form::Prefixed,
        Node::Both(_, _) => Form::Conjunction,
        Node::Shuffle(_, _) => Form::Shuffle,
    }
}
