//! What a store tells of an expression. None of these calls takes memory or walks a tree.

use crate::expr::Expr;
use crate::node::Node;
use crate::store::{Exprs, stores_hold};
use crate::stored::Stored;
use vc_label::LabelSet;
use vc_ring::Semiring;
use vc_terms::basic_trees_are_told;

impl<L: LabelSet, S: Semiring> Exprs<L, S> {
    ghost use Rattle.std.specs.Prelude.{◌≡◌, ◌↔◌, IsTrue};
    ghost use Rattle.vc_expr.specs.Facts.{saturated};
    ghost use Rattle.vc_expr.specs.Names.{Has, tree_of};
    ghost use Rattle.vc_expr.specs.Shows.{Shows};
    ghost use Rattle.vc_terms.specs.Terms.{IsBasic, letter_count, bound_of, constant_of};
    ghost use Rattle.vc_terms.specs.Trees.{is_zero, is_one};

    /// The first level of an expression: the operation at its root, and the names of its parts.
    pub fn node(&self, e: Expr) -> Node<'_, L, S>
        requires { Has self.now e }
        ensures { Shows L.parts self.now (tree_of self.now e) result }
    {
        match self.stored(e) {
            Stored::Zero => Node::Zero,
            Stored::One => Node::One,
            Stored::Atom(label) => Node::Atom(label),
            Stored::Sum(parts) => Node::Sum(parts.as_slice()),
            Stored::Product(parts) => Node::Product(parts.as_slice()),
            Stored::Star(part) => Node::Star(*part),
            Stored::Weight(k, part) => Node::Weight(*k, *part),
            Stored::Both(a, b) => Node::Both(*a, *b),
            Stored::Shuffle(a, b) => Node::Shuffle(*a, *b),
        }
    }

    /// Whether two expressions have one tree. It compares their names.
    pub fn same(&self, a: Expr, b: Expr) -> bool
        requires first { Has self.now a }
        requires second { Has self.now b }
        ensures trees { IsTrue result ↔ (tree_of self.now a ≡ tree_of self.now b) }
        ensures names { IsTrue result ↔ (a ≡ b) }
    {
        stores_hold(self);
        a == b
    }

    /// The constant term, which is the coefficient at the empty word.
    pub fn constant(&self, e: Expr) -> S::Value
        requires { Has self.now e }
        ensures value { result ≡ constant_of S.set (tree_of self.now e) }
        ensures in_range { IsTrue (S.set.in_range result) }
    {
        stores_hold(self);
        self.facts(e).constant
    }

    /// The number of label occurrences, or 2^64 - 1 where it is larger.
    pub fn letters(&self, e: Expr) -> u64
        requires { Has self.now e }
        ensures { result ≡ saturated (letter_count (tree_of self.now e)) }
    {
        self.facts(e).letters
    }

    /// The bound on the number of derived terms, or 2^64 - 1 where it is larger. For a basic
    /// expression it is the number of its label occurrences.
    pub fn bound(&self, e: Expr) -> u64
        requires { Has self.now e }
        ensures { result ≡ saturated (bound_of (tree_of self.now e)) }
    {
        self.facts(e).bound
    }

    /// Whether neither a conjunction nor a shuffle stands in the expression.
    pub fn is_basic(&self, e: Expr) -> bool
        requires { Has self.now e }
        ensures { IsTrue result ↔ IsBasic (tree_of self.now e) }
    {
        basic_trees_are_told::<S::Value>();
        self.facts(e).basic
    }

    /// Whether the expression is Zero.
    pub(crate) fn is_zero(&self, e: Expr) -> bool
        requires { Has self.now e }
        ensures { result ≡ is_zero (tree_of self.now e) }
    {
        match self.stored(e) {
            Stored::Zero => true,
            Stored::One => false,
            Stored::Atom(_) => false,
            Stored::Sum(_) => false,
            Stored::Product(_) => false,
            Stored::Star(_) => false,
            Stored::Weight(_, _) => false,
            Stored::Both(_, _) => false,
            Stored::Shuffle(_, _) => false,
        }
    }

    /// Whether the expression is One.
    pub(crate) fn is_one(&self, e: Expr) -> bool
        requires { Has self.now e }
        ensures { result ≡ is_one (tree_of self.now e) }
    {
        match self.stored(e) {
            Stored::Zero => false,
            Stored::One => true,
            Stored::Atom(_) => false,
            Stored::Sum(_) => false,
            Stored::Product(_) => false,
            Stored::Star(_) => false,
            Stored::Weight(_, _) => false,
            Stored::Both(_, _) => false,
            Stored::Shuffle(_, _) => false,
        }
    }
}
