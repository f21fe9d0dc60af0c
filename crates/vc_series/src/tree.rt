//! An expression that owns its parts.

use vc_label::LabelSet;
use vc_ring::Semiring;

/// A weighted expression over the labels of a set, which owns its parts. `Both` is the conjunction.
///
/// Contracts see it as an expression of the model, with the word of each label (Lombardy and
/// Sakarovitch, Derivatives of rational expressions with multiplicity, 2005).
#[derive(Drop)]
pub enum Tree<L: LabelSet, S: Semiring> {
    Zero,
    One,
    Atom(L::Label),
    Sum(Vec<Tree<L, S>>),
    Product(Vec<Tree<L, S>>),
    Star(Box<Tree<L, S>>),
    Weight(S::Value, Box<Tree<L, S>>),
    Both(Box<Tree<L, S>>, Box<Tree<L, S>>),
    Shuffle(Box<Tree<L, S>>, Box<Tree<L, S>>),
}
