//! What the operations compute over a list of parts.

use crate::expr::Expr;
use crate::store::Exprs;
use std::alloc::AllocError;
use vc_label::LabelSet;
use vc_ring::{Overflow, Semiring};

impl<L: LabelSet, S: Semiring> Exprs<L, S> {
    ghost use Rattle.std.specs.Prelude.{◌≡◌, ◌++◌, ◌∷◌, [], All, IfOk, OnOk, IsTrue};
    ghost use Rattle.vc_expr.specs.Facts.{saturated};
    ghost use Rattle.vc_expr.specs.Names.{Has, tree_of, trees_of};
    ghost use Rattle.vc_expr.specs.Steps.{constants, product_from, when_added};
    ghost use Rattle.vc_model.specs.Sums.{sum_onto};
    ghost use Rattle.vc_ring.specs.Steps.{multiplied};
    ghost use Rattle.vc_terms.specs.Terms.{terms_of, constant_of, letter_counts, bounds_of};
    ghost use Rattle.vc_terms.specs.Identities.{any_zero};
    ghost use Rattle.vc_terms.specs.Trees.{are_basic};

    /// The sum of the constant terms, from left to right.
    pub(crate) fn sum_of_constants(&self, parts: &[Expr]) -> Result<S::Value, Overflow<S::Value>>
        requires { All (Has self.now) parts.now }
        ensures value { result
            ≡ when_added S.set (trees_of self.now parts.now)
            (sum_onto S.set S.set.zero (constants S.set (trees_of self.now parts.now))) }
        ensures in_range { IfOk result (λ v. IsTrue (S.set.in_range v)) }
    {
        let mut total = S::zero();
        for part in parts {
            total = S::add(total, self.constant(*part))?;
        }
        Ok(total)
    }

    /// The product of the constant terms, from left to right.
    pub(crate) fn product_of_constants(
        &self,
        parts: &[Expr],
    ) -> Result<S::Value, Overflow<S::Value>>
        requires { All (Has self.now) parts.now }
        ensures value { result
            ≡ product_from S.set S.set.one (constants S.set (trees_of self.now parts.now)) }
        ensures in_range { IfOk result (λ v. IsTrue (S.set.in_range v)) }
    {
        let mut total = S::one();
        for part in parts {
            total = S::mul(total, self.constant(*part))?;
        }
        Ok(total)
    }

    /// The product of two constant terms.
    pub(crate) fn product_of_two(&self, a: Expr, b: Expr) -> Result<S::Value, Overflow<S::Value>>
        requires first { Has self.now a }
        requires second { Has self.now b }
        ensures value { result ≡ multiplied S.set
            (constant_of S.set (tree_of self.now a)) (constant_of S.set (tree_of self.now b)) }
        ensures in_range { IfOk result (λ v. IsTrue (S.set.in_range v)) }
    {
        S::mul(self.constant(a), self.constant(b))
    }

    /// The number of label occurrences in all parts, or 2^64 - 1 where it is larger.
    pub(crate) fn letters_in(&self, parts: &[Expr]) -> u64
        requires { All (Has self.now) parts.now }
        ensures { result ≡ saturated (letter_counts (terms_of (trees_of self.now parts.now))) }
    {
        let mut total: u64 = 0;
        for part in parts {
            total = total.saturating_add(self.letters(*part));
        }
        total
    }

    /// The sum of the bounds of all parts, or 2^64 - 1 where it is larger.
    pub(crate) fn bounds_in(&self, parts: &[Expr]) -> u64
        requires { All (Has self.now) parts.now }
        ensures { result ≡ saturated (bounds_of (terms_of (trees_of self.now parts.now))) }
    {
        let mut total: u64 = 0;
        for part in parts {
            total = total.saturating_add(self.bound(*part));
        }
        total
    }

    /// Whether each part is basic.
    pub(crate) fn all_basic(&self, parts: &[Expr]) -> bool
        requires { All (Has self.now) parts.now }
        ensures { result ≡ are_basic (terms_of (trees_of self.now parts.now)) }
    {
        for part in parts {
            if !self.facts(*part).basic {
                return false;
            }
        }
        true
    }

    /// Whether some part is Zero.
    pub(crate) fn any_zero(&self, parts: &[Expr]) -> bool
        requires { All (Has self.now) parts.now }
        ensures { result ≡ any_zero (trees_of self.now parts.now) }
    {
        for part in parts {
            if self.is_zero(*part) {
                return true;
            }
        }
        false
    }

    /// Adds a name behind others.
    pub(crate) fn push(&self, names: &mut Vec<Expr>, e: Expr) -> Result<(), AllocError>
        requires e { Has self.now e }
        requires names { All (Has self.now) names.old.items }
        ensures has { OnOk result (All (Has self.now) names.new.items) }
        ensures trees { OnOk result
            (trees_of self.now names.new.items
            ≡ trees_of self.now names.old.items ++ tree_of self.now e ∷ []) }
    {
        names.push(e)?;
        Ok(())
    }

    /// Adds names behind others.
    pub(crate) fn extend(&self, names: &mut Vec<Expr>, more: &[Expr]) -> Result<(), AllocError>
        requires more { All (Has self.now) more.now }
        requires names { All (Has self.now) names.old.items }
        ensures has { OnOk result (All (Has self.now) names.new.items) }
        ensures trees { OnOk result
            (trees_of self.now names.new.items
            ≡ trees_of self.now names.old.items ++ trees_of self.now more.now) }
    {
        names.extend_from_slice(more)
    }
}
