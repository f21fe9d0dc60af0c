//! Products.

use crate::expr::Expr;
use crate::facts::Facts;
use crate::fault::ExprFault;
use crate::node::Node;
use crate::store::{Exprs, stores_hold};
use crate::stored::Stored;
use std::alloc::AllocError;
use vc_label::LabelSet;
use vc_ring::{Overflow, Semiring};
use vc_terms::operations_build_trees;

impl<L: LabelSet, S: Semiring> Exprs<L, S> {
    ghost use Rattle.std.specs.Prelude.{◌≡◌, ◌≤◌, ◌++◌, All, IfOk, OnOk, IfSome, IsTrue, length};
    ghost use Rattle.std.specs.List.{flat_map};
    ghost use Rattle.vc_expr.specs.Answers.{IsMade, product_answer};
    ghost use Rattle.vc_expr.specs.Facts.{facts_of};
    ghost use Rattle.vc_expr.specs.Names.{Has, tree_of, trees_of, product_at, Grows};
    ghost use Rattle.vc_expr.specs.Steps.{listed, product_from, when_multiplied};
    ghost use Rattle.vc_terms.specs.Forms.{AreFactors};
    ghost use Rattle.vc_terms.specs.Identities.{weights_in, unweighted, factors_of, all_factors, product_of_factors};
    ghost use Rattle.vc_terms.specs.Terms.{terms_of, constant_of};

    /// The product. It is Zero where a part is. Else the weights in front of the parts are
    /// multiplied and stand in front of it, products among the parts are replaced by their factors,
    /// and One is dropped; no factor left gives One, and one is itself. `Overflow` comes exactly
    /// where a product of these weights does not fit, or then a product of the constant terms of
    /// the factors, from left to right, or then that of the weight and the constant term.
    pub fn product(&mut self, parts: &[Expr]) -> Result<Expr, ExprFault<S::Value>>
        requires { All (Has self.old) parts.now }
        ensures answer { IsMade self.new
            (product_answer S.set S.Value.eq (trees_of self.old parts.now)) result }
        ensures grows { Grows self.old self.new }
    {
        stores_hold(self);
        operations_build_trees::<S::Value>();
        if self.any_zero(parts) {
            return self.zero();
        }
        let weight = match self.weight_in_front(parts) {
            Ok(weight) => weight,
            Err(step) => return Err(ExprFault::Overflow(step)),
        };
        let factors = self.factors(parts)?;
        match self.close_product(factors) {
            Ok(inner) => return self.weight(weight, inner),
            Err(fault) => return Err(fault),
        }
    }

    /// The product of the weights in front of the parts, from left to right.
    fn weight_in_front(&self, parts: &[Expr]) -> Result<S::Value, Overflow<S::Value>>
        requires { All (Has self.now) parts.now }
        ensures value { result
            ≡ product_from S.set S.set.one (flat_map weights_in (trees_of self.now parts.now)) }
        ensures in_range { IfOk result (λ v. IsTrue (S.set.in_range v)) }
    {
        let mut total = S::one();
        for part in parts {
            total = match self.times_before(total, *part) {
                Ok(total) => total,
                Err(step) => return Err(step),
            };
        }
        Ok(total)
    }

    /// The product with the weight in front of a part.
    fn times_before(&self, total: S::Value, part: Expr) -> Result<S::Value, Overflow<S::Value>>
        requires total { IsTrue (S.set.in_range total) }
        requires part { Has self.now part }
        ensures value { result ≡ product_from S.set total (weights_in (tree_of self.now part)) }
        ensures in_range { IfOk result (λ v. IsTrue (S.set.in_range v)) }
    {
        match self.weight_before(part) {
            Some(k) => return S::mul(total, k),
            None => return Ok(total),
        }
    }

    /// The weight in front of a part.
    fn weight_before(&self, part: Expr) -> Option<S::Value>
        requires { Has self.now part }
        ensures value { listed result ≡ weights_in (tree_of self.now part) }
        ensures in_range { IfSome result (λ k. IsTrue (S.set.in_range k)) }
    {
        stores_hold(self);
        match self.stored(part) {
            Stored::Zero => return None,
            Stored::One => return None,
            Stored::Atom(_) => return None,
            Stored::Sum(_) => return None,
            Stored::Product(_) => return None,
            Stored::Star(_) => return None,
            Stored::Weight(k, _) => return Some(*k),
            Stored::Both(_, _) => return None,
            Stored::Shuffle(_, _) => return None,
        }
    }

    /// A part without the weight in front of it.
    fn body(&self, part: Expr) -> Expr
        requires { Has self.now part }
        ensures has { Has self.now result }
        ensures tree { tree_of self.now result ≡ unweighted (tree_of self.now part) }
    {
        match self.stored(part) {
            Stored::Zero => return part,
            Stored::One => return part,
            Stored::Atom(_) => return part,
            Stored::Sum(_) => return part,
            Stored::Product(_) => return part,
            Stored::Star(_) => return part,
            Stored::Weight(_, body) => return *body,
            Stored::Both(_, _) => return part,
            Stored::Shuffle(_, _) => return part,
        }
    }

    /// The factors that all parts bring into a product.
    fn factors(&self, parts: &[Expr]) -> Result<Vec<Expr>, AllocError>
        requires { All (Has self.now) parts.now }
        ensures has { IfOk result (λ v. All (Has self.now) v.items) }
        ensures trees { IfOk result
            (λ v. trees_of self.now v.items ≡ all_factors (trees_of self.now parts.now)) }
    {
        let mut factors = Vec::with_capacity(self.alloc(), parts.len())?;
        for part in parts {
            self.add_factors(self.body(*part), &mut factors)?;
        }
        Ok(factors)
    }

    fn add_factors(&self, part: Expr, factors: &mut Vec<Expr>) -> Result<(), AllocError>
        requires part { Has self.now part }
        requires factors { All (Has self.now) factors.old.items }
        ensures has { OnOk result (All (Has self.now) factors.new.items) }
        ensures trees { OnOk result
            (trees_of self.now factors.new.items
            ≡ trees_of self.now factors.old.items ++ factors_of (tree_of self.now part)) }
    {
        match self.node(part) {
            Node::Zero => return self.push(factors, part),
            Node::One => return Ok(()),
            Node::Atom(_) => return self.push(factors, part),
            Node::Sum(_) => return self.push(factors, part),
            Node::Product(more) => return self.extend(factors, more),
            Node::Star(_) => return self.push(factors, part),
            Node::Weight(_, _) => return self.push(factors, part),
            Node::Both(_, _) => return self.push(factors, part),
            Node::Shuffle(_, _) => return self.push(factors, part),
        }
    }

    fn close_product(&mut self, factors: Vec<Expr>) -> Result<Expr, ExprFault<S::Value>>
        requires has { All (Has self.old) factors.items }
        requires factors { AreFactors (terms_of (trees_of self.old factors.items)) }
        ensures answer { IsMade self.new
            (when_multiplied S.set (trees_of self.old factors.items)
            (product_of_factors (trees_of self.old factors.items))) result }
        ensures grows { Grows self.old self.new }
    {
        if factors.len() == 0 {
            return self.one();
        }
        if factors.len() == 1 {
            stores_hold(self);
            return Ok(factors[0]);
        }
        self.add_product(factors)
    }

    fn add_product(&mut self, factors: Vec<Expr>) -> Result<Expr, ExprFault<S::Value>>
        requires has { All (Has self.old) factors.items }
        requires many { 2 ≤ length factors.items }
        requires factors { AreFactors (terms_of (trees_of self.old factors.items)) }
        ensures answer { IsMade self.new
            (when_multiplied S.set (trees_of self.old factors.items)
            (product_at self.old factors.items)) result }
        ensures grows { Grows self.old self.new }
    {
        match self.product_facts(&factors) {
            Ok(facts) => return self.put(Stored::Product(factors), facts),
            Err(step) => return Err(ExprFault::Overflow(step)),
        }
    }

    fn product_facts(&self, factors: &[Expr]) -> Result<Facts<S::Value>, Overflow<S::Value>>
        requires { All (Has self.now) factors.now }
        ensures value { result
            ≡ when_multiplied S.set (trees_of self.now factors.now)
            (facts_of S.set (product_at self.now factors.now)) }
        ensures in_range { IfOk result
            (λ _. IsTrue (S.set.in_range (constant_of S.set (product_at self.now factors.now)))) }
    {
        let constant = match self.product_of_constants(factors) {
            Ok(constant) => constant,
            Err(step) => return Err(step),
        };
        Ok(Facts {
            constant,
            letters: self.letters_in(factors),
            bound: self.bounds_in(factors),
            basic: self.all_basic(factors),
        })
    }
}
