//! Sums.

use crate::expr::Expr;
use crate::facts::Facts;
use crate::fault::ExprFault;
use crate::node::Node;
use crate::store::{Exprs, stores_hold};
use crate::stored::Stored;
use std::alloc::AllocError;
use vc_label::LabelSet;
use vc_ring::{Overflow, Semiring};
use vc_terms::operations_build_trees;

impl<L: LabelSet, S: Semiring> Exprs<L, S> {
    ghost use Rattle.std.specs.Prelude.{◌≡◌, ◌≤◌, ◌++◌, All, IfOk, OnOk, IsTrue, length};
    ghost use Rattle.std.specs.List.{flat_map};
    ghost use Rattle.vc_expr.specs.Answers.{IsMade, sum_answer};
    ghost use Rattle.vc_expr.specs.Facts.{facts_of};
    ghost use Rattle.vc_expr.specs.Names.{Has, tree_of, trees_of, sum_at, Grows};
    ghost use Rattle.vc_expr.specs.Steps.{when_added};
    ghost use Rattle.vc_terms.specs.Forms.{AreMembers};
    ghost use Rattle.vc_terms.specs.Identities.{members_of, sum_of_members};
    ghost use Rattle.vc_terms.specs.Terms.{terms_of, constant_of};

    /// The sum. Sums among the parts are replaced by their members, and Zero is dropped; no member
    /// left gives Zero, and one is itself. `Overflow` comes exactly where a sum of the constant
    /// terms, from left to right, does not fit.
    pub fn sum(&mut self, parts: &[Expr]) -> Result<Expr, ExprFault<S::Value>>
        requires { All (Has self.old) parts.now }
        ensures answer { IsMade self.new (sum_answer S.set (trees_of self.old parts.now)) result }
        ensures grows { Grows self.old self.new }
    {
        stores_hold(self);
        operations_build_trees::<S::Value>();
        let members = self.members(parts)?;
        self.close_sum(members)
    }

    /// The members that all parts bring into a sum.
    fn members(&self, parts: &[Expr]) -> Result<Vec<Expr>, AllocError>
        requires { All (Has self.now) parts.now }
        ensures has { IfOk result (λ v. All (Has self.now) v.items) }
        ensures trees { IfOk result
            (λ v. trees_of self.now v.items ≡ flat_map members_of (trees_of self.now parts.now)) }
    {
        let mut members = Vec::with_capacity(self.alloc(), parts.len())?;
        for part in parts {
            self.add_members(*part, &mut members)?;
        }
        Ok(members)
    }

    fn add_members(&self, part: Expr, members: &mut Vec<Expr>) -> Result<(), AllocError>
        requires part { Has self.now part }
        requires members { All (Has self.now) members.old.items }
        ensures has { OnOk result (All (Has self.now) members.new.items) }
        ensures trees { OnOk result
            (trees_of self.now members.new.items
            ≡ trees_of self.now members.old.items ++ members_of (tree_of self.now part)) }
    {
        match self.node(part) {
            Node::Zero => return Ok(()),
            Node::One => return self.push(members, part),
            Node::Atom(_) => return self.push(members, part),
            Node::Sum(more) => return self.extend(members, more),
            Node::Product(_) => return self.push(members, part),
            Node::Star(_) => return self.push(members, part),
            Node::Weight(_, _) => return self.push(members, part),
            Node::Both(_, _) => return self.push(members, part),
            Node::Shuffle(_, _) => return self.push(members, part),
        }
    }

    fn close_sum(&mut self, members: Vec<Expr>) -> Result<Expr, ExprFault<S::Value>>
        requires has { All (Has self.old) members.items }
        requires members { AreMembers (terms_of (trees_of self.old members.items)) }
        ensures answer { IsMade self.new
            (when_added S.set (trees_of self.old members.items)
            (sum_of_members (trees_of self.old members.items))) result }
        ensures grows { Grows self.old self.new }
    {
        if members.len() == 0 {
            return self.zero();
        }
        if members.len() == 1 {
            stores_hold(self);
            return Ok(members[0]);
        }
        self.add_sum(members)
    }

    fn add_sum(&mut self, members: Vec<Expr>) -> Result<Expr, ExprFault<S::Value>>
        requires has { All (Has self.old) members.items }
        requires many { 2 ≤ length members.items }
        requires members { AreMembers (terms_of (trees_of self.old members.items)) }
        ensures answer { IsMade self.new
            (when_added S.set (trees_of self.old members.items)
            (sum_at self.old members.items)) result }
        ensures grows { Grows self.old self.new }
    {
        match self.sum_facts(&members) {
            Ok(facts) => return self.put(Stored::Sum(members), facts),
            Err(step) => return Err(ExprFault::Overflow(step)),
        }
    }

    fn sum_facts(&self, members: &[Expr]) -> Result<Facts<S::Value>, Overflow<S::Value>>
        requires { All (Has self.now) members.now }
        ensures value { result
            ≡ when_added S.set (trees_of self.now members.now)
            (facts_of S.set (sum_at self.now members.now)) }
        ensures in_range { IfOk result
            (λ _. IsTrue (S.set.in_range (constant_of S.set (sum_at self.now members.now)))) }
    {
        let constant = match self.sum_of_constants(members) {
            Ok(constant) => constant,
            Err(step) => return Err(step),
        };
        Ok(Facts {
            constant,
            letters: self.letters_in(members),
            bound: self.bounds_in(members),
            basic: self.all_basic(members),
        })
    }
}
