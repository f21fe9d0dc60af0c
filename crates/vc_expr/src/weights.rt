//! Left multiples.

use crate::expr::Expr;
use crate::facts::Facts;
use crate::fault::ExprFault;
use crate::node::Node;
use crate::store::{Exprs, stores_hold};
use crate::stored::Stored;
use vc_label::LabelSet;
use vc_ring::Semiring;

impl<L: LabelSet, S: Semiring> Exprs<L, S> {
    ghost use Rattle.std.specs.Prelude.{◌≡◌, ◌∷◌, [], false, IsTrue};
    ghost use Rattle.vc_expr.specs.Answers.{IsMade, weight_answer};
    ghost use Rattle.vc_expr.specs.Names.{Has, tree_of, Grows};
    ghost use Rattle.vc_ring.specs.Steps.{outcome};
    ghost use Rattle.vc_ring.specs.declared.faults.Overflow.TheVariants.{Mul};
    ghost use Rattle.vc_terms.specs.Forms.{IsBody};
    ghost use Rattle.vc_terms.specs.Terms.{Weight, constant_of};

    /// The left multiple. It is Zero where the weight is zero or the expression is Zero, and the
    /// expression where the weight is one; a weight in front of the expression is multiplied.
    /// `Overflow` comes exactly where this product, or that with the constant term, does not fit.
    pub fn weight(&mut self, k: S::Value, e: Expr) -> Result<Expr, ExprFault<S::Value>>
        requires e { Has self.old e }
        requires k { IsTrue (S.set.in_range k) }
        ensures answer { IsMade self.new
            (weight_answer S.set S.Value.eq k (tree_of self.old e)) result }
        ensures grows { Grows self.old self.new }
    {
        stores_hold(self);
        if k == S::zero() {
            return self.zero();
        }
        if k == S::one() {
            return Ok(e);
        }
        match self.node(e) {
            Node::Zero => return Ok(e),
            Node::One => return self.weight_body(k, e),
            Node::Atom(_) => return self.weight_body(k, e),
            Node::Sum(_) => return self.weight_body(k, e),
            Node::Product(_) => return self.weight_body(k, e),
            Node::Star(_) => return self.weight_body(k, e),
            Node::Weight(h, body) => match S::mul(k, h) {
                Ok(product) => return self.weight_body(product, body),
                Err(step) => return Err(ExprFault::Overflow(step)),
            },
            Node::Both(_, _) => return self.weight_body(k, e),
            Node::Shuffle(_, _) => return self.weight_body(k, e),
        }
    }

    /// The left multiple of an expression that is not Zero and has no weight in front.
    fn weight_body(&mut self, k: S::Value, e: Expr) -> Result<Expr, ExprFault<S::Value>>
        requires e { Has self.old e }
        requires k { IsTrue (S.set.in_range k) }
        requires body { IsBody (tree_of self.old e) }
        ensures answer { IsMade self.new
            (weight_answer S.set S.Value.eq k (tree_of self.old e)) result }
        ensures grows { Grows self.old self.new }
    {
        if k == S::zero() {
            return self.zero();
        }
        if k == S::one() {
            return Ok(e);
        }
        self.add_weight(k, e)
    }

    fn add_weight(&mut self, k: S::Value, e: Expr) -> Result<Expr, ExprFault<S::Value>>
        requires e { Has self.old e }
        requires k { IsTrue (S.set.in_range k) }
        requires not_zero { S.Value.eq k S.set.zero ≡ false }
        requires not_one { S.Value.eq k S.set.one ≡ false }
        requires body { IsBody (tree_of self.old e) }
        ensures answer { IsMade self.new
            (outcome S.set (Mul k (constant_of S.set (tree_of self.old e)) ∷ [])
            (Weight k (tree_of self.old e))) result }
        ensures grows { Grows self.old self.new }
    {
        let constant = S::mul(k, self.constant(e))?;
        let facts = Facts {
            constant,
            letters: self.letters(e),
            bound: self.bound(e),
            basic: self.facts(e).basic,
        };
        self.put(Stored::Weight(k, e), facts)
    }
}
