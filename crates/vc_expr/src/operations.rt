//! Zero, One and labels, and the operations whose operands are one or two expressions.

use crate::expr::Expr;
use crate::facts::Facts;
use crate::fault::ExprFault;
use crate::store::Exprs;
use crate::stored::Stored;
use vc_label::LabelSet;
use vc_ring::{Semiring, StarFault};

/// Each operation builds the tree of the identities. Where it refuses, each name has its tree as
/// before.
impl<L: LabelSet, S: Semiring> Exprs<L, S> {
    ghost use Rattle.std.specs.Prelude.{◌≡◌, ◌∷◌, [], false, IsTrue, Ok};
    ghost use Rattle.vc_expr.specs.Answers.{IsMade, IsStarMade, both_answer, shuffle_answer, star_answer};
    ghost use Rattle.vc_expr.specs.Names.{Has, tree_of, Grows};
    ghost use Rattle.vc_ring.specs.Steps.{outcome};
    ghost use Rattle.vc_ring.specs.declared.faults.Overflow.TheVariants.{Mul};
    ghost use Rattle.vc_terms.specs.Forms.{IsSome, IsMore};
    ghost use Rattle.vc_terms.specs.Identities.{atom_of};
    ghost use Rattle.vc_terms.specs.Terms.{Zero, One, Star, Both, Shuffle, constant_of};
    ghost use Rattle.vc_terms.specs.Trees.{is_zero};

    /// Zero. It refuses for memory alone.
    pub fn zero(&mut self) -> Result<Expr, ExprFault<S::Value>>
        ensures answer { IsMade self.new (Ok Zero) result }
        ensures grows { Grows self.old self.new }
    {
        let facts = Facts {
            constant: S::zero(),
            letters: 0,
            bound: 0,
            basic: true,
        };
        self.put(Stored::Zero, facts)
    }

    /// One, which is the empty word. It refuses for memory alone.
    pub fn one(&mut self) -> Result<Expr, ExprFault<S::Value>>
        ensures answer { IsMade self.new (Ok One) result }
        ensures grows { Grows self.old self.new }
    {
        let facts = Facts {
            constant: S::one(),
            letters: 0,
            bound: 0,
            basic: true,
        };
        self.put(Stored::One, facts)
    }

    /// A label, or One where the label is empty. It refuses for memory alone.
    pub fn atom(&mut self, label: L::Label) -> Result<Expr, ExprFault<S::Value>>
        ensures answer { IsMade self.new (Ok (atom_of (L.parts label))) result }
        ensures grows { Grows self.old self.new }
    {
        if L::is_empty(&label) {
            return self.one();
        }
        let facts = Facts {
            constant: S::zero(),
            letters: 1,
            bound: 1,
            basic: true,
        };
        self.put(Stored::Atom(label), facts)
    }

    /// The conjunction of two expressions over single letters. It is Zero where an operand is.
    /// `Overflow` comes exactly where the product of the constant terms does not fit.
    pub fn both(&mut self, a: Expr, b: Expr) -> Result<Expr, ExprFault<S::Value>>
        requires single { IsTrue L.SINGLE }
        requires first { Has self.old a }
        requires second { Has self.old b }
        ensures answer { IsMade self.new
            (both_answer S.set (tree_of self.old a) (tree_of self.old b)) result }
        ensures grows { Grows self.old self.new }
    {
        if self.is_zero(a) || self.is_zero(b) {
            return self.zero();
        }
        self.add_both(a, b)
    }

    fn add_both(&mut self, a: Expr, b: Expr) -> Result<Expr, ExprFault<S::Value>>
        requires single { IsTrue L.SINGLE }
        requires first { Has self.old a }
        requires second { Has self.old b }
        requires first_some { IsSome (tree_of self.old a) }
        requires second_some { IsSome (tree_of self.old b) }
        ensures answer { IsMade self.new
            (outcome S.set (Mul (constant_of S.set (tree_of self.old a))
            (constant_of S.set (tree_of self.old b)) ∷ [])
            (Both (tree_of self.old a) (tree_of self.old b))) result }
        ensures grows { Grows self.old self.new }
    {
        let constant = self.product_of_two(a, b)?;
        let facts = Facts {
            constant,
            letters: self.letters(a).saturating_add(self.letters(b)),
            bound: self.bound(a).saturating_mul(self.bound(b)),
            basic: false,
        };
        self.put(Stored::Both(a, b), facts)
    }

    /// The shuffle of two expressions over single letters. It is Zero where an operand is, and the
    /// other operand where one is One. `Overflow` comes exactly where the product of the constant
    /// terms does not fit.
    pub fn shuffle(&mut self, a: Expr, b: Expr) -> Result<Expr, ExprFault<S::Value>>
        requires single { IsTrue L.SINGLE }
        requires first { Has self.old a }
        requires second { Has self.old b }
        ensures answer { IsMade self.new
            (shuffle_answer S.set (tree_of self.old a) (tree_of self.old b)) result }
        ensures grows { Grows self.old self.new }
    {
        if self.is_zero(a) || self.is_zero(b) {
            return self.zero();
        }
        if self.is_one(a) {
            return Ok(b);
        }
        if self.is_one(b) {
            return Ok(a);
        }
        self.add_shuffle(a, b)
    }

    fn add_shuffle(&mut self, a: Expr, b: Expr) -> Result<Expr, ExprFault<S::Value>>
        requires single { IsTrue L.SINGLE }
        requires first { Has self.old a }
        requires second { Has self.old b }
        requires first_more { IsMore (tree_of self.old a) }
        requires second_more { IsMore (tree_of self.old b) }
        ensures answer { IsMade self.new
            (outcome S.set (Mul (constant_of S.set (tree_of self.old a))
            (constant_of S.set (tree_of self.old b)) ∷ [])
            (Shuffle (tree_of self.old a) (tree_of self.old b))) result }
        ensures grows { Grows self.old self.new }
    {
        let constant = self.product_of_two(a, b)?;
        let (m, n) = (self.bound(a), self.bound(b));
        let facts = Facts {
            constant,
            letters: self.letters(a).saturating_add(self.letters(b)),
            bound: m.saturating_mul(n).saturating_add(m).saturating_add(n),
            basic: false,
        };
        self.put(Stored::Shuffle(a, b), facts)
    }

    /// The star, which is One for Zero. `InvalidStar` comes exactly where the constant term of the
    /// operand has no star, and `Overflow` exactly where it has one that does not fit.
    pub fn star(&mut self, e: Expr) -> Result<Expr, ExprFault<S::Value>>
        requires { Has self.old e }
        ensures answer { IsStarMade self.new e (star_answer S.set (tree_of self.old e)) result }
        ensures grows { Grows self.old self.new }
    {
        if self.is_zero(e) {
            return self.one();
        }
        match S::star(self.constant(e)) {
            Ok(constant) => return self.add_star(e, constant),
            Err(StarFault::NoStar(constant)) => {
                return Err(ExprFault::InvalidStar {
                    operand: e,
                    constant,
                });
            }
            Err(StarFault::Overflow(step)) => return Err(ExprFault::Overflow(step)),
        }
    }

    fn add_star(&mut self, e: Expr, constant: S::Value) -> Result<Expr, ExprFault<S::Value>>
        requires e { Has self.old e }
        requires some { is_zero (tree_of self.old e) ≡ false }
        requires star { IsTrue (S.set.has_star (constant_of S.set (tree_of self.old e))) }
        requires fits { IsTrue (S.set.fits_star (constant_of S.set (tree_of self.old e))) }
        requires constant { constant ≡ S.set.star (constant_of S.set (tree_of self.old e)) }
        ensures answer { IsMade self.new (Ok (Star (tree_of self.old e))) result }
        ensures grows { Grows self.old self.new }
    {
        let _ = self.constant(e);
        let facts = Facts {
            constant,
            letters: self.letters(e),
            bound: self.bound(e),
            basic: self.facts(e).basic,
        };
        self.put(Stored::Star(e), facts)
    }
}
