//! What holds of each store, and of stores that have grown.
ghost use Rattle.std.specs.Prelude.{◌≡◌, ◌↔◌, ℕ, IsTrue, List, length};
ghost use Rattle.vc_expr.specs.Facts.{HasRootLetters, HasRootValues, IsStore};
ghost use Rattle.vc_expr.specs.Names.{Has, tree_of, Grows};
ghost use Rattle.vc_expr.specs.declared.expr.Expr.{Expr};
ghost use Rattle.vc_terms.specs.Terms.{Term, constant_of, HasTapes, IsValid};
ghost use Rattle.vc_terms.specs.Expansions.{JoinsLetters};
ghost use Rattle.vc_terms.specs.Forms.{Everywhere, IsBuilt};

use crate::store::{Exprs, stores_hold};
use vc_label::LabelSet;
use vc_ring::Semiring;
use vc_terms::constants_of_terms;

/// What is true of each store: names are equal exactly where their trees are, each tree is as the
/// operations build it, its weights and its constant term are values, each star in it is defined,
/// and its conjunctions and shuffles stand over single letters of one tape, so that they stand
/// where labels are single letters alone.
pub fn stores_are_valid<L: LabelSet, S: Semiring>(store: &Exprs<L, S>)
    ensures names { (a b : Expr) → Has store.now a → Has store.now b → (a ≡ b)
        ↔ (tree_of store.now a ≡ tree_of store.now b) }
    ensures built { (e : Expr) → Has store.now e → IsBuilt S.set S.Value.eq (tree_of store.now e) }
    ensures values { (e : Expr) → Has store.now e → Everywhere (HasRootValues S.set) (tree_of store.now e) }
    ensures constant { (e : Expr) → Has store.now e
        → IsTrue (S.set.in_range (constant_of S.set (tree_of store.now e))) }
    ensures valid { (e : Expr) (tapes : ℕ) → Has store.now e
        → HasTapes tapes (tree_of store.now e) → IsValid S.set tapes (tree_of store.now e) }
    ensures joined { (e : Expr) (labels : L) → Has store.now e
        → JoinsLetters (length (L.sets labels)) (tree_of store.now e) }
    ensures letters { (e : Expr) → Has store.now e
        → Everywhere (HasRootLetters L.SINGLE) (tree_of store.now e) }
{
    stores_hold(store);
    constants_of_terms::<S::Value>();
}

/// A name keeps its tree where the store has grown, and growth goes on.
pub fn names_keep_their_trees<V>()
    ensures kept { (old new : List (Term V)) (e : Expr) → Grows old new → Has old e → Has new e }
    ensures tree { (old new : List (Term V)) (e : Expr) → Grows old new → Has old e
        → tree_of new e ≡ tree_of old e }
    ensures same { (old : List (Term V)) → Grows old old }
    ensures further { (old middle new : List (Term V)) → Grows old middle → Grows middle new
        → Grows old new }
{}
