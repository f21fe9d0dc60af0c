ghost use Rattle.std.specs.Prelude.{ℕ, ◌≡◌, ◌⊎◌, ◌≤◌, ◌<◌, ◌+◌, ◌∷◌, [], Bool, List, length, slice_index_or};
ghost use Rattle.vc_model.specs.Automata.{Automaton, IsAutomaton, IsProper, future, coefficient};
ghost use Rattle.vc_model.specs.Items.{AreNeat};
ghost use Rattle.vc_model.specs.Lists.{In, IsEqualityTest, NoRepeat};
ghost use Rattle.vc_model.specs.Machines.{machine, LeadsInto, StandsFor};
ghost use Rattle.vc_terms.specs.Terms.{Term, Zero, terms_of, HasTapes, IsValid, coefficient_of, constant_of, bound_of};
ghost use Rattle.vc_model.specs.WeightSet.{WeightSet, SemiringLaws};
ghost use Rattle.vc_model.specs.Words.{Word};
ghost use Rattle.vc_terms.specs.DerivedTerms.{derived_of, Leads};
ghost use Rattle.vc_terms.specs.Expansions.{expand, JoinsLetters};
ghost use Rattle.vc_terms.specs.Forms.{IsBuilt, AreFactors};
ghost use Rattle.vc_terms.specs.Identities.{product_of, product_of_factors};
ghost use Rattle.vc_terms.specs.Same.{same_term};

use crate::expansions::expansions_give_coefficients;
use crate::term_items::{Thing, items_have_their_laws};
use crate::trees::equal_trees_are_told;
use vc_model::{machines_stand_for_things, things_have_their_series};

/// Derived terms have the tapes of their tree, and are built and valid where it is.
pub fn derived_terms_are_trees<V>()
    ensures built { (R : WeightSet V) (equal : V → V → Bool) (t : Term V) → IsBuilt R equal t
        → (u : Term V) → In u (derived_of R equal t) → IsBuilt R equal u }
    ensures tapes { (R : WeightSet V) (equal : V → V → Bool) (tapes : ℕ) (t : Term V) → HasTapes tapes t
        → (u : Term V) → In u (derived_of R equal t) → HasTapes tapes u }
    ensures joins { (R : WeightSet V) (equal : V → V → Bool) (tapes : ℕ) (t : Term V) → JoinsLetters tapes t
        → (u : Term V) → In u (derived_of R equal t) → JoinsLetters tapes u }
    ensures valid { (R : WeightSet V) (equal : V → V → Bool) (tapes : ℕ) (t : Term V) → IsValid R tapes t
        → (u : Term V) → In u (derived_of R equal t) → IsValid R tapes u }
{}

/// The accessible terms of a built tree, which entries of expansions lead to one behind the other, are the tree and its
/// derived terms. They are closed, and there is at most one more of them than the bound says.
pub fn accessible_terms_are_derived<V>()
    ensures accessible { (R : WeightSet V) → SemiringLaws R → (equal : V → V → Bool) → IsEqualityTest equal
        → (t : Term V) → IsBuilt R equal t → (n : ℕ) (u : Term V) → Leads R equal n t u
        → (u ≡ t) ⊎ In u (derived_of R equal t) }
    ensures closed { (R : WeightSet V) → SemiringLaws R → (equal : V → V → Bool) → IsEqualityTest equal
        → (t : Term V) → IsBuilt R equal t → LeadsInto (expand R equal) (t ∷ derived_of R equal t) }
    ensures few { (R : WeightSet V) (equal : V → V → Bool) (t : Term V) (us : List (Term V)) → NoRepeat us
        → ((u : Term V) → In u us → In u (t ∷ derived_of R equal t)) → length us ≤ bound_of t + 1 }
    ensures neat { (R : WeightSet V) → SemiringLaws R → (equal : V → V → Bool) → IsEqualityTest equal
        → (t : Term V) → AreNeat R (expand R equal t) }
{
    items_have_their_laws::<V>();
    equal_trees_are_told::<V>();
}

/// Where the states of an automaton stand for trees, by their constant terms and expansions, their futures are the trees'
/// series; and the automaton of the tree and its derived terms is such, and has the series of the tree.
pub fn term_automata_have_their_terms<V>()
    ensures futures { (R : WeightSet V) → SemiringLaws R → (equal : V → V → Bool) → IsEqualityTest equal
        → (tapes : ℕ) (B : Automaton V) → IsAutomaton R tapes B → IsProper B
        → (state : ℕ → Term V) → StandsFor R B state (constant_of R) (expand R equal)
        → ((i : ℕ) → i < B.states → HasTapes tapes (state i))
        → ((i : ℕ) → i < B.states → JoinsLetters tapes (state i))
        → (i : ℕ) (w : Word) → i < B.states → length w ≡ tapes
        → future R B i w ≡ coefficient_of R (state i) w }
    ensures closed { (R : WeightSet V) → SemiringLaws R → (equal : V → V → Bool) → IsEqualityTest equal
        → (tapes : ℕ) (ts : List (Term V)) → LeadsInto (expand R equal) ts
        → ((t : Term V) → In t ts → HasTapes tapes t) → ((t : Term V) → In t ts → JoinsLetters tapes t)
        → IsAutomaton R tapes (machine R (same_term equal) (constant_of R) (expand R equal) Zero ts)
        × ((i : ℕ) (w : Word) → i < length ts → length w ≡ tapes
        → future R (machine R (same_term equal) (constant_of R) (expand R equal) Zero ts) i w
        ≡ coefficient_of R (slice_index_or ts i Zero) w) }
    ensures derived { (R : WeightSet V) → SemiringLaws R → (equal : V → V → Bool) → IsEqualityTest equal
        → (tapes : ℕ) (t : Term V) → IsBuilt R equal t → HasTapes tapes t → JoinsLetters tapes t
        → (w : Word) → length w ≡ tapes
        → coefficient R (machine R (same_term equal) (constant_of R) (expand R equal) Zero (t ∷ derived_of R equal t)) w
        ≡ coefficient_of R t w }
{
    accessible_terms_are_derived::<V>();
    derived_terms_are_trees::<V>();
    equal_trees_are_told::<V>();
    expansions_give_coefficients::<V>();
    machines_stand_for_things::<V, Thing<V>>();
    things_have_their_series::<V, Thing<V>>();
}

/// The product of factors, which the identities build, is the product of the list.
pub fn factors_make_their_product<V>()
    ensures { (R : WeightSet V) → SemiringLaws R → (equal : V → V → Bool) → IsEqualityTest equal
        → (ts : List (Term V)) → AreFactors (terms_of ts)
        → product_of R equal ts ≡ product_of_factors ts }
{}
