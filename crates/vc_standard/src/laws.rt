ghost use Rattle.std.specs.Prelude.{◌≡◌, ◌≢◌, ℕ, Bool, length, map};
ghost use Rattle.vc_model.specs.Automata.{Automaton, Transition, triple, IsAutomaton, IsProper, coefficient};
ghost use Rattle.vc_model.specs.Lists.{IsEqualityTest, In, NoRepeat};
ghost use Rattle.vc_terms.specs.Terms.{Term, bound_of, coefficient_of, HasTapes};
ghost use Rattle.vc_model.specs.WeightSet.{WeightSet, SemiringLaws};
ghost use Rattle.vc_model.specs.Words.{Word};
ghost use Rattle.vc_standard.specs.Automata.{IsStandardOf, leaving_all, states_of};
ghost use Rattle.vc_standard.specs.Laws.{PlaceLaws};
ghost use Rattle.vc_standard.specs.Structures.{Standard, standard_of, size_of};
ghost use Rattle.vc_terms.specs.Expansions.{JoinsLetters};

use vc_model::{gathering_keeps_sums, things_have_their_series, transitions_are_gathered};
use vc_terms::{
    atoms_read_labels, items_have_their_sums, operations_are_given_by_items, products_of_series,
};

/// The laws that the standard construction stands on.
pub(crate) fn places_have_their_laws<V>()
    ensures { (R : WeightSet V) → SemiringLaws R → (equal : V → V → Bool) → IsEqualityTest equal →
        PlaceLaws R equal }
{
    items_have_their_sums::<V, u64, u64>();
    operations_are_given_by_items::<V, u64>();
    atoms_read_labels::<V>();
    products_of_series::<V>();
}

/// A structure has as many positions as the bound of the tree says.
pub fn structures_have_their_size<V>()
    ensures { (R : WeightSet V) (equal : V → V → Bool) (t : Term V) → size_of (standard_of R equal
        t) ≡ bound_of t }
{}

/// No triple stands twice in the structure of a tree, so that its transitions are the triples that it names.
pub fn structures_name_each_triple_once<V>()
    ensures { (R : WeightSet V) (equal : V → V → Bool) (t : Term V) → NoRepeat (map triple
        (leaving_all 0 (states_of (standard_of R equal t)))) }
{}

/// The automaton of the structure of a tree has the tree's series, and no transition enters state 0.
pub fn standard_automata_have_their_series<V>()
    ensures series { (R : WeightSet V) → SemiringLaws R → (equal : V → V → Bool) → IsEqualityTest
        equal
        → (tapes : ℕ) (t : Term V) → HasTapes tapes t → JoinsLetters tapes t
        → (B : Automaton V) → IsAutomaton R tapes B → IsProper B → IsStandardOf R (standard_of R equal t) B
        → (w : Word) → length w ≡ tapes → coefficient R B w ≡ coefficient_of R t w }
    ensures start { (R : WeightSet V) → SemiringLaws R → (A : Standard V) (B : Automaton V) →
        IsStandardOf R A B
        → (t : Transition V) → In t B.transitions → t.to ≢ 0 }
{
    places_have_their_laws::<V>();
    things_have_their_series::<V, u64>();
    gathering_keeps_sums::<V>();
    transitions_are_gathered::<V>();
}
