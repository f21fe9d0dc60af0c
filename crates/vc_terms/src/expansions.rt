ghost use Rattle.std.specs.Prelude.{ℕ, ◌≡◌, Bool, List, length};
ghost use Rattle.vc_model.specs.Items.{IsGiven, HaveLabels, AreNeat, taken};
ghost use Rattle.vc_model.specs.Lists.{IsEqualityTest};
ghost use Rattle.vc_terms.specs.Terms.{Term, coefficient_of, constant_of, bound_of, HasTapes};
ghost use Rattle.vc_model.specs.WeightSet.{WeightSet, SemiringLaws};
ghost use Rattle.vc_terms.specs.DerivedTerms.{derived_of};
ghost use Rattle.vc_terms.specs.Expansions.{expand, JoinsLetters};

use crate::term_items::items_have_their_laws;
use crate::term_series::series_have_their_laws;

/// The coefficient of a tree is its constant term at the empty word, and what the entries of its expansion bring.
pub fn expansions_give_coefficients<V>()
    ensures given { (R : WeightSet V) → SemiringLaws R → (equal : V → V → Bool) → IsEqualityTest equal
        → (tapes : ℕ) (t : Term V) → HasTapes tapes t → JoinsLetters tapes t
        → IsGiven R tapes (coefficient_of R t) (constant_of R t) (coefficient_of R) (expand R equal t) }
    ensures labels { (R : WeightSet V) → SemiringLaws R → (equal : V → V → Bool) → IsEqualityTest equal
        → (tapes : ℕ) (t : Term V) → HasTapes tapes t → HaveLabels tapes (expand R equal t) }
{
    series_have_their_laws::<V>();
    items_have_their_laws::<V>();
}

/// There are as many derived terms as the bound says.
pub fn derived_terms_are_bounded<V>()
    ensures { (R : WeightSet V) (equal : V → V → Bool) (t : Term V) → length (derived_of R equal t) ≡ bound_of t }
{}
