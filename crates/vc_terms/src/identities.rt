ghost use Rattle.std.specs.Prelude.{ℕ, ◌≡◌, Bool, List, ◌∷◌, []};
ghost use Rattle.vc_model.specs.Lists.{IsEqualityTest};
ghost use Rattle.vc_model.specs.Series.{SameOn};
ghost use Rattle.vc_terms.specs.Terms.{Term, HasTapes, IsValid, coefficient_of, Sum, Product, Star, Weight, Both, Shuffle, terms_of};
ghost use Rattle.vc_model.specs.WeightSet.{WeightSet, SemiringLaws};
ghost use Rattle.vc_model.specs.Words.{Tape, Word};
ghost use Rattle.vc_terms.specs.Forms.{IsBuilt};
ghost use Rattle.vc_terms.specs.Identities.{sum_of, product_of, weight_of, both_of, shuffle_of, star_of, built_of};
ghost use Rattle.vc_terms.specs.Terms.{IsOnTapes};

use crate::term_series::series_have_their_laws;

/// What an operation builds has, at each word, the coefficient of the tree with the operation at its root; a shuffle
/// at the words of one tape.
pub fn identities_keep_series<V>()
    ensures sum { (R : WeightSet V) → SemiringLaws R → (ts : List (Term V)) (w : Word)
        → coefficient_of R (sum_of ts) w ≡ coefficient_of R (Sum (terms_of ts)) w }
    ensures product { (R : WeightSet V) → SemiringLaws R → (equal : V → V → Bool) → IsEqualityTest equal
        → (ts : List (Term V)) (w : Word)
        → coefficient_of R (product_of R equal ts) w ≡ coefficient_of R (Product (terms_of ts)) w }
    ensures weight { (R : WeightSet V) → SemiringLaws R → (equal : V → V → Bool) → IsEqualityTest equal
        → (k : V) (t : Term V) (w : Word)
        → coefficient_of R (weight_of R equal k t) w ≡ coefficient_of R (Weight k t) w }
    ensures both { (R : WeightSet V) → SemiringLaws R → (t u : Term V) (w : Word)
        → coefficient_of R (both_of t u) w ≡ coefficient_of R (Both t u) w }
    ensures shuffle { (R : WeightSet V) → SemiringLaws R → (t u : Term V) (a : Tape)
        → coefficient_of R (shuffle_of t u) (a ∷ []) ≡ coefficient_of R (Shuffle t u) (a ∷ []) }
    ensures star { (R : WeightSet V) → SemiringLaws R → (t : Term V) (w : Word)
        → coefficient_of R (star_of t) w ≡ coefficient_of R (Star t) w }
{
    series_have_their_laws::<V>();
}

/// The tree that the operations build of a raw tree has its series, their form and its tapes, and is valid where the
/// raw tree is.
pub fn raw_trees_are_built<V>()
    ensures series { (R : WeightSet V) → SemiringLaws R → (equal : V → V → Bool) → IsEqualityTest equal
        → (tapes : ℕ) (t : Term V) → IsOnTapes tapes t
        → SameOn tapes (coefficient_of R (built_of R equal t)) (coefficient_of R t) }
    ensures form { (R : WeightSet V) (equal : V → V → Bool) (t : Term V) → IsBuilt R equal (built_of R equal t) }
    ensures tapes { (R : WeightSet V) (equal : V → V → Bool) (tapes : ℕ) (t : Term V) → IsOnTapes tapes t
        → HasTapes tapes (built_of R equal t) }
    ensures valid { (R : WeightSet V) → SemiringLaws R → (equal : V → V → Bool) → IsEqualityTest equal
        → (tapes : ℕ) (t : Term V) → IsOnTapes tapes t → IsValid R tapes t → IsValid R tapes (built_of R equal t) }
{
    series_have_their_laws::<V>();
}
