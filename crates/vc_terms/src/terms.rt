ghost use Rattle.std.specs.Prelude.{ℕ, ◌≡◌, ◌↔◌, List, ◌++◌, ◌∷◌, []};
ghost use Rattle.vc_model.specs.Series.{product_series};
ghost use Rattle.vc_model.specs.Sums.{sum_over};
ghost use Rattle.vc_model.specs.WeightSet.{WeightSet, SemiringLaws};
ghost use Rattle.vc_model.specs.Words.{empty_word, Word};
ghost use Rattle.vc_terms.specs.Terms.{Term, HasTapes, IsOnTapes, HasFullLabels, coefficient_of, constant_of, Sum, terms_of, Product};

/// The coefficient at the empty word is the constant term.
pub fn constants_of_terms<V>()
    ensures { (R : WeightSet V) → SemiringLaws R → (tapes : ℕ) (t : Term V)
        → HasTapes tapes t → coefficient_of R t (empty_word tapes) ≡ constant_of R t }
{}

/// The coefficient of a sum and of a product of expressions, from their members.
pub fn members_of_terms<V>()
    ensures sum { (R : WeightSet V) (ts : List (Term V)) (w : Word)
        → coefficient_of R (Sum (terms_of ts)) w ≡ sum_over R (λ t. coefficient_of R t w) ts }
    ensures sums { (R : WeightSet V) → SemiringLaws R → (ts us : List (Term V)) (w : Word)
        → coefficient_of R (Sum (terms_of (ts ++ us))) w
        ≡ R.plus (coefficient_of R (Sum (terms_of ts)) w)
        (coefficient_of R (Sum (terms_of us)) w) }
    ensures products { (R : WeightSet V) → SemiringLaws R
        → (ts us : List (Term V)) (w : Word)
        → coefficient_of R (Product (terms_of (ts ++ us))) w
        ≡ product_series R (coefficient_of R (Product (terms_of ts)))
        (coefficient_of R (Product (terms_of us))) w }
    ensures product_of_one { (R : WeightSet V) → SemiringLaws R → (t : Term V) (w : Word)
        → coefficient_of R (Product (terms_of (t ∷ []))) w ≡ coefficient_of R t w }
{}

/// An expression over words of so many tapes is one whose labels have them, none of them empty.
pub fn tapes_of_terms<V>()
    ensures { (tapes : ℕ) (t : Term V) → HasTapes tapes t ↔ (IsOnTapes tapes t × HasFullLabels t) }
{}
