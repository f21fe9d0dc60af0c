ghost use Rattle.std.specs.Prelude.{ℕ, List, [], ◌++◌, ◌≡◌, Bool, true, false, if◌then◌else◌, length};
ghost use Rattle.vc_model.specs.Items.{Item, item_key, taken, brought, IsGiven, HaveLabels, AreNeat};
ghost use Rattle.vc_model.specs.Lists.{In, IsEqualityTest};
ghost use Rattle.vc_model.specs.Series.{Series, zero_series, one_series, product_series, star_series, star_or_zero, shuffle_series};
ghost use Rattle.vc_model.specs.WeightSet.{WeightSet, SemiringLaws};
ghost use Rattle.vc_model.specs.Words.{Word, is_empty, IsLetter};
ghost use Rattle.vc_terms.specs.ItemLists.{mapped, scaled_items, met_items, collected_items};

/// Sums over items that are joined, multiplied, led elsewhere or collected; and collected items, which are neat and come
/// from the others.
pub fn items_have_their_sums<V, T, U>()
    ensures append { (R : WeightSet V) → SemiringLaws R → (h : Word → T → V) (xs ys : List (Item V T))
        → taken R h (xs ++ ys) ≡ R.plus (taken R h xs) (taken R h ys) }
    ensures scaled { (R : WeightSet V) → SemiringLaws R
        → (h : Word → T → V) (k : V) (xs : List (Item V T))
        → taken R h (scaled_items R k xs) ≡ R.times k (taken R h xs) }
    ensures mapped { (R : WeightSet V) → SemiringLaws R
        → (h : Word → U → V) (f : T → U) (xs : List (Item V T))
        → taken R h (mapped f xs) ≡ taken R (λ a t. h a (f t)) xs }
    ensures unless_zero { (R : WeightSet V) → SemiringLaws R → (equal : V → V → Bool)
        → IsEqualityTest equal → (h : Word → T → V) (k : V) (xs : List (Item V T))
        → taken R h (if equal k R.zero then [] else scaled_items R k xs) ≡ R.times k (taken R h xs) }
    ensures collected { (R : WeightSet V) → SemiringLaws R → (equal : V → V → Bool)
        → IsEqualityTest equal → (same : T → T → Bool) → IsEqualityTest same
        → (h : Word → T → V) (xs : List (Item V T))
        → taken R h (collected_items R equal same xs) ≡ taken R h xs }
    ensures neat { (R : WeightSet V) → SemiringLaws R → (equal : V → V → Bool)
        → IsEqualityTest equal → (same : T → T → Bool) → IsEqualityTest same
        → (xs : List (Item V T)) → AreNeat R (collected_items R equal same xs) }
    ensures sources { (R : WeightSet V) → SemiringLaws R → (equal : V → V → Bool)
        → (same : T → T → Bool) → IsEqualityTest same → (e : Item V T) (xs : List (Item V T))
        → In e (collected_items R equal same xs) → (d : Item V T) × In d xs × (item_key d ≡ item_key e) }
{}

/// What gives the operations on series that are given by items: zero, one, multiple, product and star; and over one
/// tape, conjunction and shuffle.
pub fn operations_are_given_by_items<V, T>()
    ensures zero { (R : WeightSet V) → SemiringLaws R → (tapes : ℕ) (X : T → Series V)
        → IsGiven R tapes (zero_series R) R.zero X [] }
    ensures one { (R : WeightSet V) → SemiringLaws R → (tapes : ℕ) (X : T → Series V)
        → IsGiven R tapes (one_series R) R.one X [] }
    ensures multiple { (R : WeightSet V) → SemiringLaws R
        → (tapes : ℕ) (k : V) (f : Series V) (c : V) (X : T → Series V) (xs : List (Item V T))
        → IsGiven R tapes f c X xs → (w : Word) → length w ≡ tapes
        → R.times k (f w)
        ≡ R.plus (if is_empty w then R.times k c else R.zero) (R.times k (brought R X w xs)) }
    ensures product { (R : WeightSet V) → SemiringLaws R → (tapes : ℕ)
        → (f g : Series V) (c d : V) (X Y : T → Series V) (xs ys : List (Item V T))
        → IsGiven R tapes f c X xs → HaveLabels tapes xs → IsGiven R tapes g d Y ys
        → (w : Word) → length w ≡ tapes
        → product_series R f g w
        ≡ R.plus (if is_empty w then R.times c d else R.zero)
        (R.plus (brought R (λ t. product_series R (X t) g) w xs) (R.times c (brought R Y w ys))) }
    ensures star { (R : WeightSet V) → SemiringLaws R → (tapes : ℕ)
        → (f : Series V) (c : V) (X : T → Series V) (xs : List (Item V T))
        → IsGiven R tapes f c X xs → HaveLabels tapes xs → (w : Word) → length w ≡ tapes
        → star_series R f w
        ≡ R.plus (if is_empty w then star_or_zero R c else R.zero)
        (R.times (star_or_zero R c) (brought R (λ t. product_series R (X t) (star_series R f)) w xs)) }
    ensures both { (R : WeightSet V) → SemiringLaws R → (pair : T → T → T) (X Y Z : T → Series V)
        → ((t u : T) (v : Word) → Z (pair t u) v ≡ R.times (X t v) (Y u v))
        → (xs ys : List (Item V T)) → ((e : Item V T) → In e xs → IsLetter e.label)
        → ((e : Item V T) → In e ys → IsLetter e.label) → (w : Word) → length w ≡ 1
        → R.times (brought R X w xs) (brought R Y w ys) ≡ brought R Z w (met_items R pair xs ys) }
    ensures shuffle { (R : WeightSet V) → SemiringLaws R
        → (f g : Series V) (c d : V) (X Y : T → Series V) (xs ys : List (Item V T))
        → ((e : Item V T) → In e xs → IsLetter e.label)
        → ((e : Item V T) → In e ys → IsLetter e.label) → IsGiven R 1 f c X xs → IsGiven R 1 g d Y ys
        → (w : Word) → length w ≡ 1 → is_empty w ≡ false
        → shuffle_series R f g w
        ≡ R.plus (brought R (λ t. shuffle_series R (X t) g) w xs)
        (brought R (λ t. shuffle_series R f (Y t)) w ys) }
{}
