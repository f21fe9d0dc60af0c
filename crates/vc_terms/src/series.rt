ghost use Rattle.std.specs.Prelude.{◌≡◌, ℕ, IsTrue, List, ◌++◌, ◌∷◌, [], length, if◌then◌else◌, ◌==◌};
ghost use Rattle.vc_model.specs.Automata.{at_rest};
ghost use Rattle.vc_model.specs.Series.{Series, product_series, one_series, zero_series, plus_series, weight_series, SameOn, star_series, star_or_zero, shuffle_series, atom_series, letter_quotient};
ghost use Rattle.vc_model.specs.WeightSet.{WeightSet, SemiringLaws};
ghost use Rattle.vc_model.specs.Words.{Word, empty_word, emptied, Tape, cut};
ghost use Rattle.vc_terms.specs.Systems.{HoldsAt, entry_without, rest_without};

/// The product of series: grouping, zero, one, sums, multiples and the constant term.
pub fn products_of_series<V>()
    ensures grouped { (R : WeightSet V) → SemiringLaws R → (f g h : Series V) (w : Word)
        → product_series R (product_series R f g) h w
        ≡ product_series R f (product_series R g h) w }
    ensures one_left { (R : WeightSet V) → SemiringLaws R → (f : Series V) (w : Word)
        → product_series R (one_series R) f w ≡ f w }
    ensures one_right { (R : WeightSet V) → SemiringLaws R → (f : Series V) (w : Word)
        → product_series R f (one_series R) w ≡ f w }
    ensures zero_left { (R : WeightSet V) → SemiringLaws R → (f : Series V) (w : Word)
        → product_series R (zero_series R) f w ≡ R.zero }
    ensures zero_right { (R : WeightSet V) → SemiringLaws R → (f : Series V) (w : Word)
        → product_series R f (zero_series R) w ≡ R.zero }
    ensures plus_left { (R : WeightSet V) → SemiringLaws R → (f g h : Series V) (w : Word)
        → product_series R (plus_series R f g) h w
        ≡ R.plus (product_series R f h w) (product_series R g h w) }
    ensures plus_right { (R : WeightSet V) → SemiringLaws R → (f g h : Series V) (w : Word)
        → product_series R f (plus_series R g h) w
        ≡ R.plus (product_series R f g w) (product_series R f h w) }
    ensures weight_left { (R : WeightSet V) → SemiringLaws R
        → (k : V) (f g : Series V) (w : Word)
        → product_series R (weight_series R k f) g w ≡ R.times k (product_series R f g w) }
    ensures weight_right { (R : WeightSet V) → SemiringLaws R
        → (k : V) (f g : Series V) (w : Word)
        → product_series R f (weight_series R k g) w ≡ R.times k (product_series R f g w) }
    ensures same { (R : WeightSet V) → SemiringLaws R → (tapes : ℕ) (f g h k : Series V)
        → SameOn tapes f g → SameOn tapes h k
        → SameOn tapes (product_series R f h) (product_series R g k) }
    ensures constant { (R : WeightSet V) → SemiringLaws R → (f g : Series V) (tapes : ℕ)
        → product_series R f g (empty_word tapes)
        ≡ R.times (f (empty_word tapes)) (g (empty_word tapes)) }
{}

/// The star of a series: one and the series times its star, of zero, and its constant term.
pub fn stars_of_series<V>()
    ensures unfolds { (R : WeightSet V) → SemiringLaws R → (f : Series V) (w : Word)
        → IsTrue (R.has_star (f (emptied w)))
        → star_series R f w ≡ R.plus (one_series R w) (product_series R f (star_series R f) w) }
    ensures zero { (R : WeightSet V) → SemiringLaws R → (w : Word)
        → star_series R (zero_series R) w ≡ one_series R w }
    ensures same { (R : WeightSet V) → SemiringLaws R → (tapes : ℕ) (f g : Series V)
        → SameOn tapes f g → SameOn tapes (star_series R f) (star_series R g) }
    ensures constant { (R : WeightSet V) → SemiringLaws R → (f : Series V) (tapes : ℕ)
        → star_series R f (empty_word tapes) ≡ star_or_zero R (f (empty_word tapes)) }
{}

/// A linear equation of series is solved by the star of its coefficient, and by nothing else where this has no
/// constant term.
pub fn stars_solve_equations<V>()
    ensures solved { (R : WeightSet V) → SemiringLaws R → (tapes : ℕ) (f y : Series V)
        → IsTrue (R.has_star (f (empty_word tapes))) → (w : Word) → length w ≡ tapes
        → product_series R (star_series R f) y w
        ≡ R.plus (product_series R f (product_series R (star_series R f) y) w) (y w) }
    ensures only { (R : WeightSet V) → SemiringLaws R → (tapes : ℕ) (f y X : Series V)
        → f (empty_word tapes) ≡ R.zero
        → ((w : Word) → length w ≡ tapes → X w ≡ R.plus (product_series R f X w) (y w))
        → (w : Word) → length w ≡ tapes → X w ≡ product_series R (star_series R f) y w }
{}

/// A solution of a system of linear equations solves the system without one unknown.
pub fn unknowns_leave_systems<V>()
    ensures { (R : WeightSet V) → SemiringLaws R → (tapes : ℕ)
        → (before after : List ℕ) (k : ℕ) (entry : ℕ → ℕ → Series V) (rest X : ℕ → Series V)
        → entry k k (empty_word tapes) ≡ R.zero
        → HoldsAt R tapes (before ++ k ∷ after) entry rest X k → (p : ℕ)
        → HoldsAt R tapes (before ++ k ∷ after) entry rest X p
        → HoldsAt R tapes (before ++ after) (entry_without R k entry) (rest_without R k entry rest) X p }
{}

/// The shuffle of series of one tape: order, zero, one, sums, multiples and the constant term.
pub fn shuffles_of_series<V>()
    ensures order { (R : WeightSet V) → SemiringLaws R → (f g : Series V) (a : Tape)
        → shuffle_series R f g (a ∷ []) ≡ shuffle_series R g f (a ∷ []) }
    ensures one_left { (R : WeightSet V) → SemiringLaws R → (f : Series V) (a : Tape)
        → shuffle_series R (one_series R) f (a ∷ []) ≡ f (a ∷ []) }
    ensures one_right { (R : WeightSet V) → SemiringLaws R → (f : Series V) (a : Tape)
        → shuffle_series R f (one_series R) (a ∷ []) ≡ f (a ∷ []) }
    ensures zero_left { (R : WeightSet V) → SemiringLaws R → (f : Series V) (w : Word)
        → shuffle_series R (zero_series R) f w ≡ R.zero }
    ensures zero_right { (R : WeightSet V) → SemiringLaws R → (f : Series V) (w : Word)
        → shuffle_series R f (zero_series R) w ≡ R.zero }
    ensures plus { (R : WeightSet V) → SemiringLaws R → (f g h : Series V) (w : Word)
        → shuffle_series R (plus_series R f g) h w
        ≡ R.plus (shuffle_series R f h w) (shuffle_series R g h w) }
    ensures weight { (R : WeightSet V) → SemiringLaws R
        → (k : V) (f g : Series V) (w : Word)
        → shuffle_series R (weight_series R k f) g w ≡ R.times k (shuffle_series R f g w) }
    ensures same { (R : WeightSet V) → SemiringLaws R → (f g h k : Series V) → SameOn 1 f g
        → SameOn 1 h k → SameOn 1 (shuffle_series R f h) (shuffle_series R g k) }
    ensures constant { (R : WeightSet V) → SemiringLaws R → (f g : Series V)
        → shuffle_series R f g ([] ∷ []) ≡ R.times (f ([] ∷ [])) (g ([] ∷ [])) }
{}

/// The product with an atom is the value at what follows the label.
pub fn atoms_read_labels<V>()
    ensures { (R : WeightSet V) → SemiringLaws R → (a : Word) (f : Series V) (w : Word)
        → length a ≡ length w
        → product_series R (atom_series R a) f w ≡ at_rest R.zero f (cut a w) }
{}

/// The operations at words of one tape, by the first letter.
pub fn series_by_letter<V>()
    ensures atom { (R : WeightSet V) → SemiringLaws R → (y x : ℕ) (a : Tape)
        → atom_series R ((y ∷ []) ∷ []) ((x ∷ a) ∷ [])
        ≡ (if y == x then one_series R (a ∷ []) else R.zero) }
    ensures product { (R : WeightSet V) → SemiringLaws R
        → (f g : Series V) (x : ℕ) (a : Tape)
        → product_series R f g ((x ∷ a) ∷ [])
        ≡ R.plus (R.times (f ([] ∷ [])) (g ((x ∷ a) ∷ [])))
        (product_series R (letter_quotient x f) g (a ∷ [])) }
    ensures star { (R : WeightSet V) → SemiringLaws R → (f : Series V) (x : ℕ) (a : Tape)
        → star_series R f ((x ∷ a) ∷ [])
        ≡ R.times (star_or_zero R (f ([] ∷ [])))
        (product_series R (letter_quotient x f) (star_series R f) (a ∷ [])) }
    ensures shuffle { (R : WeightSet V) → SemiringLaws R
        → (f g : Series V) (x : ℕ) (a : Tape)
        → shuffle_series R f g ((x ∷ a) ∷ [])
        ≡ R.plus (shuffle_series R (letter_quotient x f) g (a ∷ []))
        (shuffle_series R f (letter_quotient x g) (a ∷ [])) }
{}
