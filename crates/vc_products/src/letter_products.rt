ghost use Rattle.std.specs.Prelude.{ℕ, ◌<◌, [], ◌∷◌, ◌≡◌};
ghost use Rattle.vc_model.specs.Automata.{Automaton, IsAutomaton, future, coefficient};
ghost use Rattle.vc_model.specs.Letters.{HasLetters};
ghost use Rattle.vc_model.specs.Series.{both_series, shuffle_series};
ghost use Rattle.vc_model.specs.WeightSet.{WeightSet, SemiringLaws};
ghost use Rattle.vc_model.specs.Words.{Tape};
ghost use Rattle.vc_products.specs.LetterProducts.{IsConjunction, IsShuffle};

/// A conjunction has the product of the series of both.
pub fn conjunctions_have_their_series<V>()
    ensures future { (R : WeightSet V) → SemiringLaws R → (A B P : Automaton V)
        → IsAutomaton R 1 A → IsAutomaton R 1 B → IsAutomaton R 1 P → HasLetters A → HasLetters B
        → HasLetters P → (left right : ℕ → ℕ) → IsConjunction R A B P left right
        → (a : Tape) (i : ℕ) → i < P.states
        → future R P i (a ∷ [])
        ≡ both_series R (future R A (left i)) (future R B (right i)) (a ∷ []) }
    ensures coefficient { (R : WeightSet V) → SemiringLaws R → (A B P : Automaton V)
        → IsAutomaton R 1 A → IsAutomaton R 1 B → IsAutomaton R 1 P → HasLetters A → HasLetters B
        → HasLetters P → (left right : ℕ → ℕ) → IsConjunction R A B P left right → (a : Tape)
        → coefficient R P (a ∷ []) ≡ both_series R (coefficient R A) (coefficient R B) (a ∷ []) }
{}

/// A shuffle has the shuffle of the series of both.
pub fn shuffles_have_their_series<V>()
    ensures future { (R : WeightSet V) → SemiringLaws R → (A B P : Automaton V)
        → IsAutomaton R 1 A → IsAutomaton R 1 B → IsAutomaton R 1 P → HasLetters A → HasLetters B
        → HasLetters P → (left right : ℕ → ℕ) → IsShuffle R A B P left right → (a : Tape) (i : ℕ)
        → i < P.states
        → future R P i (a ∷ [])
        ≡ shuffle_series R (future R A (left i)) (future R B (right i)) (a ∷ []) }
    ensures coefficient { (R : WeightSet V) → SemiringLaws R → (A B P : Automaton V)
        → IsAutomaton R 1 A → IsAutomaton R 1 B → IsAutomaton R 1 P → HasLetters A → HasLetters B
        → HasLetters P → (left right : ℕ → ℕ) → IsShuffle R A B P left right → (a : Tape)
        → coefficient R P (a ∷ []) ≡ shuffle_series R (coefficient R A) (coefficient R B) (a ∷ []) }
{}
