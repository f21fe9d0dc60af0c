ghost use Rattle.std.specs.Prelude.{ℕ, ◌≡◌, ◌<◌, length, [], ◌∷◌};
ghost use Rattle.vc_linear.specs.Conjugates.{combined, IsConjugate, IsLetterConjugate, letter_entry};
ghost use Rattle.vc_model.specs.Automata.{Automaton, IsAutomaton, IsSound, future, future_within, coefficient, coefficient_within};
ghost use Rattle.vc_model.specs.Letters.{HasLetters, step_sum};
ghost use Rattle.vc_model.specs.WeightSet.{WeightSet, SemiringLaws};
ghost use Rattle.vc_model.specs.Words.{Word, Tape};

/// Where the states of an automaton are combinations of the states of another, its futures are the same combinations,
/// and both have one series.
pub fn conjugates_have_one_series<V>()
    ensures within { (R : WeightSet V) → SemiringLaws R → (tapes : ℕ) (A B : Automaton V)
        → IsAutomaton R tapes A → IsAutomaton R tapes B → (X : ℕ → ℕ → V) → IsConjugate R A B X
        → (k p : ℕ) (w : Word) → p < A.states → length w ≡ tapes
        → future_within R A k p w ≡ combined R B.states (X p) (λ q. future_within R B k q w) }
    ensures coefficient_within { (R : WeightSet V) → SemiringLaws R → (tapes : ℕ) (A B : Automaton V)
        → IsAutomaton R tapes A → IsAutomaton R tapes B → (X : ℕ → ℕ → V) → IsConjugate R A B X
        → (k : ℕ) (w : Word) → length w ≡ tapes
        → coefficient_within R A k w ≡ coefficient_within R B k w }
    ensures future { (R : WeightSet V) → SemiringLaws R → (tapes : ℕ) (A B : Automaton V)
        → IsAutomaton R tapes A → IsAutomaton R tapes B → (X : ℕ → ℕ → V) → IsConjugate R A B X
        → IsSound R tapes A → IsSound R tapes B → (p : ℕ) (w : Word) → p < A.states
        → length w ≡ tapes
        → future R A p w ≡ combined R B.states (X p) (λ q. future R B q w) }
    ensures coefficient { (R : WeightSet V) → SemiringLaws R → (tapes : ℕ) (A B : Automaton V)
        → IsAutomaton R tapes A → IsAutomaton R tapes B → (X : ℕ → ℕ → V) → IsConjugate R A B X
        → IsSound R tapes A → IsSound R tapes B → (w : Word) → length w ≡ tapes
        → coefficient R A w ≡ coefficient R B w }
{}

/// The same for automata whose labels have one letter, from the entries for each letter.
pub fn letter_conjugates_have_one_series<V>()
    ensures entries { (R : WeightSet V) → SemiringLaws R → (A : Automaton V) → IsAutomaton R 1 A
        → (p x : ℕ) (g : ℕ → V)
        → step_sum R A p x g ≡ combined R A.states (λ q. letter_entry R A x p q) g }
    ensures future { (R : WeightSet V) → SemiringLaws R → (A B : Automaton V)
        → IsAutomaton R 1 A → IsAutomaton R 1 B → HasLetters A → HasLetters B
        → (X : ℕ → ℕ → V) → IsLetterConjugate R A B X → (a : Tape) (p : ℕ) → p < A.states
        → future R A p (a ∷ []) ≡ combined R B.states (X p) (λ q. future R B q (a ∷ [])) }
    ensures coefficient { (R : WeightSet V) → SemiringLaws R → (A B : Automaton V)
        → IsAutomaton R 1 A → IsAutomaton R 1 B → HasLetters A → HasLetters B
        → (X : ℕ → ℕ → V) → IsLetterConjugate R A B X → (a : Tape)
        → coefficient R A (a ∷ []) ≡ coefficient R B (a ∷ []) }
{}
