ghost use Rattle.std.specs.Prelude.{ℕ, ◌<◌, ◌≤◌, [], ◌∷◌, ◌≡◌, ◌++◌};
ghost use Rattle.vc_model.specs.Automata.{Automaton, Transition, IsAutomaton, IsProper, future, final_weight, row, initial_weight, coefficient};
ghost use Rattle.vc_model.specs.Letters.{HasLetters, step_sum, arrival_sum};
ghost use Rattle.vc_model.specs.Lists.{In, below};
ghost use Rattle.vc_model.specs.Sums.{sum_over};
ghost use Rattle.vc_model.specs.WeightSet.{WeightSet, SemiringLaws};
ghost use Rattle.vc_model.specs.Words.{Tape, size};

/// The futures of an automaton whose labels have one letter.
pub fn futures_by_letter<V>()
    ensures empty { (R : WeightSet V) → SemiringLaws R → (A : Automaton V)
        → IsAutomaton R 1 A → HasLetters A → (p : ℕ) → p < A.states
        → future R A p ([] ∷ []) ≡ final_weight R A p }
    ensures letter { (R : WeightSet V) → SemiringLaws R → (A : Automaton V)
        → IsAutomaton R 1 A → HasLetters A → (p x : ℕ) (a : Tape) → p < A.states
        → future R A p ((x ∷ a) ∷ []) ≡ step_sum R A p x (λ q. future R A q (a ∷ [])) }
{}

/// The rows of an automaton whose labels have one letter, and the coefficient of a word in two parts.
pub fn rows_by_letter<V>()
    ensures empty { (R : WeightSet V) → SemiringLaws R → (A : Automaton V)
        → IsAutomaton R 1 A → HasLetters A → (t : ℕ) → t < A.states
        → row R A ([] ∷ []) t ≡ initial_weight R A t }
    ensures letter { (R : WeightSet V) → SemiringLaws R → (A : Automaton V)
        → IsAutomaton R 1 A → HasLetters A → (a : Tape) (x t : ℕ) → t < A.states
        → row R A ((a ++ x ∷ []) ∷ []) t ≡ arrival_sum R A t x (row R A (a ∷ [])) }
    ensures parts { (R : WeightSet V) → SemiringLaws R → (A : Automaton V)
        → IsAutomaton R 1 A → HasLetters A → (a b : Tape)
        → sum_over R (λ t. R.times (row R A (a ∷ []) t) (future R A t (b ∷ []))) (below A.states)
        ≡ coefficient R A ((a ++ b) ∷ []) }
{}

/// Where labels of one tape have at most one letter and none is empty, each is a letter; and a letter is not empty.
pub fn labels_are_letters<V>()
    ensures letters { (R : WeightSet V) (A : Automaton V) → IsAutomaton R 1 A → IsProper A
        → ((t : Transition V) → In t A.transitions → size t.label ≤ 1) → HasLetters A }
    ensures proper { (A : Automaton V) → HasLetters A → IsProper A }
{}
