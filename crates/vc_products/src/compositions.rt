ghost use Rattle.std.specs.Prelude.{ℕ, ◌<◌, [], ◌∷◌, ◌≡◌, Bool, false, List, ◌⊎◌, ◌+◌, ◌*◌, ◌≤◌};
ghost use Rattle.vc_model.specs.Automata.{Automaton, IsAutomaton, future, coefficient, IsSound, NoCircuitOn, NoEmptyCircuit};
ghost use Rattle.vc_model.specs.Lists.{NoRepeat};
ghost use Rattle.vc_model.specs.Series.{Series};
ghost use Rattle.vc_model.specs.Sums.{sum_over};
ghost use Rattle.vc_model.specs.WeightSet.{WeightSet, SemiringLaws, Absorbs};
ghost use Rattle.vc_model.specs.Words.{Tape, size, tapes_within};
ghost use Rattle.vc_products.specs.Compositions.{IsComposition, composition_within};
ghost use Rattle.vc_products.specs.JoinMoves.{HasMoves};
ghost use Rattle.vc_products.specs.Joins.{HasPairs, IsJoin};
ghost use Rattle.vc_products.specs.Projections.{IsProjection, HasMiddles, outer_tapes};

/// A sound join has the product of the series of both: each pair of paths counts once.
pub fn joins_have_their_series<V>()
    ensures future { (R : WeightSet V) → SemiringLaws R → (A B J : Automaton V)
        → IsAutomaton R 2 A → IsAutomaton R 2 B → IsAutomaton R 3 J → HasPairs 1 A → HasPairs 0 B
        → IsSound R 2 A → IsSound R 2 B → (left right : ℕ → ℕ) (flag : ℕ → Bool)
        → IsJoin R A B J left right flag → IsSound R 3 J → (i : ℕ) (u m v : Tape) → i < J.states
        → flag i ≡ false
        → future R J i (u ∷ m ∷ v ∷ [])
        ≡ R.times (future R A (left i) (u ∷ m ∷ [])) (future R B (right i) (m ∷ v ∷ [])) }
    ensures coefficient { (R : WeightSet V) → SemiringLaws R → (A B J : Automaton V)
        → IsAutomaton R 2 A → IsAutomaton R 2 B → IsAutomaton R 3 J → HasPairs 1 A → HasPairs 0 B
        → IsSound R 2 A → IsSound R 2 B → (left right : ℕ → ℕ) (flag : ℕ → Bool)
        → IsJoin R A B J left right flag → IsSound R 3 J → (u m v : Tape)
        → coefficient R J (u ∷ m ∷ v ∷ [])
        ≡ R.times (coefficient R A (u ∷ m ∷ [])) (coefficient R B (m ∷ v ∷ [])) }
{}

/// A join whose transitions are moves of both has no empty circuit where neither automaton has one.
pub fn joins_are_sound<V>()
    ensures circuits { (R : WeightSet V) (A B J : Automaton V) → IsAutomaton R 3 J → HasPairs 1 A
        → HasPairs 0 B → (left right : ℕ → ℕ) → HasMoves A B J left right → NoEmptyCircuit 2 A
        → NoEmptyCircuit 2 B → NoEmptyCircuit 3 J }
    ensures sound { (R : WeightSet V) (A B J : Automaton V) → IsAutomaton R 3 J → HasPairs 1 A
        → HasPairs 0 B → (left right : ℕ → ℕ) → HasMoves A B J left right → IsSound R 2 A
        → IsSound R 2 B → IsSound R 3 J }
{}

/// An automaton without its middle tape has the sum over the middle words, from some length on.
pub fn projections_have_their_series<V>()
    ensures { (R : WeightSet V) → SemiringLaws R → (alphabet : List ℕ) → NoRepeat alphabet
        → (J F : Automaton V) → IsAutomaton R 3 J → IsAutomaton R 2 F → IsProjection R J F
        → (W : ℕ) → HasMiddles alphabet W J → Absorbs R ⊎ NoCircuitOn 3 outer_tapes J
        → (u v : Tape) (n : ℕ) → (size (u ∷ v ∷ []) + 1) * J.states * W ≤ n
        → coefficient R F (u ∷ v ∷ [])
        ≡ sum_over R (λ m. coefficient R J (u ∷ m ∷ v ∷ [])) (tapes_within alphabet n) }
{}

/// The join of two automata without its middle tape has their composition, which is the sum over the middle words from
/// this length on.
pub fn compositions_have_their_series<V>()
    ensures series { (R : WeightSet V) → SemiringLaws R → (A B J : Automaton V) → IsAutomaton R 2 A
        → IsAutomaton R 2 B → IsAutomaton R 3 J → HasPairs 1 A → HasPairs 0 B → IsSound R 2 A
        → IsSound R 2 B → (left right : ℕ → ℕ) (flag : ℕ → Bool) → IsJoin R A B J left right flag
        → (F : Automaton V) → IsAutomaton R 2 F → IsProjection R J F → (alphabet : List ℕ)
        → NoRepeat alphabet → (W : ℕ) → HasMiddles alphabet W J
        → Absorbs R ⊎ NoCircuitOn 3 outer_tapes J → (u v : Tape)
        → IsComposition R alphabet (coefficient R A) (coefficient R B) u v (coefficient R F (u ∷ v ∷ [])) }
    ensures bound { (R : WeightSet V) → SemiringLaws R → (A B J : Automaton V) → IsAutomaton R 2 A
        → IsAutomaton R 2 B → IsAutomaton R 3 J → HasPairs 1 A → HasPairs 0 B → IsSound R 2 A
        → IsSound R 2 B → (left right : ℕ → ℕ) (flag : ℕ → Bool) → IsJoin R A B J left right flag
        → (F : Automaton V) → IsAutomaton R 2 F → IsProjection R J F → (alphabet : List ℕ)
        → NoRepeat alphabet → (W : ℕ) → HasMiddles alphabet W J
        → Absorbs R ⊎ NoCircuitOn 3 outer_tapes J → (u v : Tape) (n : ℕ)
        → (size (u ∷ v ∷ []) + 1) * J.states * W ≤ n
        → composition_within R alphabet (coefficient R A) (coefficient R B) n u v
        ≡ coefficient R F (u ∷ v ∷ []) }
{}

/// A composition has at most one value at a pair of words.
pub fn compositions_have_one_value<V>()
    ensures { (R : WeightSet V) (alphabet : List ℕ) (s t : Series V) (u v : Tape) (c d : V)
        → IsComposition R alphabet s t u v c → IsComposition R alphabet s t u v d → c ≡ d }
{}
