ghost use Rattle.std.specs.Prelude.{ℕ, List, Bool, true, false, ◌≡◌, ◌≢◌, ◌↔◌, ◌<◌, length};
ghost use Rattle.vc_model.specs.Automata.{Automaton, IsAutomaton, Transition, triple, initial_weight, final_weight, future_within, coefficient};
ghost use Rattle.vc_model.specs.Gathered.{IsGathered, weight_at, gather, IsAscending};
ghost use Rattle.vc_model.specs.Lists.{In, IsEqualityTest};
ghost use Rattle.vc_model.specs.Moves.{moves_sum};
ghost use Rattle.vc_model.specs.Sums.{sum_over};
ghost use Rattle.vc_model.specs.WeightSet.{WeightSet, SemiringLaws};
ghost use Rattle.vc_model.specs.Words.{Word};

/// Gathered transitions: which they are, the raw ones that they come from, and what does the gathering. In an order of
/// the triples there is one such list.
pub fn transitions_are_gathered<V>()
    ensures members { (R : WeightSet V) → SemiringLaws R → (raw ts : List (Transition V))
        → IsGathered R raw ts → (t : Transition V)
        → In t ts ↔ ((t.weight ≡ weight_at R raw (triple t)) × (t.weight ≢ R.zero)) }
    ensures sources { (R : WeightSet V) → SemiringLaws R → (raw ts : List (Transition V))
        → IsGathered R raw ts → (t : Transition V) → In t ts
        → (r : Transition V) × In r raw × (triple r ≡ triple t) }
    ensures made { (R : WeightSet V) → SemiringLaws R → (same : V → V → Bool) → IsEqualityTest same
        → (raw : List (Transition V)) → IsGathered R raw (gather R same raw) }
    ensures alike { (R : WeightSet V) → SemiringLaws R
        → (before : ℕ × Word × ℕ → ℕ × Word × ℕ → Bool)
        → ((a b : ℕ × Word × ℕ) → before a b ≡ true → before b a ≡ false)
        → (raw other ts us : List (Transition V)) → IsGathered R raw ts → IsGathered R other us
        → ((d : ℕ × Word × ℕ) → weight_at R raw d ≡ weight_at R other d)
        → IsAscending (λ t u. before (triple t) (triple u)) ts
        → IsAscending (λ t u. before (triple t) (triple u)) us → ts ≡ us }
{}

/// Sums over gathered transitions are those over the raw ones: over all, and over those from a state.
pub fn gathering_keeps_sums<V>()
    ensures all { (R : WeightSet V) → SemiringLaws R → (raw ts : List (Transition V))
        → IsGathered R raw ts → (h : ℕ → Word → ℕ → V)
        → sum_over R (λ t. R.times t.weight (h t.from t.label t.to)) ts
        ≡ sum_over R (λ t. R.times t.weight (h t.from t.label t.to)) raw }
    ensures moves { (R : WeightSet V) → SemiringLaws R → (A B : Automaton V)
        → IsGathered R A.transitions B.transitions → (p : ℕ) (h : Word → ℕ → V)
        → moves_sum R B p h ≡ moves_sum R A p h }
{}

/// An automaton whose transitions gather those of a list has the futures and the series of this list, and so has every
/// other whose transitions gather it.
pub fn gathering_keeps_series<V>()
    ensures future { (R : WeightSet V) → SemiringLaws R → (tapes : ℕ) (A B : Automaton V)
        → ((t : Transition V) → In t A.transitions → length t.label ≡ tapes)
        → ((t : Transition V) → In t A.transitions → t.to < A.states)
        → IsGathered R A.transitions B.transitions
        → ((p : ℕ) → p < A.states → final_weight R B p ≡ final_weight R A p)
        → (k p : ℕ) (w : Word) → p < A.states → length w ≡ tapes
        → future_within R B k p w ≡ future_within R A k p w }
    ensures coefficient { (R : WeightSet V) → SemiringLaws R → (tapes : ℕ) (A B : Automaton V)
        → ((t : Transition V) → In t A.transitions → length t.label ≡ tapes)
        → ((t : Transition V) → In t A.transitions → t.to < A.states)
        → IsGathered R A.transitions B.transitions → B.states ≡ A.states
        → ((p : ℕ) → p < A.states → initial_weight R B p ≡ initial_weight R A p)
        → ((p : ℕ) → p < A.states → final_weight R B p ≡ final_weight R A p)
        → (w : Word) → length w ≡ tapes → coefficient R B w ≡ coefficient R A w }
    ensures both { (R : WeightSet V) → SemiringLaws R → (tapes : ℕ) (A B : Automaton V)
        → IsAutomaton R tapes A → IsAutomaton R tapes B → (raw : List (Transition V))
        → IsGathered R raw A.transitions → IsGathered R raw B.transitions → B.states ≡ A.states
        → ((p : ℕ) → p < A.states → initial_weight R B p ≡ initial_weight R A p)
        → ((p : ℕ) → p < A.states → final_weight R B p ≡ final_weight R A p)
        → (w : Word) → length w ≡ tapes → coefficient R B w ≡ coefficient R A w }
{}
