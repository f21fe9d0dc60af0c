ghost use Rattle.std.specs.Prelude.{ℕ, List, Bool, ◌≡◌, ◌<◌, length, slice_index_or};
ghost use Rattle.vc_model.specs.Automata.{Automaton, IsAutomaton, IsSound, NoEmptyCircuit, future, future_within, coefficient};
ghost use Rattle.vc_model.specs.Lists.{IsEqualityTest};
ghost use Rattle.vc_model.specs.Trims.{IsTrim};
ghost use Rattle.vc_model.specs.WeightSet.{WeightSet, SemiringLaws};
ghost use Rattle.vc_model.specs.Words.{Word};

/// An automaton trimmed to its useful states keeps their futures and the series, and has no empty circuit where the other
/// has none.
pub fn trims_keep_series<V>()
    ensures within { (R : WeightSet V) → SemiringLaws R → (same : V → V → Bool) → IsEqualityTest same
        → (tapes : ℕ) (A T : Automaton V) → IsAutomaton R tapes A → IsAutomaton R tapes T
        → (kept : List ℕ) → IsTrim R A T kept → (k i : ℕ) (w : Word) → i < length kept
        → length w ≡ tapes
        → future_within R T k i w ≡ future_within R A k (slice_index_or kept i 0) w }
    ensures circuits { (R : WeightSet V) → SemiringLaws R → (same : V → V → Bool) → IsEqualityTest same
        → (tapes : ℕ) (A T : Automaton V) → IsAutomaton R tapes A → IsAutomaton R tapes T
        → (kept : List ℕ) → IsTrim R A T kept → NoEmptyCircuit tapes A → NoEmptyCircuit tapes T }
    ensures future { (R : WeightSet V) → SemiringLaws R → (same : V → V → Bool) → IsEqualityTest same
        → (tapes : ℕ) (A T : Automaton V) → IsAutomaton R tapes A → IsAutomaton R tapes T
        → (kept : List ℕ) → IsTrim R A T kept → IsSound R tapes A → (i : ℕ) (w : Word)
        → i < length kept → length w ≡ tapes
        → future R T i w ≡ future R A (slice_index_or kept i 0) w }
    ensures coefficient { (R : WeightSet V) → SemiringLaws R → (same : V → V → Bool)
        → IsEqualityTest same → (tapes : ℕ) (A T : Automaton V) → IsAutomaton R tapes A
        → IsAutomaton R tapes T → (kept : List ℕ) → IsTrim R A T kept → IsSound R tapes A
        → (w : Word) → length w ≡ tapes → coefficient R T w ≡ coefficient R A w }
{}
