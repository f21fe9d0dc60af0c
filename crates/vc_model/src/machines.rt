ghost use Rattle.std.specs.Prelude.{ℕ, List, ◌∷◌, ◌≡◌, ◌<◌, Bool, length, slice_index_or};
ghost use Rattle.vc_model.specs.Automata.{Automaton, IsAutomaton, IsProper, initial_weight, final_weight, future, coefficient};
ghost use Rattle.vc_model.specs.Gathered.{IsGathered};
ghost use Rattle.vc_model.specs.Items.{Item, IsGiven, HaveLabels, AreNeat};
ghost use Rattle.vc_model.specs.Lists.{In, IsEqualityTest, NoRepeat};
ghost use Rattle.vc_model.specs.Machines.{machine, StandsFor, LeadsInto, place_in};
ghost use Rattle.vc_model.specs.Series.{Series};
ghost use Rattle.vc_model.specs.WeightSet.{WeightSet, SemiringLaws};
ghost use Rattle.vc_model.specs.Words.{Word};

/// The automaton of a list of things that their items do not leave stands for the things, and so does each one whose
/// transitions gather its transitions.
pub fn machines_stand_for_things<V, T>()
    ensures stands { (R : WeightSet V) → SemiringLaws R → (same : T → T → Bool) → IsEqualityTest same
        → (final : T → V) (items : T → List (Item V T)) (d : T) (ts : List T) → LeadsInto items ts
        → StandsFor R (machine R same final items d ts) (λ i. slice_index_or ts i d) final items }
    ensures automaton { (R : WeightSet V) → SemiringLaws R → (same : T → T → Bool) → IsEqualityTest same
        → (tapes : ℕ) (final : T → V) (items : T → List (Item V T)) (d : T) (ts : List T)
        → LeadsInto items ts → ((t : T) → In t ts → AreNeat R (items t))
        → ((t : T) → In t ts → HaveLabels tapes (items t))
        → IsAutomaton R tapes (machine R same final items d ts)
        × IsProper (machine R same final items d ts) }
    ensures gathered { (R : WeightSet V) → SemiringLaws R → (same : T → T → Bool) → IsEqualityTest same
        → (final : T → V) (items : T → List (Item V T)) (d : T) (ts : List T) → LeadsInto items ts
        → (B : Automaton V) → B.states ≡ length ts
        → ((i : ℕ) → i < length ts → final_weight R B i ≡ final (slice_index_or ts i d))
        → IsGathered R (machine R same final items d ts).transitions B.transitions
        → StandsFor R B (λ i. slice_index_or ts i d) final items }
    ensures gathered_automaton { (R : WeightSet V) → SemiringLaws R → (same : T → T → Bool)
        → IsEqualityTest same → (tapes : ℕ) (final : T → V) (items : T → List (Item V T)) (d : T) (ts : List T)
        → LeadsInto items ts → ((t : T) → In t ts → HaveLabels tapes (items t))
        → (B : Automaton V) → B.states ≡ length ts → length B.initial ≡ B.states
        → length B.final ≡ B.states
        → IsGathered R (machine R same final items d ts).transitions B.transitions
        → IsAutomaton R tapes B × IsProper B }
    ensures places { (same : T → T → Bool) → IsEqualityTest same → (d : T) (ts : List T) (i : ℕ)
        → NoRepeat ts → i < length ts → place_in same (slice_index_or ts i d) ts ≡ i }
    ensures things { (same : T → T → Bool) → IsEqualityTest same → (d t : T) (ts : List T)
        → In t ts → slice_index_or ts (place_in same t ts) d ≡ t }
{}

/// Where an automaton without empty labels stands for things, and each thing's series is given by its final weight and its
/// items, the futures are these series; and where the first state alone is initial, the series of the automaton is that of
/// the first thing.
pub fn things_have_their_series<V, T>()
    ensures future { (R : WeightSet V) → SemiringLaws R → (tapes : ℕ) (B : Automaton V)
        → IsAutomaton R tapes B → IsProper B
        → (state : ℕ → T) (final : T → V) (items : T → List (Item V T)) → StandsFor R B state final items
        → (X : T → Series V)
        → ((i : ℕ) → i < B.states → IsGiven R tapes (X (state i)) (final (state i)) X (items (state i)))
        → (i : ℕ) (w : Word) → i < B.states → length w ≡ tapes → future R B i w ≡ X (state i) w }
    ensures first { (R : WeightSet V) → SemiringLaws R → (B : Automaton V) → 0 < B.states
        → initial_weight R B 0 ≡ R.one
        → ((p : ℕ) → 0 < p → p < B.states → initial_weight R B p ≡ R.zero)
        → (w : Word) → coefficient R B w ≡ future R B 0 w }
    ensures machine { (R : WeightSet V) → SemiringLaws R → (same : T → T → Bool)
        → (final : T → V) (items : T → List (Item V T)) (d t : T) (ts : List T) (w : Word)
        → coefficient R (machine R same final items d (t ∷ ts)) w
        ≡ future R (machine R same final items d (t ∷ ts)) 0 w }
{}
