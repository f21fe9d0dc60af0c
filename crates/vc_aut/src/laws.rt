ghost use Rattle.std.specs.Prelude.{◌≡◌, ◌↔◌, ◌⊎◌, ◌<◌, ◌≤◌, ◌==◌, ◌++◌, nat_lt, ℕ, Bool, All, List, [], filter, length, map, Some, if◌then◌else◌};
ghost use Rattle.std.specs.List.{flat_map};
ghost use Rattle.std.specs.List.Sorted.{IsStrictlySortedBy};
ghost use Rattle.std.specs.Ordering.{is_gt, is_lt};
ghost use Rattle.vc_aut.specs.Drafts.{Draft, IsDraft, with_final, with_initial, with_state, without_zeros};
ghost use Rattle.vc_aut.specs.Order.{AreInOrder, move_order, moves_from};
ghost use Rattle.vc_aut.specs.Sums.{insert_all, insert_transition, standing};
ghost use Rattle.vc_aut.specs.Validity.{IsLabelled, IsMove};
ghost use Rattle.vc_aut.specs.Wider.{AreWithin};
ghost use Rattle.vc_label.specs.Order.{word_order};
ghost use Rattle.vc_label.specs.Sets.{IsOverSets};
ghost use Rattle.vc_label.specs.declared.tape_set.TapeSet.{TapeSet};
ghost use Rattle.vc_model.specs.Automata.{IsAutomaton, IsProper, Transition, final_weight, initial_weight, triple};
ghost use Rattle.vc_model.specs.Gathered.{IsGathered, same_triple, weight_at};
ghost use Rattle.vc_model.specs.Lists.{In, IsEqualityTest, below};
ghost use Rattle.vc_model.specs.WeightSet.{WeightSet, SemiringLaws};
ghost use Rattle.vc_model.specs.Words.{Word, same_word};

use crate::automaton::Automaton;
use crate::builder::Builder;
use crate::proper::Proper;
use vc_label::{LabelSet, words_are_ordered};
use vc_ring::Semiring;

/// What is true of each automaton: it is one in the sense of the definition, its labels are over
/// its sets, its weights are in range, its transitions are in order, and it has at most so many
/// states and transitions.
pub fn automata_are_valid<L: LabelSet, S: Semiring>(aut: &Automaton<L, S>)
    ensures labelled { IsLabelled S.set aut.now }
    ensures automaton { IsAutomaton S.set (length aut.now.sets) aut.now.automaton }
    ensures moves { (t : Transition S.Value) → In t aut.now.automaton.transitions
        → IsMove S.set aut.now.sets aut.now.automaton.states t }
    ensures few { aut.now.automaton.states ≤ 1000000 }
    ensures few_transitions { length aut.now.automaton.transitions ≤ 4000000 }
{
    let _ = &aut.labels;
    words_are_ordered();
}

/// What is true of each proper automaton: all that is true of each automaton, and no label is
/// empty.
pub fn proper_automata_are_proper<L: LabelSet, S: Semiring>(aut: &Proper<L, S>)
    ensures labelled { IsLabelled S.set aut.now }
    ensures automaton { IsAutomaton S.set (length aut.now.sets) aut.now.automaton }
    ensures moves { (t : Transition S.Value) → In t aut.now.automaton.transitions
        → IsMove S.set aut.now.sets aut.now.automaton.states t }
    ensures proper { IsProper aut.now.automaton }
    ensures few { aut.now.automaton.states ≤ 1000000 }
    ensures few_transitions { length aut.now.automaton.transitions ≤ 4000000 }
{
    automata_are_valid(&aut.automaton);
}

/// What is true of each builder: its labels are over its sets, its weights are in range, its
/// transitions are in order, and it has at most so many states and transitions.
pub fn drafts_are_valid<L: LabelSet, S: Semiring>(builder: &Builder<L, S>)
    ensures { IsDraft S.set builder.now }
{
    let _ = &builder.labels;
}

/// What a transition does that is inserted: its weight is added at its triple, the triples are the
/// old ones and its own, and the order is kept. In order, at most one weight stands at a triple.
pub fn transitions_are_added<V>()
    ensures weight { (R : WeightSet V) → SemiringLaws R → (ts : List (Transition V))
        (t : Transition V) (d : ℕ × Word × ℕ) → weight_at R (insert_transition R ts t) d
        ≡ R.plus (weight_at R ts d) (if same_triple (triple t) d then t.weight else R.zero) }
    ensures triples { (R : WeightSet V) (ts : List (Transition V)) (t : Transition V)
        (d : ℕ × Word × ℕ) → In d (map triple (insert_transition R ts t))
        ↔ ((d ≡ triple t) ⊎ In d (map triple ts)) }
    ensures order { (R : WeightSet V) (ts : List (Transition V)) (t : Transition V)
        → AreInOrder ts → AreInOrder (insert_transition R ts t) }
    ensures standing { (ts : List (Transition V)) (t : Transition V) (w : V) → AreInOrder ts
        → (standing ts t ≡ Some w) ↔ In (record t { weight = w }) ts }
{
    words_are_ordered();
}

/// The automaton is the sum of what was added: at each source, label and target there stands the
/// sum of the weights that were added there, and what is left without the zero sums gathers all
/// that was added.
pub fn drafts_are_sums<V>()
    ensures weight { (R : WeightSet V) → SemiringLaws R → (added : List (Transition V))
        (d : ℕ × Word × ℕ) → weight_at R (insert_all R [] added) d ≡ weight_at R added d }
    ensures gathered { (R : WeightSet V) → SemiringLaws R → (same : V → V → Bool)
        → IsEqualityTest same → (added : List (Transition V))
        → IsGathered R added (without_zeros R same (insert_all R [] added)) }
    ensures order { (R : WeightSet V) (added : List (Transition V))
        → AreInOrder (insert_all R [] added) }
{
    words_are_ordered();
}

/// What a weight does that is added at a state: there it is added, and the other states keep
/// theirs. A state more has zero weights, as each number has that is no state.
pub fn states_are_added<V>()
    ensures initial_weights { (R : WeightSet V) (d : Draft V) (s p : ℕ) (w : V)
        → s < length d.automaton.initial
        → initial_weight R (with_initial R d s w).automaton p
        ≡ (if p == s then R.plus (initial_weight R d.automaton p) w
        else initial_weight R d.automaton p) }
    ensures final_weights { (R : WeightSet V) (d : Draft V) (s p : ℕ) (w : V)
        → s < length d.automaton.final
        → final_weight R (with_final R d s w).automaton p
        ≡ (if p == s then R.plus (final_weight R d.automaton p) w
        else final_weight R d.automaton p) }
    ensures state_initial { (R : WeightSet V) (d : Draft V) (p : ℕ)
        → initial_weight R (with_state R d).automaton p ≡ initial_weight R d.automaton p }
    ensures state_final { (R : WeightSet V) (d : Draft V) (p : ℕ)
        → final_weight R (with_state R d).automaton p ≡ final_weight R d.automaton p }
{}

/// What the order of an automaton's transitions says of them: those of a state stand together,
/// behind those of the states before it, so that state by state they are all transitions. Those of
/// a state are in the order of their labels and then of their targets, and among them those with a
/// label stand together.
pub fn transitions_are_in_order<V>()
    ensures states { (ts : List (Transition V)) (n : ℕ) → AreInOrder ts → All (λ t. t.from < n) ts
        → flat_map (moves_from ts) (below n) ≡ ts }
    ensures state { (ts : List (Transition V)) (s : ℕ) → AreInOrder ts
        → filter (λ t. nat_lt t.from s) ts ++ (moves_from ts s ++ filter (λ t. nat_lt s t.from) ts)
        ≡ ts }
    ensures moves { (ts : List (Transition V)) (s : ℕ) → AreInOrder ts
        → IsStrictlySortedBy move_order (moves_from ts s) }
    ensures label { (ts : List (Transition V)) (w : Word) → IsStrictlySortedBy move_order ts
        → filter (λ t. is_lt (word_order t.label w)) ts
        ++ (filter (λ t. same_word w t.label) ts ++ filter (λ t. is_gt (word_order t.label w)) ts)
        ≡ ts }
{
    words_are_ordered();
}

/// The labels of an automaton are labels over each list of sets that has, tape by tape, all that
/// its own sets have, as `with_labels` wants it: words where letters were, or a larger alphabet.
pub fn labels_are_over_wider_sets<L: LabelSet, S: Semiring>(aut: &Automaton<L, S>)
    ensures { (sets : List TapeSet) → AreWithin aut.now.sets sets
        → All (λ t. IsOverSets sets t.label) aut.now.automaton.transitions }
{
    automata_are_valid(aut);
}
