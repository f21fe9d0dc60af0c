use crate::gathering::gather;
use crate::starts::{starts, starts_of_sum};
use crate::transition::Transition;
use std::alloc::{AllocError, Global};
use std::marker::Model;
use vc_label::{LabelSet, words_are_ordered};
use vc_ring::{MakeFault, Semiring};

/// A weighted automaton (Sakarovitch, Elements of Automata Theory): states with initial and final
/// weights, and transitions that read labels of one label set. A `Builder` makes it.
///
/// The states are the numbers from 0. No two transitions have the same source, label and target,
/// and none has the weight zero.
#[derive(Drop)]
pub struct Automaton<L: LabelSet, S: Semiring> {
    pub(crate) labels: L,
    pub(crate) initial_weights: Vec<S::Value>,
    pub(crate) final_weights: Vec<S::Value>,
    pub(crate) transitions: Vec<Transition<L, S>>,
    pub(crate) starts: Vec<usize>,
}

impl<L: LabelSet, S: Semiring> Model for Automaton<L, S> {
    ghost use Rattle.std.specs.Prelude.{map, length};
    ghost use Rattle.vc_aut.specs.Labelled.{Labelled, labelled_code};
    ghost use Rattle.vc_aut.specs.Validity.{IsLabelled};
    ghost use Rattle.vc_label.specs.contracts.tape_set.TapeSet.{the_row};

    ghost Value = { Labelled S.Value };

    ghost coded = { labelled_code the_row.coded S.Value.code };

    ghost use Rattle.vc_aut.specs.Stored.{transition_of, automaton_of, AreStarts};

    ghost view = { λ a. record { sets = L.sets a.labels; automaton = automaton_of a.initial_weights.items a.final_weights.items (map (transition_of L.parts) a.transitions.items) } };

    ghost invariant = { λ a. IsLabelled S.set (record { sets = L.sets a.labels; automaton = automaton_of a.initial_weights.items a.final_weights.items (map (transition_of L.parts) a.transitions.items) }) × AreStarts (map (transition_of L.parts) a.transitions.items) (length a.initial_weights.items) a.starts.items };
}

impl<L: LabelSet, S: Semiring> Automaton<L, S> {
    ghost use Rattle.std.specs.Prelude.{◌≡◌, ◌<◌, ◌≤◌, ◌==◌, [], All, IfOk, IsTrue, length, map, filter};
    ghost use Rattle.vc_aut.specs.Additions.{IsSumAnswer};
    ghost use Rattle.vc_aut.specs.Drafts.{without_zeros};
    ghost use Rattle.vc_aut.specs.Stored.{automaton_of, transition_of};
    ghost use Rattle.vc_aut.specs.Sums.{insert_all};
    ghost use Rattle.vc_aut.specs.Validity.{IsLabelled, IsMove};
    ghost use Rattle.vc_model.specs.Automata.{initial_weight, final_weight};
    ghost use Rattle.vc_model.specs.WeightSet.{InRange};

    /// The automaton of these parts: the transitions are in order, and none has the weight zero.
    pub(crate) fn new(
        alloc: Global,
        labels: L,
        initial_weights: Vec<S::Value>,
        final_weights: Vec<S::Value>,
        transitions: Vec<Transition<L, S>>,
    ) -> Result<Self, AllocError>
        requires { IsLabelled S.set (record { sets = L.sets labels; automaton = automaton_of initial_weights.items final_weights.items (map (transition_of L.parts) transitions.items) }) }
        ensures { IfOk result (λ a. a ≡ record { sets = L.sets labels; automaton = automaton_of initial_weights.items final_weights.items (map (transition_of L.parts) transitions.items) }) }
    {
        let starts = starts(alloc, transitions.as_slice(), initial_weights.len())?;
        Ok(Automaton {
            labels,
            initial_weights,
            final_weights,
            transitions,
            starts,
        })
    }

    /// The automaton of these weights of states, and of the sum of the transitions, which come in
    /// any order: weights of equal triples are added up in the order of the list, and zero sums
    /// are dropped. `Overflow` names an addition of them that does not fit, and `Limit` comes where
    /// more than 4,000,000 triples are different.
    ///
    /// Where each transition comes before the next, by source, then by label and then by target,
    /// and none has the weight zero, the list becomes that of the automaton: it is gone through
    /// once, and nothing is moved.
    pub fn from_transitions(
        alloc: Global,
        labels: L,
        initial_weights: Vec<S::Value>,
        final_weights: Vec<S::Value>,
        transitions: Vec<Transition<L, S>>,
    ) -> Result<Self, MakeFault<S::Value>>
        requires states { length initial_weights.items ≤ 1000000 }
        requires same_length { length final_weights.items ≡ length initial_weights.items }
        requires initial_in { InRange S.set initial_weights.items }
        requires final_in { InRange S.set final_weights.items }
        requires moves { All (IsMove S.set (L.sets labels) (length initial_weights.items)) (map (transition_of L.parts) transitions.items) }
        ensures ok { IfOk result (λ a. a ≡ record { sets = L.sets labels; automaton = automaton_of initial_weights.items final_weights.items (without_zeros S.set S.Value.eq (insert_all S.set [] (map (transition_of L.parts) transitions.items))) }) }
        ensures answer { IsSumAnswer S.set (map (transition_of L.parts) transitions.items) result }
    {
        words_are_ordered();
        let states = initial_weights.len();
        if let Some(starts) = starts_of_sum(alloc, transitions.as_slice(), states)? {
            return Ok(Automaton {
                labels,
                initial_weights,
                final_weights,
                transitions,
                starts,
            });
        }
        let transitions = gather(alloc, transitions)?;
        let Ok(aut) = Automaton::new(alloc, labels, initial_weights, final_weights, transitions)
        else {
            return Err(MakeFault::Memory(AllocError));
        };
        Ok(aut)
    }

    /// The label set of the transitions.
    pub fn labels(&self) -> &L
        ensures { L.sets result.now ≡ self.now.sets }
    {
        &self.labels
    }

    /// The number of states.
    pub fn states(&self) -> u32
        ensures { result ≡ self.now.automaton.states }
    {
        self.initial_weights.len() as u32
    }

    /// The initial weight of a state.
    pub fn initial_weight(&self, s: u32) -> S::Value
        requires { s < self.now.automaton.states }
        ensures value { result ≡ initial_weight S.set self.now.automaton s }
        ensures in_range { IsTrue (S.set.in_range result) }
    {
        self.initial_weights[s as usize]
    }

    /// The final weight of a state.
    pub fn final_weight(&self, s: u32) -> S::Value
        requires { s < self.now.automaton.states }
        ensures value { result ≡ final_weight S.set self.now.automaton s }
        ensures in_range { IsTrue (S.set.in_range result) }
    {
        self.final_weights[s as usize]
    }

    /// The transitions from a state, ordered by label and then by target.
    pub fn transitions_from(&self, s: u32) -> &[Transition<L, S>]
        requires { s < self.now.automaton.states }
        ensures { map (transition_of L.parts) result.now ≡ filter (λ t. t.from == s) self.now.automaton.transitions }
    {
        let start = self.starts[s as usize];
        let end = self.starts[s as usize + 1];
        &self.transitions[start..end]
    }

    /// All transitions, in order.
    pub(crate) fn transitions(&self) -> &[Transition<L, S>]
        ensures { map (transition_of L.parts) result.now ≡ self.now.automaton.transitions }
    {
        &self.transitions
    }

    /// The initial weights of all states.
    pub(crate) fn initial_weights(&self) -> &[S::Value]
        ensures { result.now ≡ self.now.automaton.initial }
    {
        &self.initial_weights
    }

    /// The final weights of all states.
    pub(crate) fn final_weights(&self) -> &[S::Value]
        ensures { result.now ≡ self.now.automaton.final }
    {
        &self.final_weights
    }
}
