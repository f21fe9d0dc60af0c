use crate::automaton::Automaton;
use crate::moves::{self, Moves};
use std::alloc::{AllocError, Global};
use std::collections::BTreeMap;
use std::marker::Model;
use vc_label::{LabelSet, words_are_ordered};
use vc_ring::{Limit, MakeFault, Measure, Overflow, Semiring};

/// An automaton that is being built: it is the sum of what is added.
///
/// Weights that are added at one state, or at one source, label and target, are added up. After a
/// refusal the builder is as before.
#[derive(Drop)]
pub struct Builder<L: LabelSet, S: Semiring> {
    alloc: Global,
    most_states: u64,
    pub(crate) labels: L,
    initial_weights: Vec<S::Value>,
    final_weights: Vec<S::Value>,
    transitions: Moves<L, S>,
}

impl<L: LabelSet, S: Semiring> Model for Builder<L, S> {
    ghost use Rattle.std.specs.Prelude.{map};
    ghost use Rattle.vc_aut.specs.Drafts.{Draft, IsDraft, draft_code};
    ghost use Rattle.vc_label.specs.contracts.tape_set.TapeSet.{the_row};

    ghost Value = { Draft S.Value };

    ghost coded = { draft_code the_row.coded S.Value.code };

    ghost use Rattle.vc_aut.specs.Stored.{automaton_of, entry_transition};

    ghost view = { λ b. record { most = b.most_states; sets = L.sets b.labels; automaton = automaton_of b.initial_weights.items b.final_weights.items (map (entry_transition L.parts) b.transitions.entries) } };

    ghost invariant = { λ b. IsDraft S.set (record { most = b.most_states; sets = L.sets b.labels; automaton = automaton_of b.initial_weights.items b.final_weights.items (map (entry_transition L.parts) b.transitions.entries) }) };
}

impl<L: LabelSet, S: Semiring> Builder<L, S> {
    ghost use Rattle.std.specs.Prelude.{◌≡◌, ◌<◌, ◌≤◌, [], ◌∷◌, IfOk, IsTrue, OnErr, OnOk};
    ghost use Rattle.vc_aut.specs.Drafts.{empty_draft, finished, with_final, with_initial, with_state, with_transition};
    ghost use Rattle.vc_aut.specs.Refusals.{IsAnswer, state_refusal, transition_refusal};
    ghost use Rattle.vc_label.specs.Sets.{IsOverSets};
    ghost use Rattle.vc_model.specs.Automata.{final_weight, initial_weight};
    ghost use Rattle.vc_ring.specs.Steps.{outcome};
    ghost use Rattle.vc_ring.specs.declared.faults.Overflow.TheVariants.{Add};

    /// A builder without states, for at most so many. It takes no memory.
    pub fn new(alloc: Global, labels: L, most_states: u64) -> Builder<L, S>
        requires { most_states ≤ 1000000 }
        ensures { result ≡ empty_draft most_states (L.sets labels) }
    {
        Builder {
            alloc,
            most_states,
            labels,
            initial_weights: Vec::new(alloc),
            final_weights: Vec::new(alloc),
            transitions: BTreeMap::new(alloc),
        }
    }

    /// Adds a state whose weights are zero, and answers its number: the states are numbered from 0.
    /// `Limit` comes where the most states stand already, and `Overflow` never comes.
    pub fn add_state(&mut self) -> Result<u32, MakeFault<S::Value>>
        ensures ok { OnOk result (self.new ≡ with_state S.set self.old) }
        ensures number { IfOk result (λ n. n ≡ self.old.automaton.states) }
        ensures err { OnErr result (self.new ≡ self.old) }
        ensures answer { IsAnswer (state_refusal self.old) result }
    {
        let number = self.initial_weights.len();
        if number as u64 >= self.most_states {
            return Err(MakeFault::Limit(Limit {
                what: Measure::States,
                most: self.most_states,
            }));
        }
        let Ok(()) = self.initial_weights.push(S::zero()) else {
            return Err(MakeFault::Memory(AllocError));
        };
        let Ok(()) = self.final_weights.push(S::zero()) else {
            let _ = self.initial_weights.pop();
            return Err(MakeFault::Memory(AllocError));
        };
        Ok(number as u32)
    }

    /// Adds a weight to the initial weight of a state. `Overflow` comes where the sum does not fit.
    pub fn add_initial(&mut self, state: u32, weight: S::Value) -> Result<(), Overflow<S::Value>>
        requires state { state < self.old.automaton.states }
        requires weight { IsTrue (S.set.in_range weight) }
        ensures ok { OnOk result (self.new ≡ with_initial S.set self.old state weight) }
        ensures err { OnErr result (self.new ≡ self.old) }
        ensures answer { result ≡ outcome S.set (Add (initial_weight S.set self.old.automaton state) weight ∷ []) tt }
    {
        let sum = S::add(self.initial_weights[state as usize], weight)?;
        self.initial_weights[state as usize] = sum;
        Ok(())
    }

    /// Adds a weight to the final weight of a state. `Overflow` comes where the sum does not fit.
    pub fn add_final(&mut self, state: u32, weight: S::Value) -> Result<(), Overflow<S::Value>>
        requires state { state < self.old.automaton.states }
        requires weight { IsTrue (S.set.in_range weight) }
        ensures ok { OnOk result (self.new ≡ with_final S.set self.old state weight) }
        ensures err { OnErr result (self.new ≡ self.old) }
        ensures answer { result ≡ outcome S.set (Add (final_weight S.set self.old.automaton state) weight ∷ []) tt }
    {
        let sum = S::add(self.final_weights[state as usize], weight)?;
        self.final_weights[state as usize] = sum;
        Ok(())
    }

    /// Adds a transition. Where one with the same source, label and target stands, its weight
    /// becomes old plus new. `Overflow` comes where that sum does not fit, and `Limit` where the
    /// triple is new and 4,000,000 transitions stand.
    pub fn add_transition(
        &mut self,
        from: u32,
        label: L::Label,
        to: u32,
        weight: S::Value,
    ) -> Result<(), MakeFault<S::Value>>
        requires from { from < self.old.automaton.states }
        requires label { IsOverSets self.old.sets (L.parts label) }
        requires to { to < self.old.automaton.states }
        requires weight { IsTrue (S.set.in_range weight) }
        ensures ok { OnOk result (self.new ≡ with_transition S.set self.old (record { from = from; label = L.parts label; to = to; weight = weight })) }
        ensures err { OnErr result (self.new ≡ self.old) }
        ensures answer { IsAnswer (transition_refusal S.set self.old.automaton.transitions (record { from = from; label = L.parts label; to = to; weight = weight })) result }
    {
        words_are_ordered();
        moves::add::<L, S>(&mut self.transitions, from, label, to, weight)?;
        Ok(())
    }

    /// The automaton of what was added. Transitions whose weights add up to zero are dropped.
    pub fn finish(self) -> Result<Automaton<L, S>, AllocError>
        ensures { IfOk result (λ a. a ≡ finished S.set S.Value.eq self) }
    {
        let Builder {
            alloc,
            most_states: _,
            labels,
            initial_weights,
            final_weights,
            transitions,
        } = self;
        let transitions = moves::finish::<L, S>(alloc, transitions)?;
        Automaton::new(alloc, labels, initial_weights, final_weights, transitions)
    }
}
