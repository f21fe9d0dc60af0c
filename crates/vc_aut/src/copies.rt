//! Copies of automata.
ghost use Rattle.std.specs.Prelude.{◌≡◌, IfOk, map};
ghost use Rattle.vc_aut.specs.Stored.{transition_of};

use crate::automaton::Automaton;
use crate::proper::Proper;
use crate::transition::Transition;
use std::alloc::{AllocError, Global};
use vc_label::LabelSet;
use vc_model::empty_words_are_tested;
use vc_ring::Semiring;

impl<L: LabelSet, S: Semiring> Automaton<L, S> {
    ghost use Rattle.std.specs.Prelude.{◌≡◌, ◌↔◌, IfOk, IfSome, IsNone};
    ghost use Rattle.vc_aut.specs.EmptyLabels.{HasEmptyLabel};
    ghost use Rattle.vc_model.specs.Automata.{IsProper};

    /// A copy of the automaton as one without empty labels. None comes exactly where a transition
    /// has a label that is empty on all tapes, and then it takes no memory.
    pub fn to_proper(&self, alloc: Global) -> Result<Option<Proper<L, S>>, AllocError>
        ensures same { IfOk result (λ r. IfSome r (λ p. p ≡ self.now)) }
        ensures proper { IfOk result (λ r. IfSome r (λ _p. IsProper self.now.automaton)) }
        ensures empty { IfOk result (λ r. IsNone r ↔ HasEmptyLabel self.now.automaton) }
    {
        empty_words_are_tested();
        if self.has_empty_label() {
            return Ok(None);
        }
        let automaton = self.copy(alloc)?;
        let proper = Proper { automaton };
        Ok(Some(proper))
    }

    /// The same automaton once more.
    pub(crate) fn copy(&self, alloc: Global) -> Result<Automaton<L, S>, AllocError>
        ensures { IfOk result (λ a. a ≡ self.now) }
    {
        let transitions = copied::<L, S>(alloc, self.transitions.as_slice())?;
        let initial_weights = Vec::from_slice(alloc, self.initial_weights.as_slice())?;
        let final_weights = Vec::from_slice(alloc, self.final_weights.as_slice())?;
        let starts = Vec::from_slice(alloc, self.starts.as_slice())?;
        Ok(Automaton {
            labels: self.labels,
            initial_weights,
            final_weights,
            transitions,
            starts,
        })
    }
}

/// The same transitions once more.
fn copied<L: LabelSet, S: Semiring>(
    alloc: Global,
    transitions: &[Transition<L, S>],
) -> Result<Vec<Transition<L, S>>, AllocError>
    ensures { IfOk result (λ v. map (transition_of L.parts) v.items
        ≡ map (transition_of L.parts) transitions.now) }
{
    let mut same = Vec::with_capacity(alloc, transitions.len())?;
    for transition in transitions {
        let label = L::copy(alloc, &transition.label)?;
        same.push(Transition {
            from: transition.from,
            label,
            to: transition.to,
            weight: transition.weight,
        })?;
    }
    Ok(same)
}
