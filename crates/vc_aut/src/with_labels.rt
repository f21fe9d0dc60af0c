//! Automata with the labels of another set that have the same parts.
ghost use Rattle.std.specs.Prelude.{◌≡◌, All, IfOk, length, map};
ghost use Rattle.vc_aut.specs.Stored.{transition_of};
ghost use Rattle.vc_label.specs.Borrowed.{word_of};
ghost use Rattle.vc_label.specs.Sets.{IsOverSets};

use crate::automaton::Automaton;
use crate::proper::Proper;
use crate::transition::Transition;
use std::alloc::{AllocError, Global};
use vc_label::{LabelFault, LabelSet, Word, words_are_over_sets};
use vc_ring::Semiring;

impl<L: LabelSet, S: Semiring> Automaton<L, S> {
    ghost use Rattle.std.specs.Prelude.{◌≡◌, All, IfOk};
    ghost use Rattle.vc_aut.specs.Wider.{over_sets};
    ghost use Rattle.vc_label.specs.Sets.{IsOverSets};

    /// The automaton with the labels of another set that have the same parts: letters become words
    /// of one letter, say, or pairs of letters become pairs of words. States, weights and
    /// transitions stay as they are, and so does each coefficient and each future. It refuses for
    /// memory alone.
    ///
    /// Nothing is sorted: labels of every set are ordered by their parts.
    pub fn with_labels<M: LabelSet>(
        &self,
        alloc: Global,
        labels: M,
    ) -> Result<Automaton<M, S>, AllocError>
        requires { All (λ t. IsOverSets (M.sets labels) t.label) self.now.automaton.transitions }
        ensures { IfOk result (λ a. a ≡ over_sets (M.sets labels) self.now) }
    {
        let transitions = relabelled::<L, M, S>(alloc, self.transitions.as_slice(), labels)?;
        let initial_weights = Vec::from_slice(alloc, self.initial_weights.as_slice())?;
        let final_weights = Vec::from_slice(alloc, self.final_weights.as_slice())?;
        let starts = Vec::from_slice(alloc, self.starts.as_slice())?;
        Ok(Automaton {
            labels,
            initial_weights,
            final_weights,
            transitions,
            starts,
        })
    }
}

impl<L: LabelSet, S: Semiring> Proper<L, S> {
    ghost use Rattle.std.specs.Prelude.{◌≡◌, All, IfOk};
    ghost use Rattle.vc_aut.specs.Wider.{over_sets};
    ghost use Rattle.vc_label.specs.Sets.{IsOverSets};

    /// `Automaton::with_labels`, which leaves an automaton proper.
    pub fn with_labels<M: LabelSet>(
        &self,
        alloc: Global,
        labels: M,
    ) -> Result<Proper<M, S>, AllocError>
        requires { All (λ t. IsOverSets (M.sets labels) t.label) self.now.automaton.transitions }
        ensures { IfOk result (λ a. a ≡ over_sets (M.sets labels) self.now) }
    {
        let automaton = self.automaton.with_labels(alloc, labels)?;
        Ok(Proper { automaton })
    }
}

/// The transitions with the labels of a set that have the same parts.
fn relabelled<L: LabelSet, M: LabelSet, S: Semiring>(
    alloc: Global,
    transitions: &[Transition<L, S>],
    labels: M,
) -> Result<Vec<Transition<M, S>>, AllocError>
    requires { All (λ t. IsOverSets (M.sets labels) t.label)
        (map (transition_of L.parts) transitions.now) }
    ensures { IfOk result (λ v. map (transition_of M.parts) v.items
        ≡ map (transition_of L.parts) transitions.now) }
{
    let mut same = Vec::with_capacity(alloc, transitions.len())?;
    for transition in transitions {
        let label = label_of::<L, M>(alloc, &transition.label, labels)?;
        same.push(Transition {
            from: transition.from,
            label,
            to: transition.to,
            weight: transition.weight,
        })?;
    }
    Ok(same)
}

/// The label of a set that has the parts of a label of another.
fn label_of<L: LabelSet, M: LabelSet>(
    alloc: Global,
    label: &L::Label,
    labels: M,
) -> Result<M::Label, AllocError>
    requires { IsOverSets (M.sets labels) (L.parts label.now) }
    ensures { IfOk result (λ l. M.parts l ≡ L.parts label.now) }
{
    words_are_over_sets();
    match labels.label(alloc, parts::<L>(label, labels.tapes())) {
        Ok(same) => Ok(same),
        Err(LabelFault::Memory(fault)) => Err(fault),
        Err(LabelFault::NotHere) => unreachable!(),
    }
}

/// A label of so many parts as the word of its parts.
fn parts<L: LabelSet>(label: &L::Label, tapes: usize) -> Word<'_>
    requires { tapes ≡ length (L.parts label.now) }
    ensures { word_of result ≡ L.parts label.now }
{
    match tapes {
        1 => Word::one(L::part(label, 0)),
        2 => Word::two(L::part(label, 0), L::part(label, 1)),
        3 => Word::three(L::part(label, 0), L::part(label, 1), L::part(label, 2)),
        _ => Word::four(
            L::part(label, 0),
            L::part(label, 1),
            L::part(label, 2),
            L::part(label, 3),
        ),
    }
}
