ghost use Rattle.std.specs.Prelude.{IfOk, IfSome, IsTrue, length, map, ◌<◌, ◌^◌};
ghost use Rattle.vc_aut.specs.Order.{AreInOrder};
ghost use Rattle.vc_aut.specs.Stored.{AreStarts, AreSummed, GoesOn, transition_of};

use crate::gathering::order;
use crate::moves::MOST_TRANSITIONS;
use crate::transition::Transition;
use std::alloc::{AllocError, Global};
use vc_label::{LabelSet, words_are_ordered};
use vc_ring::Semiring;

/// For each state, and last for the number of states, how many transitions come from states below it.
pub(crate) fn starts<L: LabelSet, S: Semiring>(
    alloc: Global,
    transitions: &[Transition<L, S>],
    states: usize,
) -> Result<Vec<usize>, AllocError>
    requires order { AreInOrder (map (transition_of L.parts) transitions.now) }
    requires states { states < 2 ^ 32 }
    ensures { IfOk result (λ v. AreStarts (map (transition_of L.parts) transitions.now) states v.items) }
{
    let mut starts = Vec::with_capacity(alloc, states + 1)?;
    let mut at = 0;
    for state in 0..states + 1 {
        while at < transitions.len() && (transitions[at].from as usize) < state {
            at += 1;
        }
        starts.push(at)?;
    }
    Ok(starts)
}

/// What `starts` answers, where the transitions are the sum of themselves: each comes before the
/// next, none has the weight zero, and there are at most 4,000,000. None where they are not.
pub(crate) fn starts_of_sum<L: LabelSet, S: Semiring>(
    alloc: Global,
    transitions: &[Transition<L, S>],
    states: usize,
) -> Result<Option<Vec<usize>>, AllocError>
    requires { states < 2 ^ 32 }
    ensures { IfOk result (λ r. IfSome r (λ v. AreSummed S.set (map (transition_of L.parts) transitions.now) states v.items)) }
{
    words_are_ordered();
    if transitions.len() > MOST_TRANSITIONS {
        return Ok(None);
    }
    let mut starts = Vec::with_capacity(alloc, states + 1)?;
    for at in 0..transitions.len() {
        if !goes_on(transitions, at) {
            return Ok(None);
        }
        starts.resize(transitions[at].from as usize + 1, at)?;
    }
    starts.resize(states + 1, transitions.len())?;
    Ok(Some(starts))
}

/// Whether the transition at a place has another weight than zero and comes after the one before it.
fn goes_on<L: LabelSet, S: Semiring>(transitions: &[Transition<L, S>], at: usize) -> bool
    requires { at < length transitions.now }
    ensures { IsTrue result → GoesOn S.set (transition_of L.parts) transitions.now at }
{
    let next = &transitions[at];
    next.weight != S::zero() && (at == 0 || order(&transitions[at - 1], next).is_lt())
}
