//! Transitions that come in a list are added up without a map: sorted once, where they are not in order already.
ghost use Rattle.std.specs.Prelude.{◌≡◌, ◌++◌, ◌∷◌, [], All, IfOk, IsTrue, OnOk, map};
ghost use Rattle.vc_aut.specs.Additions.{IsSumAnswer};
ghost use Rattle.vc_aut.specs.Drafts.{without_zeros};
ghost use Rattle.vc_aut.specs.Order.{triple_order};
ghost use Rattle.vc_aut.specs.Runs.{IsRunAnswer, runs};
ghost use Rattle.vc_aut.specs.Stored.{transition_of};
ghost use Rattle.vc_aut.specs.Sums.{insert_all};

use crate::moves::MOST_TRANSITIONS;
use crate::transition::Transition;
use std::alloc::{AllocError, Global};
use std::cmp::Ordering;
use std::mem;
use vc_label::{LabelSet, words_are_ordered};
use vc_ring::{Limit, MakeFault, Measure, Semiring};

/// The sum of the transitions, in order and without zero sums, as `Automaton::from_transitions`
/// makes it: for an operation that gathers state by state what it brings, and so keeps no more than
/// the sums. `Overflow` names an addition of two of them that does not fit, and `Limit` comes where
/// more than 4,000,000 triples are different.
pub fn gather<L: LabelSet, S: Semiring>(
    alloc: Global,
    mut transitions: Vec<Transition<L, S>>,
) -> Result<Vec<Transition<L, S>>, MakeFault<S::Value>>
    requires { All (λ t. IsTrue (S.set.in_range t.weight)) transitions.items }
    ensures ok { IfOk result (λ v. map (transition_of L.parts) v.items ≡ without_zeros S.set S.Value.eq (insert_all S.set [] (map (transition_of L.parts) transitions.items))) }
    ensures answer { IsSumAnswer S.set (map (transition_of L.parts) transitions.items) result }
{
    words_are_ordered();
    let Ok(()) = transitions.sort_by(|left, right| order(left, right)) else {
        return Err(MakeFault::Memory(AllocError));
    };
    merge(alloc, transitions)
}

/// How two transitions compare: by source, then by label, and then by target.
pub(crate) fn order<L: LabelSet, S: Semiring>(
    left: &Transition<L, S>,
    right: &Transition<L, S>,
) -> Ordering
    ensures { result ≡ triple_order (transition_of L.parts left.now) (transition_of L.parts right.now) }
{
    left.from
        .cmp(&right.from)
        .then_with(|| left.label.cmp(&right.label))
        .then_with(|| left.to.cmp(&right.to))
}

/// Adds up neighbours of equal triples, and drops zero sums.
fn merge<L: LabelSet, S: Semiring>(
    alloc: Global,
    sorted: Vec<Transition<L, S>>,
) -> Result<Vec<Transition<L, S>>, MakeFault<S::Value>>
    requires { All (λ t. IsTrue (S.set.in_range t.weight)) sorted.items }
    ensures ok { IfOk result (λ v. map (transition_of L.parts) v.items ≡ without_zeros S.set S.Value.eq (runs S.set (map (transition_of L.parts) sorted.items))) }
    ensures answer { IsRunAnswer S.set (map (transition_of L.parts) sorted.items) result }
{
    let Ok(mut merged) = Vec::with_capacity(alloc, sorted.len()) else {
        return Err(MakeFault::Memory(AllocError));
    };
    let mut rest = sorted.into_iter();
    let Some(mut last) = rest.next() else {
        return Ok(merged);
    };
    let mut triples = 1;
    for next in rest {
        if order(&next, &last).is_eq() {
            last.weight = match S::add(last.weight, next.weight) {
                Ok(sum) => sum,
                Err(overflow) => return Err(MakeFault::Overflow(overflow)),
            };
        } else {
            if triples >= MOST_TRANSITIONS {
                return Err(MakeFault::Limit(Limit {
                    what: Measure::Transitions,
                    most: MOST_TRANSITIONS as u64,
                }));
            }
            triples += 1;
            let done = mem::replace(&mut last, next);
            let Ok(()) = keep(&mut merged, done) else {
                return Err(MakeFault::Memory(AllocError));
            };
        }
    }
    let Ok(()) = keep(&mut merged, last) else {
        return Err(MakeFault::Memory(AllocError));
    };
    Ok(merged)
}

/// Appends the transition, unless its weight is zero.
fn keep<L: LabelSet, S: Semiring>(
    kept: &mut Vec<Transition<L, S>>,
    transition: Transition<L, S>,
) -> Result<(), AllocError>
    ensures { OnOk result (map (transition_of L.parts) kept.new.items ≡ map (transition_of L.parts) kept.old.items ++ without_zeros S.set S.Value.eq (transition_of L.parts transition ∷ [])) }
{
    if transition.weight != S::zero() {
        kept.push(transition)?;
    }
    Ok(())
}
