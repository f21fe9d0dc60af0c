//! Transitions of two states that meet by their labels.
ghost use Rattle.std.specs.Prelude.{◌≡◌, ◌<◌, ◌∷◌, [], All, IfErr, IsTrue, OnOk, false, length, map};
ghost use Rattle.vc_aut.specs.Stored.{transition_of};
ghost use Rattle.vc_join.specs.Conjunctions.{IsMeeting, both_item, both_items};
ghost use Rattle.vc_join.specs.Pairs.{same_states};
ghost use Rattle.vc_join.specs.Runs.{AreByLabel};
ghost use Rattle.vc_label.specs.Sets.{IsOverSets};
ghost use Rattle.vc_model.specs.Automata.{Transition as Move};
ghost use Rattle.vc_model.specs.Lists.{In};
ghost use Rattle.vc_model.specs.Words.{is_empty};
ghost use Rattle.vc_ring.specs.Steps.{fits};
ghost use Rattle.vc_ring.specs.declared.faults.Overflow.TheVariants.{Mul};
ghost use Rattle.vc_search.specs.Courses.{IsStopped, led_all, targets};

use crate::pairs::Pair;
use crate::runs::{from_label, run_of};
use crate::weights::product;
use std::alloc::{AllocError, Global};
use vc_aut::Transition;
use vc_label::{LabelSet, words_are_ordered};
use vc_ring::{MakeFault, Semiring};
use vc_search::Exploration;

/// Leads from a pair by two transitions that have one label.
fn meet<L: LabelSet, S: Semiring>(
    alloc: Global,
    left: &Transition<L, S>,
    right: &Transition<L, S>,
    from: u32,
    into: &mut Exploration<L, S, Pair>,
) -> Result<(), MakeFault<S::Value>>
    requires from { from < length into.old.members }
    requires label { IsOverSets into.old.sets (L.parts left.now.label) }
    requires not_empty { is_empty (L.parts left.now.label) ≡ false }
    requires left_in { IsTrue (S.set.in_range left.now.weight) }
    requires right_in { IsTrue (S.set.in_range right.now.weight) }
    ensures ok { OnOk result (into.new ≡ led_all same_states from into.old
        (both_item S.set (transition_of L.parts left.now) (transition_of L.parts right.now) ∷ [])) }
    ensures fault { IfErr result (IsStopped same_states
        (λ o. (o ≡ Mul left.now.weight right.now.weight) × (fits S.set o ≡ false)) into.old
        ((left.now.to, right.now.to) ∷ []) 1) }
{
    let Ok(label) = L::copy(alloc, &left.label) else {
        return Err(MakeFault::Memory(AllocError));
    };
    let weight = match product::<S>(left.weight, right.weight) {
        Ok(weight) => weight,
        Err(overflow) => return Err(MakeFault::Overflow(overflow)),
    };
    match into.lead(from, label, (left.to, right.to), weight) {
        Ok(()) => return Ok(()),
        Err(fault) => return Err(fault),
    }
}

/// Leads from a pair by a transition and each of some others, which have its label.
fn meet_run<L: LabelSet, S: Semiring>(
    alloc: Global,
    left: &Transition<L, S>,
    run: &[Transition<L, S>],
    from: u32,
    into: &mut Exploration<L, S, Pair>,
) -> Result<(), MakeFault<S::Value>>
    requires from { from < length into.old.members }
    requires label { IsOverSets into.old.sets (L.parts left.now.label) }
    requires not_empty { is_empty (L.parts left.now.label) ≡ false }
    requires left_in { IsTrue (S.set.in_range left.now.weight) }
    requires run_in { All (λ t. IsTrue (S.set.in_range t.weight)) run.now }
    ensures ok { OnOk result (into.new ≡ led_all same_states from into.old
        (map (both_item S.set (transition_of L.parts left.now))
        (map (transition_of L.parts) run.now))) }
    ensures fault { IfErr result (IsStopped same_states
        (λ o. ((u : Move S.Value) × In u (map (transition_of L.parts) run.now)
        × (o ≡ Mul left.now.weight u.weight)) × (fits S.set o ≡ false)) into.old
        (targets (map (both_item S.set (transition_of L.parts left.now))
        (map (transition_of L.parts) run.now)))
        (length (map (both_item S.set (transition_of L.parts left.now))
        (map (transition_of L.parts) run.now)))) }
{
    for right in run {
        if let Err(fault) = meet(alloc, left, right, from, into) {
            return Err(fault);
        }
    }
    Ok(())
}

/// Leads from a pair by each two transitions with equal labels. Both lists are in the order of
/// their labels, so that each is gone through once but for runs of equal labels.
pub(crate) fn meet_all<L: LabelSet, S: Semiring>(
    alloc: Global,
    lefts: &[Transition<L, S>],
    rights: &[Transition<L, S>],
    from: u32,
    into: &mut Exploration<L, S, Pair>,
) -> Result<(), MakeFault<S::Value>>
    requires from { from < length into.old.members }
    requires lefts { AreByLabel (map (transition_of L.parts) lefts.now) }
    requires rights { AreByLabel (map (transition_of L.parts) rights.now) }
    requires labels { (t : Move S.Value) → In t (map (transition_of L.parts) lefts.now)
        → IsOverSets into.old.sets t.label }
    requires not_empty { (t : Move S.Value) → In t (map (transition_of L.parts) lefts.now)
        → is_empty t.label ≡ false }
    requires lefts_in { (t : Move S.Value) → In t (map (transition_of L.parts) lefts.now)
        → IsTrue (S.set.in_range t.weight) }
    requires rights_in { (t : Move S.Value) → In t (map (transition_of L.parts) rights.now)
        → IsTrue (S.set.in_range t.weight) }
    ensures ok { OnOk result (into.new ≡ led_all same_states from into.old (both_items S.set
        (map (transition_of L.parts) lefts.now) (map (transition_of L.parts) rights.now))) }
    ensures fault { IfErr result (IsStopped same_states
        (λ o. IsMeeting (map (transition_of L.parts) lefts.now)
        (map (transition_of L.parts) rights.now) o × (fits S.set o ≡ false)) into.old
        (targets (both_items S.set (map (transition_of L.parts) lefts.now)
        (map (transition_of L.parts) rights.now)))
        (length (both_items S.set (map (transition_of L.parts) lefts.now)
        (map (transition_of L.parts) rights.now)))) }
{
    words_are_ordered();
    let mut rest = rights;
    for left in lefts {
        rest = from_label::<L, S>(&left.label, rest);
        let run = run_of::<L, S>(&left.label, rest);
        if let Err(fault) = meet_run(alloc, left, run, from, into) {
            return Err(fault);
        }
    }
    Ok(())
}
