//! Moves of either state of a pair, in order.
ghost use Rattle.std.specs.Prelude.{◌≡◌, ◌<◌, ◌+◌, ◌∷◌, [], IfErr, IfOk, IsTrue, OnOk, false, length, map};
ghost use Rattle.vc_aut.specs.Stored.{transition_of};
ghost use Rattle.vc_join.specs.Orders.{item_before};
ghost use Rattle.vc_join.specs.Pairs.{same_states};
ghost use Rattle.vc_join.specs.Shuffles.{IsMixing, IsNextMixed, first_order, left_item, mixed_items, right_item};
ghost use Rattle.vc_label.specs.Sets.{IsOverSets};
ghost use Rattle.vc_model.specs.Automata.{Transition as Move};
ghost use Rattle.vc_model.specs.Gathered.{IsAscending};
ghost use Rattle.vc_model.specs.Lists.{In};
ghost use Rattle.vc_model.specs.Words.{is_empty};
ghost use Rattle.vc_ring.specs.Steps.{fits};
ghost use Rattle.vc_ring.specs.declared.faults.Overflow.TheVariants.{Add};
ghost use Rattle.vc_search.specs.Courses.{IsStopped, NoStep, led_all, targets};

use crate::pairs::Pair;
use crate::weights::sum;
use std::alloc::{AllocError, Global};
use std::cmp::Ordering;
use vc_aut::Transition;
use vc_label::{LabelSet, words_are_ordered};
use vc_ring::{MakeFault, Semiring};
use vc_search::Exploration;

/// Leads from a pair by a label and a weight.
fn lead_by<L: LabelSet, S: Semiring>(
    alloc: Global,
    label: &L::Label,
    weight: S::Value,
    to: Pair,
    from: u32,
    into: &mut Exploration<L, S, Pair>,
) -> Result<(), MakeFault<S::Value>>
    requires from { from < length into.old.members }
    requires label { IsOverSets into.old.sets (L.parts label.now) }
    requires not_empty { is_empty (L.parts label.now) ≡ false }
    requires weight { IsTrue (S.set.in_range weight) }
    ensures ok { OnOk result (into.new ≡ led_all same_states from into.old
        (record { label = L.parts label.now; weight = weight; to = to } ∷ [])) }
    ensures fault { IfErr result (IsStopped same_states NoStep into.old (to ∷ []) 1) }
{
    let Ok(label) = L::copy(alloc, label) else {
        return Err(MakeFault::Memory(AllocError));
    };
    match into.lead(from, label, to, weight) {
        Ok(()) => return Ok(()),
        Err(fault) => return Err(fault),
    }
}

/// Leads from a pair by a move of each of both that leads to the same pair: their weights are added.
fn lead_by_both<L: LabelSet, S: Semiring>(
    alloc: Global,
    left: &Transition<L, S>,
    right: &Transition<L, S>,
    to: Pair,
    from: u32,
    into: &mut Exploration<L, S, Pair>,
) -> Result<(), MakeFault<S::Value>>
    requires from { from < length into.old.members }
    requires label { IsOverSets into.old.sets (L.parts left.now.label) }
    requires not_empty { is_empty (L.parts left.now.label) ≡ false }
    requires left_in { IsTrue (S.set.in_range left.now.weight) }
    requires right_in { IsTrue (S.set.in_range right.now.weight) }
    ensures ok { OnOk result (into.new ≡ led_all same_states from into.old
        (record {
          label = L.parts left.now.label;
          weight = S.set.plus left.now.weight right.now.weight;
          to = to;
        } ∷ [])) }
    ensures fault { IfErr result (IsStopped same_states
        (λ o. (o ≡ Add left.now.weight right.now.weight) × (fits S.set o ≡ false)) into.old
        (to ∷ []) 1) }
{
    let weight = match sum::<S>(left.weight, right.weight) {
        Ok(weight) => weight,
        Err(overflow) => return Err(MakeFault::Overflow(overflow)),
    };
    match lead_by(alloc, &left.label, weight, to, from, into) {
        Ok(()) => return Ok(()),
        Err(fault) => return Err(fault),
    }
}

/// Which state has the next move, that in front of its list. Where one list has ended, it is that
/// of the other.
fn order_of_next<L: LabelSet, S: Semiring>(
    pair: Pair,
    lefts: &[Transition<L, S>],
    rights: &[Transition<L, S>],
) -> Ordering
    ensures { result ≡ first_order pair (map (transition_of L.parts) lefts.now)
        (map (transition_of L.parts) rights.now) }
{
    if lefts.is_empty() {
        return Ordering::Greater;
    }
    if rights.is_empty() {
        return Ordering::Less;
    }
    let (p, q) = pair;
    let left = &lefts[0];
    let right = &rights[0];
    left.label
        .cmp(&right.label)
        .then(left.to.cmp(&p).then(q.cmp(&right.to)))
}

/// Leads from a pair by the next move of one of both, or by one of each where they lead to the same
/// pair by the same label. It gives how many moves of each it took from the front.
fn mix_next<L: LabelSet, S: Semiring>(
    alloc: Global,
    pair: Pair,
    lefts: &[Transition<L, S>],
    rights: &[Transition<L, S>],
    from: u32,
    into: &mut Exploration<L, S, Pair>,
) -> Result<(usize, usize), MakeFault<S::Value>>
    requires from { from < length into.old.members }
    requires some { 0 < length lefts.now + length rights.now }
    requires lefts { IsAscending item_before
        (map (left_item pair.1) (map (transition_of L.parts) lefts.now)) }
    requires rights { IsAscending item_before
        (map (right_item pair.0) (map (transition_of L.parts) rights.now)) }
    requires lefts_over { (t : Move S.Value) → In t (map (transition_of L.parts) lefts.now)
        → IsOverSets into.old.sets t.label }
    requires rights_over { (t : Move S.Value) → In t (map (transition_of L.parts) rights.now)
        → IsOverSets into.old.sets t.label }
    requires lefts_full { (t : Move S.Value) → In t (map (transition_of L.parts) lefts.now)
        → is_empty t.label ≡ false }
    requires rights_full { (t : Move S.Value) → In t (map (transition_of L.parts) rights.now)
        → is_empty t.label ≡ false }
    requires lefts_in { (t : Move S.Value) → In t (map (transition_of L.parts) lefts.now)
        → IsTrue (S.set.in_range t.weight) }
    requires rights_in { (t : Move S.Value) → In t (map (transition_of L.parts) rights.now)
        → IsTrue (S.set.in_range t.weight) }
    ensures ok { IfOk result (λ n. IsNextMixed S.set pair (map (transition_of L.parts) lefts.now)
        (map (transition_of L.parts) rights.now) from into.old n into.new) }
    ensures fault { IfErr result (IsStopped same_states
        (λ o. IsMixing pair (map (transition_of L.parts) lefts.now)
        (map (transition_of L.parts) rights.now) o × (fits S.set o ≡ false)) into.old
        (targets (mixed_items S.set pair (map (transition_of L.parts) lefts.now)
        (map (transition_of L.parts) rights.now)))
        (length (mixed_items S.set pair (map (transition_of L.parts) lefts.now)
        (map (transition_of L.parts) rights.now)))) }
{
    words_are_ordered();
    let (p, q) = pair;
    match order_of_next(pair, lefts, rights) {
        Ordering::Less => {
            let left = &lefts[0];
            match lead_by(alloc, &left.label, left.weight, (left.to, q), from, into) {
                Ok(()) => return Ok((1, 0)),
                Err(fault) => return Err(fault),
            }
        }
        Ordering::Greater => {
            let right = &rights[0];
            match lead_by(alloc, &right.label, right.weight, (p, right.to), from, into) {
                Ok(()) => return Ok((0, 1)),
                Err(fault) => return Err(fault),
            }
        }
        Ordering::Equal => {
            let left = &lefts[0];
            match lead_by_both(alloc, left, &rights[0], (left.to, q), from, into) {
                Ok(()) => return Ok((1, 1)),
                Err(fault) => return Err(fault),
            }
        }
    }
}

/// Leads from a pair by each move of one of both. Both lists are in order, and each is gone through
/// once.
pub(crate) fn mix_all<L: LabelSet, S: Semiring>(
    alloc: Global,
    pair: Pair,
    lefts: &[Transition<L, S>],
    rights: &[Transition<L, S>],
    from: u32,
    into: &mut Exploration<L, S, Pair>,
) -> Result<(), MakeFault<S::Value>>
    requires from { from < length into.old.members }
    requires lefts { IsAscending item_before
        (map (left_item pair.1) (map (transition_of L.parts) lefts.now)) }
    requires rights { IsAscending item_before
        (map (right_item pair.0) (map (transition_of L.parts) rights.now)) }
    requires lefts_over { (t : Move S.Value) → In t (map (transition_of L.parts) lefts.now)
        → IsOverSets into.old.sets t.label }
    requires rights_over { (t : Move S.Value) → In t (map (transition_of L.parts) rights.now)
        → IsOverSets into.old.sets t.label }
    requires lefts_full { (t : Move S.Value) → In t (map (transition_of L.parts) lefts.now)
        → is_empty t.label ≡ false }
    requires rights_full { (t : Move S.Value) → In t (map (transition_of L.parts) rights.now)
        → is_empty t.label ≡ false }
    requires lefts_in { (t : Move S.Value) → In t (map (transition_of L.parts) lefts.now)
        → IsTrue (S.set.in_range t.weight) }
    requires rights_in { (t : Move S.Value) → In t (map (transition_of L.parts) rights.now)
        → IsTrue (S.set.in_range t.weight) }
    ensures ok { OnOk result (into.new ≡ led_all same_states from into.old (mixed_items S.set pair
        (map (transition_of L.parts) lefts.now) (map (transition_of L.parts) rights.now))) }
    ensures fault { IfErr result (IsStopped same_states
        (λ o. IsMixing pair (map (transition_of L.parts) lefts.now)
        (map (transition_of L.parts) rights.now) o × (fits S.set o ≡ false)) into.old
        (targets (mixed_items S.set pair (map (transition_of L.parts) lefts.now)
        (map (transition_of L.parts) rights.now)))
        (length (mixed_items S.set pair (map (transition_of L.parts) lefts.now)
        (map (transition_of L.parts) rights.now)))) }
{
    let mut left = lefts;
    let mut right = rights;
    while !left.is_empty() || !right.is_empty() {
        match mix_next(alloc, pair, left, right, from, into) {
            Ok(taken) => {
                left = &left[taken.0..];
                right = &right[taken.1..];
            }
            Err(fault) => return Err(fault),
        }
    }
    Ok(())
}
