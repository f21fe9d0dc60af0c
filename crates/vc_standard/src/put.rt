//! Transitions that are put to others: of equal triples the weights are added.
ghost use Rattle.std.specs.Prelude.{◌≡◌, ◌++◌, ◌∷◌, [], IfErr, IfOk, IsTrue, MatchOption, OnOk};
ghost use Rattle.vc_model.specs.Lists.{In};
ghost use Rattle.vc_standard.specs.Found.{IsFound};
ghost use Rattle.vc_standard.specs.Refusals.{IsFault};
ghost use Rattle.vc_standard.specs.Steps.{put_steps, grouped_steps, IsPutStep};
ghost use Rattle.vc_standard.specs.Stored.{item_of, items_of};
ghost use Rattle.vc_standard.specs.Structures.{moved, same_place};
ghost use Rattle.vc_standard.specs.Within.{Are, IsUpTo};
ghost use Rattle.vc_terms.specs.ItemLists.{same_item, put_item, grouped_items, scaled_items};

use crate::lists::append;
use crate::moves::{copy_behind, scaled_copy};
use crate::shape::Move;
use crate::weights::{plus, same_label};
use std::alloc::Global;
use vc_label::LabelSet;
use vc_ring::{MakeFault, Semiring};

/// Whether two transitions have the same label and lead to the same place.
fn same_move<L: LabelSet, S: Semiring>(one: &Move<L, S>, other: &Move<L, S>) -> bool
    ensures { result ≡ same_item same_place (item_of L.parts one.now) (item_of L.parts other.now) }
{
    if one.to != other.to {
        return false;
    }
    same_label::<L>(&one.label, &other.label)
}

/// The place of the first transition with the same label that leads to the same place.
fn find<L: LabelSet, S: Semiring>(steps: &[Move<L, S>], step: &Move<L, S>) -> Option<usize>
    ensures { MatchOption result
        ((put_item S.set same_place (item_of L.parts step.now) (items_of L.parts steps.now) ≡ items_of L.parts steps.now ++ item_of L.parts step.now ∷ [])
        × (put_steps (item_of L.parts step.now) (items_of L.parts steps.now) ≡ []))
        (λ i. IsFound S.set (items_of L.parts steps.now) (item_of L.parts step.now) i) }
{
    for i in 0..steps.len() {
        if same_move(&steps[i], step) {
            return Some(i);
        }
    }
    None
}

/// The furthest place to which one of the transitions leads, and 0 where there is none.
fn furthest<L: LabelSet, S: Semiring>(steps: &[Move<L, S>]) -> usize
    ensures { Are (IsUpTo result) (items_of L.parts steps.now) }
{
    let mut most = 0;
    for step in steps {
        most = most.max(step.to);
    }
    most
}

/// Puts a transition to others, of which none leads past the place `most`, and answers such a place
/// for all of them. Where it leads past all others no equal one is looked for.
fn put<L: LabelSet, S: Semiring>(
    step: Move<L, S>,
    most: usize,
    into: &mut Vec<Move<L, S>>,
) -> Result<usize, MakeFault<S::Value>>
    requires { Are (IsUpTo most) (items_of L.parts into.old.items) }
    ensures steps { OnOk result (items_of L.parts into.new.items
        ≡ put_item S.set same_place (item_of L.parts step) (items_of L.parts into.old.items)) }
    ensures most { IfOk result (λ n. Are (IsUpTo n) (items_of L.parts into.new.items)) }
    ensures fault { IfErr result (λ f. IsFault S.set (λ o. In o (put_steps (item_of L.parts step)
        (items_of L.parts into.old.items))) ⊥ f) }
{
    let place = step.to;
    if most < place {
        append(into, step)?;
        return Ok(place);
    }
    let Some(i) = find(into.as_slice(), &step) else {
        append(into, step)?;
        return Ok(most);
    };
    let Move { label, weight, to } = step;
    let weight = plus::<S>(into[i].weight, weight)?;
    into[i] = Move { label, weight, to };
    Ok(most)
}

/// Puts the transitions, with k before their weights, to others.
pub(crate) fn put_scaled<L: LabelSet, S: Semiring>(
    alloc: Global,
    k: S::Value,
    steps: &[Move<L, S>],
    into: &mut Vec<Move<L, S>>,
) -> Result<(), MakeFault<S::Value>>
    requires { IsTrue (S.set.in_range k) }
    ensures steps { OnOk result (items_of L.parts into.new.items ≡ grouped_items S.set same_place
        (items_of L.parts into.old.items) (scaled_items S.set k (items_of L.parts steps.now))) }
    ensures fault { IfErr result (λ f. IsFault S.set (IsPutStep S.set k (items_of L.parts steps.now)
        (items_of L.parts into.old.items)) ⊥ f) }
{
    let mut most = furthest(into.as_slice());
    for step in steps {
        let step = scaled_copy::<L, S>(alloc, k, step)?;
        most = put(step, most, into)?;
    }
    Ok(())
}

/// Puts the transitions behind n places to others.
pub(crate) fn put_behind<L: LabelSet, S: Semiring>(
    alloc: Global,
    n: usize,
    steps: &[Move<L, S>],
    into: &mut Vec<Move<L, S>>,
) -> Result<(), MakeFault<S::Value>>
    ensures steps { OnOk result (items_of L.parts into.new.items ≡ grouped_items S.set same_place
        (items_of L.parts into.old.items) (moved n (items_of L.parts steps.now))) }
    ensures fault { IfErr result (λ f. IsFault S.set (λ o. In o (grouped_steps S.set (items_of
        L.parts into.old.items) (moved n (items_of L.parts steps.now)))) ⊥ f) }
{
    let mut most = furthest(into.as_slice());
    for step in steps {
        let step = copy_behind::<L, S>(alloc, n, step)?;
        most = put(step, most, into)?;
    }
    Ok(())
}
