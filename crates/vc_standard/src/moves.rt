//! Lists of transitions.
ghost use Rattle.std.specs.Prelude.{◌≡◌, ◌+◌, ◌*◌, ◌++◌, IfErr, IfOk, IsTrue, OnOk, map};
ghost use Rattle.vc_ring.specs.declared.faults.Overflow.TheVariants.{Mul};
ghost use Rattle.vc_standard.specs.Refusals.{IsFault};
ghost use Rattle.vc_standard.specs.Steps.{IsMoveMultiple};
ghost use Rattle.vc_standard.specs.Stored.{item_of, items_of};
ghost use Rattle.vc_standard.specs.Structures.{moved};
ghost use Rattle.vc_terms.specs.ItemLists.{scaled_items};

use crate::lists::append;
use crate::shape::Move;
use crate::weights::times;
use std::alloc::{AllocError, Global};
use vc_label::LabelSet;
use vc_ring::{MakeFault, Semiring};

/// The place behind n others. It refuses where there is no such number.
pub(crate) fn place_behind(n: usize, place: usize) -> Result<usize, AllocError>
    ensures { IfOk result (λ r. r ≡ n + place) }
{
    match n.checked_add(place) {
        Some(sum) => return Ok(sum),
        None => return Err(AllocError),
    }
}

/// The place of a pair, where there are m second places. It refuses where there is no such number.
pub(crate) fn place_of_pair(m: usize, first: usize, second: usize) -> Result<usize, AllocError>
    ensures { IfOk result (λ r. r ≡ first * m + second) }
{
    let Some(row) = first.checked_mul(m) else {
        return Err(AllocError);
    };
    match row.checked_add(second) {
        Some(sum) => return Ok(sum),
        None => return Err(AllocError),
    }
}

/// The transitions behind n places.
pub(crate) fn shift<L: LabelSet, S: Semiring>(
    alloc: Global,
    n: usize,
    steps: Vec<Move<L, S>>,
) -> Result<Vec<Move<L, S>>, AllocError>
    ensures { IfOk result (λ v. items_of L.parts v.items ≡ moved n (items_of L.parts steps.items)) }
{
    let mut shifted = Vec::new(alloc);
    add_shifted(n, steps, &mut shifted)?;
    Ok(shifted)
}

/// Adds the transitions behind n places.
pub(crate) fn add_shifted<L: LabelSet, S: Semiring>(
    n: usize,
    steps: Vec<Move<L, S>>,
    into: &mut Vec<Move<L, S>>,
) -> Result<(), AllocError>
    ensures { OnOk result (items_of L.parts into.new.items ≡ items_of L.parts into.old.items ++
        moved n (items_of L.parts steps.items)) }
{
    for step in steps {
        let Move { label, weight, to } = step;
        let to = place_behind(n, to)?;
        append(into, Move { label, weight, to })?;
    }
    Ok(())
}

/// A transition with k before its weight.
pub(crate) fn scaled_copy<L: LabelSet, S: Semiring>(
    alloc: Global,
    k: S::Value,
    step: &Move<L, S>,
) -> Result<Move<L, S>, MakeFault<S::Value>>
    requires { IsTrue (S.set.in_range k) }
    ensures step { IfOk result (λ m. item_of L.parts m ≡ record {
      label = L.parts step.now.label;
      weight = S.set.times k step.now.weight;
      to = step.now.to;
    }) }
    ensures fault { IfErr result (λ f. IsFault S.set (λ o. o ≡ Mul k step.now.weight) ⊥ f) }
{
    let weight = times::<S>(k, step.weight)?;
    let label = L::copy(alloc, &step.label)?;
    Ok(Move {
        label,
        weight,
        to: step.to,
    })
}

/// Adds the transitions with k before their weights.
pub(crate) fn add_scaled<L: LabelSet, S: Semiring>(
    alloc: Global,
    k: S::Value,
    steps: &[Move<L, S>],
    into: &mut Vec<Move<L, S>>,
) -> Result<(), MakeFault<S::Value>>
    requires { IsTrue (S.set.in_range k) }
    ensures steps { OnOk result (items_of L.parts into.new.items ≡ items_of L.parts into.old.items
        ++ scaled_items S.set k (items_of L.parts steps.now)) }
    ensures fault { IfErr result (λ f. IsFault S.set (IsMoveMultiple k (items_of L.parts steps.now))
        ⊥ f) }
{
    for step in steps {
        let step = scaled_copy::<L, S>(alloc, k, step)?;
        append(into, step)?;
    }
    Ok(())
}

/// A transition that leads elsewhere. It refuses for memory alone.
pub(crate) fn copy_to<L: LabelSet, S: Semiring>(
    alloc: Global,
    to: usize,
    step: &Move<L, S>,
) -> Result<Move<L, S>, AllocError>
    ensures { IfOk result (λ m. item_of L.parts m ≡ record {
      label = L.parts step.now.label;
      weight
          = step.now.weight;
      to = to;
    }) }
{
    let label = L::copy(alloc, &step.label)?;
    Ok(Move {
        label,
        weight: step.weight,
        to,
    })
}

/// A transition behind n places. It refuses for memory alone.
pub(crate) fn copy_behind<L: LabelSet, S: Semiring>(
    alloc: Global,
    n: usize,
    step: &Move<L, S>,
) -> Result<Move<L, S>, AllocError>
    ensures { IfOk result (λ m. item_of L.parts m ≡ record {
      label = L.parts step.now.label;
      weight
          = step.now.weight;
      to = n + step.now.to;
    }) }
{
    let to = place_behind(n, step.to)?;
    let copy = copy_to::<L, S>(alloc, to, step)?;
    Ok(copy)
}

/// The transitions with k before their weights.
pub(crate) fn scale<L: LabelSet, S: Semiring>(
    alloc: Global,
    k: S::Value,
    steps: Vec<Move<L, S>>,
) -> Result<Vec<Move<L, S>>, MakeFault<S::Value>>
    requires { IsTrue (S.set.in_range k) }
    ensures steps { IfOk result (λ v. items_of L.parts v.items ≡ scaled_items S.set k (items_of
        L.parts steps.items)) }
    ensures fault { IfErr result (λ f. IsFault S.set (IsMoveMultiple k (items_of L.parts
        steps.items)) ⊥ f) }
{
    let mut scaled = Vec::new(alloc);
    for step in steps {
        let Move { label, weight, to } = step;
        let weight = times::<S>(k, weight)?;
        append(&mut scaled, Move { label, weight, to })?;
    }
    Ok(scaled)
}
