//! Conjunctions of structures.
ghost use Rattle.std.specs.Prelude.{◌≡◌, ◌+◌, ◌*◌, ◌++◌, ◌∷◌, [], ◌<◌, IfErr, IfOk, OnOk, map};
ghost use Rattle.vc_ring.specs.declared.faults.Overflow.TheVariants.{Mul};
ghost use Rattle.vc_standard.specs.Counts.{moves_in};
ghost use Rattle.vc_standard.specs.Named.{IsLarge};
ghost use Rattle.vc_standard.specs.Refusals.{IsFault};
ghost use Rattle.vc_standard.specs.Shapes.{positions_of, shape_of};
ghost use Rattle.vc_standard.specs.Steps.{IsMeetingOf, IsMeeting, IsMeetStep, IsRowStep, IsBothStep};
ghost use Rattle.vc_standard.specs.Stored.{item_of, items_of, position_of};
ghost use Rattle.vc_standard.specs.Structures.{meetings, met, conjoined};
ghost use Rattle.vc_terms.specs.ItemLists.{met_items};

use crate::joining::{no_positions, with_position};
use crate::lists::append;
use crate::moves::place_of_pair;
use crate::positions::Positions;
use crate::shape::{Move, Position};
use crate::shapes::Shape;
use crate::weights::{same_label, times};
use std::alloc::Global;
use vc_label::LabelSet;
use vc_ring::{MakeFault, Semiring};

/// The transition of two that read the same letters.
fn meet<L: LabelSet, S: Semiring>(
    alloc: Global,
    m: usize,
    first: &Move<L, S>,
    second: &Move<L, S>,
) -> Result<Move<L, S>, MakeFault<S::Value>>
    ensures step { IfOk result (λ r. item_of L.parts r ≡ record {
      label = L.parts first.now.label;
      weight = S.set.times first.now.weight second.now.weight;
      to = first.now.to * m +
          second.now.to;
    }) }
    ensures fault { IfErr result (λ f. IsFault S.set (λ o. o ≡ Mul first.now.weight
        second.now.weight) ⊥ f) }
{
    let weight = times::<S>(first.weight, second.weight)?;
    let to = place_of_pair(m, first.to, second.to)?;
    let label = L::copy(alloc, &first.label)?;
    Ok(Move { label, weight, to })
}

/// Adds the transition of two, where they read the same letters.
fn add_meeting<L: LabelSet, S: Semiring>(
    alloc: Global,
    m: usize,
    first: &Move<L, S>,
    second: &Move<L, S>,
    into: &mut Vec<Move<L, S>>,
) -> Result<(), MakeFault<S::Value>>
    ensures steps { OnOk result (items_of L.parts into.new.items ≡ items_of L.parts into.old.items
        ++ meetings S.set m (item_of L.parts first.now) (item_of L.parts second.now ∷ [])) }
    ensures fault { IfErr result (λ f. IsFault S.set (IsMeetingOf (item_of L.parts first.now)
        (item_of L.parts second.now ∷ [])) ⊥ f) }
{
    if !same_label::<L>(&first.label, &second.label) {
        return Ok(());
    }
    let step = meet::<L, S>(alloc, m, first, second)?;
    append(into, step)?;
    Ok(())
}

/// Adds the transitions of one with each of the others that reads the same letters.
fn add_meetings<L: LabelSet, S: Semiring>(
    alloc: Global,
    m: usize,
    first: &Move<L, S>,
    second: &[Move<L, S>],
    into: &mut Vec<Move<L, S>>,
) -> Result<(), MakeFault<S::Value>>
    ensures steps { OnOk result (items_of L.parts into.new.items ≡ items_of L.parts into.old.items
        ++ meetings S.set m (item_of L.parts first.now) (items_of L.parts second.now)) }
    ensures fault { IfErr result (λ f. IsFault S.set (IsMeetingOf (item_of L.parts first.now)
        (items_of L.parts second.now)) ⊥ f) }
{
    for other in second {
        add_meeting::<L, S>(alloc, m, first, other, into)?;
    }
    Ok(())
}

/// The transitions of any two that read the same letters.
fn meet_all<L: LabelSet, S: Semiring>(
    alloc: Global,
    m: usize,
    first: &[Move<L, S>],
    second: &[Move<L, S>],
) -> Result<Vec<Move<L, S>>, MakeFault<S::Value>>
    ensures steps { IfOk result (λ v. items_of L.parts v.items ≡ met_items S.set (λ i j. i * m + j)
        (items_of L.parts first.now) (items_of L.parts second.now)) }
    ensures fault { IfErr result (λ f. IsFault S.set (IsMeeting (items_of L.parts first.now)
        (items_of L.parts second.now)) ⊥ f) }
{
    let mut all = Vec::new(alloc);
    for step in first {
        add_meetings::<L, S>(alloc, m, step, second, &mut all)?;
    }
    Ok(all)
}

/// The state of two states.
fn meet_states<L: LabelSet, S: Semiring>(
    alloc: Global,
    m: usize,
    first: &Position<L, S>,
    second: &Position<L, S>,
) -> Result<Position<L, S>, MakeFault<S::Value>>
    ensures position { IfOk result (λ p. position_of L.parts p ≡ met S.set m (position_of L.parts
        first.now) (position_of L.parts second.now)) }
    ensures fault { IfErr result (λ f. IsFault S.set (IsMeetStep (position_of L.parts first.now)
        (position_of L.parts second.now)) ⊥ f) }
{
    let last = times::<S>(first.last, second.last)?;
    let moves = meet_all::<L, S>(alloc, m, first.moves.as_slice(), second.moves.as_slice())?;
    Ok(Position { last, moves })
}

/// Adds the states of one state with each of the others.
fn add_row<L: LabelSet, S: Semiring>(
    alloc: Global,
    m: usize,
    first: &Position<L, S>,
    second: &[Position<L, S>],
    into: Positions<L, S>,
) -> Result<Positions<L, S>, MakeFault<S::Value>>
    ensures positions { IfOk result (λ all. positions_of L.parts all ≡ positions_of L.parts into ++
        map (met S.set m (position_of L.parts first.now)) (map (position_of L.parts) second.now)) }
    ensures fault { IfErr result (λ f. IsFault S.set (IsRowStep (position_of L.parts first.now) (map
        (position_of L.parts) second.now)) (4000000 < moves_in (positions_of L.parts into ++ map
        (met S.set m (position_of L.parts first.now)) (map (position_of L.parts) second.now))) f) }
{
    let mut all = into;
    for other in second {
        let position = meet_states::<L, S>(alloc, m, first, other)?;
        all = with_position(all, position)?;
    }
    Ok(all)
}

/// The conjunction: the pairs of positions, ordered by the first and then by the second.
pub(crate) fn conjoined_shape<L: LabelSet, S: Semiring>(
    alloc: Global,
    first: &Shape<L, S>,
    second: &Shape<L, S>,
) -> Result<Shape<L, S>, MakeFault<S::Value>>
    ensures shape { IfOk result (λ s. shape_of L.parts s ≡ conjoined S.set (shape_of L.parts
        first.now) (shape_of L.parts second.now)) }
    ensures fault { IfErr result (λ f. IsFault S.set (IsBothStep (shape_of L.parts first.now)
        (shape_of L.parts second.now)) (IsLarge 4000000 (conjoined S.set (shape_of L.parts
        first.now) (shape_of L.parts second.now))) f) }
{
    let rows = first.positions.list.as_slice();
    let columns = second.positions.list.as_slice();
    let m = columns.len();
    let start = meet_states::<L, S>(alloc, m, &first.start, &second.start)?;
    let mut positions = no_positions(alloc);
    for position in rows {
        positions = add_row::<L, S>(alloc, m, position, columns, positions)?;
    }
    Ok(Shape { start, positions })
}
