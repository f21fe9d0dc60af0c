//! Shuffles of structures.
ghost use Rattle.std.specs.Prelude.{◌≡◌, ◌+◌, ◌*◌, ◌++◌, ◌∷◌, ◌<◌, IfErr, IfOk, map};
ghost use Rattle.vc_standard.specs.Automata.{states_of};
ghost use Rattle.vc_standard.specs.Counts.{moves_in};
ghost use Rattle.vc_standard.specs.Named.{IsLarge};
ghost use Rattle.vc_standard.specs.Refusals.{IsFault};
ghost use Rattle.vc_standard.specs.Shapes.{positions_of, shape_of};
ghost use Rattle.vc_standard.specs.Steps.{IsMixStep, IsMixRowStep, IsShuffleStep};
ghost use Rattle.vc_standard.specs.Stored.{items_of, position_of};
ghost use Rattle.vc_standard.specs.Structures.{mixed, mixed_row, shuffled, size_of};
ghost use Rattle.vc_terms.specs.ItemLists.{mapped};

use crate::joining::{no_positions, with_position};
use crate::lists::append;
use crate::moves::{copy_to, place_behind, place_of_pair};
use crate::positions::Positions;
use crate::put::put_behind;
use crate::shape::{Move, Position};
use crate::shapes::Shape;
use crate::weights::times;
use std::alloc::{AllocError, Global};
use vc_label::LabelSet;
use vc_ring::{MakeFault, Semiring};

/// The transitions to the pairs with one second place, where there are `width` second places.
fn spread<L: LabelSet, S: Semiring>(
    alloc: Global,
    width: usize,
    second: usize,
    steps: &[Move<L, S>],
) -> Result<Vec<Move<L, S>>, AllocError>
    ensures { IfOk result (λ v. items_of L.parts v.items ≡ mapped (λ k. k * width + second)
        (items_of L.parts steps.now)) }
{
    let mut all = Vec::with_capacity(alloc, steps.len())?;
    for step in steps {
        let to = place_of_pair(width, step.to, second)?;
        let step = copy_to::<L, S>(alloc, to, step)?;
        append(&mut all, step)?;
    }
    Ok(all)
}

/// The state of the states with the numbers i and j, of which one moves at a time.
fn mix_states<L: LabelSet, S: Semiring>(
    alloc: Global,
    m: usize,
    i: usize,
    j: usize,
    first: &Position<L, S>,
    second: &Position<L, S>,
) -> Result<Position<L, S>, MakeFault<S::Value>>
    ensures position { IfOk result (λ p. position_of L.parts p ≡ mixed S.set m i j (position_of
        L.parts first.now) (position_of L.parts second.now)) }
    ensures fault { IfErr result (λ f. IsFault S.set (IsMixStep S.set m i j (position_of L.parts
        first.now) (position_of L.parts second.now)) ⊥ f) }
{
    let width = place_behind(m, 1)?;
    let column = place_behind(m, j)?;
    let row = place_of_pair(width, i, 0)?;
    let last = times::<S>(first.last, second.last)?;
    let mut moves = spread::<L, S>(alloc, width, column, first.moves.as_slice())?;
    put_behind::<L, S>(alloc, row, second.moves.as_slice(), &mut moves)?;
    Ok(Position { last, moves })
}

/// Adds the states of one state with the others from number j on.
fn add_row<L: LabelSet, S: Semiring>(
    alloc: Global,
    m: usize,
    i: usize,
    j: usize,
    first: &Position<L, S>,
    second: &[Position<L, S>],
    into: Positions<L, S>,
) -> Result<Positions<L, S>, MakeFault<S::Value>>
    ensures positions { IfOk result (λ all. positions_of L.parts all ≡ positions_of L.parts into ++
        mixed_row S.set m i j (position_of L.parts first.now) (map (position_of L.parts)
        second.now)) }
    ensures fault { IfErr result (λ f. IsFault S.set (IsMixRowStep S.set m i j (position_of L.parts
        first.now) (map (position_of L.parts) second.now)) (4000000 < moves_in (positions_of L.parts
        into ++ mixed_row S.set m i j (position_of L.parts first.now) (map (position_of L.parts)
        second.now))) f) }
{
    let mut all = into;
    for k in 0..second.len() {
        let number = place_behind(j, k)?;
        let position = mix_states::<L, S>(alloc, m, i, number, first, &second[k])?;
        all = with_position(all, position)?;
    }
    Ok(all)
}

/// Adds the states of one state with all of the second structure.
fn add_full_row<L: LabelSet, S: Semiring>(
    alloc: Global,
    i: usize,
    first: &Position<L, S>,
    second: &Shape<L, S>,
    into: Positions<L, S>,
) -> Result<Positions<L, S>, MakeFault<S::Value>>
    ensures positions { IfOk result (λ all. positions_of L.parts all ≡ positions_of L.parts into ++
        mixed_row S.set (size_of (shape_of L.parts second.now)) i 0 (position_of L.parts first.now)
        (states_of (shape_of L.parts second.now))) }
    ensures fault { IfErr result (λ f. IsFault S.set (IsMixRowStep S.set (size_of (shape_of L.parts
        second.now)) i 0 (position_of L.parts first.now) (states_of (shape_of L.parts second.now)))
        (4000000 < moves_in (positions_of L.parts into ++ mixed_row S.set (size_of (shape_of L.parts
        second.now)) i 0 (position_of L.parts first.now) (states_of (shape_of L.parts second.now))))
        f) }
{
    let others = second.positions.list.as_slice();
    let m = others.len();
    let position = mix_states::<L, S>(alloc, m, i, 0, first, &second.start)?;
    let all = with_position(into, position)?;
    let row = add_row::<L, S>(alloc, m, i, 1, first, others, all)?;
    Ok(row)
}

/// The shuffle: the pairs of states but that of both starts, ordered by the first and then by the
/// second.
pub(crate) fn shuffled_shape<L: LabelSet, S: Semiring>(
    alloc: Global,
    first: &Shape<L, S>,
    second: &Shape<L, S>,
) -> Result<Shape<L, S>, MakeFault<S::Value>>
    ensures shape { IfOk result (λ s. shape_of L.parts s ≡ shuffled S.set (shape_of L.parts
        first.now) (shape_of L.parts second.now)) }
    ensures fault { IfErr result (λ f. IsFault S.set (IsShuffleStep S.set (shape_of L.parts
        first.now) (shape_of L.parts second.now)) (IsLarge 4000000 (shuffled S.set (shape_of L.parts
        first.now) (shape_of L.parts second.now))) f) }
{
    let rows = first.positions.list.as_slice();
    let others = second.positions.list.as_slice();
    let m = others.len();
    let start = mix_states::<L, S>(alloc, m, 0, 0, &first.start, &second.start)?;
    let none = no_positions(alloc);
    let top = add_row::<L, S>(alloc, m, 0, 1, &first.start, others, none)?;
    let mut all = top;
    for k in 0..rows.len() {
        let number = place_behind(1, k)?;
        all = add_full_row::<L, S>(alloc, number, &rows[k], second, all)?;
    }
    Ok(Shape {
        start,
        positions: all,
    })
}
