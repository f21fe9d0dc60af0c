//! Structures, and the simplest operations on them.
ghost use Rattle.std.specs.Prelude.{◌≡◌, ◌<◌, IfErr, IfOk, IsTrue};
ghost use Rattle.vc_standard.specs.Automata.{states_of};
ghost use Rattle.vc_standard.specs.Named.{IsLarge};
ghost use Rattle.vc_standard.specs.Refusals.{IsFault};
ghost use Rattle.vc_standard.specs.Shapes.{shape_of};
ghost use Rattle.vc_standard.specs.Steps.{IsMultiple, IsSumStep};
ghost use Rattle.vc_standard.specs.Structures.{bare, labelled, weighted, beside};

use crate::joining::{joined_behind, no_positions};
use crate::lists::append;
use crate::moves::{add_shifted, scale};
use crate::positions::Positions;
use crate::shape::{Move, Position};
use crate::weights::{plus, times};
use std::alloc::Global;
use vc_label::LabelSet;
use vc_ring::{MakeFault, Semiring};

/// The start and the positions.
#[derive(Drop)]
pub(crate) struct Shape<L: LabelSet, S: Semiring> {
    pub(crate) start: Position<L, S>,
    pub(crate) positions: Positions<L, S>,
}

/// No position.
pub(crate) fn bare_shape<L: LabelSet, S: Semiring>(alloc: Global, last: S::Value) -> Shape<L, S>
    requires { IsTrue (S.set.in_range last) }
    ensures { shape_of L.parts result ≡ bare last }
{
    Shape {
        start: Position {
            last,
            moves: Vec::new(alloc),
        },
        positions: no_positions(alloc),
    }
}

/// One position, to which the label leads. It refuses for memory alone.
pub(crate) fn labelled_shape<L: LabelSet, S: Semiring>(
    alloc: Global,
    label: &L::Label,
) -> Result<Shape<L, S>, MakeFault<S::Value>>
    ensures shape { IfOk result (λ s. shape_of L.parts s ≡ labelled S.set (L.parts label.now)) }
    ensures fault { IfErr result (λ f. IsFault S.set (λ _. ⊥) ⊥ f) }
{
    let label = L::copy(alloc, label)?;
    let mut moves = Vec::new(alloc);
    append(
        &mut moves,
        Move {
            label,
            weight: S::one(),
            to: 0,
        },
    )?;
    let mut list = Vec::new(alloc);
    append(
        &mut list,
        Position {
            last: S::one(),
            moves: Vec::new(alloc),
        },
    )?;
    Ok(Shape {
        start: Position {
            last: S::zero(),
            moves,
        },
        positions: Positions { list, named: 0 },
    })
}

/// k before the transitions from the start and its final weight.
pub(crate) fn weighted_shape<L: LabelSet, S: Semiring>(
    alloc: Global,
    k: S::Value,
    shape: Shape<L, S>,
) -> Result<Shape<L, S>, MakeFault<S::Value>>
    requires { IsTrue (S.set.in_range k) }
    ensures shape { IfOk result (λ s. shape_of L.parts s ≡ weighted S.set k (shape_of L.parts
        shape)) }
    ensures fault { IfErr result (λ f. IsFault S.set (IsMultiple k (shape_of L.parts shape).start) ⊥
        f) }
{
    let Shape { start, positions } = shape;
    let Position { last, moves } = start;
    let last = times::<S>(k, last)?;
    let moves = scale::<L, S>(alloc, k, moves)?;
    Ok(Shape {
        start: Position { last, moves },
        positions,
    })
}

/// The positions side by side.
pub(crate) fn beside_shape<L: LabelSet, S: Semiring>(
    alloc: Global,
    first: Shape<L, S>,
    second: Shape<L, S>,
) -> Result<Shape<L, S>, MakeFault<S::Value>>
    ensures shape { IfOk result (λ s. shape_of L.parts s ≡ beside S.set (shape_of L.parts first)
        (shape_of L.parts second)) }
    ensures fault { IfErr result (λ f. IsFault S.set (IsSumStep (shape_of L.parts first) (shape_of
        L.parts second)) (IsLarge 4000000 (beside S.set (shape_of L.parts first) (shape_of L.parts
        second))) f) }
{
    let Shape { start, positions } = first;
    let Position { last, moves } = start;
    let Shape {
        start: other,
        positions: others,
    } = second;
    let Position {
        last: other_last,
        moves: other_moves,
    } = other;
    let n = positions.list.len();
    let last = plus::<S>(last, other_last)?;
    let mut moves = moves;
    add_shifted::<L, S>(n, other_moves, &mut moves)?;
    let positions = joined_behind::<L, S>(alloc, n, positions, others)?;
    Ok(Shape {
        start: Position { last, moves },
        positions,
    })
}
