//! Stars of structures.
ghost use Rattle.std.specs.Prelude.{◌≡◌, ◌<◌, IfErr, IfOk, IsTrue, map};
ghost use Rattle.vc_standard.specs.Counts.{moves_in};
ghost use Rattle.vc_standard.specs.Named.{IsLarge};
ghost use Rattle.vc_standard.specs.Refusals.{IsFault};
ghost use Rattle.vc_standard.specs.Shapes.{positions_of, shape_of};
ghost use Rattle.vc_standard.specs.Steps.{IsAgainStep, IsAnyAgainStep, IsStarStep};
ghost use Rattle.vc_standard.specs.Stored.{items_of, position_of};
ghost use Rattle.vc_standard.specs.Structures.{again, looped};

use crate::joining::{no_positions, with_position};
use crate::moves::scale;
use crate::positions::Positions;
use crate::put::put_scaled;
use crate::shape::{Move, Position};
use crate::shapes::Shape;
use crate::weights::{star, times};
use std::alloc::Global;
use vc_label::LabelSet;
use vc_ring::{MakeFault, Semiring};

/// A position that may go on as a start with these transitions and this final weight.
fn go_on<L: LabelSet, S: Semiring>(
    alloc: Global,
    steps: &[Move<L, S>],
    h: S::Value,
    position: Position<L, S>,
) -> Result<Position<L, S>, MakeFault<S::Value>>
    requires { IsTrue (S.set.in_range h) }
    ensures position { IfOk result (λ p. position_of L.parts p ≡ again S.set S.Value.eq (items_of
        L.parts steps.now) h (position_of L.parts position)) }
    ensures fault { IfErr result (λ f. IsFault S.set (IsAgainStep S.set S.Value.eq (record {
      final =
          h;
      moves = items_of L.parts steps.now;
    }) (position_of L.parts position)) ⊥ f) }
{
    let Position { last, moves } = position;
    let mut moves = moves;
    let product = times::<S>(last, h)?;
    if last == S::zero() {
        return Ok(Position {
            last: product,
            moves,
        });
    }
    put_scaled::<L, S>(alloc, last, steps, &mut moves)?;
    Ok(Position {
        last: product,
        moves,
    })
}

/// Each of the positions, which may go on so.
fn go_on_all<L: LabelSet, S: Semiring>(
    alloc: Global,
    steps: &[Move<L, S>],
    h: S::Value,
    from: Positions<L, S>,
) -> Result<Positions<L, S>, MakeFault<S::Value>>
    requires { IsTrue (S.set.in_range h) }
    ensures positions { IfOk result (λ ps. positions_of L.parts ps ≡ map (again S.set S.Value.eq
        (items_of L.parts steps.now) h) (positions_of L.parts from)) }
    ensures fault { IfErr result (λ f. IsFault S.set (IsAnyAgainStep S.set S.Value.eq (record {
      final = h;
      moves = items_of L.parts steps.now;
    }) (positions_of L.parts from)) (4000000 <
        moves_in (map (again S.set S.Value.eq (items_of L.parts steps.now) h) (positions_of L.parts
        from))) f) }
{
    let mut all = no_positions(alloc);
    for position in from.list {
        let position = go_on::<L, S>(alloc, steps, h, position)?;
        all = with_position(all, position)?;
    }
    Ok(all)
}

/// The star.
pub(crate) fn looped_shape<L: LabelSet, S: Semiring>(
    alloc: Global,
    shape: Shape<L, S>,
) -> Result<Shape<L, S>, MakeFault<S::Value>>
    requires { IsTrue (S.set.has_star shape.start.last) }
    ensures shape { IfOk result (λ s. shape_of L.parts s ≡ looped S.set S.Value.eq (S.set.star
        shape.start.last) (shape_of L.parts shape)) }
    ensures fault { IfErr result (λ f. IsFault S.set (IsStarStep S.set S.Value.eq (S.set.star
        shape.start.last) (shape_of L.parts shape)) (IsLarge 4000000 (looped S.set S.Value.eq
        (S.set.star shape.start.last) (shape_of L.parts shape))) f) }
{
    let Shape { start, positions } = shape;
    let Position { last, moves } = start;
    let h = star::<S>(last)?;
    let moves = scale::<L, S>(alloc, h, moves)?;
    let positions = go_on_all::<L, S>(alloc, &moves, h, positions)?;
    Ok(Shape {
        start: Position { last: h, moves },
        positions,
    })
}
