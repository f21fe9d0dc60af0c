//! Products of structures.
ghost use Rattle.std.specs.Prelude.{◌≡◌, ◌<◌, IfErr, IfOk, IsTrue, map};
ghost use Rattle.vc_standard.specs.Closed.{AreClosed};
ghost use Rattle.vc_standard.specs.Counts.{moves_in};
ghost use Rattle.vc_standard.specs.Named.{IsLarge};
ghost use Rattle.vc_standard.specs.Refusals.{IsFault};
ghost use Rattle.vc_standard.specs.Shapes.{chain_of, positions_of, shape_of};
ghost use Rattle.vc_standard.specs.Steps.{IsMultiple, IsProductStep, IsAnyMultiple};
ghost use Rattle.vc_standard.specs.Stored.{items_of, position_of};
ghost use Rattle.vc_standard.specs.Structures.{bare, chained, followed};

use crate::chain::Chain;
use crate::joining::{joined, joined_behind, no_positions, with_position};
use crate::moves::{add_scaled, place_behind, shift};
use crate::positions::Positions;
use crate::shape::{Move, Position};
use crate::shapes::Shape;
use crate::weights::times;
use std::alloc::Global;
use vc_label::LabelSet;
use vc_ring::{MakeFault, Semiring};

/// The product of none.
pub(crate) fn no_factors<L: LabelSet, S: Semiring>(alloc: Global) -> Chain<L, S>
    ensures { chain_of L.parts result ≡ bare S.set.one }
{
    Chain {
        start: Position {
            last: S::one(),
            moves: Vec::new(alloc),
        },
        closed: no_positions(alloc),
        ready: no_positions(alloc),
    }
}

/// A state before a structure whose start has these transitions and this final weight.
fn follow<L: LabelSet, S: Semiring>(
    alloc: Global,
    steps: &[Move<L, S>],
    c: S::Value,
    position: Position<L, S>,
) -> Result<Position<L, S>, MakeFault<S::Value>>
    requires { IsTrue (S.set.in_range c) }
    ensures position { IfOk result (λ p. position_of L.parts p ≡ followed S.set S.Value.eq (items_of
        L.parts steps.now) c (position_of L.parts position)) }
    ensures fault { IfErr result (λ f. IsFault S.set (IsMultiple position.last (record {
      final = c;
      moves = items_of L.parts steps.now;
    })) ⊥ f) }
{
    let Position { last, moves } = position;
    let mut moves = moves;
    let product = times::<S>(last, c)?;
    if last == S::zero() {
        return Ok(Position {
            last: product,
            moves,
        });
    }
    add_scaled::<L, S>(alloc, last, steps, &mut moves)?;
    Ok(Position {
        last: product,
        moves,
    })
}

/// Each of the states before such a structure.
fn follow_all<L: LabelSet, S: Semiring>(
    alloc: Global,
    steps: &[Move<L, S>],
    c: S::Value,
    from: Positions<L, S>,
) -> Result<Positions<L, S>, MakeFault<S::Value>>
    requires { IsTrue (S.set.in_range c) }
    ensures positions { IfOk result (λ ps. positions_of L.parts ps ≡ map (followed S.set S.Value.eq
        (items_of L.parts steps.now) c) (positions_of L.parts from)) }
    ensures fault { IfErr result (λ f. IsFault S.set (IsAnyMultiple (positions_of L.parts from)
        (record { final = c; moves = items_of L.parts steps.now })) (4000000 < moves_in (map
        (followed S.set S.Value.eq (items_of L.parts steps.now) c) (positions_of L.parts from))) f) }
{
    let mut all = no_positions(alloc);
    for position in from.list {
        let position = follow::<L, S>(alloc, steps, c, position)?;
        all = with_position(all, position)?;
    }
    Ok(all)
}

/// The ready positions become closed where the constant term of what follows is zero.
fn settle<L: LabelSet, S: Semiring>(
    alloc: Global,
    c: S::Value,
    chain: Chain<L, S>,
) -> Result<Chain<L, S>, MakeFault<S::Value>>
    requires { c ≡ S.set.zero → AreClosed S.set (positions_of L.parts chain.ready) }
    ensures chain { IfOk result (λ k. chain_of L.parts k ≡ chain_of L.parts chain) }
    ensures fault { IfErr result (λ f. IsFault S.set (λ _. ⊥) (4000000 < moves_in (chain_of L.parts
        chain).positions) f) }
{
    if c != S::zero() {
        return Ok(chain);
    }
    let Chain {
        start,
        closed,
        ready,
    } = chain;
    let closed = joined::<L, S>(closed, ready)?;
    Ok(Chain {
        start,
        closed,
        ready: no_positions(alloc),
    })
}

/// A factor more. The positions so far are ready behind it only where its constant term is not zero.
pub(crate) fn with_factor<L: LabelSet, S: Semiring>(
    alloc: Global,
    chain: Chain<L, S>,
    next: Shape<L, S>,
) -> Result<Chain<L, S>, MakeFault<S::Value>>
    ensures chain { IfOk result (λ k. chain_of L.parts k ≡ chained S.set S.Value.eq (chain_of
        L.parts chain) (shape_of L.parts next)) }
    ensures fault { IfErr result (λ f. IsFault S.set (IsProductStep (chain_of L.parts chain)
        (shape_of L.parts next)) (IsLarge 4000000 (chained S.set S.Value.eq (chain_of L.parts chain)
        (shape_of L.parts next))) f) }
{
    let Chain {
        start,
        closed,
        ready,
    } = chain;
    let Shape {
        start: first,
        positions: others,
    } = next;
    let Position { last: c, moves } = first;
    let n = place_behind(closed.list.len(), ready.list.len())?;
    let steps = shift::<L, S>(alloc, n, moves)?;
    let start = follow::<L, S>(alloc, &steps, c, start)?;
    let followed = follow_all::<L, S>(alloc, &steps, c, ready)?;
    let chain = Chain {
        start,
        closed,
        ready: followed,
    };
    let settled = settle::<L, S>(alloc, c, chain)?;
    let Chain {
        start,
        closed,
        ready,
    } = settled;
    let all = joined_behind::<L, S>(alloc, n, ready, others)?;
    Ok(Chain {
        start,
        closed,
        ready: all,
    })
}

/// The structure of the product.
pub(crate) fn finish_chain<L: LabelSet, S: Semiring>(
    chain: Chain<L, S>,
) -> Result<Shape<L, S>, MakeFault<S::Value>>
    ensures shape { IfOk result (λ s. shape_of L.parts s ≡ chain_of L.parts chain) }
    ensures fault { IfErr result (λ f. IsFault S.set (λ _. ⊥) (IsLarge 4000000 (chain_of L.parts
        chain)) f) }
{
    let Chain {
        start,
        closed,
        ready,
    } = chain;
    let positions = joined::<L, S>(closed, ready)?;
    Ok(Shape { start, positions })
}
