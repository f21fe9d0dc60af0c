//! Positions that are put together. No more than so many transitions come together.
ghost use Rattle.std.specs.Prelude.{◌≡◌, ◌<◌, ◌++◌, ◌∷◌, [], map, IfOk, IfErr};
ghost use Rattle.vc_standard.specs.Counts.{moves_in};
ghost use Rattle.vc_standard.specs.Refusals.{IsFault};
ghost use Rattle.vc_standard.specs.Shapes.{positions_of};
ghost use Rattle.vc_standard.specs.Stored.{position_of};
ghost use Rattle.vc_standard.specs.Structures.{moved_position};

use crate::lists::append;
use crate::moves::shift;
use crate::positions::Positions;
use crate::shape::Position;
use std::alloc::Global;
use vc_label::LabelSet;
use vc_ring::{Limit, MakeFault, Measure, Semiring};

/// The most transitions that a structure may have.
const MOST: usize = 4_000_000;

/// No position.
pub(crate) fn no_positions<L: LabelSet, S: Semiring>(alloc: Global) -> Positions<L, S>
    ensures { positions_of L.parts result ≡ [] }
{
    Positions {
        list: Vec::new(alloc),
        named: 0,
    }
}

/// One position more.
pub(crate) fn with_position<L: LabelSet, S: Semiring>(
    positions: Positions<L, S>,
    position: Position<L, S>,
) -> Result<Positions<L, S>, MakeFault<S::Value>>
    ensures positions { IfOk result (λ all. positions_of L.parts all ≡ positions_of L.parts
        positions ++ position_of L.parts position ∷ []) }
    ensures fault { IfErr result (λ f. IsFault S.set (λ _. ⊥) (4000000 < moves_in (positions_of
        L.parts positions ++ position_of L.parts position ∷ [])) f) }
{
    let Positions { list, named } = positions;
    let named = named.saturating_add(position.moves.len());
    if named > MOST {
        return Err(MakeFault::Limit(Limit {
            what: Measure::Transitions,
            most: MOST as u64,
        }));
    }
    let mut list = list;
    append(&mut list, position)?;
    Ok(Positions { list, named })
}

/// The first positions and the second ones behind them.
pub(crate) fn joined<L: LabelSet, S: Semiring>(
    first: Positions<L, S>,
    second: Positions<L, S>,
) -> Result<Positions<L, S>, MakeFault<S::Value>>
    ensures positions { IfOk result (λ all. positions_of L.parts all ≡ positions_of L.parts first ++
        positions_of L.parts second) }
    ensures fault { IfErr result (λ f. IsFault S.set (λ _. ⊥) (4000000 < moves_in (positions_of
        L.parts first ++ positions_of L.parts second)) f) }
{
    let mut all = first;
    for position in second.list {
        all = with_position(all, position)?;
    }
    Ok(all)
}

/// The first positions and the second ones behind them, which lead behind n places.
pub(crate) fn joined_behind<L: LabelSet, S: Semiring>(
    alloc: Global,
    n: usize,
    first: Positions<L, S>,
    second: Positions<L, S>,
) -> Result<Positions<L, S>, MakeFault<S::Value>>
    ensures positions { IfOk result (λ all. positions_of L.parts all ≡ positions_of L.parts first ++
        map (moved_position n) (positions_of L.parts second)) }
    ensures fault { IfErr result (λ f. IsFault S.set (λ _. ⊥) (4000000 < moves_in (positions_of
        L.parts first ++ map (moved_position n) (positions_of L.parts second))) f) }
{
    let mut all = first;
    for position in second.list {
        let Position { last, moves } = position;
        let moves = shift(alloc, n, moves)?;
        all = with_position(all, Position { last, moves })?;
    }
    Ok(all)
}
