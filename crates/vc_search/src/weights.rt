//! The weights of the states of an explored automaton.
ghost use Rattle.std.specs.Prelude.{◌≡◌, IfErr, IfOk, map};
ghost use Rattle.vc_model.specs.Lists.{In};
ghost use Rattle.vc_model.specs.WeightSet.{InRange};
ghost use Rattle.vc_search.specs.Weights.{IsUnweighed};

use crate::moves::Moves;
use crate::search::Search;
use std::alloc::{AllocError, Global};
use vc_label::LabelSet;
use vc_ring::{MakeFault, Semiring};

/// The initial weights and the final weights of the members, in order.
pub(crate) fn weights_of<L: LabelSet, S: Semiring, M: Moves<L, S>>(
    alloc: Global,
    moves: &M,
    search: &Search<M::Key>,
) -> Result<(Vec<S::Value>, Vec<S::Value>), MakeFault<S::Value>>
    requires { (k : M.Key) → In k search.now.members → M.is_member moves.now k }
    ensures initial { IfOk result (λ v. v.0.items ≡ map (M.initial moves.now) search.now.members) }
    ensures last { IfOk result (λ v. v.1.items ≡ map (M.last moves.now) search.now.members) }
    ensures initial_in { IfOk result (λ v. InRange S.set v.0.items) }
    ensures last_in { IfOk result (λ v. InRange S.set v.1.items) }
    ensures fault { IfErr result (IsUnweighed S.set (M.is_step moves.now) search.now.members) }
{
    let mut begins = Vec::new(alloc);
    let mut ends = Vec::new(alloc);
    let mut number = 0;
    while let Some(key) = search.member(number) {
        let (initial, last) = match moves.weights(*key) {
            Ok(weights) => weights,
            Err(overflow) => return Err(MakeFault::Overflow(overflow)),
        };
        let Ok(()) = begins.push(initial) else {
            return Err(MakeFault::Memory(AllocError));
        };
        let Ok(()) = ends.push(last) else {
            return Err(MakeFault::Memory(AllocError));
        };
        number += 1;
    }
    Ok((begins, ends))
}
