//! Pairs of states, those that a product begins with, and their weights.
ghost use Rattle.std.specs.Prelude.{◌≡◌, ◌<◌, IfErr, IfOk, IsTrue, OnOk, false, map};
ghost use Rattle.vc_join.specs.Pairs.{IsEndStep, IsOfStates, first_pairs, pair_final, pair_initial, pairs_of, same_states, starts_of};
ghost use Rattle.vc_ring.specs.Steps.{fits};
ghost use Rattle.vc_search.specs.Courses.{IsStopped, NoStep, begun_all};

use crate::weights::product;
use std::alloc::{AllocError, Global};
use vc_aut::Automaton;
use vc_label::LabelSet;
use vc_ring::{MakeFault, Overflow, Semiring};
use vc_search::Exploration;

/// Two states.
pub(crate) type Pair = (u32, u32);

/// The states whose initial weight is not zero.
#[tactic(auto, using(crate::proofs::Steps::below_more))]
fn starts_of<L: LabelSet, S: Semiring>(
    alloc: Global,
    aut: &Automaton<L, S>,
) -> Result<Vec<u32>, AllocError>
    ensures { IfOk result (λ v. v.items ≡ starts_of S.set S.Value.eq aut.now.automaton) }
{
    let mut starts = Vec::new(alloc);
    for state in 0..aut.states() {
        if aut.initial_weight(state) != S::zero() {
            starts.push(state)?;
        }
    }
    Ok(starts)
}

/// Finds the pairs of a state and each of some states.
fn begin_row<L: LabelSet, S: Semiring>(
    left: u32,
    rights: &[u32],
    into: &mut Exploration<L, S, Pair>,
) -> Result<(), MakeFault<S::Value>>
    ensures ok { OnOk result (into.new
        ≡ begun_all same_states into.old (map (λ q. (left, q)) rights.now)) }
    ensures fault { IfErr result (IsStopped same_states NoStep into.old
        (map (λ q. (left, q)) rights.now) 0) }
{
    for right in rights {
        if let Err(fault) = into.begin((left, *right)) {
            return Err(fault);
        }
    }
    Ok(())
}

/// Finds the pairs of the states of two lists, in lexicographic order.
fn begin_rows<L: LabelSet, S: Semiring>(
    lefts: &[u32],
    rights: &[u32],
    into: &mut Exploration<L, S, Pair>,
) -> Result<(), MakeFault<S::Value>>
    ensures ok { OnOk result (into.new
        ≡ begun_all same_states into.old (pairs_of lefts.now rights.now)) }
    ensures fault { IfErr result (IsStopped same_states NoStep into.old
        (pairs_of lefts.now rights.now) 0) }
{
    for left in lefts {
        if let Err(fault) = begin_row(*left, rights, into) {
            return Err(fault);
        }
    }
    Ok(())
}

/// Finds the pairs of states whose initial weights are not zero, in lexicographic order.
pub(crate) fn begin_pairs<L: LabelSet, S: Semiring>(
    alloc: Global,
    first: &Automaton<L, S>,
    second: &Automaton<L, S>,
    into: &mut Exploration<L, S, Pair>,
) -> Result<(), MakeFault<S::Value>>
    ensures ok { OnOk result (into.new ≡ begun_all same_states into.old
        (first_pairs S.set S.Value.eq first.now.automaton second.now.automaton)) }
    ensures fault { IfErr result (IsStopped same_states NoStep into.old
        (first_pairs S.set S.Value.eq first.now.automaton second.now.automaton) 0) }
{
    let lefts = match starts_of(alloc, first) {
        Ok(starts) => starts,
        Err(fault) => return Err(MakeFault::Memory(fault)),
    };
    let rights = match starts_of(alloc, second) {
        Ok(starts) => starts,
        Err(fault) => return Err(MakeFault::Memory(fault)),
    };
    begin_rows(&lefts, &rights, into)
}

/// The products of both initial weights and of both final weights.
pub(crate) fn pair_weights<L: LabelSet, S: Semiring>(
    first: &Automaton<L, S>,
    second: &Automaton<L, S>,
    pair: Pair,
) -> Result<(S::Value, S::Value), Overflow<S::Value>>
    requires { IsOfStates first.now.automaton second.now.automaton pair }
    ensures initial { IfOk result (λ w. w.0
        ≡ pair_initial S.set first.now.automaton second.now.automaton pair) }
    ensures last { IfOk result (λ w. w.1
        ≡ pair_final S.set first.now.automaton second.now.automaton pair) }
    ensures initial_in { IfOk result (λ w. IsTrue (S.set.in_range w.0)) }
    ensures last_in { IfOk result (λ w. IsTrue (S.set.in_range w.1)) }
    ensures step { IfErr result (λ o. IsEndStep S.set first.now.automaton second.now.automaton pair o
        × (fits S.set o ≡ false)) }
{
    let (p, q) = pair;
    let initial = match product::<S>(first.initial_weight(p), second.initial_weight(q)) {
        Ok(weight) => weight,
        Err(overflow) => return Err(overflow),
    };
    let last = match product::<S>(first.final_weight(p), second.final_weight(q)) {
        Ok(weight) => weight,
        Err(overflow) => return Err(overflow),
    };
    Ok((initial, last))
}
