//! Automata whose states stand for the members that are found.
ghost use Rattle.std.specs.Prelude.{◌≡◌, ◌≤◌, IfErr, IfOk};
ghost use Rattle.vc_search.specs.Explored.{AreNumbered, IsExplored, IsUnexplored, next_by};
ghost use Rattle.vc_search.specs.Followed.{IsFollowed};

use crate::exploration::Exploration;
use crate::moves::Moves;
use crate::weights::weights_of;
use std::alloc::Global;
use vc_aut::{Automaton, Proper, drafts_are_sums, transitions_are_added};
use vc_label::LabelSet;
use vc_model::members_are_numbered;
use vc_ring::{MakeFault, Semiring};

/// Follows each member that is found, in the order of their numbers.
fn follow_all<L: LabelSet, S: Semiring, M: Moves<L, S>>(
    alloc: Global,
    moves: &M,
    labels: L,
    most: u64,
) -> Result<Exploration<L, S, M::Key>, MakeFault<S::Value>>
    requires most { most ≤ 1000000 }
    requires over { M.is_over moves.now (L.sets labels) }
    ensures followed { IfOk result (IsFollowed M.Key.eq M.past (M.first moves.now)
        (M.items moves.now) (M.is_member moves.now)) }
    ensures most { IfOk result (λ c. c.most ≡ most) }
    ensures sets { IfOk result (λ c. c.sets ≡ L.sets labels) }
    ensures fault { IfErr result (IsUnexplored S.set (M.items moves.now) (M.first moves.now)
        (M.is_step moves.now) most) }
{
    members_are_numbered::<M::Key>();
    let mut exploration = Exploration::new(alloc, labels, most);
    if let Err(fault) = moves.begin(&mut exploration) {
        return Err(fault);
    }
    let mut number = 0;
    while let Some(key) = exploration.member(number as usize) {
        if let Err(fault) = moves.follow(key, number, &mut exploration) {
            return Err(fault);
        }
        number += 1;
    }
    Ok(exploration)
}

/// The automaton of the members that are found from the first ones: its states stand for them, by
/// their numbers, and its transitions are what they lead to.
///
/// `Limit` of `States` comes only where more than `most` members are accessible, `Limit` of
/// `Transitions` only where what they lead to names more than 4,000,000 triples, and `Overflow` only
/// where a step of an accessible member does not fit. The search stops at the first of these.
pub fn explore<L: LabelSet, S: Semiring, M: Moves<L, S>>(
    alloc: Global,
    moves: &M,
    labels: L,
    most: u64,
) -> Result<Proper<L, S>, MakeFault<S::Value>>
    requires most { most ≤ 1000000 }
    requires over { M.is_over moves.now (L.sets labels) }
    ensures explored { IfOk result (λ p. AreNumbered M.Key.eq (next_by (M.items moves.now))
        (M.first moves.now) most (λ members. IsExplored S.set M.Key.eq M.past
        (M.items moves.now) (M.initial moves.now) (M.last moves.now) members p.automaton)) }
    ensures sets { IfOk result (λ p. p.sets ≡ L.sets labels) }
    ensures fault { IfErr result (IsUnexplored S.set (M.items moves.now) (M.first moves.now)
        (M.is_step moves.now) most) }
{
    drafts_are_sums::<S::Value>();
    transitions_are_added::<S::Value>();
    members_are_numbered::<M::Key>();
    let exploration = match follow_all(alloc, moves, labels, most) {
        Ok(exploration) => exploration,
        Err(fault) => return Err(fault),
    };
    let _ = exploration.member(0);
    let (search, transitions) = exploration.finish();
    let (initial, last) = match weights_of(alloc, moves, &search) {
        Ok(weights) => weights,
        Err(fault) => return Err(fault),
    };
    let automaton = match Automaton::from_transitions(alloc, labels, initial, last, transitions) {
        Ok(automaton) => automaton,
        Err(fault) => return Err(fault),
    };
    match automaton.into_proper() {
        Ok(proper) => Ok(proper),
        Err(_) => unreachable!(),
    }
}
