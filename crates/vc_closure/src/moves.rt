//! The empty transitions of an automaton, by the states that they lead from.
ghost use Rattle.std.specs.Prelude.{◌≡◌, ◌<◌, ℕ, IfOk, IsTrue, length, map};
ghost use Rattle.vc_aut.specs.Stored.{transition_of};
ghost use Rattle.vc_closure.specs.Settled.{AreMoves, AreMovesOf, moves_of};

use crate::rows::{Entry, Rows, append};
use std::alloc::{AllocError, Global};
use vc_aut::{Automaton, Transition, automata_are_valid};
use vc_label::LabelSet;
use vc_ring::Semiring;

/// The empty transitions from each state, as entries: the target, and the weight.
pub(crate) fn empty_moves<L: LabelSet, S: Semiring>(
    alloc: Global,
    aut: &Automaton<L, S>,
) -> Result<Rows<S>, AllocError>
    ensures moves { IfOk result (λ moves. AreMoves S.set aut.now.automaton.states moves.items) }
    ensures empty { IfOk result (λ moves. AreMovesOf aut.now.automaton moves.items) }
{
    automata_are_valid(aut);
    let mut moves = Vec::with_capacity(alloc, aut.states() as usize)?;
    for state in 0..aut.states() {
        let row = empty_among(alloc, aut.transitions_from(state))?;
        append(&mut moves, row)?;
    }
    Ok(moves)
}

/// The empty ones of the transitions, as entries.
fn empty_among<L: LabelSet, S: Semiring>(
    alloc: Global,
    transitions: &[Transition<L, S>],
) -> Result<Vec<Entry<S>>, AllocError>
    ensures { IfOk result (λ row. row.items ≡ moves_of (map (transition_of L.parts)
        transitions.now)) }
{
    let mut row = Vec::new(alloc);
    for transition in transitions {
        if L::is_empty(&transition.label) {
            append(
                &mut row,
                Entry {
                    state: transition.to,
                    weight: transition.weight,
                },
            )?;
        }
    }
    Ok(row)
}
