//! The states of the automaton of a structure.
ghost use Rattle.std.specs.Prelude.{◌≡◌, ◌<◌, ◌≤◌, ◌++◌, ◌∷◌, ◌+◌, [], All, IsTrue, OnOk, length, map, suc};
ghost use Rattle.vc_aut.specs.Stored.{transition_of};
ghost use Rattle.vc_model.specs.WeightSet.{InRange};
ghost use Rattle.vc_standard.specs.Automata.{leaving, leaving_all};
ghost use Rattle.vc_standard.specs.Stored.{items_of, position_of};
ghost use Rattle.vc_standard.specs.Within.{Are, AreAll, IsFew};

use crate::lists::append;
use crate::shape::{Move, Position};
use std::alloc::AllocError;
use vc_aut::Transition;
use vc_label::LabelSet;
use vc_ring::Semiring;

/// The state of the position at a place.
fn state_at(place: usize) -> u32
    requires { place < 1000000 }
    ensures { result ≡ suc place }
{
    place as u32 + 1
}

/// Adds a transition from a state.
fn add_move<L: LabelSet, S: Semiring>(
    from: u32,
    step: Move<L, S>,
    transitions: &mut Vec<Transition<L, S>>,
) -> Result<(), AllocError>
    requires to { step.to < 1000000 }
    requires weights { All (λ t. IsTrue (S.set.in_range t.weight)) transitions.old.items }
    ensures transitions { OnOk result (map (transition_of L.parts) transitions.new.items ≡ map
        (transition_of L.parts) transitions.old.items ++ record {
          from = from;
          label = L.parts
              step.label;
          to = suc step.to;
          weight = step.weight;
        } ∷ []) }
    ensures weights { OnOk result (All (λ t. IsTrue (S.set.in_range t.weight))
        transitions.new.items) }
{
    let Move { label, weight, to } = step;
    append(
        transitions,
        Transition {
            from,
            label,
            to: state_at(to),
            weight,
        },
    )
}

/// Adds a state: its final weight and the transitions from it.
pub(crate) fn add_state<L: LabelSet, S: Semiring>(
    from: u32,
    position: Position<L, S>,
    finals: &mut Vec<S::Value>,
    transitions: &mut Vec<Transition<L, S>>,
) -> Result<(), AllocError>
    requires few { Are IsFew (items_of L.parts position.moves.items) }
    requires finals { InRange S.set finals.old.items }
    requires weights { All (λ t. IsTrue (S.set.in_range t.weight)) transitions.old.items }
    ensures finals { OnOk result (finals.new.items ≡ finals.old.items ++ position.last ∷ []) }
    ensures finals_in { OnOk result (InRange S.set finals.new.items) }
    ensures transitions { OnOk result (map (transition_of L.parts) transitions.new.items ≡ map
        (transition_of L.parts) transitions.old.items ++ leaving from (items_of L.parts
        position.moves.items)) }
    ensures weights { OnOk result (All (λ t. IsTrue (S.set.in_range t.weight))
        transitions.new.items) }
{
    let Position { last, moves } = position;
    append(finals, last)?;
    for step in moves {
        add_move::<L, S>(from, step, transitions)?;
    }
    Ok(())
}

/// Adds the states of the positions, which are numbered from 1.
pub(crate) fn add_states<L: LabelSet, S: Semiring>(
    positions: Vec<Position<L, S>>,
    finals: &mut Vec<S::Value>,
    transitions: &mut Vec<Transition<L, S>>,
) -> Result<(), AllocError>
    requires number { length positions.items < 1000000 }
    requires few { AreAll IsFew (map (position_of L.parts) positions.items) }
    requires finals { InRange S.set finals.old.items }
    requires weights { All (λ t. IsTrue (S.set.in_range t.weight)) transitions.old.items }
    ensures finals { OnOk result (finals.new.items ≡ finals.old.items ++ map (λ p. p.last)
        positions.items) }
    ensures finals_in { OnOk result (InRange S.set finals.new.items) }
    ensures transitions { OnOk result (map (transition_of L.parts) transitions.new.items ≡ map
        (transition_of L.parts) transitions.old.items ++ leaving_all 1 (map (position_of L.parts)
        positions.items)) }
    ensures weights { OnOk result (All (λ t. IsTrue (S.set.in_range t.weight))
        transitions.new.items) }
{
    let mut number: u32 = 0;
    for position in positions {
        number += 1;
        add_state::<L, S>(number, position, finals, transitions)?;
    }
    Ok(())
}
