//! Circuits whose label is empty on some tapes.
ghost use Rattle.std.specs.Prelude.{◌≡◌, ◌↔◌, ℕ, IfOk, IfSome, IsNone, length, map};
ghost use Rattle.vc_aut.specs.Stored.{transition_of};
ghost use Rattle.vc_closure.specs.Circuits.{IsCircuitOn};
ghost use Rattle.vc_model.specs.Automata.{IsEmptyCircuit, NoCircuitOn, NoEmptyCircuit};

use crate::search::{Found, search_circuit};
use std::alloc::{AllocError, Global};
use vc_aut::{Automaton, Transition, automata_are_valid};
use vc_label::LabelSet;
use vc_ring::Semiring;

/// A circuit whose label is empty on each of the marked tapes: a path, not the empty one, from a
/// state to itself. None comes exactly where there is none.
pub fn circuit_empty_on<L: LabelSet, S: Semiring>(
    alloc: Global,
    aut: &Automaton<L, S>,
    tapes: &[bool],
) -> Result<Option<Vec<Transition<L, S>>>, AllocError>
    requires { length tapes.now ≡ length aut.now.sets }
    ensures none { IfOk result (λ found. IsNone found ↔ NoCircuitOn (length aut.now.sets) tapes.now
        aut.now.automaton) }
    ensures circuit { IfOk result (λ found. IfSome found (λ ts. IsCircuitOn (length aut.now.sets)
        tapes.now aut.now.automaton (map (transition_of L.parts) ts.items))) }
{
    automata_are_valid(aut);
    match search_circuit(alloc, aut, tapes)? {
        Found::Order(_) => Ok(None),
        Found::Circuit(circuit) => Ok(Some(circuit)),
    }
}

/// An empty circuit: a path, not the empty one, from a state to itself, whose label is empty. None
/// comes exactly where there is none.
pub fn empty_circuit<L: LabelSet, S: Semiring>(
    alloc: Global,
    aut: &Automaton<L, S>,
) -> Result<Option<Vec<Transition<L, S>>>, AllocError>
    ensures none { IfOk result (λ found. IsNone found ↔ NoEmptyCircuit (length aut.now.sets)
        aut.now.automaton) }
    ensures circuit { IfOk result (λ found. IfSome found (λ ts. (p : ℕ) × IsEmptyCircuit (length
        aut.now.sets) aut.now.automaton p (map (transition_of L.parts) ts.items))) }
{
    automata_are_valid(aut);
    let tapes = Vec::from_elem(alloc, true, aut.labels().tapes())?;
    circuit_empty_on(alloc, aut, &tapes)
}
