//! Tests of `vc_closure`: automata without empty labels.

use std::alloc::Global;
use std::test::Fail;
use vc_atoms::Nullable;
use vc_aut::{Automaton, Builder};
use vc_basic::{Nmin, NminValue, Z};
use vc_closure::{ProperFault, empty_circuit, proper};
use vc_label::{Alphabet, LabelSet, Word};

/// Empty labels lead from the first state to the last one on two paths, of the weights 5 and 2 · 3,
/// and there the letter a leads back to itself with the weight 7.
fn with_two_empty_paths(alloc: Global) -> Result<Automaton<Nullable, Z>, Fail> {
    let labels = Nullable::new(Alphabet::new().with(b'a'));
    let mut builder = Builder::<Nullable, Z>::new(alloc, labels, 3);
    let start = builder.add_state()?;
    let middle = builder.add_state()?;
    let end = builder.add_state()?;
    builder.add_initial(start, 1)?;
    builder.add_final(end, 10)?;
    let label = labels.label(alloc, Word::one(b""))?;
    builder.add_transition(start, label, end, 5)?;
    let label = labels.label(alloc, Word::one(b""))?;
    builder.add_transition(start, label, middle, 2)?;
    let label = labels.label(alloc, Word::one(b""))?;
    builder.add_transition(middle, label, end, 3)?;
    let label = labels.label(alloc, Word::one(b"a"))?;
    builder.add_transition(end, label, end, 7)?;
    let automaton = builder.finish()?;
    Ok(automaton)
}

/// Empty labels lead from the first state to the last one and back, with the weights 2 and 4, and the
/// letter a leads from the last one to itself with the weight 5.
fn with_an_empty_circuit(alloc: Global) -> Result<Automaton<Nullable, Nmin>, Fail> {
    let labels = Nullable::new(Alphabet::new().with(b'a'));
    let mut builder = Builder::<Nullable, Nmin>::new(alloc, labels, 2);
    let start = builder.add_state()?;
    let end = builder.add_state()?;
    builder.add_initial(start, NminValue::Finite(0))?;
    builder.add_final(end, NminValue::Finite(1))?;
    let label = labels.label(alloc, Word::one(b""))?;
    builder.add_transition(start, label, end, NminValue::Finite(2))?;
    let label = labels.label(alloc, Word::one(b""))?;
    builder.add_transition(end, label, start, NminValue::Finite(4))?;
    let label = labels.label(alloc, Word::one(b"a"))?;
    builder.add_transition(end, label, end, NminValue::Finite(5))?;
    let automaton = builder.finish()?;
    Ok(automaton)
}

/// An empty label leads from the one state to itself.
fn with_an_empty_loop(alloc: Global) -> Result<Automaton<Nullable, Z>, Fail> {
    let labels = Nullable::new(Alphabet::new().with(b'a'));
    let mut builder = Builder::<Nullable, Z>::new(alloc, labels, 1);
    let state = builder.add_state()?;
    let label = labels.label(alloc, Word::one(b""))?;
    builder.add_transition(state, label, state, 3)?;
    let automaton = builder.finish()?;
    Ok(automaton)
}

#[test]
fn empty_paths_are_added_up(rt: HostRuntime) -> Result<(), Fail> {
    let automaton = with_two_empty_paths(rt.alloc())?;
    let Ok(closed) = proper(rt.alloc(), &automaton) else {
        return Err(Fail::new("an automaton without a circuit is refused"));
    };
    let closed = closed.automaton();
    assert_eq!(rt; closed.states(), 3);
    assert_eq!(rt;
        (
            closed.final_weight(0),
            closed.final_weight(1),
            closed.final_weight(2),
        ),
        (110, 30, 10)
    );
    let transitions = closed.transitions_from(0);
    assert_eq!(rt; transitions.len(), 1);
    assert_eq!(rt; (transitions[0].to, transitions[0].weight), (2, 77));
    let transitions = closed.transitions_from(1);
    assert_eq!(rt; transitions.len(), 1);
    assert_eq!(rt; (transitions[0].to, transitions[0].weight), (2, 21));
    Ok(())
}

#[test]
fn an_empty_circuit_is_absorbed(rt: HostRuntime) -> Result<(), Fail> {
    let automaton = with_an_empty_circuit(rt.alloc())?;
    let Ok(closed) = proper(rt.alloc(), &automaton) else {
        return Err(Fail::new("a circuit that is absorbed is refused"));
    };
    let closed = closed.automaton();
    assert_eq!(rt; closed.states(), 2);
    assert_eq!(rt; closed.initial_weight(0), NminValue::Finite(0));
    assert_eq!(rt; closed.initial_weight(1), NminValue::Infinite);
    assert_eq!(rt; closed.final_weight(0), NminValue::Finite(3));
    assert_eq!(rt; closed.final_weight(1), NminValue::Finite(1));
    let transitions = closed.transitions_from(0);
    assert_eq!(rt; transitions.len(), 1);
    assert_eq!(rt;
        (transitions[0].to, transitions[0].weight),
        (1, NminValue::Finite(7))
    );
    Ok(())
}

#[test]
fn an_empty_circuit_is_told(rt: HostRuntime) -> Result<(), Fail> {
    let automaton = with_an_empty_loop(rt.alloc())?;
    let Err(ProperFault::Circuit(circuit)) = proper(rt.alloc(), &automaton) else {
        return Err(Fail::new("an empty circuit is not refused"));
    };
    assert_eq!(rt; circuit.len(), 1);
    assert_eq!(rt; Nullable::is_empty(&circuit[0].label), true);
    let Some(found) = empty_circuit(rt.alloc(), &automaton)? else {
        return Err(Fail::new("an empty circuit is not found"));
    };
    assert_eq!(rt; found.len(), 1);
    Ok(())
}
