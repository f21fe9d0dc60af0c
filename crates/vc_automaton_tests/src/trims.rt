//! Tests of `vc_aut`: the useful states.

use std::alloc::Global;
use std::test::Fail;
use vc_atoms::Letters;
use vc_aut::{Automaton, Builder, trim};
use vc_basic::Z;
use vc_label::{Alphabet, LabelSet, Word};

/// The letter b leads from the initial state to a state that nothing leaves, and the letter a to the
/// final one, which comes last.
fn with_a_dead_end(alloc: Global) -> Result<Automaton<Letters, Z>, Fail> {
    let labels = Letters::new(Alphabet::new().with(b'a').with(b'b'));
    let mut builder = Builder::<Letters, Z>::new(alloc, labels, 3);
    let start = builder.add_state()?;
    let dead = builder.add_state()?;
    let end = builder.add_state()?;
    builder.add_initial(start, 5)?;
    builder.add_final(end, 7)?;
    let label = labels.label(alloc, Word::one(b"b"))?;
    builder.add_transition(start, label, dead, 3)?;
    let label = labels.label(alloc, Word::one(b"a"))?;
    builder.add_transition(start, label, end, 2)?;
    let automaton = builder.finish()?;
    Ok(automaton)
}

#[test]
fn useful_states_keep_their_order(rt: HostRuntime) -> Result<(), Fail> {
    let automaton = with_a_dead_end(rt.alloc())?;
    let trimmed = trim(rt.alloc(), &automaton)?;
    assert_eq!(rt; trimmed.states(), 2);
    assert_eq!(rt;
        (trimmed.initial_weight(0), trimmed.final_weight(0)),
        (5, 0)
    );
    assert_eq!(rt;
        (trimmed.initial_weight(1), trimmed.final_weight(1)),
        (0, 7)
    );
    assert_eq!(rt; trimmed.transitions_from(1).len(), 0);
    let transitions = trimmed.transitions_from(0);
    assert_eq!(rt; transitions.len(), 1);
    assert_eq!(rt; (transitions[0].to, transitions[0].weight), (1, 2));
    assert_eq!(rt; Letters::part(&transitions[0].label, 0), b"a".as_slice());
    Ok(())
}
