//! Tests of `vc_aut`: other labels of the same parts.

ghost use Rattle.std.specs.Prelude.{◌≡◌, ◌<◌, ◌∷◌, [], IfOk, IsTrue, OnOk};
ghost use Rattle.vc_label.specs.Letters.{are_letters};

use std::alloc::Global;
use std::test::Fail;
use vc_atoms::{Letters, Words};
use vc_aut::{Automaton, Builder, labels_are_over_wider_sets};
use vc_basic::Z;
use vc_label::{Alphabet, LabelSet, Word};

/// One state with a transition to itself, with the letter a and the weight 2.
fn doubled(alloc: Global, labels: Letters) -> Result<Automaton<Letters, Z>, Fail>
    ensures { IfOk result (λ a. a.sets ≡ ⟦<Letters as LabelSet>⟧.sets labels) }
{
    let mut builder = Builder::<Letters, Z>::new(alloc, labels, 1);
    let state = builder.add_state()?;
    builder.add_initial(state, 3)?;
    builder.add_final(state, 5)?;
    let label = labels.label(alloc, Word::one(b"a"))?;
    builder.add_transition(state, label, state, 2)?;
    let automaton = builder.finish()?;
    Ok(automaton)
}

#[test]
fn letters_become_words(rt: HostRuntime) -> Result<(), Fail> {
    let alphabet = Alphabet::new().with(b'a');
    let automaton = doubled(rt.alloc(), Letters::new(alphabet))?;
    labels_are_over_wider_sets(&automaton);
    let words = automaton.with_labels(rt.alloc(), Words::new(alphabet))?;
    assert_eq!(rt; words.states(), 1);
    assert_eq!(rt; (words.initial_weight(0), words.final_weight(0)), (3, 5));
    let transitions = words.transitions_from(0);
    assert_eq!(rt; transitions.len(), 1);
    assert_eq!(rt; (transitions[0].to, transitions[0].weight), (0, 2));
    assert_eq!(rt; Words::part(&transitions[0].label, 0), b"a".as_slice());
    Ok(())
}
