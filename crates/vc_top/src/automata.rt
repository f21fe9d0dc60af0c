ghost use Rattle.std.specs.Prelude.{◌≡◌};
ghost use Rattle.vc_context.specs.Sets.{tapes_of};
ghost use Rattle.vc_top.specs.Automata.{Prints};
ghost use Rattle.vc_top.specs.Outcomes.{OrMemory};
ghost use Rattle.vc_top.specs.Views.{answer_of};

use crate::refusal::Refusal;
use std::alloc::Global;
use vc_aut::Automaton;
use vc_context::AnyContext;
use vc_daut::{automata_have_texts, write_daut};
use vc_label::LabelSet;
use vc_ring::{Semiring, Weighed};

/// The text of an automaton of this context.
pub(crate) fn text_of<'w, L: LabelSet, S: Semiring>(
    alloc: Global,
    context: &AnyContext,
    automaton: &Automaton<L, S>,
) -> Result<String, Refusal<'w>>
    requires { tapes_of context.now.labels ≡ automaton.now.sets }
    ensures { OrMemory (Prints ⟦<S as Weighed>⟧.texts context.now.weights automaton.now) (answer_of
        result) }
{
    automata_have_texts(automaton);
    let mut text = String::new(alloc);
    match write_daut(alloc, context, automaton, &mut text) {
        Ok(()) => Ok(text),
        Err(_) => Err(Refusal::Memory),
    }
}
