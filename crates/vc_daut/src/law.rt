ghost use Rattle.vc_context.specs.declared.context.Weights.{Weights};
ghost use Rattle.vc_daut.specs.Canonical.{automaton_text};
ghost use Rattle.vc_reader.specs.Spelling.{SpellsAutomaton};

use vc_aut::{Automaton, automata_are_valid};
use vc_context::contexts_have_texts;
use vc_label::{LabelSet, alphabets_are_sets, words_are_over_sets};
use vc_lex::texts_have_their_tokens;
use vc_lines::context_lines_have_one_text;
use vc_ring::{Semiring, Weighed};

/// The canonical text of an automaton spells it. Since a text spells at most one automaton, reading what was printed gives
/// the automaton back.
pub fn automata_have_texts<L: LabelSet, S: Semiring>(aut: &Automaton<L, S>)
    ensures { (weights : Weights) → SpellsAutomaton ⟦<S as Weighed>⟧.texts
        (automaton_text ⟦<S as Weighed>⟧.texts aut.now.sets weights aut.now.automaton) aut.now.sets weights aut.now.automaton }
{
    let _tapes = aut.labels().tapes();
    automata_are_valid(aut);
    alphabets_are_sets();
    words_are_over_sets();
    contexts_have_texts();
    context_lines_have_one_text();
    texts_have_their_tokens();
}
