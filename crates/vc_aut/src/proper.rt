use crate::automaton::Automaton;
use std::marker::Model;
use vc_label::LabelSet;
use vc_model::empty_words_are_tested;
use vc_ring::Semiring;

/// An automaton in which no label is empty on all tapes. `Automaton::into_proper` makes it.
///
/// A contract sees it as its automaton.
#[derive(Drop)]
pub struct Proper<L: LabelSet, S: Semiring> {
    pub(crate) automaton: Automaton<L, S>,
}

impl<L: LabelSet, S: Semiring> Model for Proper<L, S> {
    ghost use Rattle.vc_aut.specs.Labelled.{Labelled, labelled_code};
    ghost use Rattle.vc_label.specs.contracts.tape_set.TapeSet.{the_row};
    ghost use Rattle.vc_model.specs.Automata.{IsProper};

    ghost Value = { Labelled S.Value };

    ghost coded = { labelled_code the_row.coded S.Value.code };

    ghost view = { λ p. p.automaton };

    ghost invariant = { λ p. IsProper p.automaton.automaton };
}

impl<L: LabelSet, S: Semiring> Proper<L, S> {
    ghost use Rattle.std.specs.Prelude.{◌≡◌};

    /// The automaton.
    pub fn automaton(&self) -> &Automaton<L, S>
        ensures { result.now ≡ self.now }
    {
        &self.automaton
    }
}

impl<L: LabelSet, S: Semiring> Automaton<L, S> {
    ghost use Rattle.std.specs.Prelude.{◌≡◌, ◌↔◌, IfErr, IfOk, IsErr, IsTrue, OnOk};
    ghost use Rattle.vc_aut.specs.EmptyLabels.{HasEmptyLabel};
    ghost use Rattle.vc_model.specs.Automata.{IsProper};

    /// The automaton as one without empty labels. `Err` hands it back, and comes exactly where a
    /// transition has a label that is empty on all tapes. It takes no memory.
    pub fn into_proper(self) -> Result<Proper<L, S>, Automaton<L, S>>
        ensures ok { IfOk result (λ p. p ≡ self) }
        ensures proper { OnOk result (IsProper self.automaton) }
        ensures err { IfErr result (λ a. a ≡ self) }
        ensures empty { IsErr result ↔ HasEmptyLabel self.automaton }
    {
        empty_words_are_tested();
        if self.has_empty_label() {
            return Err(self);
        }
        Ok(Proper { automaton: self })
    }

    /// Whether a transition has a label that is empty on all tapes.
    pub(crate) fn has_empty_label(&self) -> bool
        ensures { IsTrue result ↔ HasEmptyLabel self.now.automaton }
    {
        self.transitions.iter().any(|t| L::is_empty(&t.label))
    }
}
