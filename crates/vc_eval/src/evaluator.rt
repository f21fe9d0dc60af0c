//! The evaluator of an automaton of one tape, which serves many words.

use crate::marks::BLOCK;
use crate::rows::forward;
use crate::runs::{Runs, runs_unless};
use crate::size::{longest, past_cells, zeros};
use std::alloc::{AllocError, Global};
use std::marker::Model;
use vc_aut::{Proper, proper_automata_are_proper};
use vc_label::{LabelSet, Word};
use vc_ring::{MakeFault, Overflow, Semiring};

/// Answers the coefficients of a proper automaton of one tape.
///
/// It keeps a row with a weight for each state for each letter of the longest label and one more,
/// and uses them in turn, for every word. Where each label is one letter, a step goes through the
/// states near those whose entry is not zero, else through the runs of the labels that end the
/// prefix. The row of a prefix has at each state the sum of the weights of the paths to it that read
/// the prefix, so the coefficient is the row of the whole word times the final weights (Sakarovitch,
/// Elements of Automata Theory). A contract sees an evaluator as its automaton.
#[derive(Drop)]
pub struct Evaluator<'p, L: LabelSet, S: Semiring> {
    automaton: &'p Proper<L, S>,
    single: bool,
    runs: Runs<'p, L, S>,
    origins: Vec<Option<usize>>,
    rows: Vec<S::Value>,
    marks: Vec<bool>,
}

impl<'p, L: LabelSet, S: Semiring> Model for Evaluator<'p, L, S> {
    ghost use Rattle.vc_aut.specs.Labelled.{Labelled, labelled_code};
    ghost use Rattle.vc_label.specs.contracts.tape_set.TapeSet.{the_row};
    ghost use Rattle.std.specs.Prelude.{map};
    ghost use Rattle.vc_eval.specs.Ready.{IsReady};
    ghost use Rattle.vc_eval.specs.Runs.{run_of};
    ghost use Rattle.vc_label.specs.Borrowed.{word_of};

    ghost Value = { Labelled S.Value };

    ghost coded = { labelled_code the_row.coded S.Value.code };

    ghost view = { λ e. e.automaton.now };

    ghost invariant = { λ e. IsReady S.set e.automaton.now e.single (map word_of e.runs.labels.items) (map (run_of L.parts) e.runs.runs.items) e.origins.items e.rows.items e.marks.items };
}

impl<'p, L: LabelSet, S: Semiring> Evaluator<'p, L, S> {
    ghost use Rattle.std.specs.Prelude.{◌≡◌, IfOk, IsTrue, length};
    ghost use Rattle.vc_aut.specs.Refusals.{IsAnswer};
    ghost use Rattle.vc_eval.specs.Cells.{cells_refusal};
    ghost use Rattle.vc_eval.specs.Forward.{forward_steps};
    ghost use Rattle.vc_label.specs.Borrowed.{word_of};
    ghost use Rattle.vc_model.specs.Automata.{coefficient};
    ghost use Rattle.vc_ring.specs.Steps.{IsOutcome};

    /// An evaluator of the automaton. `Limit` of `Cells` comes exactly where the rows have more than
    /// 20,000,000 entries together, and `Overflow` never comes.
    pub fn new(
        alloc: Global,
        aut: &'p Proper<L, S>,
    ) -> Result<Evaluator<'p, L, S>, MakeFault<S::Value>>
        requires { length aut.now.sets ≡ 1 }
        ensures automaton { IfOk result (λ e. e ≡ aut.now) }
        ensures answer { IsAnswer (cells_refusal aut.now.automaton) result }
    {
        proper_automata_are_proper(aut);
        let states = aut.automaton().states();
        let longest = longest(aut.automaton());
        let cells = (longest as u128 + 1) * states as u128;
        if cells > 20_000_000 {
            return Err(past_cells::<S>());
        }
        let Ok(rows) = zeros::<S>(alloc, cells as usize) else {
            return Err(MakeFault::Memory(AllocError));
        };
        let Ok(marks) = Vec::from_elem(alloc, true, cells as usize / BLOCK + 1) else {
            return Err(MakeFault::Memory(AllocError));
        };
        let single = longest == 1;
        let Ok(runs) = runs_unless(alloc, single, aut.automaton()) else {
            return Err(MakeFault::Memory(AllocError));
        };
        let Ok(origins) = Vec::from_elem(alloc, None, runs.labels.len()) else {
            return Err(MakeFault::Memory(AllocError));
        };
        Ok(Evaluator {
            automaton: aut,
            single,
            runs,
            origins,
            rows,
            marks,
        })
    }

    /// The coefficient of a word of one tape. It takes no memory. `Overflow` comes exactly where a
    /// step of the forward rows does not fit: a product of a row's entry and a weight, or an
    /// addition of products. After it the evaluator serves the next word as if new.
    pub fn eval(&mut self, word: Word<'_>) -> Result<S::Value, Overflow<S::Value>>
        requires { length (word_of word) ≡ 1 }
        ensures automaton { self.new ≡ self.old }
        ensures in_range { IfOk result (λ v. IsTrue (S.set.in_range v)) }
        ensures value { IsOutcome S.set (forward_steps S.set self.old.automaton (word_of word.entry)) (coefficient S.set self.old.automaton (word_of word.entry)) result }
    {
        proper_automata_are_proper(self.automaton);
        let positions = word.tape(0).len() + 1;
        let aut = self.automaton.automaton();
        forward(
            aut,
            word,
            positions,
            self.single,
            &self.runs,
            &mut self.origins,
            &mut self.rows,
            &mut self.marks,
        )
    }
}
