//! Coefficients at words of any number of tapes.

ghost use Rattle.std.specs.Prelude.{◌≡◌, IfOk, IsTrue, length};
ghost use Rattle.vc_eval.specs.Cells.{IsTupleAnswer};
ghost use Rattle.vc_label.specs.Borrowed.{word_of};

use crate::rows::forward;
use crate::runs::runs_of;
use crate::size::{cells_of, past_cells, rows_wanted, zeros};
use std::alloc::{AllocError, Global};
use vc_aut::{Proper, proper_automata_are_proper};
use vc_label::{LabelSet, Word};
use vc_ring::{MakeFault, Semiring};

/// The coefficient of a proper automaton at a word of as many tapes. It fills a row for each
/// position, that is a prefix length on each tape, and keeps so many of them that each label leads
/// back to one. `Limit` of `Cells` comes exactly where the rows of all positions have more than
/// 20,000,000 entries together, and `Overflow` exactly where no limit is passed and a step of the
/// forward rows does not fit.
pub fn eval_tuple<L: LabelSet, S: Semiring>(
    alloc: Global,
    aut: &Proper<L, S>,
    word: Word<'_>,
) -> Result<S::Value, MakeFault<S::Value>>
    requires { length (word_of word) ≡ length aut.now.sets }
    ensures in_range { IfOk result (λ v. IsTrue (S.set.in_range v)) }
    ensures answer { IsTupleAnswer S.set aut.now.automaton (word_of word.entry) result }
{
    proper_automata_are_proper(aut);
    let states = aut.automaton().states();
    if states == 0 {
        return Ok(S::zero());
    }
    let Some(cells) = cells_of(states, word) else {
        return Err(past_cells::<S>());
    };
    let positions = cells / states as usize;
    let Ok(runs) = runs_of(alloc, aut.automaton()) else {
        return Err(MakeFault::Memory(AllocError));
    };
    let wanted = rows_wanted(&runs.labels, word, positions);
    let Ok(mut rows) = zeros::<S>(alloc, wanted * states as usize) else {
        return Err(MakeFault::Memory(AllocError));
    };
    let Ok(mut origins) = Vec::from_elem(alloc, None, runs.labels.len()) else {
        return Err(MakeFault::Memory(AllocError));
    };
    match forward(
        aut.automaton(),
        word,
        positions,
        false,
        &runs,
        &mut origins,
        &mut rows,
        &mut [],
    ) {
        Ok(value) => Ok(value),
        Err(step) => Err(MakeFault::Overflow(step)),
    }
}
