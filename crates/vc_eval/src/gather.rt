//! Row steps run by run: runs whose label does not end the prefix, or whose entry is zero, are left
//! out.

ghost use Rattle.std.specs.Prelude.{◌≡◌, ◌<◌, ◌≤◌, ◌+◌, ◌∷◌, [], ℕ, All, IfSome, IsTrue, None, OnOk, Some, false, length, map, slice_index_or, take};
ghost use Rattle.vc_aut.specs.Stored.{transition_of};
ghost use Rattle.vc_eval.specs.Forward.{by_source};
ghost use Rattle.vc_eval.specs.LetterMoves.{IsMoveInto};
ghost use Rattle.vc_eval.specs.Moves.{AreMovesHere, entry, moved, move_steps, moved_once, once_steps, source};
ghost use Rattle.vc_eval.specs.Runs.{AreRunsOver, IsLabelHere, IsZeroRow, at_cell, origin, run_cell, run_moves, run_of, run_steps, runs_moved};
ghost use Rattle.vc_label.specs.Borrowed.{word_of};
ghost use Rattle.vc_model.specs.WeightSet.{InRange};
ghost use Rattle.vc_ring.specs.Steps.{outcome};

use crate::rows::{plus_product, row_before};
use crate::runs::Run;
use crate::words::{is_end, place};
use vc_aut::{Automaton, Transition};
use vc_label::{LabelSet, Word};
use vc_ring::{Overflow, Semiring};

/// Adds to the row that begins at a cell what the transitions bring whose labels end the prefix.
pub(crate) fn gather_row<L: LabelSet, S: Semiring>(
    aut: &Automaton<L, S>,
    labels: &[Word<'_>],
    runs: &[Run<'_, L, S>],
    word: Word<'_>,
    front: Word<'_>,
    at: usize,
    origins: &mut [Option<usize>],
    rows: &mut [S::Value],
) -> Result<(), Overflow<S::Value>>
    requires tapes { length (word_of word) ≡ length (word_of front) }
    requires over { AreRunsOver aut.now.automaton
        (map word_of labels.now) (map (run_of L.parts) runs.now) }
    requires all { run_moves (map (run_of L.parts) runs.now) ≡ by_source aut.now.automaton }
    requires origins { length origins.old ≡ length labels.now }
    requires at { at ≤ length rows.old }
    requires moves { AreMovesHere S.set (word_of word) aut.now.automaton (word_of front) at (length rows.old) }
    requires rows_in { InRange S.set rows.old }
    ensures steps { result ≡ outcome S.set (move_steps S.set
        (source S.set (word_of word.entry) aut.now.automaton.states (word_of front.entry) at) at
        (by_source aut.now.automaton) rows.old) tt }
    ensures rows { OnOk result (rows.new ≡ moved S.set
        (source S.set (word_of word.entry) aut.now.automaton.states (word_of front.entry) at) at
        (by_source aut.now.automaton) rows.old) }
    ensures rows_in { InRange S.set rows.new }
{
    let states = aut.states() as usize;
    if find_origins::<S>(labels, word, states, front, at, origins, rows) {
        return gather_runs::<L, S>(runs, origins, at, rows);
    }
    Ok(())
}

/// Finds for each label where the row begins that it leads back to from the prefix, none where it
/// does not end it. Whether one of these rows may have an entry that is not zero.
fn find_origins<S: Semiring>(
    labels: &[Word<'_>],
    word: Word<'_>,
    states: usize,
    front: Word<'_>,
    at: usize,
    origins: &mut [Option<usize>],
    rows: &[S::Value],
) -> bool
    requires tapes { length (word_of word) ≡ length (word_of front) }
    requires at { at ≤ length rows.now }
    requires here { All (IsLabelHere (word_of word) states (word_of front) at (length rows.now))
        (map word_of labels.now) }
    requires origins { length origins.old ≡ length labels.now }
    ensures origins { (k : ℕ) → k < length labels.now → slice_index_or origins.new k None
        ≡ origin (word_of word.entry) states (word_of front.entry) at (length rows.now)
        (slice_index_or (map word_of labels.now) k []) }
    ensures idle { result ≡ false → (k : ℕ) → k < length labels.now
        → IsZeroRow S.set states rows.now (slice_index_or origins.new k None) }
{
    let mut busy = false;
    for number in 0..labels.len() {
        let origin = origin_of(labels[number], word, states, front, at, rows.len());
        origins[number] = origin;
        busy = is_busy::<S>(busy, rows, origin, states);
    }
    busy
}

/// Where the row begins that a label leads back to from the prefix, if it ends it.
fn origin_of(
    label: Word<'_>,
    word: Word<'_>,
    states: usize,
    front: Word<'_>,
    at: usize,
    cells: usize,
) -> Option<usize>
    requires tapes { length (word_of word) ≡ length (word_of front) }
    requires at { at ≤ cells }
    requires here { IsLabelHere (word_of word) states (word_of front) at cells (word_of label) }
    ensures { result ≡ origin (word_of word.entry) states (word_of front.entry) at cells
        (word_of label.entry) }
{
    if !is_end(label, front) {
        return None;
    }
    let back = place(label, word) * states;
    Some(row_before(at, back, cells))
}

/// Whether one was busy before, or there is a row and it has an entry that is not zero.
fn is_busy<S: Semiring>(
    before: bool,
    rows: &[S::Value],
    origin: Option<usize>,
    states: usize,
) -> bool
    requires { IfSome origin (λ b. b + states ≤ length rows.now) }
    ensures before { result ≡ false → before ≡ false }
    ensures row { result ≡ false → IsZeroRow S.set states rows.now origin }
{
    if before {
        return true;
    }
    match origin {
        Some(begin) => return !is_zero_row::<S>(rows, begin, states),
        None => return false,
    }
}

/// Whether each entry is zero of the row of so many states that begins at a cell.
fn is_zero_row<S: Semiring>(rows: &[S::Value], begin: usize, states: usize) -> bool
    requires { begin + states ≤ length rows.now }
    ensures { IsTrue result → (t : ℕ) → t < states → entry S.set rows.now (begin + t) ≡ S.set.zero }
{
    for s in 0..states {
        if rows[begin + s] != S::zero() {
            return false;
        }
    }
    true
}

/// Adds to the row that begins at a cell what runs bring from the rows of their labels.
fn gather_runs<L: LabelSet, S: Semiring>(
    runs: &[Run<'_, L, S>],
    origins: &[Option<usize>],
    at: usize,
    rows: &mut [S::Value],
) -> Result<(), Overflow<S::Value>>
    requires numbers { All (λ r. r.number < length origins.now) (map (run_of L.parts) runs.now) }
    requires cells { All (λ r. IfSome (run_cell origins.now r) (λ c. c < length rows.old))
        (map (run_of L.parts) runs.now) }
    requires moves { All (λ r. All (IsMoveInto S.set at (length rows.old)) r.transitions)
        (map (run_of L.parts) runs.now) }
    requires rows_in { InRange S.set rows.old }
    ensures steps { result ≡ outcome S.set
        (run_steps S.set origins.now at (map (run_of L.parts) runs.now) rows.old) tt }
    ensures rows { OnOk result (rows.new
        ≡ runs_moved S.set origins.now at (map (run_of L.parts) runs.now) rows.old) }
    ensures rows_in { InRange S.set rows.new }
{
    for run in runs {
        gather_run::<L, S>(run, origins, at, rows)?;
    }
    Ok(())
}

/// Adds to the row that begins at a cell what a run brings from the row of its label.
fn gather_run<L: LabelSet, S: Semiring>(
    run: &Run<'_, L, S>,
    origins: &[Option<usize>],
    at: usize,
    rows: &mut [S::Value],
) -> Result<(), Overflow<S::Value>>
    requires number { run.now.number < length origins.now }
    requires cell { IfSome (run_cell origins.now (run_of L.parts run.now)) (λ c. c < length rows.old) }
    requires moves { All (IsMoveInto S.set at (length rows.old))
        (map (transition_of L.parts) run.now.transitions.now) }
    requires rows_in { InRange S.set rows.old }
    ensures steps { result ≡ outcome S.set (move_steps S.set
        (at_cell S.set (run_cell origins.now (run_of L.parts run.now))) at
        (map (transition_of L.parts) run.now.transitions.now) rows.old) tt }
    ensures rows { OnOk result (rows.new ≡ moved S.set
        (at_cell S.set (run_cell origins.now (run_of L.parts run.now))) at
        (map (transition_of L.parts) run.now.transitions.now) rows.old) }
    ensures rows_in { InRange S.set rows.new }
{
    match origins[run.number] {
        Some(begin) => {
            return push::<L, S>(begin + run.from as usize, run.transitions, at, rows);
        }
        None => return Ok(()),
    }
}

/// Adds to the row that begins at `at` what transitions bring from a cell, unless its entry is zero.
fn push<L: LabelSet, S: Semiring>(
    cell: usize,
    transitions: &[Transition<L, S>],
    at: usize,
    rows: &mut [S::Value],
) -> Result<(), Overflow<S::Value>>
    requires cell { cell < length rows.old }
    requires moves { All (IsMoveInto S.set at (length rows.old))
        (map (transition_of L.parts) transitions.now) }
    requires rows_in { InRange S.set rows.old }
    ensures steps { result ≡ outcome S.set (move_steps S.set (at_cell S.set (Some cell)) at
        (map (transition_of L.parts) transitions.now) rows.old) tt }
    ensures rows { OnOk result (rows.new ≡ moved S.set (at_cell S.set (Some cell)) at
        (map (transition_of L.parts) transitions.now) rows.old) }
    ensures rows_in { InRange S.set rows.new }
{
    if rows[cell] == S::zero() {
        return Ok(());
    }
    push_each::<L, S>(cell, transitions, at, rows)
}

/// Adds to the row that begins at `at` what transitions bring from a cell.
fn push_each<L: LabelSet, S: Semiring>(
    cell: usize,
    transitions: &[Transition<L, S>],
    at: usize,
    rows: &mut [S::Value],
) -> Result<(), Overflow<S::Value>>
    requires cell { cell < length rows.old }
    requires moves { All (IsMoveInto S.set at (length rows.old))
        (map (transition_of L.parts) transitions.now) }
    requires rows_in { InRange S.set rows.old }
    ensures steps { result ≡ outcome S.set (move_steps S.set (at_cell S.set (Some cell)) at
        (map (transition_of L.parts) transitions.now) rows.old) tt }
    ensures rows { OnOk result (rows.new ≡ moved S.set (at_cell S.set (Some cell)) at
        (map (transition_of L.parts) transitions.now) rows.old) }
    ensures rows_in { InRange S.set rows.new }
{
    for transition in transitions {
        bring::<L, S>(cell, transition, at, rows)?;
    }
    Ok(())
}

/// Adds to the row that begins at `at` what a transition brings from a cell.
fn bring<L: LabelSet, S: Semiring>(
    cell: usize,
    transition: &Transition<L, S>,
    at: usize,
    rows: &mut [S::Value],
) -> Result<(), Overflow<S::Value>>
    requires cell { cell < length rows.old }
    requires into { IsMoveInto S.set at (length rows.old) (transition_of L.parts transition.now) }
    requires rows_in { InRange S.set rows.old }
    ensures steps { result ≡ outcome S.set (once_steps S.set at
        (at_cell S.set (Some cell) rows.old (transition_of L.parts transition.now))
        (transition_of L.parts transition.now) rows.old) tt }
    ensures rows { OnOk result (rows.new ≡ moved_once S.set at
        (at_cell S.set (Some cell) rows.old (transition_of L.parts transition.now))
        (transition_of L.parts transition.now) rows.old) }
    ensures rows_in { InRange S.set rows.new }
{
    let to = at + transition.to as usize;
    rows[to] = plus_product::<S>(rows[to], rows[cell], transition.weight)?;
    Ok(())
}
