//! Marks of the cells of rows: a truth value for each block of cells, which may be false where they
//! are all zero.

ghost use Rattle.std.specs.Prelude.{◌≡◌, ◌<◌, ◌≤◌, ◌+◌, ◌*◌, ◌/◌, ◌^◌, ℕ, IsTrue, All, true, length, map};
ghost use Rattle.vc_aut.specs.Stored.{transition_of};
ghost use Rattle.vc_eval.specs.Marks.{mark, AreMarked, AreKept, AreTargetsMarked};
ghost use Rattle.vc_eval.specs.Moves.{cleared};
ghost use Rattle.vc_model.specs.WeightSet.{InRange};

use crate::rows::clear;
use vc_aut::Transition;
use vc_label::LabelSet;
use vc_ring::Semiring;

/// How many cells one mark stands for.
pub(crate) const BLOCK: usize = 64;

/// A state that leads to so large a part of the states has the whole row marked.
const LARGE_PART: usize = 32;

/// Marks every block.
pub(crate) fn mark_all(marks: &mut [bool])
    ensures { (b : ℕ) → mark marks.new b ≡ true }
{
    for b in 0..marks.len() {
        marks[b] = true;
    }
}

/// Where the part of a row ends that begins at a cell and is in the block of that cell; the row ends
/// at `end`.
pub(crate) fn part_end(cell: usize, end: usize) -> usize
    requires { cell < end }
    ensures after { cell < result }
    ensures most { result ≤ end }
    ensures block { result ≤ cell / 64 * 64 + 64 }
{
    let left = BLOCK - cell % BLOCK;
    if end - cell <= left { end } else { cell + left }
}

/// Makes each entry of the row of so many states that begins at `at` zero, and takes the marks off
/// the blocks that are in it whole.
pub(crate) fn clear_marked<S: Semiring>(
    rows: &mut [S::Value],
    marks: &mut [bool],
    at: usize,
    states: usize,
)
    requires room { at + states ≤ length rows.old }
    requires marks { length rows.old ≤ 64 * length marks.old }
    requires marked { AreMarked S.set rows.old marks.old }
    requires rows_in { InRange S.set rows.old }
    ensures rows { rows.new ≡ cleared S.set at states rows.old }
    ensures marked { AreMarked S.set rows.new marks.new }
    ensures rows_in { InRange S.set rows.new }
{
    let mut done = 0;
    while done < states {
        let next = part_end(at + done, at + states) - at;
        clear_part::<S>(rows, marks, at + done, next - done);
        done = next;
    }
}

/// Makes so many entries from a cell on zero, which are in one block, and takes the mark off the
/// block where they are all of it.
fn clear_part<S: Semiring>(rows: &mut [S::Value], marks: &mut [bool], cell: usize, count: usize)
    requires room { cell + count ≤ length rows.old }
    requires some { 1 ≤ count }
    requires block { cell + count ≤ cell / 64 * 64 + 64 }
    requires marks { length rows.old ≤ 64 * length marks.old }
    requires marked { AreMarked S.set rows.old marks.old }
    requires rows_in { InRange S.set rows.old }
    ensures rows { rows.new ≡ cleared S.set cell count rows.old }
    ensures marked { AreMarked S.set rows.new marks.new }
    ensures rows_in { InRange S.set rows.new }
{
    if marks[cell / BLOCK] {
        clear::<S>(rows, cell, count);
        if count == BLOCK {
            marks[cell / BLOCK] = false;
        }
    }
}

/// Marks the blocks of the targets of transitions, in the row of so many states that begins at `at`.
pub(crate) fn mark_targets<L: LabelSet, S: Semiring>(
    transitions: &[Transition<L, S>],
    at: usize,
    states: usize,
    marks: &mut [bool],
)
    requires targets { All (λ u. u.to < states) (map (transition_of L.parts) transitions.now) }
    requires room { at + states ≤ 64 * length marks.old }
    requires fits { at + states < 2 ^ 64 }
    ensures targets { AreTargetsMarked at (map (transition_of L.parts) transitions.now) marks.new }
    ensures kept { AreKept marks.old marks.new }
{
    if transitions.len() >= states / LARGE_PART {
        mark_row(at, states, marks);
    } else {
        mark_each::<L, S>(transitions, at, states, marks);
    }
}

/// Marks the blocks of the row of so many states that begins at `at`.
fn mark_row(at: usize, states: usize, marks: &mut [bool])
    requires room { at + states ≤ 64 * length marks.old }
    requires fits { at + states < 2 ^ 64 }
    ensures row { (t : ℕ) → t < states → mark marks.new ((at + t) / 64) ≡ true }
    ensures kept { AreKept marks.old marks.new }
{
    let mut cell = at;
    while cell < at + states {
        marks[cell / BLOCK] = true;
        cell = part_end(cell, at + states);
    }
}

/// Marks the block of each target of transitions, in the row of so many states that begins at `at`.
fn mark_each<L: LabelSet, S: Semiring>(
    transitions: &[Transition<L, S>],
    at: usize,
    states: usize,
    marks: &mut [bool],
)
    requires targets { All (λ u. u.to < states) (map (transition_of L.parts) transitions.now) }
    requires room { at + states ≤ 64 * length marks.old }
    requires fits { at + states < 2 ^ 64 }
    ensures targets { AreTargetsMarked at (map (transition_of L.parts) transitions.now) marks.new }
    ensures kept { AreKept marks.old marks.new }
{
    for transition in transitions {
        mark_target::<L, S>(transition, at, states, marks);
    }
}

/// Marks the block of the target of a transition, in the row of so many states that begins at `at`.
fn mark_target<L: LabelSet, S: Semiring>(
    transition: &Transition<L, S>,
    at: usize,
    states: usize,
    marks: &mut [bool],
)
    requires target { (transition_of L.parts transition.now).to < states }
    requires room { at + states ≤ 64 * length marks.old }
    requires fits { at + states < 2 ^ 64 }
    ensures target { mark marks.new ((at + (transition_of L.parts transition.now).to) / 64) ≡ true }
    ensures kept { AreKept marks.old marks.new }
{
    marks[(at + transition.to as usize) / BLOCK] = true;
}
