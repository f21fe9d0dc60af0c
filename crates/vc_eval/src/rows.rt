//! The rows of the positions of a word, which are filled one after another.

ghost use Rattle.std.specs.Prelude.{◌≡◌, ◌<◌, ◌≤◌, ◌+◌, ◌*◌, ◌^◌, ℕ, IsTrue, OnOk, IfOk, [], ◌∷◌, false, length, map};
ghost use Rattle.vc_eval.specs.Forward.{by_source, products, forward_steps};
ghost use Rattle.vc_eval.specs.LetterMoves.{AreLettersHere};
ghost use Rattle.vc_eval.specs.Marks.{AreMarked};
ghost use Rattle.vc_eval.specs.Moves.{entry, earlier, next_row, source, AreMovesHere, moved, move_steps, cleared, ends_of, in_turn};
ghost use Rattle.vc_eval.specs.Positions.{positions};
ghost use Rattle.vc_eval.specs.Ready.{HasRoom};
ghost use Rattle.vc_eval.specs.Runs.{AreRunsOver, run_moves, run_of};
ghost use Rattle.vc_label.specs.Borrowed.{word_of};
ghost use Rattle.vc_model.specs.Automata.{IsProper, coefficient, initial_weight};
ghost use Rattle.vc_model.specs.Letters.{HasLetters};
ghost use Rattle.vc_model.specs.Sums.{sum_onto};
ghost use Rattle.vc_model.specs.WeightSet.{InRange};
ghost use Rattle.vc_ring.specs.Steps.{outcome, IsOutcome};
ghost use Rattle.vc_ring.specs.declared.faults.Overflow.TheVariants.{Add, Mul};

use crate::gather::gather_row;
use crate::letters::push_row;
use crate::marks::{clear_marked, mark_all};
use crate::runs::Runs;
use crate::words::front;
use vc_aut::{Automaton, automata_are_valid};
use vc_label::{LabelSet, Word};
use vc_ring::{Overflow, Semiring};

/// The coefficient at a word; `count` is how many positions it has, and `single` says that there is one
/// tape, and that each label has one letter. The rows are used in turn, and what stands in them and in
/// the marks does not matter.
pub(crate) fn forward<L: LabelSet, S: Semiring>(
    aut: &Automaton<L, S>,
    word: Word<'_>,
    count: usize,
    single: bool,
    runs: &Runs<'_, L, S>,
    origins: &mut [Option<usize>],
    rows: &mut [S::Value],
    marks: &mut [bool],
) -> Result<S::Value, Overflow<S::Value>>
    requires tapes { length (word_of word) ≡ length aut.now.sets }
    requires proper { IsProper aut.now.automaton }
    requires tape { IsTrue single → length aut.now.sets ≡ 1 }
    requires letters { IsTrue single → HasLetters aut.now.automaton }
    requires two_rows { IsTrue single → 2 * aut.now.automaton.states ≤ length rows.old }
    requires marks { IsTrue single → length rows.old ≤ 64 * length marks.old }
    requires positions { count ≡ positions (word_of word) }
    requires room { HasRoom aut.now.automaton (word_of word) (length rows.old) }
    requires over { single ≡ false → AreRunsOver aut.now.automaton
        (map word_of runs.now.labels.items) (map (run_of L.parts) runs.now.runs.items) }
    requires all { single ≡ false → run_moves (map (run_of L.parts) runs.now.runs.items)
        ≡ by_source aut.now.automaton }
    requires origins { single ≡ false → length origins.old ≡ length runs.now.labels.items }
    requires rows_in { InRange S.set rows.old }
    ensures value { IsOutcome S.set (forward_steps S.set aut.now.automaton (word_of word.entry)) (coefficient S.set aut.now.automaton (word_of word.entry)) result }
    ensures in_range { IfOk result (λ v. IsTrue (S.set.in_range v)) }
    ensures rows_in { InRange S.set rows.new }
{
    automata_are_valid(aut);
    let states = aut.states() as usize;
    start(aut, rows);
    mark_all(marks);
    let mut at = 0;
    for position in 1..count {
        at = row_behind(at, states, rows.len());
        fill(
            aut,
            word,
            front(word, position),
            at,
            single,
            runs,
            origins,
            rows,
            marks,
        )?;
    }
    finish(aut, rows, at)
}

/// Writes the initial weights into the first row.
fn start<L: LabelSet, S: Semiring>(aut: &Automaton<L, S>, rows: &mut [S::Value])
    requires room { aut.now.automaton.states ≤ length rows.old }
    requires rows_in { InRange S.set rows.old }
    ensures entries { (t : ℕ) → t < aut.now.automaton.states → entry S.set rows.new t ≡ initial_weight S.set aut.now.automaton t }
    ensures rows_in { InRange S.set rows.new }
{
    for s in 0..aut.states() {
        rows[s as usize] = aut.initial_weight(s);
    }
}

/// Makes the row that begins at a cell that of a prefix: the sum of what the transitions bring whose
/// labels end the prefix.
fn fill<L: LabelSet, S: Semiring>(
    aut: &Automaton<L, S>,
    word: Word<'_>,
    front: Word<'_>,
    at: usize,
    single: bool,
    runs: &Runs<'_, L, S>,
    origins: &mut [Option<usize>],
    rows: &mut [S::Value],
    marks: &mut [bool],
) -> Result<(), Overflow<S::Value>>
    requires tapes { length (word_of word) ≡ length (word_of front) }
    requires room { at + aut.now.automaton.states ≤ length rows.old }
    requires moves { AreMovesHere S.set (word_of word) aut.now.automaton (word_of front) at (length rows.old) }
    requires tape { IsTrue single → length aut.now.sets ≡ 1 }
    requires letters { IsTrue single → AreLettersHere aut.now.automaton (word_of front) at (length rows.old) }
    requires marks { IsTrue single → length rows.old ≤ 64 * length marks.old }
    requires over { single ≡ false → AreRunsOver aut.now.automaton
        (map word_of runs.now.labels.items) (map (run_of L.parts) runs.now.runs.items) }
    requires all { single ≡ false → run_moves (map (run_of L.parts) runs.now.runs.items)
        ≡ by_source aut.now.automaton }
    requires origins { single ≡ false → length origins.old ≡ length runs.now.labels.items }
    requires marked { IsTrue single → AreMarked S.set rows.old marks.old }
    requires rows_in { InRange S.set rows.old }
    ensures steps { result ≡ outcome S.set (move_steps S.set (source S.set (word_of word.entry) aut.now.automaton.states (word_of front.entry) at) at (by_source aut.now.automaton) (cleared S.set at aut.now.automaton.states rows.old)) tt }
    ensures rows { OnOk result (rows.new ≡ moved S.set (source S.set (word_of word.entry) aut.now.automaton.states (word_of front.entry) at) at (by_source aut.now.automaton) (cleared S.set at aut.now.automaton.states rows.old)) }
    ensures marked { OnOk result (IsTrue single → AreMarked S.set rows.new marks.new) }
    ensures rows_in { InRange S.set rows.new }
{
    let states = aut.states() as usize;
    if single {
        let tape = front.tape(0);
        let before = row_before(at, states, rows.len());
        clear_marked::<S>(rows, marks, at, states);
        return push_row(aut, tape[tape.len() - 1], before, at, rows, marks);
    }
    clear::<S>(rows, at, states);
    gather_row(
        aut,
        &runs.labels,
        &runs.runs,
        word,
        front,
        at,
        origins,
        rows,
    )
}

/// Makes each entry of the row of so many states that begins at a cell zero.
pub(crate) fn clear<S: Semiring>(rows: &mut [S::Value], at: usize, states: usize)
    requires room { at + states ≤ length rows.old }
    requires rows_in { InRange S.set rows.old }
    ensures rows { rows.new ≡ cleared S.set at states rows.old }
    ensures rows_in { InRange S.set rows.new }
{
    for s in 0..states {
        rows[at + s] = S::zero();
    }
}

/// Where the row begins that stands so many cells before the one that begins at a cell.
pub(crate) fn row_before(at: usize, back: usize, cells: usize) -> usize
    requires at { at ≤ cells }
    requires back { back ≤ cells }
    ensures { result ≡ earlier at back cells }
{
    if back <= at {
        at - back
    } else {
        cells - (back - at)
    }
}

/// Where the row of so many states begins behind the one that begins at a cell.
fn row_behind(at: usize, states: usize, cells: usize) -> usize
    requires { at ≤ cells }
    ensures { result ≡ next_row at states cells }
{
    if cells - at > states { at + states } else { 0 }
}

/// The sum of the entries of the row that begins at a cell times the final weights.
fn finish<L: LabelSet, S: Semiring>(
    aut: &Automaton<L, S>,
    rows: &[S::Value],
    at: usize,
) -> Result<S::Value, Overflow<S::Value>>
    requires room { at + aut.now.automaton.states ≤ length rows.now }
    requires rows_in { InRange S.set rows.now }
    ensures in_range { IfOk result (λ v. IsTrue (S.set.in_range v)) }
    ensures value { result ≡ outcome S.set (in_turn S.set S.set.zero (ends_of S.set aut.now.automaton rows.now at)) (sum_onto S.set S.set.zero (products S.set (ends_of S.set aut.now.automaton rows.now at))) }
{
    let mut total = S::zero();
    for s in 0..aut.states() {
        total = plus_product::<S>(total, rows[at + s as usize], aut.final_weight(s))?;
    }
    Ok(total)
}

/// The product of two weights, added to a sum.
pub(crate) fn plus_product<S: Semiring>(
    sum: S::Value,
    left: S::Value,
    right: S::Value,
) -> Result<S::Value, Overflow<S::Value>>
    requires sum_in { IsTrue (S.set.in_range sum) }
    requires left_in { IsTrue (S.set.in_range left) }
    requires right_in { IsTrue (S.set.in_range right) }
    ensures steps { result ≡ outcome S.set (Mul left right ∷ Add sum (S.set.times left right) ∷ []) (S.set.plus sum (S.set.times left right)) }
    ensures in_range { IfOk result (λ v. IsTrue (S.set.in_range v)) }
{
    S::add(sum, S::mul(left, right)?)
}
