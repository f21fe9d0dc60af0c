//! The closure where circuits are absorbed, row by row: weights that spread along moves, and a
//! check that they are settled.
ghost use Rattle.std.specs.Prelude.{◌≡◌, ◌<◌, ℕ, IfErr, IfOk, IfSome, IsNone, IsTrue, OnOk, true, length, if◌then◌else◌, ◌==◌};
ghost use Rattle.vc_closure.specs.Closing.{closure};
ghost use Rattle.vc_closure.specs.Formula.{IsMatrixStep};
ghost use Rattle.vc_closure.specs.Refused.{IsPastPairs, IsSumCause};
ghost use Rattle.vc_closure.specs.Rows.{AreClear, AreRows, AreRowsOf, AreSums, IsRow, entries_at, row_at, sum_at};
ghost use Rattle.vc_closure.specs.Settled.{AddsNothing, AreAmong, AreFrom, AreMoves, AreWaiting, IsSettled};
ghost use Rattle.vc_model.specs.Lists.{In};
ghost use Rattle.vc_model.specs.WeightSet.{InRange};

use crate::fault::SumFault;
use crate::moves::empty_moves;
use crate::rows::{Entry, MOST_PAIRS, Rows, append, counted, too_many_pairs};
use crate::sums::{Sums, add, new_sums, take_row};
use std::alloc::{AllocError, Global};
use std::collections::VecDeque;
use vc_aut::{Automaton, automata_are_valid};
use vc_label::LabelSet;
use vc_ring::Semiring;

/// The states whose weights have changed since their moves were taken, and the mark of each state
/// that is among them.
#[derive(Drop)]
struct Waiting {
    queue: VecDeque<u32>,
    marks: Vec<bool>,
}

/// The rows of the closure, where each of them settles, and each step on the way fits.
pub(crate) fn settled_rows<L: LabelSet, S: Semiring>(
    alloc: Global,
    aut: &Automaton<L, S>,
) -> Result<Option<Rows<S>>, SumFault<S>>
    requires { S.ABSORBS ≡ true }
    ensures rows { IfOk result (λ found. IfSome found (λ rows. AreRows S.set
        aut.now.automaton.states rows.items)) }
    ensures entries { IfOk result (λ found. IfSome found (λ rows. AreRowsOf S.set aut.now.automaton
        (closure S.set aut.now.automaton) rows.items)) }
    ensures fault { IfErr result (IsSumCause S.set (IsMatrixStep S.set aut.now.automaton)
        (IsPastPairs (length aut.now.sets) aut.now.automaton)) }
{
    automata_are_valid(aut);
    let states = aut.states() as usize;
    let most = MOST_PAIRS + states as u64;
    let Ok(moves) = empty_moves(alloc, aut) else {
        return Err(SumFault::Memory(AllocError));
    };
    let Ok(mut sums) = new_sums::<S>(alloc, states) else {
        return Err(SumFault::Memory(AllocError));
    };
    let Ok(mut waiting) = none_waiting(alloc, states) else {
        return Err(SumFault::Memory(AllocError));
    };
    let mut rows = Vec::new(alloc);
    let mut count = 0;
    for state in 0..aut.states() {
        let found = match settled_row::<S>(alloc, state, &moves, &mut sums, &mut waiting) {
            Ok(found) => found,
            Err(error) => return Err(SumFault::Memory(error)),
        };
        let Some(row) = found else {
            return Ok(None);
        };
        let Some(more) = counted(count, row.len(), most) else {
            return Err(too_many_pairs::<S>());
        };
        count = more;
        let Ok(()) = append(&mut rows, row) else {
            return Err(SumFault::Memory(AllocError));
        };
    }
    Ok(Some(rows))
}

/// The row of a state, where it settles.
fn settled_row<S: Semiring>(
    alloc: Global,
    state: u32,
    moves: &[Vec<Entry<S>>],
    sums: &mut Sums<S>,
    waiting: &mut Waiting,
) -> Result<Option<Vec<Entry<S>>>, AllocError>
    requires absorbs { S.ABSORBS ≡ true }
    requires state { state < length moves.now }
    requires moves { AreMoves S.set (length moves.now) moves.now }
    requires sums { AreClear S.set (length moves.now) sums.old.sums.items sums.old.touched.items }
    requires waiting { AreWaiting (length moves.now) waiting.old.queue.items
        waiting.old.marks.items }
    ensures row { IfOk result (λ found. IfSome found (λ row. IsRow S.set (length moves.now)
        row.items)) }
    ensures settled { IfOk result (λ found. IfSome found (λ row. IsSettled S.set moves.now state
        (row_at S.set row.items))) }
    ensures sums { IfOk result (λ found. IfSome found (λ row. AreClear S.set (length moves.now)
        sums.new.sums.items sums.new.touched.items)) }
    ensures waiting { OnOk result (AreWaiting (length moves.now) waiting.new.queue.items
        waiting.new.marks.items) }
{
    if let Err(fault) = spread::<S>(state, moves, sums, waiting) {
        return no_row::<S>(fault);
    }
    if !is_settled::<S>(state, moves, &sums.sums, &sums.touched) {
        return Ok(None);
    }
    let row = take_row::<S>(alloc, sums)?;
    Ok(Some(row))
}

/// No row for a step that does not fit.
fn no_row<S: Semiring>(fault: SumFault<S>) -> Result<Option<Vec<Entry<S>>>, AllocError>
    ensures { IfOk result (λ found. IsNone found) }
{
    match fault {
        SumFault::Memory(error) => Err(error),
        _ => Ok(None),
    }
}

/// Spreads one from a state along the moves, until no weight changes. It refuses also where a step
/// does not fit.
fn spread<S: Semiring>(
    state: u32,
    moves: &[Vec<Entry<S>>],
    sums: &mut Sums<S>,
    waiting: &mut Waiting,
) -> Result<(), SumFault<S>>
    requires absorbs { S.ABSORBS ≡ true }
    requires state { state < length moves.now }
    requires moves { AreMoves S.set (length moves.now) moves.now }
    requires sums { AreClear S.set (length moves.now) sums.old.sums.items sums.old.touched.items }
    requires waiting { AreWaiting (length moves.now) waiting.old.queue.items
        waiting.old.marks.items }
    ensures sums { OnOk result (AreSums S.set (length moves.now) sums.new.sums.items
        sums.new.touched.items) }
    ensures from { OnOk result (AreFrom S.set moves.now state (sum_at S.set sums.new.sums.items)) }
    ensures waiting { AreWaiting (length moves.now) waiting.new.queue.items waiting.new.marks.items }
{
    relax::<S>(sums, waiting, state, S::one())?;
    for _step in 0..u64::MAX {
        let Some(from) = next_waiting(waiting) else {
            return Ok(());
        };
        spread_from::<S>(from, moves, sums, waiting)?;
    }
    Ok(())
}

/// Adds what the weight of a state brings along each of its moves.
fn spread_from<S: Semiring>(
    state: u32,
    moves: &[Vec<Entry<S>>],
    sums: &mut Sums<S>,
    waiting: &mut Waiting,
) -> Result<(), SumFault<S>>
    requires state { state < length moves.now }
    requires moves { AreMoves S.set (length moves.now) moves.now }
    requires sums { AreSums S.set (length moves.now) sums.old.sums.items sums.old.touched.items }
    requires waiting { AreWaiting (length moves.now) waiting.old.queue.items
        waiting.old.marks.items }
    ensures sums { OnOk result (AreSums S.set (length moves.now) sums.new.sums.items
        sums.new.touched.items) }
    ensures from { OnOk result ((s : ℕ) → AreFrom S.set moves.now s (sum_at S.set
        sums.old.sums.items) → AreFrom S.set moves.now s (sum_at S.set sums.new.sums.items)) }
    ensures waiting { AreWaiting (length moves.now) waiting.new.queue.items waiting.new.marks.items }
{
    let weight = sums.sums[state as usize];
    for entry in &moves[state as usize] {
        let product = match S::mul(weight, entry.weight) {
            Ok(product) => product,
            Err(overflow) => return Err(SumFault::Overflow(overflow)),
        };
        relax::<S>(sums, waiting, entry.state, product)?;
    }
    Ok(())
}

/// Adds a weight at a state, which waits where its sum changes.
fn relax<S: Semiring>(
    sums: &mut Sums<S>,
    waiting: &mut Waiting,
    state: u32,
    weight: S::Value,
) -> Result<(), SumFault<S>>
    requires state { state < length sums.old.sums.items }
    requires sums { AreSums S.set (length sums.old.sums.items) sums.old.sums.items
        sums.old.touched.items }
    requires weight { IsTrue (S.set.in_range weight) }
    requires waiting { AreWaiting (length sums.old.sums.items) waiting.old.queue.items
        waiting.old.marks.items }
    ensures sums { OnOk result (AreSums S.set (length sums.old.sums.items) sums.new.sums.items
        sums.new.touched.items) }
    ensures added { OnOk result ((q : ℕ) → sum_at S.set sums.new.sums.items q ≡ S.set.plus (sum_at
        S.set sums.old.sums.items q) (if state == q then weight else S.set.zero)) }
    ensures waiting { AreWaiting (length sums.old.sums.items) waiting.new.queue.items
        waiting.new.marks.items }
{
    let before = sums.sums[state as usize];
    add::<S>(sums, state, weight)?;
    if sums.sums[state as usize] == before {
        return Ok(());
    }
    let Ok(()) = wait(waiting, state) else {
        return Err(SumFault::Memory(AllocError));
    };
    Ok(())
}

/// No state waits.
fn none_waiting(alloc: Global, states: usize) -> Result<Waiting, AllocError>
    ensures { IfOk result (λ w. AreWaiting states w.queue.items w.marks.items) }
{
    Ok(Waiting {
        queue: VecDeque::new(alloc),
        marks: Vec::from_elem(alloc, false, states)?,
    })
}

/// Lets a state wait.
fn wait(waiting: &mut Waiting, state: u32) -> Result<(), AllocError>
    requires state { state < length waiting.old.marks.items }
    requires waiting { AreWaiting (length waiting.old.marks.items) waiting.old.queue.items
        waiting.old.marks.items }
    ensures { AreWaiting (length waiting.old.marks.items) waiting.new.queue.items
        waiting.new.marks.items }
{
    if waiting.marks[state as usize] {
        return Ok(());
    }
    waiting.marks[state as usize] = true;
    waiting.queue.push_back(state)?;
    Ok(())
}

/// The state that has waited longest, which waits no more.
fn next_waiting(waiting: &mut Waiting) -> Option<u32>
    requires { AreWaiting (length waiting.old.marks.items) waiting.old.queue.items
        waiting.old.marks.items }
    ensures state { IfSome result (λ q. q < length waiting.old.marks.items) }
    ensures waiting { AreWaiting (length waiting.old.marks.items) waiting.new.queue.items
        waiting.new.marks.items }
{
    let state = waiting.queue.pop_front()?;
    waiting.marks[state as usize] = false;
    Some(state)
}

/// Whether the weights are settled: one at the state, and no move adds to them.
fn is_settled<S: Semiring>(
    state: u32,
    moves: &[Vec<Entry<S>>],
    sums: &[S::Value],
    touched: &[u32],
) -> bool
    requires state { state < length moves.now }
    requires moves { AreMoves S.set (length moves.now) moves.now }
    requires sums { AreSums S.set (length moves.now) sums.now touched.now }
    ensures one { IsTrue result → sum_at S.set sums.now state ≡ S.set.one }
    ensures moves { IsTrue result → (p : ℕ) → In p touched.now → AddsNothing S.set (sum_at S.set
        sums.now) (sum_at S.set sums.now p) (entries_at moves.now p) }
{
    if sums[state as usize] != S::one() {
        return false;
    }
    for from in touched {
        if !adds_nothing::<S>(sums[*from as usize], &moves[*from as usize], sums) {
            return false;
        }
    }
    true
}

/// Whether a weight times each move leaves the sums as they are.
fn adds_nothing<S: Semiring>(weight: S::Value, row: &[Entry<S>], sums: &[S::Value]) -> bool
    requires weight { IsTrue (S.set.in_range weight) }
    requires sums { InRange S.set sums.now }
    requires row { AreAmong S.set (length sums.now) row.now }
    ensures { IsTrue result → AddsNothing S.set (sum_at S.set sums.now) weight row.now }
{
    for entry in row {
        let sum = sums[entry.state as usize];
        let Ok(product) = S::mul(weight, entry.weight) else {
            return false;
        };
        let Ok(more) = S::add(sum, product) else {
            return false;
        };
        if more != sum {
            return false;
        }
    }
    true
}
