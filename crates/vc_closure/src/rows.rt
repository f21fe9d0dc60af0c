//! Rows of the closure, and the closure where no circuit is empty.
ghost use Rattle.std.specs.Prelude.{◌≡◌, ◌≢◌, ◌<◌, ◌≤◌, ◌==◌, ◌+◌, ◌++◌, ℕ, [], ◌∷◌, IfErr, IfOk, IfSome, IsErr, IsNone, IsTrue, OnOk, true, length, map, replicate, if◌then◌else◌};
ghost use Rattle.vc_aut.specs.Stored.{transition_of};
ghost use Rattle.vc_closure.specs.Closing.{closure, next_entry, unit_entry};
ghost use Rattle.vc_closure.specs.Formula.{IsEntryStep};
ghost use Rattle.vc_closure.specs.Refused.{IsMostPairs, IsPastPairs, IsSumCause, NoLimit};
ghost use Rattle.vc_closure.specs.Rows.{AreClear, AreJoined, AreRows, AreRowsOf, AreSums, IsMovesStep, IsRow, IsRowStep, entries_at, matrix_of, moves_part, row_at, sum_at};
ghost use Rattle.vc_closure.specs.Searches.{IsOrder};
ghost use Rattle.vc_model.specs.Automata.{IsSound, Transition as Move};
ghost use Rattle.vc_model.specs.Lists.{In};
ghost use Rattle.vc_model.specs.Words.{is_empty};

use crate::fault::SumFault;
use crate::sums::{Sums, add, new_sums, take_row};
use std::alloc::{AllocError, Global};
use vc_aut::{Automaton, Transition, automata_are_valid, transitions_are_in_order};
use vc_label::LabelSet;
use vc_ring::{Limit, Measure, Semiring};

/// The most pairs of different states that empty labels join.
pub(crate) const MOST_PAIRS: u64 = 4_000_000;

/// An entry of a row that is not zero: the state of its column, and its weight.
#[derive(Drop)]
pub(crate) struct Entry<S: Semiring> {
    pub(crate) state: u32,
    pub(crate) weight: S::Value,
}

/// The rows of a matrix over the states: the entries that are not zero, by state.
pub(crate) type Rows<S> = Vec<Vec<Entry<S>>>;

/// The rows of the closure, where each empty transition leads back in the order.
pub(crate) fn rows_in_order<L: LabelSet, S: Semiring>(
    alloc: Global,
    aut: &Automaton<L, S>,
    order: &[u32],
) -> Result<Rows<S>, SumFault<S>>
    requires { IsOrder aut.now.automaton (replicate (length aut.now.sets) true) order.now }
    ensures rows { IfOk result (λ rows. AreRows S.set aut.now.automaton.states rows.items) }
    ensures entries { IfOk result (λ rows. AreRowsOf S.set aut.now.automaton (closure S.set
        aut.now.automaton) rows.items) }
    ensures fault { IfErr result (IsSumCause S.set (IsEntryStep S.set aut.now.automaton (closure
        S.set aut.now.automaton)) (IsPastPairs (length aut.now.sets) aut.now.automaton)) }
{
    automata_are_valid(aut);
    transitions_are_in_order::<S::Value>();
    let states = aut.states() as usize;
    let most = MOST_PAIRS + states as u64;
    let Ok(mut rows) = no_rows::<S>(alloc, states) else {
        return Err(SumFault::Memory(AllocError));
    };
    let Ok(mut sums) = new_sums::<S>(alloc, states) else {
        return Err(SumFault::Memory(AllocError));
    };
    let mut count = 0;
    for state in order {
        let moves = aut.transitions_from(*state);
        if let Err(fault) = sum_row(*state, moves, &rows, &mut sums) {
            return Err(fault);
        }
        let Ok(row) = take_row::<S>(alloc, &mut sums) else {
            return Err(SumFault::Memory(AllocError));
        };
        let Some(more) = counted(count, row.len(), most) else {
            return Err(too_many_pairs::<S>());
        };
        count = more;
        rows[*state as usize] = row;
    }
    Ok(rows)
}

/// The rows of the next matrix: the unit matrix, and the empty transitions times the rows.
pub(crate) fn next_rows<L: LabelSet, S: Semiring>(
    alloc: Global,
    aut: &Automaton<L, S>,
    rows: &[Vec<Entry<S>>],
) -> Result<Rows<S>, SumFault<S>>
    requires rows { AreRows S.set aut.now.automaton.states rows.now }
    requires joined { AreJoined S.set (length aut.now.sets) aut.now.automaton (matrix_of S.set
        rows.now) }
    ensures rows { IfOk result (λ next. AreRows S.set aut.now.automaton.states next.items) }
    ensures entries { IfOk result (λ next. AreRowsOf S.set aut.now.automaton (next_entry S.set
        aut.now.automaton (matrix_of S.set rows.now)) next.items) }
    ensures fault { IfErr result (IsSumCause S.set (IsEntryStep S.set aut.now.automaton (matrix_of
        S.set rows.now)) (IsPastPairs (length aut.now.sets) aut.now.automaton)) }
{
    automata_are_valid(aut);
    transitions_are_in_order::<S::Value>();
    let states = aut.states() as usize;
    let most = MOST_PAIRS + states as u64;
    let Ok(mut next) = Vec::with_capacity(alloc, states) else {
        return Err(SumFault::Memory(AllocError));
    };
    let Ok(mut sums) = new_sums::<S>(alloc, states) else {
        return Err(SumFault::Memory(AllocError));
    };
    let mut count = 0;
    for state in 0..aut.states() {
        let moves = aut.transitions_from(state);
        if let Err(fault) = sum_row(state, moves, rows, &mut sums) {
            return Err(fault);
        }
        let Ok(row) = take_row::<S>(alloc, &mut sums) else {
            return Err(SumFault::Memory(AllocError));
        };
        let Some(more) = counted(count, row.len(), most) else {
            return Err(too_many_pairs::<S>());
        };
        count = more;
        let Ok(()) = append(&mut next, row) else {
            return Err(SumFault::Memory(AllocError));
        };
    }
    Ok(next)
}

/// The count with so many entries more, none where it passes the most.
pub(crate) fn counted(count: u64, entries: usize, most: u64) -> Option<u64>
    requires { count ≤ most }
    ensures some { IfSome result (λ more. (more ≡ count + entries) × (more ≤ most)) }
    ensures none { IsNone result → most < count + entries }
{
    if entries as u64 > most - count {
        return None;
    }
    Some(count + entries as u64)
}

/// The refusal of more pairs than the most.
pub(crate) fn too_many_pairs<S: Semiring>() -> SumFault<S>
    ensures { IsMostPairs result }
{
    SumFault::Limit(Limit {
        what: Measure::Closure,
        most: MOST_PAIRS,
    })
}

/// Rows without an entry.
pub(crate) fn no_rows<S: Semiring>(alloc: Global, states: usize) -> Result<Rows<S>, AllocError>
    ensures count { IfOk result (λ rows. length rows.items ≡ states) }
    ensures none { IfOk result (λ rows. (p : ℕ) → entries_at rows.items p ≡ []) }
{
    let mut rows = Vec::with_capacity(alloc, states)?;
    for _ in 0..states {
        rows.push(Vec::new(alloc))?;
    }
    Ok(rows)
}

/// Adds the unit entry of a state, and what its empty transitions bring.
fn sum_row<L: LabelSet, S: Semiring>(
    state: u32,
    moves: &[Transition<L, S>],
    rows: &[Vec<Entry<S>>],
    sums: &mut Sums<S>,
) -> Result<(), SumFault<S>>
    requires state { state < length rows.now }
    requires rows { AreRows S.set (length rows.now) rows.now }
    requires sums { AreClear S.set (length rows.now) sums.old.sums.items sums.old.touched.items }
    requires to { (t : Move S.Value) → In t (map (transition_of L.parts) moves.now) → t.to < length
        rows.now }
    requires weight { (t : Move S.Value) → In t (map (transition_of L.parts) moves.now) → IsTrue
        (S.set.in_range t.weight) }
    ensures sums { OnOk result (AreSums S.set (length rows.now) sums.new.sums.items
        sums.new.touched.items) }
    ensures added { OnOk result ((q : ℕ) → sum_at S.set sums.new.sums.items q ≡ S.set.plus
        (unit_entry S.set state q) (moves_part S.set rows.now (map (transition_of L.parts)
        moves.now) q)) }
    ensures fault { IfErr result (IsSumCause S.set (IsMovesStep S.set (unit_entry S.set state)
        rows.now (map (transition_of L.parts) moves.now)) NoLimit) }
{
    if let Err(fault) = add::<S>(sums, state, S::one()) {
        return Err(fault);
    }
    if let Err(fault) = add_moves(sums, moves, rows) {
        return Err(fault);
    }
    Ok(())
}

/// Adds what the empty transitions bring.
fn add_moves<L: LabelSet, S: Semiring>(
    sums: &mut Sums<S>,
    moves: &[Transition<L, S>],
    rows: &[Vec<Entry<S>>],
) -> Result<(), SumFault<S>>
    requires rows { AreRows S.set (length rows.now) rows.now }
    requires sums { AreSums S.set (length rows.now) sums.old.sums.items sums.old.touched.items }
    requires to { (t : Move S.Value) → In t (map (transition_of L.parts) moves.now) → t.to < length
        rows.now }
    requires weight { (t : Move S.Value) → In t (map (transition_of L.parts) moves.now) → IsTrue
        (S.set.in_range t.weight) }
    ensures sums { OnOk result (AreSums S.set (length rows.now) sums.new.sums.items
        sums.new.touched.items) }
    ensures added { OnOk result ((q : ℕ) → sum_at S.set sums.new.sums.items q ≡ S.set.plus (sum_at
        S.set sums.old.sums.items q) (moves_part S.set rows.now (map (transition_of L.parts)
        moves.now) q)) }
    ensures fault { IfErr result (IsSumCause S.set (IsMovesStep S.set (sum_at S.set
        sums.old.sums.items) rows.now (map (transition_of L.parts) moves.now)) NoLimit) }
{
    for transition in moves {
        if let Err(fault) = add_move(sums, transition, rows) {
            return Err(fault);
        }
    }
    Ok(())
}

/// Adds what a transition brings, where it is empty.
fn add_move<L: LabelSet, S: Semiring>(
    sums: &mut Sums<S>,
    transition: &Transition<L, S>,
    rows: &[Vec<Entry<S>>],
) -> Result<(), SumFault<S>>
    requires rows { AreRows S.set (length rows.now) rows.now }
    requires sums { AreSums S.set (length rows.now) sums.old.sums.items sums.old.touched.items }
    requires to { transition.now.to < length rows.now }
    requires weight { IsTrue (S.set.in_range transition.now.weight) }
    ensures sums { OnOk result (AreSums S.set (length rows.now) sums.new.sums.items
        sums.new.touched.items) }
    ensures added { OnOk result ((q : ℕ) → sum_at S.set sums.new.sums.items q ≡ S.set.plus (sum_at
        S.set sums.old.sums.items q) (if is_empty (L.parts transition.now.label) then S.set.times
        transition.now.weight (row_at S.set (entries_at rows.now transition.now.to) q) else
        S.set.zero)) }
    ensures empty { IsErr result → is_empty (L.parts transition.now.label) ≡ true }
    ensures fault { IfErr result (IsSumCause S.set (IsRowStep S.set (sum_at S.set
        sums.old.sums.items) transition.now.weight (entries_at rows.now transition.now.to)) NoLimit) }
{
    if !L::is_empty(&transition.label) {
        return Ok(());
    }
    if let Err(fault) = add_row::<S>(sums, transition.weight, &rows[transition.to as usize]) {
        return Err(fault);
    }
    Ok(())
}

/// Adds a weight times each entry of a row.
fn add_row<S: Semiring>(
    sums: &mut Sums<S>,
    weight: S::Value,
    row: &[Entry<S>],
) -> Result<(), SumFault<S>>
    requires row { IsRow S.set (length sums.old.sums.items) row.now }
    requires sums { AreSums S.set (length sums.old.sums.items) sums.old.sums.items
        sums.old.touched.items }
    requires weight { IsTrue (S.set.in_range weight) }
    ensures sums { OnOk result (AreSums S.set (length sums.old.sums.items) sums.new.sums.items
        sums.new.touched.items) }
    ensures added { OnOk result ((q : ℕ) → sum_at S.set sums.new.sums.items q ≡ S.set.plus (sum_at
        S.set sums.old.sums.items q) (S.set.times weight (row_at S.set row.now q))) }
    ensures fault { IfErr result (IsSumCause S.set (IsRowStep S.set (sum_at S.set
        sums.old.sums.items) weight row.now) NoLimit) }
{
    for entry in row {
        let product = match S::mul(weight, entry.weight) {
            Ok(product) => product,
            Err(overflow) => return Err(SumFault::Overflow(overflow)),
        };
        if let Err(fault) = add::<S>(sums, entry.state, product) {
            return Err(fault);
        }
    }
    Ok(())
}

/// Appends an item.
pub(crate) fn append<T: Drop>(list: &mut Vec<T>, item: T) -> Result<(), AllocError>
    ensures { OnOk result (list.new.items ≡ list.old.items ++ item ∷ []) }
{
    list.push(item)?;
    Ok(())
}
