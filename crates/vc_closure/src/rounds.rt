//! The closure where circuits are absorbed: rows that settle, and else matrix after matrix.
ghost use Rattle.std.specs.Prelude.{◌≡◌, ◌<◌, ◌-◌, [], ◌∷◌, ℕ, IfErr, IfOk, IsTrue, length, true};
ghost use Rattle.vc_closure.specs.Closing.{closure, unit_entry};
ghost use Rattle.vc_closure.specs.Formula.{IsMatrixStep};
ghost use Rattle.vc_closure.specs.Refused.{IsPastPairs, IsSumCause};
ghost use Rattle.vc_closure.specs.Rows.{AreRows, AreRowsOf, IsRow, entries_at, row_at};

use crate::fault::SumFault;
use crate::rows::{Entry, Rows, append, next_rows};
use crate::settle::settled_rows;
use std::alloc::{AllocError, Global};
use vc_aut::{Automaton, automata_are_valid};
use vc_label::LabelSet;
use vc_ring::Semiring;

/// The rows of the closure. Where a row does not settle or a step on the way does not fit, the
/// matrices are made, whose steps say which one does not fit.
pub(crate) fn rows_with_circuits<L: LabelSet, S: Semiring>(
    alloc: Global,
    aut: &Automaton<L, S>,
) -> Result<Rows<S>, SumFault<S>>
    requires { S.ABSORBS ≡ true }
    ensures rows { IfOk result (λ rows. AreRows S.set aut.now.automaton.states rows.items) }
    ensures entries { IfOk result (λ rows. AreRowsOf S.set aut.now.automaton (closure S.set
        aut.now.automaton) rows.items) }
    ensures fault { IfErr result (IsSumCause S.set (IsMatrixStep S.set aut.now.automaton)
        (IsPastPairs (length aut.now.sets) aut.now.automaton)) }
{
    match settled_rows(alloc, aut) {
        Ok(Some(rows)) => return Ok(rows),
        Ok(None) => return rows_by_rounds(alloc, aut),
        Err(fault) => return Err(fault),
    }
}

/// The rows of the last of as many matrices as there are states: the first is the unit matrix, and
/// each next one is the unit matrix and the empty transitions times the one before. Where two are
/// the same, so are all that come after them.
fn rows_by_rounds<L: LabelSet, S: Semiring>(
    alloc: Global,
    aut: &Automaton<L, S>,
) -> Result<Rows<S>, SumFault<S>>
    ensures rows { IfOk result (λ rows. AreRows S.set aut.now.automaton.states rows.items) }
    ensures entries { IfOk result (λ rows. AreRowsOf S.set aut.now.automaton (closure S.set
        aut.now.automaton) rows.items) }
    ensures fault { IfErr result (IsSumCause S.set (IsMatrixStep S.set aut.now.automaton)
        (IsPastPairs (length aut.now.sets) aut.now.automaton)) }
{
    automata_are_valid(aut);
    let Ok(mut rows) = unit_rows::<S>(alloc, aut.states()) else {
        return Err(SumFault::Memory(AllocError));
    };
    for _round in 1..aut.states() {
        let next = match next_rows(alloc, aut, &rows) {
            Ok(next) => next,
            Err(fault) => return Err(fault),
        };
        if same_rows::<S>(&rows, &next) {
            return Ok(rows);
        }
        rows = next;
    }
    Ok(rows)
}

/// The rows of the unit matrix.
fn unit_rows<S: Semiring>(alloc: Global, states: u32) -> Result<Rows<S>, AllocError>
    ensures rows { IfOk result (λ rows. AreRows S.set states rows.items) }
    ensures unit { IfOk result (λ rows. (s t : ℕ) → s < states → row_at S.set (entries_at rows.items
        s) t ≡ unit_entry S.set s t) }
{
    let mut rows = Vec::with_capacity(alloc, states as usize)?;
    for state in 0..states {
        let row = unit_row::<S>(alloc, state)?;
        append(&mut rows, row)?;
    }
    Ok(rows)
}

/// The row of the unit matrix at a state.
fn unit_row<S: Semiring>(alloc: Global, state: u32) -> Result<Vec<Entry<S>>, AllocError>
    ensures { IfOk result (λ row. row.items ≡ record { state = state; weight = S.set.one } ∷ []) }
{
    let mut row = Vec::with_capacity(alloc, 1)?;
    append(
        &mut row,
        Entry {
            state,
            weight: S::one(),
        },
    )?;
    Ok(row)
}

/// Whether the rows are the same. Rows that are the same have the same entries.
fn same_rows<S: Semiring>(left: &[Vec<Entry<S>>], right: &[Vec<Entry<S>>]) -> bool
    requires { length left.now ≡ length right.now }
    ensures { IsTrue result → (p t : ℕ) → row_at S.set (entries_at left.now p) t ≡ row_at S.set
        (entries_at right.now p) t }
{
    for place in 0..left.len() {
        if !same_row::<S>(&left[place], &right[place]) {
            return false;
        }
    }
    true
}

/// Whether two rows are the same. Rows that are the same have the same entries.
fn same_row<S: Semiring>(left: &[Entry<S>], right: &[Entry<S>]) -> bool
    ensures { IsTrue result → (t : ℕ) → row_at S.set left.now t ≡ row_at S.set right.now t }
{
    if left.len() != right.len() {
        return false;
    }
    for place in 0..left.len() {
        if !same_entry::<S>(&left[place], &right[place]) {
            return false;
        }
    }
    true
}

/// Whether two entries are the same.
fn same_entry<S: Semiring>(left: &Entry<S>, right: &Entry<S>) -> bool
    ensures state { IsTrue result → left.now.state ≡ right.now.state }
    ensures weight { IsTrue result → left.now.weight ≡ right.now.weight }
{
    if left.state != right.state {
        return false;
    }
    left.weight == right.weight
}
