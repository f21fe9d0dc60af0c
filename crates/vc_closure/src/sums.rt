//! Sums at states, which are kept from one row to the next.
ghost use Rattle.std.specs.List.Sorted.{IsNonDecreasing};
ghost use Rattle.std.specs.Prelude.{◌≡◌, ◌<◌, ◌==◌, ℕ, [], IfErr, IfOk, OnOk, length, replicate, slice_set, IsTrue, if◌then◌else◌};
ghost use Rattle.vc_closure.specs.Refused.{IsSumCause, NoLimit};
ghost use Rattle.vc_closure.specs.Rows.{AreClear, AreSums, IsAddition, IsRow, row_at, sum_at};
ghost use Rattle.vc_model.specs.Lists.{In};

use crate::fault::SumFault;
use crate::rows::{Entry, append};
use std::alloc::{AllocError, Global};
use vc_ring::Semiring;

/// A row of sums that is kept from one use to the next, and the states at which one was added.
#[derive(Drop)]
pub(crate) struct Sums<S: Semiring> {
    pub(crate) sums: Vec<S::Value>,
    pub(crate) touched: Vec<u32>,
}

/// Sums that are zero.
pub(crate) fn new_sums<S: Semiring>(alloc: Global, states: usize) -> Result<Sums<S>, AllocError>
    ensures { IfOk result (λ s. AreClear S.set states s.sums.items s.touched.items) }
{
    Ok(Sums {
        sums: zeros::<S>(alloc, states)?,
        touched: Vec::new(alloc),
    })
}

/// So many zeros.
fn zeros<S: Semiring>(alloc: Global, count: usize) -> Result<Vec<S::Value>, AllocError>
    ensures { IfOk result (λ v. v.items ≡ replicate count S.set.zero) }
{
    let mut zeros = Vec::with_capacity(alloc, count)?;
    for _ in 0..count {
        zeros.push(S::zero())?;
    }
    Ok(zeros)
}

/// Adds a weight at a state.
pub(crate) fn add<S: Semiring>(
    sums: &mut Sums<S>,
    state: u32,
    weight: S::Value,
) -> Result<(), SumFault<S>>
    requires state { state < length sums.old.sums.items }
    requires sums { AreSums S.set (length sums.old.sums.items) sums.old.sums.items
        sums.old.touched.items }
    requires weight { IsTrue (S.set.in_range weight) }
    ensures sums { OnOk result (AreSums S.set (length sums.old.sums.items) sums.new.sums.items
        sums.new.touched.items) }
    ensures added { OnOk result ((q : ℕ) → sum_at S.set sums.new.sums.items q ≡ S.set.plus (sum_at
        S.set sums.old.sums.items q) (if state == q then weight else S.set.zero)) }
    ensures fault { IfErr result (IsSumCause S.set (IsAddition (sum_at S.set sums.old.sums.items
        state) weight) NoLimit) }
{
    let sum = match S::add(sums.sums[state as usize], weight) {
        Ok(sum) => sum,
        Err(overflow) => return Err(SumFault::Overflow(overflow)),
    };
    let Ok(()) = touch::<S>(sums, state) else {
        return Err(SumFault::Memory(AllocError));
    };
    sums.sums[state as usize] = sum;
    Ok(())
}

/// Adds a state to those that were touched, where its sum is zero.
fn touch<S: Semiring>(sums: &mut Sums<S>, state: u32) -> Result<(), AllocError>
    requires state { state < length sums.old.sums.items }
    requires sums { AreSums S.set (length sums.old.sums.items) sums.old.sums.items
        sums.old.touched.items }
    ensures same { OnOk result (sums.new.sums.items ≡ sums.old.sums.items) }
    ensures sums { OnOk result (AreSums S.set (length sums.old.sums.items) sums.new.sums.items
        sums.new.touched.items) }
    ensures touched { OnOk result (In state sums.new.touched.items) }
{
    if sums.sums[state as usize] == S::zero() {
        append(&mut sums.touched, state)?;
    }
    Ok(())
}

/// The sums that are not zero, by state. All sums are zero again.
pub(crate) fn take_row<S: Semiring>(
    alloc: Global,
    sums: &mut Sums<S>,
) -> Result<Vec<Entry<S>>, AllocError>
    requires { AreSums S.set (length sums.old.sums.items) sums.old.sums.items sums.old.touched.items }
    ensures row { IfOk result (λ row. IsRow S.set (length sums.old.sums.items) row.items) }
    ensures entries { IfOk result (λ row. (t : ℕ) → row_at S.set row.items t ≡ sum_at S.set
        sums.old.sums.items t) }
    ensures sums { OnOk result (AreClear S.set (length sums.old.sums.items) sums.new.sums.items
        sums.new.touched.items) }
{
    sums.touched.sort_unstable();
    let row = move_sums::<S>(alloc, &mut sums.sums, &sums.touched)?;
    sums.touched.clear();
    Ok(row)
}

/// The sums that are not zero, as a row by the states that were touched, and zero in their place.
fn move_sums<S: Semiring>(
    alloc: Global,
    sums: &mut [S::Value],
    touched: &[u32],
) -> Result<Vec<Entry<S>>, AllocError>
    requires sums { AreSums S.set (length sums.old) sums.old touched.now }
    requires order { IsNonDecreasing touched.now }
    ensures row { IfOk result (λ row. IsRow S.set (length sums.old) row.items) }
    ensures entries { IfOk result (λ row. (t : ℕ) → row_at S.set row.items t ≡ sum_at S.set sums.old
        t) }
    ensures sums { OnOk result (AreClear S.set (length sums.old) sums.new []) }
{
    let mut row = Vec::with_capacity(alloc, touched.len())?;
    for state in touched {
        let weight = clear::<S>(sums, *state);
        if weight == S::zero() {
            continue;
        }
        row.push(Entry {
            state: *state,
            weight,
        })?;
    }
    Ok(row)
}

/// The sum at a state, which becomes zero.
fn clear<S: Semiring>(sums: &mut [S::Value], state: u32) -> S::Value
    requires { state < length sums.old }
    ensures weight { result ≡ sum_at S.set sums.old state }
    ensures sums { sums.new ≡ slice_set sums.old state S.set.zero }
{
    let weight = sums[state as usize];
    sums[state as usize] = S::zero();
    weight
}
