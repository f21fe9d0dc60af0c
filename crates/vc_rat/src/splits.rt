ghost use Rattle.std.specs.Prelude.{◌≡◌, ◌≢◌, IsTrue, OnOk, OnErr};
ghost use Rattle.vc_model.specs.WeightSet.{InRange, IsZeroRow};
ghost use Rattle.vc_ring.specs.Splits.{IsSplitInFront};
ghost use Rattle.vc_ring.specs.Steps.{outcome};
ghost use Rattle.vc_rat.specs.Rationals.{zero, holds, rationals};
ghost use Rattle.vc_rat.specs.Rows.{row_times};
ghost use Rattle.vc_rat.specs.Splits.{row_factor, normal_fractions, product_steps, normal_steps, rational_splits, rational_split_ranges};

use crate::{Fraction, Q};
use vc_ring::{Field, Overflow, Semiring, Split};

impl Split for Q {
    ghost factor = { row_factor };

    ghost normal = { normal_fractions };

    ghost split_steps = { normal_steps };

    ghost split_laws = { rational_splits };

    ghost split_ranges = { rational_split_ranges };

    fn split(row: &mut [Fraction]) -> Result<Fraction, Overflow<Fraction>> {
        let factor = first_other(row);
        multiply(row, Q::inverse(factor))?;
        Ok(factor)
    }
}

// The first entry that is not zero.
fn first_other(row: &[Fraction]) -> Fraction
    requires row_in { InRange rationals row.now }
    requires not_zero { ¬ IsZeroRow rationals row.now }
    ensures value { result ≡ row_factor row.now }
    ensures in_range { IsTrue (holds result) }
    ensures not_zero { result ≢ zero }
{
    for x in row {
        if x.top != 0 {
            return *x;
        }
    }
    unreachable!()
}

// Multiplies each entry, up to the first whose product does not fit.
fn multiply(row: &mut [Fraction], by: Fraction) -> Result<(), Overflow<Fraction>>
    requires row_in { InRange rationals row.old }
    requires by_in { IsTrue (holds by) }
    ensures steps { result ≡ outcome rationals (product_steps by row.old) tt }
    ensures row { OnOk result (row.new ≡ row_times rationals by row.old) }
    ensures err { OnErr result (IsSplitInFront rationals (product_steps by row.old) (row_times rationals by row.old) row.old row.new) }
{
    for x in row.iter_mut() {
        *x = Q::mul(*x, by)?;
    }
    Ok(())
}
