ghost use Rattle.std.specs.Prelude.{◌≡◌, ◌<◌, ◌*◌, pos, ◌+ℤ◌, ◌*ℤ◌, ◌&&◌, IsTrue, if◌then◌else◌};
ghost use Rattle.vc_num.specs.Range.{in_range};
ghost use Rattle.vc_rat.specs.Rationals.{plus, fits_plus, holds, tops_fit, parts_fit};

use crate::Fraction;
use vc_num::{checked_add, gcd, product, scaled};

// The sum, and None exactly where a step of it does not fit.
pub(crate) fn checked_sum(left: Fraction, right: Fraction) -> Option<Fraction>
    requires left_in { IsTrue (holds left) }
    requires right_in { IsTrue (holds right) }
    ensures { result ≡ (if fits_plus left right then Some (plus left right) else None) }
{
    let (b, d) = (left.denominator(), right.denominator());
    let common = gcd(b, d);
    match sum_parts(left.top, b / common, right.top, d / common, d) {
        Some((top, bottom)) => Some(Fraction::reduced(top, bottom)),
        None => None,
    }
}

// The top and the bottom of a sum, where the bottoms are b and d times their common divisor, and
// `whole` is the second of them.
fn sum_parts(a: i128, b: u128, c: i128, d: u128, whole: u128) -> Option<(i128, u128)>
    requires a_in { IsTrue (in_range a) }
    requires c_in { IsTrue (in_range c) }
    requires b_in { IsTrue (in_range (pos b)) }
    requires d_in { IsTrue (in_range (pos d)) }
    ensures { result ≡ (if parts_fit a b c d whole then Some (a *ℤ pos d +ℤ c *ℤ pos b, b * whole) else None) }
{
    let top = sum_of_products(a, d, c, b)?;
    let bottom = product(b, whole)?;
    Some((top, bottom))
}

// The sum of a·d and c·b, and None exactly where one of the three is past the range.
fn sum_of_products(a: i128, d: u128, c: i128, b: u128) -> Option<i128>
    requires a_in { IsTrue (in_range a) }
    requires c_in { IsTrue (in_range c) }
    requires b_in { IsTrue (in_range (pos b)) }
    requires d_in { IsTrue (in_range (pos d)) }
    ensures { result ≡ (if tops_fit a d c b then Some (a *ℤ pos d +ℤ c *ℤ pos b) else None) }
{
    let first = scaled(a, d)?;
    let second = scaled(c, b)?;
    checked_add(first, second)
}
