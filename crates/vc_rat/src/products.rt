ghost use Rattle.std.specs.Prelude.{◌≡◌, ◌<◌, pos, ◌*ℤ◌, ◌&&◌, int_div, IsTrue, if◌then◌else◌};
ghost use Rattle.vc_num.specs.Range.{in_range, ranged};
ghost use Rattle.vc_rat.specs.Products.{cross_top, cross_bottom};
ghost use Rattle.vc_rat.specs.Rationals.{times, holds};

use crate::Fraction;
use vc_num::{checked_mul, divide, gcd, product};

// The product, and None exactly where its top or bottom is past the range.
pub(crate) fn checked_product(left: Fraction, right: Fraction) -> Option<Fraction>
    requires left_in { IsTrue (holds left) }
    requires right_in { IsTrue (holds right) }
    ensures { result ≡ (if holds (times left right) then Some (times left right) else None) }
{
    match product_parts(left.top, left.denominator(), right.top, right.denominator()) {
        Some((top, bottom)) => Some(Fraction::lowest(top, bottom)),
        None => None,
    }
}

// The top and the bottom of the product of a/b and c/d, in lowest terms where these are.
fn product_parts(a: i128, b: u128, c: i128, d: u128) -> Option<(i128, u128)>
    requires a_in { IsTrue (in_range a) }
    requires c_in { IsTrue (in_range c) }
    requires b_positive { 0 < b }
    requires d_positive { 0 < d }
    requires b_in { IsTrue (in_range (pos b)) }
    requires d_in { IsTrue (in_range (pos d)) }
    ensures { result ≡ (if in_range (cross_top a b c d) && in_range (pos (cross_bottom a b c d))
        then Some (cross_top a b c d, cross_bottom a b c d) else None) }
{
    let first = gcd(a.unsigned_abs(), d);
    let second = gcd(c.unsigned_abs(), b);
    let top = product_of_quotients(a, first, c, second)?;
    let bottom = product(b / second, d / first)?;
    Some((top, bottom))
}

// The product of a/g and c/h, and None exactly where it is past the range.
fn product_of_quotients(a: i128, g: u128, c: i128, h: u128) -> Option<i128>
    requires a_in { IsTrue (in_range a) }
    requires c_in { IsTrue (in_range c) }
    requires g_positive { 0 < g }
    requires h_positive { 0 < h }
    requires g_in { IsTrue (in_range (pos g)) }
    requires h_in { IsTrue (in_range (pos h)) }
    ensures { result ≡ ranged (int_div a (pos g) *ℤ int_div c (pos h)) }
{
    let first = divide(a, g);
    let second = divide(c, h);
    checked_mul(first, second)
}
