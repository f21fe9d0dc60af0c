ghost use Rattle.std.specs.Prelude.{◌≡◌, ◌<◌, true, false, IsTrue, [], int_div, map, unsigned_abs};
ghost use Rattle.std.specs.Fmt.{signed_decimal};
ghost use Rattle.std.proofs.Common.{arith};
ghost use Rattle.std.proofs.lemmas.Int.{ints};
ghost use Rattle.vc_model.specs.WeightSet.{InRange};
ghost use Rattle.vc_num.specs.Numerals.{spelled_whole, whole_fits};
ghost use Rattle.vc_num.specs.Range.{in_range};
ghost use Rattle.vc_basic.specs.Wholes.{wholes};
ghost use Rattle.vc_basic.specs.WholeLaws.{whole_laws, whole_ranges, whole_texts, wholes_absorb};
ghost use Rattle.vc_basic.specs.WholeSplits.{common_divisor, leading_sign, whole_factor, whole_normal, whole_splits, whole_split_ranges};

use crate::steps::{read_number, star_of_zero, step, write_number};
use std::alloc::AllocError;
use vc_num::{checked_add, checked_mul, gcd, read_whole};
use vc_ring::{NumberFault, Overflow, Semiring, Split, StarFault};

/// The whole numbers of magnitude at most 2^127 - 1. Sums and products past it do not fit, and zero
/// alone has a star. A weight's text is an optional `-` and one or more digits; it is written without
/// leading zeros. A row splits into the greatest common divisor of its entries, with the sign of the
/// first that is not zero, and the quotients.
#[derive(Clone, Copy, Debug, PartialEq, Eq)]
pub struct Z;

impl Semiring for Z {
    type Value = i128;

    const ABSORBS: bool = false;

    ghost ABSORBS = { false };

    ghost set = { wholes };

    ghost spelled = { spelled_whole };

    ghost numbers_fit = { whole_fits };

    ghost canonical = { signed_decimal };

    ghost laws = { whole_laws };

    ghost ranges = { whole_ranges };

    ghost same = { λ a b. Prim.grind (arith, ints) };

    ghost absorbs = { ((λ h. absurd (Prim.cc h)), wholes_absorb) };

    ghost texts = { whole_texts };

    fn zero() -> i128 {
        0
    }

    fn one() -> i128 {
        1
    }

    fn add(left: i128, right: i128) -> Result<i128, Overflow<i128>> {
        step!(Add, checked_add(left, right), left, right)
    }

    fn mul(left: i128, right: i128) -> Result<i128, Overflow<i128>> {
        step!(Mul, checked_mul(left, right), left, right)
    }

    fn star(of: i128) -> Result<i128, StarFault<i128>> {
        star_of_zero!(of, 0, 1)
    }

    fn read(text: &[u8]) -> Result<i128, NumberFault> {
        read_number!(read_whole(text))
    }

    fn write(value: i128, into: &mut String) -> Result<(), AllocError> {
        write_number!(value, into)
    }
}

impl Split for Z {
    ghost factor = { whole_factor };

    ghost normal = { whole_normal };

    ghost split_steps = { λ _. [] };

    ghost split_laws = { whole_splits };

    ghost split_ranges = { whole_split_ranges };

    fn split(row: &mut [i128]) -> Result<i128, Overflow<i128>> {
        let factor = factor_of(row);
        divide_each(row, factor);
        Ok(factor)
    }
}

// The greatest common divisor of a row, with the sign of its first entry that is not zero.
fn factor_of(row: &[i128]) -> i128
    requires { InRange wholes row.now }
    ensures { result ≡ whole_factor row.now }
{
    let divisor = divisor_of(row) as i128;
    sign_of(row) * divisor
}

fn divisor_of(row: &[i128]) -> u128
    ensures { result ≡ common_divisor row.now }
{
    let mut common = 0;
    for entry in row {
        common = gcd(common, entry.unsigned_abs());
    }
    common
}

// The sign of the first entry that is not zero.
fn sign_of(row: &[i128]) -> i128
    ensures { result ≡ leading_sign row.now }
{
    for entry in row {
        if *entry != 0 {
            return entry.signum();
        }
    }
    0
}

fn divide_each(row: &mut [i128], factor: i128)
    requires row_in { InRange wholes row.old }
    requires not_zero { 0 < unsigned_abs factor }
    ensures { row.new ≡ map (λ z. int_div z factor) row.old }
{
    for entry in row.iter_mut() {
        *entry = quotient(*entry, factor);
    }
}

fn quotient(entry: i128, factor: i128) -> i128
    requires entry_in { IsTrue (in_range entry) }
    requires not_zero { 0 < unsigned_abs factor }
    ensures { result ≡ int_div entry factor }
{
    entry / factor
}
