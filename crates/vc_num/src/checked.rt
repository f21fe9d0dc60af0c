ghost use Rattle.std.specs.Prelude.{◌≡◌, ◌<◌, ◌*◌, IsTrue, pos, ◌+ℤ◌, ◌-ℤ◌, ◌*ℤ◌, int_div, if◌then◌else◌};
ghost use Rattle.vc_num.specs.Range.{in_range, ranged};

/// The sum of numbers of magnitude at most 2^127 - 1, and None exactly where the sum's is greater.
pub fn checked_add(a: i128, b: i128) -> Option<i128>
    requires a_in { IsTrue (in_range a) }
    requires b_in { IsTrue (in_range b) }
    ensures { result ≡ ranged (a +ℤ b) }
{
    match a.checked_add(b) {
        Some(sum) if sum != i128::MIN => Some(sum),
        _ => None,
    }
}

/// The difference of numbers of magnitude at most 2^127 - 1, and None exactly where the
/// difference's is greater.
pub fn checked_sub(a: i128, b: i128) -> Option<i128>
    requires a_in { IsTrue (in_range a) }
    requires b_in { IsTrue (in_range b) }
    ensures { result ≡ ranged (a -ℤ b) }
{
    match a.checked_sub(b) {
        Some(difference) if difference != i128::MIN => Some(difference),
        _ => None,
    }
}

/// The product of numbers of magnitude at most 2^127 - 1, and None exactly where the product's is
/// greater.
pub fn checked_mul(a: i128, b: i128) -> Option<i128>
    requires a_in { IsTrue (in_range a) }
    requires b_in { IsTrue (in_range b) }
    ensures { result ≡ ranged (a *ℤ b) }
{
    match a.checked_mul(b) {
        Some(product) if product != i128::MIN => Some(product),
        _ => None,
    }
}

/// The product with a natural number, as [`checked_mul`] answers it.
pub fn scaled(a: i128, by: u128) -> Option<i128>
    requires a_in { IsTrue (in_range a) }
    requires by_in { IsTrue (in_range (pos by)) }
    ensures { result ≡ ranged (a *ℤ pos by) }
{
    checked_mul(a, by as i128)
}

/// The product of two natural numbers, and None exactly where it is past 2^127 - 1.
pub fn product(a: u128, b: u128) -> Option<u128>
    ensures { result ≡ (if in_range (pos (a * b)) then Some (a * b) else None) }
{
    match a.checked_mul(b) {
        Some(product) if product < 1 << 127 => Some(product),
        _ => None,
    }
}

/// The quotient by a natural number, rounded toward zero.
pub fn divide(a: i128, by: u128) -> i128
    requires positive { 0 < by }
    requires by_in { IsTrue (in_range (pos by)) }
    ensures { result ≡ int_div a (pos by) }
{
    let by = by as i128;
    a / by
}
