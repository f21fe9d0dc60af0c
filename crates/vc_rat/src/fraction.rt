ghost use Rattle.vc_rat.specs.Lowest.{IsLowest};

use vc_num::{divide, gcd};

/// A rational number as a fraction in lowest terms, whose bottom is positive.
#[derive(Clone, Copy, Debug, PartialEq, Eq, Hash)]
pub struct Fraction {
    pub(crate) top: i128,
    pub(crate) bottom: i128,
    ghost lowest: { IsLowest top bottom },
}

impl Fraction {
    ghost use Rattle.std.specs.Prelude.{◌≡◌, ◌<◌, ◌<ℤ◌, ◌*ℤ◌, pos, unsigned_abs, IsTrue};
    ghost use Rattle.vc_num.specs.Range.{in_range};
    ghost use Rattle.vc_rat.specs.Lowest.{IsLowest};
    ghost use Rattle.vc_rat.specs.Rationals.{holds};

    /// The number top/bottom in lowest terms. The magnitude of the top, and the bottom, are at most
    /// 2^127 - 1.
    pub fn new(top: i128, bottom: i128) -> Fraction
        requires top_in { IsTrue (in_range top) }
        requires positive { pos 0 <ℤ bottom }
        ensures same { result.top *ℤ bottom ≡ top *ℤ result.bottom }
        ensures in_range { IsTrue (holds result) }
    {
        Fraction::reduced(top, bottom.unsigned_abs())
    }

    /// The top, which has the sign.
    pub fn top(self) -> i128
        ensures { result ≡ self.top }
    {
        self.top
    }

    /// The bottom, which is at least 1.
    pub fn bottom(self) -> i128
        ensures { result ≡ self.bottom }
    {
        self.bottom
    }

    // The bottom as a natural number.
    pub(crate) fn denominator(self) -> u128
        ensures { result ≡ unsigned_abs self.bottom }
    {
        self.bottom.unsigned_abs()
    }

    // The number top/bottom in lowest terms.
    pub(crate) fn reduced(top: i128, bottom: u128) -> Fraction
        requires top_in { IsTrue (in_range top) }
        requires positive { 0 < bottom }
        requires bottom_in { IsTrue (in_range (pos bottom)) }
        ensures same { result.top *ℤ pos bottom ≡ top *ℤ result.bottom }
        ensures in_range { IsTrue (holds result) }
    {
        let common = gcd(top.unsigned_abs(), bottom);
        Fraction::lowest(divide(top, common), bottom / common)
    }

    // The fraction of a top and a bottom in lowest terms.
    pub(crate) fn lowest(top: i128, bottom: u128) -> Fraction
        requires lowest { IsLowest top (pos bottom) }
        requires bottom_in { IsTrue (in_range (pos bottom)) }
        ensures top { result.top ≡ top }
        ensures bottom { result.bottom ≡ pos bottom }
    {
        Fraction {
            top,
            bottom: bottom as i128,
        }
    }
}
