ghost use Rattle.std.specs.Prelude.{false};
ghost use Rattle.vc_rat.specs.Equality.{equal_where_same};
ghost use Rattle.vc_rat.specs.Rationals.{rationals};
ghost use Rattle.vc_rat.specs.RationalLaws.{rational_laws, rationals_do_not_absorb};
ghost use Rattle.vc_rat.specs.RationalRanges.{rational_ranges};
ghost use Rattle.vc_rat.specs.Texts.{spelled_fraction, fraction_fits, fraction_text};
ghost use Rattle.vc_rat.specs.TextLaws.{fraction_texts};

use crate::Fraction;
use crate::products::checked_product;
use crate::sums::checked_sum;
use crate::texts::{read_fraction, write_fraction};
use std::alloc::AllocError;
use vc_num::checked_sub;
use vc_ring::{NumberFault, Overflow, Semiring, StarFault};

/// The rational numbers. The star of x is 1/(1 - x) where |x| < 1, the limit of the sums of its
/// powers, and is not defined elsewhere (Sakarovitch, Elements of Automata Theory).
///
/// The sum of a/b and c/d fits where a·(d/g), c·(b/g), their sum and (b/g)·d, for the greatest common
/// divisor g of b and d, are at most 2^127 - 1 in magnitude; the product where its top and bottom in
/// lowest terms are; and the star of a/b where b - a is.
#[derive(Clone, Copy, Debug, PartialEq, Eq)]
pub struct Q;

impl Semiring for Q {
    type Value = Fraction;

    const ABSORBS: bool = false;

    ghost ABSORBS = { false };

    ghost set = { rationals };

    ghost spelled = { spelled_fraction };

    ghost numbers_fit = { fraction_fits };

    ghost canonical = { fraction_text };

    ghost laws = { rational_laws };

    ghost ranges = { rational_ranges };

    ghost same = { equal_where_same };

    ghost absorbs = { rationals_do_not_absorb };

    ghost texts = { fraction_texts };

    fn zero() -> Fraction {
        Fraction { top: 0, bottom: 1 }
    }

    fn one() -> Fraction {
        Fraction { top: 1, bottom: 1 }
    }

    fn add(left: Fraction, right: Fraction) -> Result<Fraction, Overflow<Fraction>> {
        checked_sum(left, right).ok_or(Overflow::Add { left, right })
    }

    fn mul(left: Fraction, right: Fraction) -> Result<Fraction, Overflow<Fraction>> {
        checked_product(left, right).ok_or(Overflow::Mul { left, right })
    }

    fn star(of: Fraction) -> Result<Fraction, StarFault<Fraction>> {
        if of.top.unsigned_abs() >= of.denominator() {
            return Err(StarFault::NoStar(of));
        }
        match checked_sub(of.bottom, of.top) {
            Some(bottom) => Ok(Fraction::new(of.bottom, bottom)),
            None => Err(StarFault::Overflow(Overflow::Star { of })),
        }
    }

    fn read(text: &[u8]) -> Result<Fraction, NumberFault> {
        read_fraction(text)
    }

    fn write(value: Fraction, into: &mut String) -> Result<(), AllocError> {
        write_fraction(value, into)
    }
}
