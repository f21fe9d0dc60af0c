ghost use Rattle.std.specs.Prelude.{◌≡◌, ◌<ℤ◌, pos, IsTrue};
ghost use Rattle.vc_num.specs.Range.{in_range};
ghost use Rattle.vc_rat.specs.Fields.{negative, reciprocal, signed, rational_field};

use crate::{Fraction, Q};
use vc_ring::Field;

impl Field for Q {
    ghost negative = { negative };

    ghost reciprocal = { reciprocal };

    ghost field_laws = { rational_field };

    fn neg(of: Fraction) -> Fraction {
        Fraction {
            top: -of.top,
            bottom: of.bottom,
        }
    }

    fn inverse(of: Fraction) -> Fraction {
        Fraction::lowest(with_sign_of(of.top, of.bottom), of.top.unsigned_abs())
    }
}

// A positive number, or its negative where the first number is negative.
fn with_sign_of(like: i128, magnitude: i128) -> i128
    requires { pos 0 <ℤ magnitude }
    ensures { result ≡ signed like magnitude }
{
    if like < 0 { -magnitude } else { magnitude }
}
