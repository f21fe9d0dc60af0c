ghost use Rattle.std.specs.Prelude.{◌≡◌, IsTrue, IfOk, pos};
ghost use Rattle.vc_num.specs.Numerals.{spelled_natural, natural_fits, magnitude_fits, spelled_whole, whole_fits};
ghost use Rattle.vc_num.specs.NumeralReads.{number_read};
ghost use Rattle.vc_num.specs.Range.{in_range};

use crate::{DecimalFault, read_decimal};

/// Why a text is no number of its kind: it is outside the grammar, or the number is past its range.
#[derive(Clone, Copy, Debug, PartialEq, Eq)]
pub enum NumeralFault {
    Bad,
    Overflow,
}

/// The number of one or more digits: `Overflow` exactly where it is past 2^128 - 1, and `Bad` for
/// every other text.
pub fn read_natural(text: &[u8]) -> Result<u128, NumeralFault>
    ensures { result ≡ number_read (spelled_natural text.now) (natural_fits text.now) }
{
    match read_decimal(text) {
        Ok(number) => Ok(number),
        Err(DecimalFault::Overflow) => Err(NumeralFault::Overflow),
        Err(DecimalFault::NotDigits { .. }) => Err(NumeralFault::Bad),
    }
}

/// The number of one or more digits: `Overflow` exactly where it is past 2^127 - 1, and `Bad` for
/// every other text.
pub fn read_magnitude(text: &[u8]) -> Result<u128, NumeralFault>
    ensures value { result ≡ number_read (spelled_natural text.now) (magnitude_fits text.now) }
    ensures in_range { IfOk result (λ n. IsTrue (in_range (pos n))) }
{
    match read_natural(text) {
        Ok(number) if number < 1 << 127 => Ok(number),
        Ok(_) => Err(NumeralFault::Overflow),
        Err(fault) => Err(fault),
    }
}

/// The number of one or more digits behind an optional `-`: `Overflow` exactly where it is past
/// 2^127 - 1 in magnitude, and `Bad` for every other text.
pub fn read_whole(text: &[u8]) -> Result<i128, NumeralFault>
    ensures value { result ≡ number_read (spelled_whole text.now) (whole_fits text.now) }
    ensures in_range { IfOk result (λ z. IsTrue (in_range z)) }
{
    match text {
        [b'-', digits @ ..] => Ok(-(read_magnitude(digits)? as i128)),
        _ => Ok(read_magnitude(text)? as i128),
    }
}
