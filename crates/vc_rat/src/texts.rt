ghost use Rattle.std.specs.Prelude.{◌≡◌, ◌++◌, ◌<◌, ◌^◌, IsTrue, IfOk, IfSome, OnOk, OnErr, length, string_bytes, pos};
ghost use Rattle.vc_num.specs.Range.{in_range};
ghost use Rattle.vc_ring.specs.Texts.{read_as};
ghost use Rattle.vc_rat.specs.Texts.{quotient_read, slash_in, spelled_fraction, fraction_fits, fraction_text};

use crate::Fraction;
use itoa::Buffer;
use std::alloc::AllocError;
use vc_num::{NumeralFault, read_magnitude, read_whole};
use vc_ring::NumberFault;

// The number of digits behind an optional `-`, and behind it optionally `/` and digits that are not
// all 0.
pub(crate) fn read_fraction(text: &[u8]) -> Result<Fraction, NumberFault>
    ensures { result ≡ read_as (spelled_fraction text.now) (fraction_fits text.now) }
{
    match slash(text) {
        Some(at) => quotient(read_whole(&text[..at]), read_magnitude(&text[at + 1..])),
        None => quotient(read_whole(text), Ok(1)),
    }
}

// The place of the first `/`.
fn slash(text: &[u8]) -> Option<usize>
    ensures place { result ≡ slash_in text.now }
    ensures inside { IfSome result (λ at. at < length text.now) }
{
    text.iter().position(|byte| *byte == b'/')
}

// The quotient of two numbers that were read.
fn quotient(
    top: Result<i128, NumeralFault>,
    bottom: Result<u128, NumeralFault>,
) -> Result<Fraction, NumberFault>
    requires top_in { IfOk top (λ n. IsTrue (in_range n)) }
    requires bottom_in { IfOk bottom (λ d. IsTrue (in_range (pos d))) }
    ensures { result ≡ quotient_read top bottom }
{
    match (top, bottom) {
        (Err(NumeralFault::Bad), _) | (_, Ok(0) | Err(NumeralFault::Bad)) => Err(NumberFault::Bad),
        (Err(NumeralFault::Overflow), _) | (_, Err(NumeralFault::Overflow)) => {
            Err(NumberFault::Overflow)
        }
        (Ok(top), Ok(bottom)) => Ok(Fraction::reduced(top, bottom)),
    }
}

// Appends the top, and where the bottom is not 1 a `/` and the bottom.
pub(crate) fn write_fraction(value: Fraction, into: &mut String) -> Result<(), AllocError>
    ensures ok { OnOk result (string_bytes into.new ≡ string_bytes into.old ++ fraction_text value) }
    ensures err { OnErr result (string_bytes into.new ≡ string_bytes into.old) }
{
    let mut top = Buffer::new();
    let top = top.format(value.top);
    if value.bottom == 1 {
        return into.push_str(top);
    }
    let mut bottom = Buffer::new();
    let bottom = bottom.format(value.bottom);
    into.reserve(top.len() + 1 + bottom.len())?;
    into.push_str(top)?;
    into.push('/')?;
    into.push_str(bottom)
}
