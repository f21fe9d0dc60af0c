ghost use Rattle.std.specs.Prelude.{◌≡◌, ◌+◌, ◌*◌, ◌<◌, ◌^◌, IsTrue, nat_lt, if◌then◌else◌};
ghost use Rattle.std.specs.Char.{is_ascii_digit};
ghost use Rattle.std.specs.List.{prefix_len};
ghost use Rattle.std.specs.Str.{all_ascii_digits};
ghost use Rattle.vc_num.specs.Decimals.{decimal_of, number_of_digits};

use thiserror::Error;

/// Why a text is no decimal number of at most 128 bits.
#[derive(Clone, Copy, Debug, PartialEq, Eq, Error)]
pub enum DecimalFault {
    /// The text is empty, or its byte at this place is the first that is no digit.
    #[error("no digit at byte {at}")]
    NotDigits { at: usize },
    /// The text has digits alone, and the number is past 2^128 - 1.
    #[error("the number is past 2^128 - 1")]
    Overflow,
}

/// The number that a text of decimal digits writes; leading zeros are accepted.
pub fn read_decimal(text: &[u8]) -> Result<u128, DecimalFault>
    ensures { result ≡ decimal_of text.now }
{
    let front = digits_in_front(text);
    if text.is_empty() || front < text.len() {
        return Err(DecimalFault::NotDigits { at: front });
    }
    number_in(text).ok_or(DecimalFault::Overflow)
}

// How many digits stand before the first byte that is none.
fn digits_in_front(text: &[u8]) -> usize
    ensures { result ≡ prefix_len is_ascii_digit text.now }
{
    text.iter().take_while(|byte| byte.is_ascii_digit()).count()
}

// The number with one more digit behind it.
fn followed(number: u128, digit: u8) -> Option<u128>
    ensures { result ≡ (if nat_lt (10 * number + digit) (2 ^ 128) then Some (10 * number + digit) else None) }
{
    number.checked_mul(10)?.checked_add(u128::from(digit))
}

// The number that digits write, where it is at most 2^128 - 1.
fn number_in(digits: &[u8]) -> Option<u128>
    requires { IsTrue (all_ascii_digits digits.now) }
    ensures { result ≡ (if nat_lt (number_of_digits digits.now) (2 ^ 128) then Some (number_of_digits digits.now) else None) }
{
    let mut number = 0;
    for byte in digits {
        number = followed(number, *byte - b'0')?;
    }
    Some(number)
}
