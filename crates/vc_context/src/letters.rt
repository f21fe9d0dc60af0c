ghost use Rattle.std.specs.Prelude.{◌≡◌, ◌≤◌, ◌<◌, length, IsTrue, IfSome};
ghost use Rattle.std.specs.Option.{option_map};
ghost use Rattle.vc_context.specs.Reading.{letter_front, item_front, letters_front, letters_until};
ghost use Rattle.vc_label.specs.Alphabets.{letters_of};
ghost use Rattle.vc_label.specs.Letters.{is_letter};

use crate::pieces::after;
use vc_label::Alphabet;
use vc_text::{after_blanks, letter_at};

// The letter that begins the text, and what stands behind it.
fn letter(text: &[u8]) -> Option<(u8, &[u8])>
    ensures value { option_map (λ r. (r.0, r.1.now)) result ≡ letter_front text.now }
    ensures letter { IfSome result (λ r. IsTrue (is_letter r.0)) }
    ensures shorter { IfSome result (λ r. length r.1.now < length text.now) }
{
    let letter = letter_at(text, 0)?;
    Some((letter.letter, &text[letter.after..]))
}

// The first and the last letter of the item that begins the text, and what stands behind it.
fn item(text: &[u8]) -> Option<(u8, u8, &[u8])>
    ensures value { option_map (λ r. (record { first = r.0; last = r.1 }, r.2.now)) result ≡ item_front text.now }
    ensures letters { IfSome result (λ r. IsTrue (is_letter r.0) × IsTrue (is_letter r.1)) }
    ensures ordered { IfSome result (λ r. r.0 ≤ r.1) }
    ensures shorter { IfSome result (λ r. length r.2.now < length text.now) }
{
    let (first, rest) = letter(text)?;
    let [b'-', behind @ ..] = rest else {
        return Some((first, first, rest));
    };
    let (last, rest) = letter(behind)?;
    if first <= last {
        Some((first, last, rest))
    } else {
        None
    }
}

// The alphabet of the items behind blanks, and what stands behind them.
fn letters_front(text: &[u8]) -> (Alphabet, &[u8])
    ensures { (letters_of result.0, result.1.now) ≡ letters_front text.now }
{
    let mut alphabet = Alphabet::new();
    let mut rest = after_blanks(text);
    while let Some((first, last, next)) = item(rest) {
        alphabet = alphabet.with_range(first, last);
        rest = next;
    }
    (alphabet, rest)
}

// The alphabet of the items behind blanks, and what stands behind the piece that closes them.
pub fn letters_until<'t>(close: &[u8], text: &'t [u8]) -> Option<(Alphabet, &'t [u8])>
    ensures { option_map (λ r. (letters_of r.0, r.1.now)) result ≡ letters_until close.now text.now }
{
    let (alphabet, rest) = letters_front(text);
    Some((alphabet, after(close, rest)?))
}
