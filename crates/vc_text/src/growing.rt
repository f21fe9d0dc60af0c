//! Texts that grow. Where there is no memory, a call may have appended a part of what it was to
//! append: the old text is still a front of the new one, and `cut_back` restores it.
ghost use Rattle.std.specs.Prelude.{◌≡◌, ◌++◌, ◌<◌, ◌∷◌, [], ℕ, List, IsUtf8, OnOk, length, string_bytes};
ghost use Rattle.std.specs.Fmt.{decimal};
ghost use Rattle.vc_text.specs.Growing.{IsFront};
ghost use Rattle.vc_text.specs.Letters.{letter_text};

use crate::letters::is_plain;
use itoa::Buffer;
use std::alloc::AllocError;

/// Appends a text.
pub fn push_text(text: &str, into: &mut String) -> Result<(), AllocError>
    ensures ok { OnOk result (string_bytes into.new ≡ string_bytes into.old ++ text.now) }
    ensures front { IsFront (string_bytes into.old) (string_bytes into.new) }
{
    into.push_str(text)
}

/// Appends a byte below 128.
pub fn push_byte(byte: u8, into: &mut String) -> Result<(), AllocError>
    requires { byte < 128 }
    ensures ok { OnOk result (string_bytes into.new ≡ string_bytes into.old ++ byte ∷ []) }
    ensures front { IsFront (string_bytes into.old) (string_bytes into.new) }
{
    into.push(char::from(byte))
}

/// Appends a letter, with a backslash before it where it is not plain.
#[tactic(auto, using(crate::specs::Fronts::front_twice))]
pub fn push_letter(letter: u8, into: &mut String) -> Result<(), AllocError>
    requires { letter < 128 }
    ensures ok { OnOk result (string_bytes into.new ≡ string_bytes into.old ++ letter_text letter) }
    ensures front { IsFront (string_bytes into.old) (string_bytes into.new) }
{
    if !is_plain(letter) {
        push_byte(b'\\', into)?;
    }
    push_byte(letter, into)
}

/// Appends the digits of a number.
pub fn push_number(number: u32, into: &mut String) -> Result<(), AllocError>
    ensures ok { OnOk result (string_bytes into.new ≡ string_bytes into.old ++ decimal number) }
    ensures front { IsFront (string_bytes into.old) (string_bytes into.new) }
{
    let mut digits = Buffer::new();
    push_text(digits.format(number), into)
}

/// Cuts a text that grew back to the length that it had.
pub fn cut_back(into: &mut String, old: usize)
    requires { (text : List ℕ) × IsUtf8 text × (length text ≡ old) × IsFront text (string_bytes into.old) }
    ensures { (text : List ℕ) → length text ≡ old → IsFront text (string_bytes into.old) → string_bytes into.new ≡ text }
{
    into.truncate(old);
}
