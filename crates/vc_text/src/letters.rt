//! Letters of texts. Plain letters are the letters of the English alphabet, the digits and `_`;
//! each other byte from 0x21 to 0x7E is a letter with a backslash before it.
ghost use Rattle.std.specs.Prelude.{◌≡◌, ◌+◌, ◌<◌, ◌≤◌, ◌^◌, ◌++◌, ℕ, List, drop, length, slice_range, IfSome, IfNone, IsTrue};
ghost use Rattle.vc_label.specs.Letters.{is_letter};
ghost use Rattle.vc_text.specs.Letters.{is_plain, is_escaped, letter_in, SpellsLetter};

/// A letter of a text.
#[derive(Clone, Copy, Debug, PartialEq, Eq)]
pub struct LetterAt {
    /// The letter, without its backslash.
    pub letter: u8,
    /// The place after it.
    pub after: usize,
}

/// The plain or escaped letter that begins at this place.
pub fn letter_at(text: &[u8], at: usize) -> Option<LetterAt>
    requires { at ≤ length text.now }
    ensures value { result ≡ letter_in at (drop at text.now) }
    ensures within { IfSome result (λ l. (at < l.after) × (l.after ≤ length text.now)) }
    ensures letter { IfSome result (λ l. SpellsLetter (slice_range text.now at l.after) l.letter) }
    ensures is_letter { IfSome result (λ l. IsTrue (is_letter l.letter)) }
    ensures none { IfNone result
        ((front back : List ℕ) (x : ℕ) → drop at text.now ≡ front ++ back → SpellsLetter front x → ⊥) }
{
    letter_in(at, &text[at..])
}

// The letter that a text begins with, where its first byte stands at this place.
fn letter_in(at: usize, text: &[u8]) -> Option<LetterAt>
    requires { at + length text.now < 2 ^ 64 }
    ensures { result ≡ letter_in at text.now }
{
    match text {
        [x, ..] if is_plain(*x) => Some(LetterAt {
            letter: *x,
            after: at + 1,
        }),
        [b'\\', x, ..] if is_escaped(*x) => Some(LetterAt {
            letter: *x,
            after: at + 2,
        }),
        _ => None,
    }
}

/// Whether the byte is a letter that stands by itself.
#[tactic(auto, unfolding(crate::specs::Letters::is_plain))]
pub fn is_plain(byte: u8) -> bool
    ensures { result ≡ is_plain byte }
{
    byte.is_ascii_alphanumeric() || byte == b'_'
}

/// Whether the byte is a letter that has a backslash before it.
#[tactic(auto, unfolding(crate::specs::Letters::is_escaped))]
pub fn is_escaped(byte: u8) -> bool
    ensures { result ≡ is_escaped byte }
{
    0x21 <= byte && byte <= 0x7e && !is_plain(byte)
}
