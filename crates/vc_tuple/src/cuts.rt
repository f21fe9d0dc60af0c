ghost use Rattle.std.specs.Prelude.{◌≡◌, [], ◌∷◌, length, IsTrue, IfSome, MatchOption, Some, None};
ghost use Rattle.std.specs.Option.{option_map};
ghost use Rattle.vc_label.specs.Borrowed.{word_of};
ghost use Rattle.vc_label.specs.Letters.{are_letters};
ghost use Rattle.vc_model.specs.Words.{rest_after, cut};
ghost use Rattle.vc_tuple.specs.Parts.{parts_of};

use vc_label::{Word, tapes_are_cut};

/// The part before the first zero, and what follows that zero.
pub(crate) fn first_part(bytes: &[u8]) -> (&[u8], Option<&[u8]>)
    ensures { MatchOption result.1 (parts_of bytes.now ≡ result.0.now ∷ []) (λ rest. parts_of bytes.now ≡ result.0.now ∷ parts_of rest.now) }
{
    for (i, byte) in bytes.iter().enumerate() {
        if *byte == 0 {
            return (&bytes[..i], Some(&bytes[i + 1..]));
        }
    }
    (bytes, None)
}

/// What follows a part in a tape.
fn rest<'w>(part: &[u8], tape: &'w [u8]) -> Option<&'w [u8]>
    requires { IsTrue (are_letters tape.now) }
    ensures value { MatchOption result (rest_after part.now tape.entry.now ≡ None) (λ r. rest_after part.now tape.entry.now ≡ Some r.now) }
    ensures letters { IfSome result (λ r. IsTrue (are_letters r.now)) }
{
    tapes_are_cut();
    tape.strip_prefix(part)
}

/// What follows a word in a word that begins with it on every tape.
pub(crate) fn rest_of_word<'w>(front: Word<'_>, word: Word<'w>) -> Option<Word<'w>>
    requires { length (word_of front) ≡ length (word_of word) }
    ensures { option_map word_of result ≡ cut (word_of front.entry) (word_of word.entry) }
{
    let Some(a) = rest(front.tape(0), word.tape(0)) else {
        return None;
    };
    if word.tapes() == 1 {
        return Some(Word::one(a));
    }
    let Some(b) = rest(front.tape(1), word.tape(1)) else {
        return None;
    };
    if word.tapes() == 2 {
        return Some(Word::two(a, b));
    }
    let Some(c) = rest(front.tape(2), word.tape(2)) else {
        return None;
    };
    if word.tapes() == 3 {
        return Some(Word::three(a, b, c));
    }
    let Some(d) = rest(front.tape(3), word.tape(3)) else {
        return None;
    };
    Some(Word::four(a, b, c, d))
}
