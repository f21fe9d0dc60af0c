//! Whether the parts of a label are over a label set. It takes no memory.
ghost use Rattle.std.specs.Prelude.{◌≡◌, ◌↔◌, ◌∷◌, [], All, IsTrue, MatchOption, length, true};
ghost use Rattle.vc_exprio.specs.WordParts.{tapes_of};
ghost use Rattle.vc_label.specs.Alphabets.{has_letter};
ghost use Rattle.vc_label.specs.Sets.{HasKind, IsOverSets, IsPartOf};
ghost use Rattle.vc_text.specs.Escapes.{unescaped};

use crate::words::{next_byte, part_on};
use vc_label::{Alphabet, LabelSet, TapeKind, TapeSet, words_are_over_sets};

/// The letter of a text that has one letter.
pub(crate) fn one_letter(text: &[u8]) -> Option<u8>
    ensures { MatchOption result (length (unescaped text.now) ≡ 1 → ⊥)
        (λ x. unescaped text.now ≡ x ∷ []) }
{
    let (letter, after) = next_byte(text)?;
    match next_byte(after) {
        Some(_) => None,
        None => Some(letter),
    }
}

/// Whether a tape of this kind may have as many letters as a text.
fn has_kind(kind: TapeKind, text: &[u8]) -> bool
    ensures { IsTrue result ↔ HasKind kind (unescaped text.now) }
{
    match kind {
        TapeKind::Letters => one_letter(text).is_some(),
        TapeKind::Nullable => next_byte(text).is_none() || one_letter(text).is_some(),
        TapeKind::Words => true,
    }
}

/// Whether each letter of a text is in an alphabet.
fn are_in(alphabet: Alphabet, text: &[u8]) -> bool
    ensures { IsTrue result ↔ All (λ x. has_letter alphabet x ≡ true) (unescaped text.now) }
{
    let mut rest = text;
    while let Some((letter, after)) = next_byte(rest) {
        if !alphabet.has(letter) {
            return false;
        }
        rest = after;
    }
    true
}

/// Whether the letters of a text are a part of a set.
fn is_part_of(set: TapeSet, text: &[u8]) -> bool
    ensures { IsTrue result ↔ IsPartOf set (unescaped text.now) }
{
    has_kind(set.kind, text) && are_in(set.alphabet, text)
}

/// Whether the word with these parts, each by the text of its letters, is over a label set.
pub(crate) fn are_over<L: LabelSet>(labels: &L, parts: &[&[u8]]) -> bool
    ensures { IsTrue result ↔ IsOverSets (L.sets labels.now) (tapes_of parts.now) }
{
    words_are_over_sets();
    if parts.len() != labels.tapes() {
        return false;
    }
    for tape in 0..labels.tapes() {
        if !is_part_of(labels.tape(tape), part_on(parts, tape)) {
            return false;
        }
    }
    true
}
