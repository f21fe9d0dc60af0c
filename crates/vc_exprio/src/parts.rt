//! The parts of the text of a word.
ghost use Rattle.std.specs.Prelude.{◌≡◌, ◌<◌, ◌≤◌, ◌∷◌, [], List, ℕ, length, MatchOption, IfSome, IfOk, IsTrue};
ghost use Rattle.std.specs.Option.{option_map};
ghost use Rattle.vc_exprio.specs.WordAnswers.{AreParts};
ghost use Rattle.vc_exprio.specs.WordParts.{front_letters, after_letters, part_in, found};
ghost use Rattle.vc_label.specs.Letters.{is_letter};

use std::alloc::{AllocError, Global};
use vc_text::{after_blanks, letter_at};

/// A part of a word: the text of its letters, and the text after the part.
#[derive(Clone, Copy)]
pub(crate) struct Part<'t> {
    pub(crate) letters: &'t [u8],
    pub(crate) after: &'t [u8],
}

/// The letter that a text begins with, and the text after it.
fn next_letter(text: &[u8]) -> Option<(u8, &[u8])>
    ensures letters { MatchOption result ((front_letters text.now ≡ []) × (after_letters text.now ≡ text.now))
        (λ r. (front_letters text.now ≡ r.0 ∷ front_letters r.1.now) × (after_letters text.now ≡ after_letters r.1.now)) }
    ensures shorter { IfSome result (λ r. length r.1.now < length text.now) }
    ensures letter { IfSome result (λ r. IsTrue (is_letter r.0)) }
{
    let found = letter_at(text, 0)?;
    Some((found.letter, &text[found.after..]))
}

/// The text after the letters that it begins with.
fn after_letters(text: &[u8]) -> &[u8]
    ensures text { result.now ≡ after_letters text.now }
    ensures shorter { length result.now ≤ length text.now }
{
    let mut rest = text;
    while let Some((_, after)) = next_letter(rest) {
        rest = after;
    }
    rest
}

/// The part that begins here.
fn part_in(text: &[u8]) -> Option<Part<'_>>
    ensures { option_map found result ≡ part_in text.now }
{
    match text {
        [b'\'', quoted @ ..] => {
            let rest = after_letters(quoted);
            let end = quoted.len() - rest.len();
            match rest {
                [b'\'', after @ ..] => Some(Part {
                    letters: &quoted[..end],
                    after: after_blanks(after),
                }),
                _ => None,
            }
        }
        [b'\\', b'e', after @ ..] => Some(Part {
            letters: &[],
            after: after_blanks(after),
        }),
        _ => {
            let _ = next_letter(text)?;
            let rest = after_letters(text);
            Some(Part {
                letters: &text[..text.len() - rest.len()],
                after: after_blanks(rest),
            })
        }
    }
}

/// The text after the bar that it begins with.
fn after_bar(text: &[u8]) -> Option<&[u8]>
    ensures { MatchOption result ((rest : List ℕ) → text.now ≡ 124 ∷ rest → ⊥) (λ after. text.now ≡ 124 ∷ after.now) }
{
    match text {
        [b'|', after @ ..] => Some(after),
        _ => None,
    }
}

/// The parts of a text, each by the text of its letters. None where the text spells no word.
pub(crate) fn parts_of(alloc: Global, text: &[u8]) -> Result<Option<Vec<&[u8]>>, AllocError>
    ensures { IfOk result (λ parts. AreParts text.now (option_map (λ v. v.items) parts)) }
{
    let mut parts = Vec::new(alloc);
    let mut rest = text;
    while let Some(part) = part_in(after_blanks(rest)) {
        parts.push(part.letters)?;
        if part.after.is_empty() {
            return Ok(Some(parts));
        }
        let Some(after) = after_bar(part.after) else {
            return Ok(None);
        };
        rest = after;
    }
    Ok(None)
}
