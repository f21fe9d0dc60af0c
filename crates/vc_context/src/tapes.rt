ghost use Rattle.std.specs.Prelude.{◌≡◌, codes};
ghost use Rattle.std.specs.Option.{option_map};
ghost use Rattle.vc_context.specs.Reading.{tape_of, with_kind, called_front, angled_front, letters_called, nullable_set, nullable_called, words_called, kind_behind, bracketed_front, named_front, tape_front};
ghost use Rattle.vc_label.specs.Alphabets.{letters_of};

use crate::letters::letters_until;
use crate::pieces::after;
use vc_label::{Alphabet, TapeKind, TapeSet};

// Letters in parentheses.
fn called(kind: TapeKind, text: &[u8]) -> Option<(TapeSet, &[u8])>
    ensures { option_map (λ r. (tape_of r.0, r.1.now)) result ≡ called_front kind text.now }
{
    let text = after(b"(", text)?;
    let (alphabet, rest) = letters_until(b")", text)?;
    Some((TapeSet { kind, alphabet }, rest))
}

// In angle brackets a name, and letters in parentheses.
fn angled<'t>(kind: TapeKind, name: &[u8], text: &'t [u8]) -> Option<(TapeSet, &'t [u8])>
    ensures { option_map (λ r. (tape_of r.0, r.1.now)) result ≡ angled_front kind name.now text.now }
{
    let text = after(b"<", text)?;
    let text = after(name, text)?;
    let (set, rest) = called(kind, text)?;
    Some((set, after(b">", rest)?))
}

// A name of `lal`, and what follows it, with labels of this kind.
fn letters_called(kind: TapeKind, text: &[u8]) -> Option<(TapeSet, &[u8])>
    ensures { option_map (λ r. (tape_of r.0, r.1.now)) result ≡ letters_called kind text.now }
{
    if let Some(rest) = after(b"lal_char", text) {
        return called(kind, rest);
    }
    if let Some(rest) = after(b"lal", text) {
        return angled(kind, b"char", rest);
    }
    angled(kind, b"char_letters", after(b"letterset", text)?)
}

// In angle brackets a name of `lal`, and what follows it, with empty labels.
fn nullable_set(text: &[u8]) -> Option<(TapeSet, &[u8])>
    ensures { option_map (λ r. (tape_of r.0, r.1.now)) result ≡ nullable_set text.now }
{
    let text = after(b"<", text)?;
    let (set, rest) = letters_called(TapeKind::Nullable, text)?;
    Some((set, after(b">", rest)?))
}

// A name of `lan`, and what follows it.
fn nullable_called(text: &[u8]) -> Option<(TapeSet, &[u8])>
    ensures { option_map (λ r. (tape_of r.0, r.1.now)) result ≡ nullable_called text.now }
{
    if let Some(rest) = after(b"lan_char", text) {
        return called(TapeKind::Nullable, rest);
    }
    if let Some(rest) = after(b"lan", text) {
        return angled(TapeKind::Nullable, b"char", rest);
    }
    nullable_set(after(b"nullableset", text)?)
}

// A name of `law`, and what follows it.
fn words_called(text: &[u8]) -> Option<(TapeSet, &[u8])>
    ensures { option_map (λ r. (tape_of r.0, r.1.now)) result ≡ words_called text.now }
{
    if let Some(rest) = after(b"law_char", text) {
        return called(TapeKind::Words, rest);
    }
    if let Some(rest) = after(b"law", text) {
        return angled(TapeKind::Words, b"char", rest);
    }
    angled(TapeKind::Words, b"char_letters", after(b"wordset", text)?)
}

// Letters behind a bracket that was closed: `?` or `*` tells their kind.
fn with_kind(alphabet: Alphabet, text: &[u8]) -> (TapeSet, &[u8])
    ensures { (tape_of result.0, result.1.now) ≡ kind_behind (letters_of alphabet, text.now) }
{
    let (kind, rest) = if let Some(rest) = after(b"?", text) {
        (TapeKind::Nullable, rest)
    } else if let Some(rest) = after(b"*", text) {
        (TapeKind::Words, rest)
    } else {
        (TapeKind::Letters, text)
    };
    (TapeSet { kind, alphabet }, rest)
}

// A tape in brackets.
pub fn bracketed(text: &[u8]) -> Option<(TapeSet, &[u8])>
    ensures { option_map (λ r. (tape_of r.0, r.1.now)) result ≡ bracketed_front text.now }
{
    let text = after(b"[", text)?;
    let (alphabet, rest) = letters_until(b"]", text)?;
    Some(with_kind(alphabet, rest))
}

// A tape with a name.
pub fn named(text: &[u8]) -> Option<(TapeSet, &[u8])>
    ensures { option_map (λ r. (tape_of r.0, r.1.now)) result ≡ named_front text.now }
{
    letters_called(TapeKind::Letters, text)
        .or_else(|| nullable_called(text))
        .or_else(|| words_called(text))
}

// A tape.
pub fn tape(text: &[u8]) -> Option<(TapeSet, &[u8])>
    ensures { option_map (λ r. (tape_of r.0, r.1.now)) result ≡ tape_front text.now }
{
    bracketed(text).or_else(|| named(text))
}
