//! Words from their texts, and back.
ghost use Rattle.std.specs.Prelude.{◌≡◌, ◌<◌, ◌++◌, ◌∷◌, [], length, MatchOption, IfOk, IfSome, OnOk, OnErr, IsTrue, slice_index_or, string_bytes};
ghost use Rattle.vc_exprio.specs.Words.{part_text, word_text};
ghost use Rattle.vc_exprio.specs.WordAnswers.{IsWordOf, IsPushed, IsWritten};
ghost use Rattle.vc_exprio.specs.WordParts.{tapes_of};
ghost use Rattle.vc_label.specs.Borrowed.{word_of};
ghost use Rattle.vc_label.specs.Letters.{are_letters};
ghost use Rattle.vc_text.specs.Escapes.{unescaped};
ghost use Rattle.vc_text.specs.Growing.{IsFront};

use crate::parts::parts_of;
use std::alloc::{AllocError, Global};
use vc_label::{Alphabet, LabelSet, Word, WordBuf, alphabets_are_sets};
use vc_text::{cut_back, push_byte, push_letter, push_text};

/// Why a text gives no word over a label set.
#[derive(Debug, Drop)]
pub enum WordFault {
    /// The text spells no word.
    NotAWord,

    /// The word has not as many tapes as the label set, or a letter is not in the alphabet of its tape.
    NotALabel,

    /// There was no memory.
    Memory(AllocError),
}

/// The first byte of a text, without a backslash before it, and the text after it.
pub(crate) fn next_byte(text: &[u8]) -> Option<(u8, &[u8])>
    ensures bytes { MatchOption result (unescaped text.now ≡ []) (λ r. unescaped text.now ≡ r.0 ∷ unescaped r.1.now) }
    ensures shorter { IfSome result (λ r. length r.1.now < length text.now) }
{
    match text {
        [b'\\', byte, after @ ..] => Some((*byte, after)),
        [byte, after @ ..] => Some((*byte, after)),
        [] => None,
    }
}

/// Appends the bytes of a text, each without the backslash before it, to a tape. False where one is not in the alphabet.
fn push_bytes(
    word: &mut WordBuf,
    tape: usize,
    alphabet: Alphabet,
    text: &[u8],
) -> Result<bool, AllocError>
    requires { tape < length word.old }
    ensures { IfOk result (λ over. IsPushed alphabet word.old tape (unescaped text.now) over word.new) }
{
    alphabets_are_sets();
    let mut rest = text;
    while let Some((letter, after)) = next_byte(rest) {
        if !alphabet.has(letter) {
            return Ok(false);
        }
        word.push(tape, letter)?;
        rest = after;
    }
    Ok(true)
}

/// The text of the letters of a tape.
#[tactic(auto, using(crate::proofs::GrownWords::part_on))]
pub(crate) fn part_on<'t>(parts: &[&'t [u8]], tape: usize) -> &'t [u8]
    requires { tape < length parts.now }
    ensures { unescaped result.now ≡ slice_index_or (tapes_of parts.now) tape [] }
{
    parts[tape]
}

/// The word with these parts, each by the text of its letters. None where a letter is not in the alphabet of its tape.
pub(crate) fn word_with<L: LabelSet>(
    alloc: Global,
    labels: &L,
    parts: &[&[u8]],
) -> Result<Option<WordBuf>, AllocError>
    requires { length parts.now ≡ length (L.sets labels.now) }
    ensures { IfOk result (λ word. IsWritten (L.sets labels.now) (tapes_of parts.now) word) }
{
    let mut word = WordBuf::new(alloc, labels.tapes());
    for tape in 0..labels.tapes() {
        if !push_bytes(
            &mut word,
            tape,
            labels.tape(tape).alphabet,
            part_on(parts, tape),
        )? {
            return Ok(None);
        }
    }
    Ok(Some(word))
}

/// The word that a text spells: parts with bars between them, one for each tape. A part is `\e`, letters one behind
/// another, or any number of letters in single quotes. Blanks may stand around parts.
pub fn read_word<L: LabelSet>(alloc: Global, labels: &L, text: &str) -> Result<WordBuf, WordFault>
    ensures { IsWordOf (L.sets labels.now) text.now result }
{
    let parts = match parts_of(alloc, text.as_bytes()) {
        Ok(Some(parts)) => parts,
        Ok(None) => return Err(WordFault::NotAWord),
        Err(fault) => return Err(WordFault::Memory(fault)),
    };
    if parts.len() != labels.tapes() {
        return Err(WordFault::NotALabel);
    }
    match word_with(alloc, labels, &parts) {
        Ok(Some(word)) => return Ok(word),
        Ok(None) => return Err(WordFault::NotALabel),
        Err(fault) => return Err(WordFault::Memory(fault)),
    }
}

/// Appends the text of a part.
fn push_part(letters: &[u8], into: &mut String) -> Result<(), AllocError>
    requires { IsTrue (are_letters letters.now) }
    ensures ok { OnOk result (string_bytes into.new ≡ string_bytes into.old ++ part_text letters.now) }
    ensures front { IsFront (string_bytes into.old) (string_bytes into.new) }
{
    if letters.is_empty() {
        return push_text("\\e", into);
    }
    for letter in letters {
        push_letter(*letter, into)?;
    }
    Ok(())
}

/// Appends the text of a word.
fn push_word(word: Word<'_>, into: &mut String) -> Result<(), AllocError>
    ensures ok { OnOk result (string_bytes into.new ≡ string_bytes into.old ++ word_text (word_of word.entry)) }
    ensures front { IsFront (string_bytes into.old) (string_bytes into.new) }
{
    push_part(word.tape(0), into)?;
    for tape in 1..word.tapes() {
        push_byte(b'|', into)?;
        push_part(word.tape(tape), into)?;
    }
    Ok(())
}

/// Appends the canonical text of a word: the parts with bars between them. A part is `\e` where it is empty, else its
/// letters; those that are not plain have a backslash before them.
pub fn write_word(word: Word<'_>, into: &mut String) -> Result<(), AllocError>
    ensures ok { OnOk result (string_bytes into.new ≡ string_bytes into.old ++ word_text (word_of word.entry)) }
    ensures err { OnErr result (string_bytes into.new ≡ string_bytes into.old) }
{
    let length = into.len();
    let written = push_word(word, into);
    if written.is_err() {
        cut_back(into, length);
    }
    written
}
