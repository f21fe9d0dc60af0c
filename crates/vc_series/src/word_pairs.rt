//! The pairs of words that products and shuffles of series go over.
ghost use Rattle.std.specs.Prelude.{◌≡◌, ◌<◌, ◌∷◌, [], ◌++◌, map, length, All, IsTrue, IfOk, OnOk};
ghost use Rattle.std.specs.List.{flat_map};
ghost use Rattle.vc_label.specs.Borrowed.{word_of};
ghost use Rattle.vc_label.specs.Letters.{are_letters, is_letter};
ghost use Rattle.vc_model.specs.Words.{cuts, tape_cuts, join};
ghost use Rattle.vc_series.specs.Steps.{tape_pairs};

use std::alloc::{AllocError, Global};
use vc_label::{Word, WordBuf};

/// The cuts of a word, by the lengths of the first piece on each tape, the shorter first.
pub(crate) fn cuts(alloc: Global, word: Word<'_>) -> Result<Vec<(WordBuf, WordBuf)>, AllocError>
    ensures { IfOk result (λ v. v.items ≡ cuts (word_of word.entry)) }
{
    let mut tape = word.tapes() - 1;
    let mut pairs = tape_cuts(alloc, word.tape(tape))?;
    while tape > 0 {
        tape -= 1;
        pairs = cuts_with(alloc, word.tape(tape), &pairs)?;
    }
    Ok(pairs)
}

/// The cuts of a word of one tape.
fn tape_cuts(alloc: Global, letters: &[u8]) -> Result<Vec<(WordBuf, WordBuf)>, AllocError>
    requires { IsTrue (are_letters letters.now) }
    ensures { IfOk result (λ v. v.items ≡ cuts (letters.now ∷ [])) }
{
    let mut pairs = Vec::new(alloc);
    for at in 0..letters.len() + 1 {
        let first = copy(alloc, Word::one(&letters[..at]))?;
        let second = copy(alloc, Word::one(&letters[at..]))?;
        pairs.push((first, second))?;
    }
    Ok(pairs)
}

/// The cuts of a word with one tape more in front.
fn cuts_with(
    alloc: Global,
    letters: &[u8],
    rest: &[(WordBuf, WordBuf)],
) -> Result<Vec<(WordBuf, WordBuf)>, AllocError>
    requires letters { IsTrue (are_letters letters.now) }
    requires tapes { All (λ d. (length d.0 < 4) × (length d.1 < 4)) rest.now }
    ensures { IfOk result (λ v. v.items
        ≡ flat_map (λ c. map (λ d. (c.0 ∷ d.0, c.1 ∷ d.1)) rest.now) (tape_cuts letters.now)) }
{
    let mut pairs = Vec::new(alloc);
    for at in 0..letters.len() + 1 {
        add_cuts(alloc, &letters[..at], &letters[at..], rest, &mut pairs)?;
    }
    Ok(pairs)
}

fn add_cuts(
    alloc: Global,
    first: &[u8],
    second: &[u8],
    rest: &[(WordBuf, WordBuf)],
    pairs: &mut Vec<(WordBuf, WordBuf)>,
) -> Result<(), AllocError>
    requires first { IsTrue (are_letters first.now) }
    requires second { IsTrue (are_letters second.now) }
    requires tapes { All (λ d. (length d.0 < 4) × (length d.1 < 4)) rest.now }
    ensures { OnOk result (pairs.new.items
        ≡ pairs.old.items ++ map (λ d. (first.now ∷ d.0, second.now ∷ d.1)) rest.now) }
{
    for (u, v) in rest {
        let front = with_tape(alloc, first, u.word())?;
        let back = with_tape(alloc, second, v.word())?;
        pairs.push((front, back))?;
    }
    Ok(())
}

/// The word with one tape more in front.
fn with_tape(alloc: Global, letters: &[u8], word: Word<'_>) -> Result<WordBuf, AllocError>
    requires letters { IsTrue (are_letters letters.now) }
    requires tapes { length (word_of word) < 4 }
    ensures { IfOk result (λ b. b ≡ letters.now ∷ word_of word.entry) }
{
    match word.tapes() {
        1 => return copy(alloc, Word::two(letters, word.tape(0))),
        2 => return copy(alloc, Word::three(letters, word.tape(0), word.tape(1))),
        _ => {
            return copy(
                alloc,
                Word::four(letters, word.tape(0), word.tape(1), word.tape(2)),
            );
        }
    }
}

fn copy(alloc: Global, word: Word<'_>) -> Result<WordBuf, AllocError>
    ensures { IfOk result (λ b. b ≡ word_of word.entry) }
{
    let mut all = WordBuf::new(alloc, word.tapes());
    all.append(word)?;
    Ok(all)
}

/// For each position set of a tape the letters at its places, and the others.
pub(crate) fn tape_pairs(
    alloc: Global,
    letters: &[u8],
) -> Result<Vec<(WordBuf, WordBuf)>, AllocError>
    requires { IsTrue (are_letters letters.now) }
    ensures { IfOk result (λ v. v.items ≡ tape_pairs letters.now) }
{
    let mut at = letters.len();
    let mut pairs = Vec::new(alloc);
    pairs.push((WordBuf::new(alloc, 1), WordBuf::new(alloc, 1)))?;
    while at > 0 {
        at -= 1;
        pairs = pairs_with(alloc, letters[at], &pairs)?;
    }
    Ok(pairs)
}

/// Each pair with a letter in front of its first word, and then each with it in front of its second.
fn pairs_with(
    alloc: Global,
    letter: u8,
    rest: &[(WordBuf, WordBuf)],
) -> Result<Vec<(WordBuf, WordBuf)>, AllocError>
    requires letter { IsTrue (is_letter letter) }
    requires tapes { All (λ d. (length d.0 ≡ 1) × (length d.1 ≡ 1)) rest.now }
    ensures { IfOk result (λ v. v.items
        ≡ map (λ d. (join ((letter ∷ []) ∷ []) d.0, d.1)) rest.now
        ++ map (λ d. (d.0, join ((letter ∷ []) ∷ []) d.1)) rest.now) }
{
    let mut pairs = Vec::with_capacity(alloc, rest.len())?;
    for (u, v) in rest {
        let longer = with_letter(alloc, letter, u.word())?;
        let other = copy(alloc, v.word())?;
        pairs.push((longer, other))?;
    }
    for (u, v) in rest {
        let other = copy(alloc, u.word())?;
        let longer = with_letter(alloc, letter, v.word())?;
        pairs.push((other, longer))?;
    }
    Ok(pairs)
}

/// The word of one tape with a letter in front.
fn with_letter(alloc: Global, letter: u8, word: Word<'_>) -> Result<WordBuf, AllocError>
    requires letter { IsTrue (is_letter letter) }
    requires tapes { length (word_of word) ≡ 1 }
    ensures { IfOk result (λ b. b ≡ join ((letter ∷ []) ∷ []) (word_of word.entry)) }
{
    let mut all = WordBuf::new(alloc, 1);
    all.push(0, letter)?;
    all.append(word)?;
    Ok(all)
}
