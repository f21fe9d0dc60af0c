ghost use Rattle.std.specs.Prelude.{◌≡◌, [], ◌∷◌, map, true, IfOk, IsTrue, MatchBool};
ghost use Rattle.std.specs.Option.{option_map};
ghost use Rattle.vc_lex.specs.Labels.{IsLabelOver, IsLabelAnswer};
ghost use Rattle.vc_lex.specs.Parts.{are_parts, is_label, tape_of, parts_word};
ghost use Rattle.vc_lex.specs.Views.{seen};
ghost use Rattle.vc_text.specs.Classes.{class_items, has_singles};
ghost use Rattle.vc_label.specs.Borrowed.{word_of};
ghost use Rattle.vc_label.specs.Letters.{are_letters};

use std::alloc::{AllocError, Global};
use vc_label::{Alphabet, LabelFault, LabelSet, Word, words_are_over_sets};
use vc_lex::{Token, TokenKind, is_class};
use vc_text::{class_letters, inside, unescape};

/// Room for the letters of the parts of a label.
#[derive(Drop)]
pub(crate) struct Tapes {
    first: Vec<u8>,
    second: Vec<u8>,
    third: Vec<u8>,
    fourth: Vec<u8>,
}

impl Tapes {
    pub(crate) fn new(alloc: Global) -> Tapes {
        Tapes {
            first: Vec::new(alloc),
            second: Vec::new(alloc),
            third: Vec::new(alloc),
            fourth: Vec::new(alloc),
        }
    }
}

/// Writes the letters of a part. False where some byte of it is no letter.
fn write_tape(token: Token<'_>, into: &mut Vec<u8>) -> Result<bool, AllocError>
    ensures tape { IfOk result (λ _. into.new.items ≡ tape_of (seen token.entry)) }
    ensures letters { IfOk result (λ b. b ≡ are_letters (tape_of (seen token.entry))) }
{
    match token.kind {
        TokenKind::Letter | TokenKind::Run => unescape(token.text, into)?,
        TokenKind::Quoted => unescape(inside(token.text), into)?,
        _ => into.clear(),
    }
    Ok(are_letters(into))
}

/// Whether the part is one letter that stands by itself.
fn is_letter(token: Token<'_>) -> bool
    ensures { result ≡ true → (tape_of (seen token.entry) ≡ token.entry.text.now) × IsTrue (are_letters token.entry.text.now) }
{
    match token.kind {
        TokenKind::Run => match token.text {
            [letter] => 0x21 <= *letter && *letter <= 0x7e,
            _ => false,
        },
        _ => false,
    }
}

fn are_letters(text: &[u8]) -> bool
    ensures { result ≡ are_letters text.now }
{
    for byte in text {
        if *byte < 0x21 || 0x7e < *byte {
            return false;
        }
    }
    true
}

/// The label of the set with these parts. None where it is no label of the set.
fn label_of<L: LabelSet>(
    alloc: Global,
    labels: &L,
    word: Word<'_>,
) -> Result<Option<L::Label>, AllocError>
    ensures { IfOk result (λ o. IsLabelAnswer (L.sets labels.now) (word_of word.entry) (option_map L.parts o)) }
{
    match labels.label(alloc, word) {
        Ok(label) => Ok(Some(label)),
        Err(LabelFault::NotHere) => Ok(None),
        Err(LabelFault::Memory(e)) => Err(e),
    }
}

/// The label of one part.
fn label_of_one<L: LabelSet>(
    alloc: Global,
    labels: &L,
    tapes: &mut Tapes,
    a: Token<'_>,
) -> Result<Option<L::Label>, AllocError>
    ensures { IfOk result (λ o. IsLabelAnswer (L.sets labels.now) (tape_of (seen a.entry) ∷ []) (option_map L.parts o)) }
{
    words_are_over_sets();
    if is_letter(a) {
        return label_of(alloc, labels, Word::one(a.text));
    }
    if !write_tape(a, &mut tapes.first)? {
        return Ok(None);
    }
    label_of(alloc, labels, Word::one(&tapes.first))
}

/// The label of two parts.
fn label_of_two<L: LabelSet>(
    alloc: Global,
    labels: &L,
    tapes: &mut Tapes,
    a: Token<'_>,
    b: Token<'_>,
) -> Result<Option<L::Label>, AllocError>
    ensures { IfOk result (λ o. IsLabelAnswer (L.sets labels.now) (tape_of (seen a.entry) ∷ tape_of (seen b.entry) ∷ []) (option_map L.parts o)) }
{
    words_are_over_sets();
    if !write_tape(a, &mut tapes.first)? || !write_tape(b, &mut tapes.second)? {
        return Ok(None);
    }
    label_of(alloc, labels, Word::two(&tapes.first, &tapes.second))
}

/// The label of three parts.
fn label_of_three<L: LabelSet>(
    alloc: Global,
    labels: &L,
    tapes: &mut Tapes,
    a: Token<'_>,
    b: Token<'_>,
    c: Token<'_>,
) -> Result<Option<L::Label>, AllocError>
    ensures { IfOk result (λ o. IsLabelAnswer (L.sets labels.now) (tape_of (seen a.entry) ∷ tape_of (seen b.entry) ∷ tape_of (seen c.entry) ∷ []) (option_map L.parts o)) }
{
    words_are_over_sets();
    if !write_tape(a, &mut tapes.first)?
        || !write_tape(b, &mut tapes.second)?
        || !write_tape(c, &mut tapes.third)?
    {
        return Ok(None);
    }
    label_of(
        alloc,
        labels,
        Word::three(&tapes.first, &tapes.second, &tapes.third),
    )
}

/// The label of four parts.
fn label_of_four<L: LabelSet>(
    alloc: Global,
    labels: &L,
    tapes: &mut Tapes,
    a: Token<'_>,
    b: Token<'_>,
    c: Token<'_>,
    d: Token<'_>,
) -> Result<Option<L::Label>, AllocError>
    ensures { IfOk result (λ o. IsLabelAnswer (L.sets labels.now) (tape_of (seen a.entry) ∷ tape_of (seen b.entry) ∷ tape_of (seen c.entry) ∷ tape_of (seen d.entry) ∷ []) (option_map L.parts o)) }
{
    words_are_over_sets();
    if !write_tape(a, &mut tapes.first)?
        || !write_tape(b, &mut tapes.second)?
        || !write_tape(c, &mut tapes.third)?
        || !write_tape(d, &mut tapes.fourth)?
    {
        return Ok(None);
    }
    label_of(
        alloc,
        labels,
        Word::four(&tapes.first, &tapes.second, &tapes.third, &tapes.fourth),
    )
}

/// The label of the set with the parts of the tokens, of which every second one is a bar. None where it is no label of
/// the set.
pub(crate) fn parts_label<L: LabelSet>(
    alloc: Global,
    labels: &L,
    tapes: &mut Tapes,
    label: &[Token<'_>],
) -> Result<Option<L::Label>, AllocError>
    requires { are_parts (map seen label.now) ≡ true }
    ensures { IfOk result (λ o. IsLabelAnswer (L.sets labels.now) (parts_word (map seen label.now)) (option_map L.parts o)) }
{
    words_are_over_sets();
    let count = label.len();
    if count == 1 {
        return label_of_one(alloc, labels, tapes, label[0]);
    }
    if count == 3 {
        return label_of_two(alloc, labels, tapes, label[0], label[2]);
    }
    if count == 5 {
        return label_of_three(alloc, labels, tapes, label[0], label[2], label[4]);
    }
    if count == 7 {
        return label_of_four(alloc, labels, tapes, label[0], label[2], label[4], label[6]);
    }
    Ok(None)
}

/// Whether each letter that stands alone in the class is in the alphabet.
fn is_class_of(alphabet: Alphabet, body: &[u8]) -> bool
    ensures { result ≡ has_singles alphabet (class_items body.now) }
{
    class_letters(alphabet, body).is_some()
}

/// Whether the label is in the label set: as a class, or by its parts.
pub(crate) fn is_label_over<L: LabelSet>(
    alloc: Global,
    labels: &L,
    tapes: &mut Tapes,
    label: &[Token<'_>],
) -> Result<bool, AllocError>
    requires { is_label (map seen label.now) ≡ true }
    ensures { IfOk result (λ b. MatchBool b (IsLabelOver (L.sets labels.now) (map seen label.now)) (IsLabelOver (L.sets labels.now) (map seen label.now) → ⊥)) }
{
    match label {
        [class] if is_class(label) => {
            Ok(labels.tapes() == 1 && is_class_of(labels.tape(0).alphabet, inside(class.text)))
        }
        _ => Ok(parts_label(alloc, labels, tapes, label)?.is_some()),
    }
}
