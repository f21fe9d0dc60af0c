//! The labels of a text, over a label set.
ghost use Rattle.std.specs.Prelude.{◌≡◌, ◌<◌, ◌∷◌, [], List, IfOk, IfSome, MatchBool, MatchOption, OnOk, drop, false, map, length};
ghost use Rattle.vc_exprio.specs.LabelAnswers.{IsLabelMade, IsToldOver, IsClassFound, IsOutsideAt, IsStepOutside};
ghost use Rattle.vc_exprio.specs.Making.{more_parts, occurrences_in};
ghost use Rattle.vc_exprio.specs.Meaning as meaning;
ghost use Rattle.vc_exprio.specs.Occurring.{IsOccurrenceOver};
ghost use Rattle.vc_exprio.specs.Steps.{Op, more_op};
ghost use Rattle.vc_exprio.specs.Views.{step_seen};
ghost use Rattle.vc_exprio.specs.WordParts.{tapes_of};
ghost use Rattle.vc_label.specs.Borrowed.{word_of};
ghost use Rattle.vc_label.specs.Sets.{IsOverSets};
ghost use Rattle.vc_lex.specs.Marks.{Mark};
ghost use Rattle.vc_lex.specs.Parts.{tape_of};
ghost use Rattle.vc_lex.specs.Views.{seen};
ghost use Rattle.vc_lex.specs.declared.token.TokenKind.TheVariants.{One};
ghost use Rattle.vc_model.specs.Words.{is_empty};
ghost use Rattle.vc_text.specs.Escapes.{unescaped};

use crate::over::{are_over, one_letter};
use crate::step::Step;
use crate::words::{part_on, word_with};
use std::alloc::{AllocError, Global};
use std::slice;
use vc_label::{Alphabet, LabelFault, LabelSet, Word, words_are_over_sets};
use vc_lex::{Token, TokenKind};
use vc_text::{class_letters, inside};

/// A step, and the steps after it.
pub(crate) fn step_at<'s, 't>(steps: &'s [Step<'t>], at: usize) -> (Step<'t>, &'s [Step<'t>])
    requires { at < length steps.now }
    ensures { drop at (map step_seen steps.now) ≡ step_seen result.0 ∷ map step_seen result.1.now }
{
    (steps[at], &steps[at + 1..])
}

/// The text of the letters of a part.
fn letters_of<'t>(part: Token<'t>) -> &'t [u8]
    ensures { unescaped result.now ≡ tape_of (seen part.entry) }
{
    match part.kind {
        TokenKind::Letter | TokenKind::Run => part.text,
        TokenKind::Quoted => inside(part.text),
        _ => &[],
    }
}

/// The part with which a label goes on, where a step is one.
fn more_part<'t>(step: Step<'t>) -> Option<Token<'t>>
    ensures { MatchOption result ((ops : List Op) → more_parts (step_seen step.entry ∷ ops) ≡ [])
        (λ part. step_seen step.entry ≡ more_op (seen part)) }
{
    match step {
        Step::More(part) => Some(part),
        _ => None,
    }
}

/// The texts of the letters of a label's parts, in place of those that are there: the first part,
/// and the further ones, with which the steps after it begin.
fn collect_parts<'t>(
    first: Token<'t>,
    after: &[Step<'t>],
    parts: &mut Vec<&'t [u8]>,
) -> Result<(), AllocError>
    ensures { OnOk result (tapes_of parts.new.items ≡ map tape_of (seen first.entry ∷ more_parts (map step_seen after.now))) }
{
    parts.clear();
    parts.push(letters_of(first))?;
    for step in after {
        let Some(part) = more_part(*step) else {
            return Ok(());
        };
        parts.push(letters_of(part))?;
    }
    Ok(())
}

/// The label of the set that a word is.
pub(crate) fn label_of<L: LabelSet>(
    alloc: Global,
    labels: &L,
    word: Word<'_>,
) -> Result<L::Label, AllocError>
    requires { IsOverSets (L.sets labels.now) (word_of word) }
    ensures { IfOk result (λ label. L.parts label ≡ word_of word.entry) }
{
    match labels.label(alloc, word) {
        Ok(label) => return Ok(label),
        Err(LabelFault::NotHere) => unreachable!(),
        Err(LabelFault::Memory(error)) => return Err(error),
    }
}

/// The letter of a label that is one letter on one tape.
fn letter_alone(parts: &[&[u8]]) -> Option<u8>
    ensures { IfSome result (λ x. tapes_of parts.now ≡ (x ∷ []) ∷ []) }
{
    if parts.len() != 1 {
        return None;
    }
    one_letter(part_on(parts, 0))
}

/// The label of the set with these parts, each by the text of its letters. Where they are one
/// letter, no word is built for it.
fn label_with<L: LabelSet>(
    alloc: Global,
    labels: &L,
    parts: &[&[u8]],
) -> Result<L::Label, AllocError>
    requires { IsOverSets (L.sets labels.now) (tapes_of parts.now) }
    ensures { IfOk result (λ label. L.parts label ≡ tapes_of parts.now) }
{
    words_are_over_sets();
    if let Some(letter) = letter_alone(parts) {
        return label_of(alloc, labels, Word::one(slice::from_ref(&letter)));
    }
    let Some(word) = word_with(alloc, labels, parts)? else {
        unreachable!()
    };
    label_of(alloc, labels, word.word())
}

/// Whether no part has a letter.
fn are_empty(parts: &[&[u8]]) -> bool
    ensures { result ≡ is_empty (tapes_of parts.now) }
{
    for letters in parts {
        if !letters.is_empty() {
            return false;
        }
    }
    true
}

/// Whether a label with so many parts, of which this is the first, is `\e` alone.
fn is_one_alone(first: Token<'_>, parts: usize) -> bool
    ensures { MatchBool result ((first.entry.kind ≡ One) × (parts ≡ 1)) (first.entry.kind ≡ One → parts ≡ 1 → ⊥) }
{
    match first.kind {
        TokenKind::One => parts == 1,
        _ => false,
    }
}

/// Whether a label with these parts, each by the text of its letters, is one of the context. The
/// token of the first part is given.
fn is_over<L: LabelSet>(labels: &L, first: Token<'_>, parts: &[&[u8]]) -> bool
    ensures { (further : List Mark) → tapes_of parts.now ≡ map tape_of (seen first.entry ∷ further)
        → IsToldOver (L.sets labels.now) (meaning.parts (seen first.entry) further) result }
{
    words_are_over_sets();
    if is_one_alone(first, parts.len()) {
        return true;
    }
    if are_empty(parts) {
        return parts.len() == labels.tapes();
    }
    are_over(labels, parts)
}

/// Whether a label is one of the context: its first part, and the further ones, with which the
/// steps after it begin. `parts` is room for them.
fn is_label<'t, L: LabelSet>(
    labels: &L,
    first: Token<'t>,
    after: &[Step<'t>],
    parts: &mut Vec<&'t [u8]>,
) -> Result<bool, AllocError>
    ensures { IfOk result (λ is. IsToldOver (L.sets labels.now)
        (meaning.parts (seen first.entry) (more_parts (map step_seen after.now))) is) }
{
    collect_parts(first, after, parts)?;
    Ok(is_over(labels, first, parts))
}

/// The label of the set with these parts; none where no part has a letter.
fn label_if_any<L: LabelSet>(
    alloc: Global,
    labels: &L,
    parts: &[&[u8]],
) -> Result<Option<L::Label>, AllocError>
    requires { is_empty (tapes_of parts.now) ≡ false
        → IsOverSets (L.sets labels.now) (tapes_of parts.now) }
    ensures { IfOk result (λ label. IsLabelMade L.parts (tapes_of parts.now) label) }
{
    if are_empty(parts) {
        return Ok(None);
    }
    let label = label_with(alloc, labels, parts)?;
    Ok(Some(label))
}

/// The label of the set that a label of the context is; none where it is empty. Its first part is
/// given, and with the further ones the steps after it begin. `parts` is room for them.
pub(crate) fn make_label<'t, L: LabelSet>(
    alloc: Global,
    labels: &L,
    first: Token<'t>,
    after: &[Step<'t>],
    parts: &mut Vec<&'t [u8]>,
) -> Result<Option<L::Label>, AllocError>
    requires { IsOccurrenceOver (L.sets labels.now)
        (meaning.parts (seen first) (more_parts (map step_seen after.now))) }
    ensures { IfOk result (λ label. IsLabelMade L.parts
        (map tape_of (seen first.entry ∷ more_parts (map step_seen after.now))) label) }
{
    collect_parts(first, after, parts)?;
    label_if_any(alloc, labels, parts)
}

/// The letters of a class, where it is a label of the set.
pub(crate) fn find_class<L: LabelSet>(labels: &L, class: Token<'_>) -> Option<Alphabet>
    ensures { IsClassFound (L.sets labels.now) (seen class.entry) result }
{
    if labels.tapes() != 1 {
        return None;
    }
    class_letters(labels.tape(0).alphabet, inside(class.text))
}

/// The place of the label or class that a step is, where it is no label of the context.
fn outside_at<'t, L: LabelSet>(
    labels: &L,
    step: Step<'t>,
    after: &[Step<'t>],
    parts: &mut Vec<&'t [u8]>,
) -> Result<Option<usize>, AllocError>
    ensures { IfOk result (λ place. IsStepOutside (L.sets labels.now) (step_seen step.entry) (map step_seen after.now) place) }
{
    match step {
        Step::Part(first) => {
            if is_label(labels, first, after, parts)? {
                return Ok(None);
            }
            return Ok(Some(first.at));
        }
        Step::Class(class) => match find_class(labels, class) {
            Some(_) => return Ok(None),
            None => return Ok(Some(class.at)),
        },
        _ => return Ok(None),
    }
}

/// The place of the first label or class of some steps that is no label of the context.
pub(crate) fn first_outside<L: LabelSet>(
    alloc: Global,
    labels: &L,
    steps: &[Step<'_>],
) -> Result<Option<usize>, AllocError>
    ensures { IfOk result (λ place. IsOutsideAt (L.sets labels.now) (occurrences_in (map step_seen steps.now)) place) }
{
    let mut parts = Vec::new(alloc);
    for at in 0..steps.len() {
        let (step, after) = step_at(steps, at);
        if let Some(place) = outside_at(labels, step, after, &mut parts)? {
            return Ok(Some(place));
        }
    }
    Ok(None)
}
