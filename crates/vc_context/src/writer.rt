ghost use Rattle.std.specs.Prelude.{◌≡◌, ◌++◌, OnOk, OnErr, string_bytes};
ghost use Rattle.std.specs.List.{flat_map};
ghost use Rattle.vc_context.specs.Canonical.{tape_text, comma_text, labels_text, context_text, kind_name};
ghost use Rattle.vc_context.specs.Sets.{tapes_of};
ghost use Rattle.vc_context.specs.Spelling.{weights_name};
ghost use Rattle.vc_label.specs.Alphabets.{letters_of};
ghost use Rattle.vc_text.specs.Growing.{IsFront};
ghost use Rattle.vc_text.specs.Letters.{letter_text};

use crate::context::{AnyContext, AnyLabels, Weights};
use std::alloc::AllocError;
use vc_label::{Alphabet, LabelSet, TapeKind, TapeSet, alphabets_are_sets};
use vc_text::{cut_back, push_byte, push_letter, push_text};

// Appends the letters ascending, those that are not plain with a backslash before them.
fn push_letters(alphabet: Alphabet, into: &mut String) -> Result<(), AllocError>
    ensures ok { OnOk result (string_bytes into.new ≡ string_bytes into.old ++ flat_map letter_text (letters_of alphabet)) }
    ensures front { IsFront (string_bytes into.old) (string_bytes into.new) }
{
    alphabets_are_sets();
    for letter in alphabet.letters() {
        push_letter(letter, into)?;
    }
    Ok(())
}

// The name of the sets of one tape.
fn kind_name(kind: TapeKind) -> &'static str
    ensures { result.now ≡ kind_name kind }
{
    match kind {
        TapeKind::Letters => "lal_char",
        TapeKind::Nullable => "lan_char",
        TapeKind::Words => "law_char",
    }
}

// Appends a name, and letters in parentheses.
#[tactic(auto, using(vc_text::specs::Fronts::front_twice))]
fn push_tape(set: TapeSet, into: &mut String) -> Result<(), AllocError>
    ensures ok { OnOk result (string_bytes into.new ≡ string_bytes into.old ++ tape_text set) }
    ensures front { IsFront (string_bytes into.old) (string_bytes into.new) }
{
    push_text(kind_name(set.kind), into)?;
    push_byte(b'(', into)?;
    push_letters(set.alphabet, into)?;
    push_byte(b')', into)
}

// Appends a comma, a blank and a tape.
#[tactic(auto, using(vc_text::specs::Fronts::front_twice))]
fn push_behind(set: TapeSet, into: &mut String) -> Result<(), AllocError>
    ensures ok { OnOk result (string_bytes into.new ≡ string_bytes into.old ++ comma_text set) }
    ensures front { IsFront (string_bytes into.old) (string_bytes into.new) }
{
    push_text(", ", into)?;
    push_tape(set, into)
}

// Appends one tape alone, or several in `lat<` and `>`.
#[tactic(auto, using(vc_text::specs::Fronts::front_twice))]
fn push_labels<L: LabelSet>(labels: &L, into: &mut String) -> Result<(), AllocError>
    ensures ok { OnOk result (string_bytes into.new ≡ string_bytes into.old ++ labels_text (L.sets labels.now)) }
    ensures front { IsFront (string_bytes into.old) (string_bytes into.new) }
{
    if labels.tapes() == 1 {
        return push_tape(labels.tape(0), into);
    }
    push_text("lat<", into)?;
    push_tape(labels.tape(0), into)?;
    for i in 1..labels.tapes() {
        push_behind(labels.tape(i), into)?;
    }
    push_byte(b'>', into)
}

// Appends the text of a label set.
fn push_any(labels: &AnyLabels, into: &mut String) -> Result<(), AllocError>
    ensures ok { OnOk result (string_bytes into.new ≡ string_bytes into.old ++ labels_text (tapes_of labels.now)) }
    ensures front { IsFront (string_bytes into.old) (string_bytes into.new) }
{
    match labels {
        AnyLabels::Letters(labels) => push_labels(labels, into),
        AnyLabels::Nullable(labels) => push_labels(labels, into),
        AnyLabels::Words(labels) => push_labels(labels, into),
        AnyLabels::Tuple(labels) => push_labels(labels, into),
    }
}

// The name of the weight set.
fn weights_name(weights: Weights) -> &'static str
    ensures { result.now ≡ weights_name weights }
{
    match weights {
        Weights::B => "b",
        Weights::F2 => "f2",
        Weights::Z => "z",
        Weights::Q => "q",
        Weights::Nmin => "nmin",
    }
}

// Appends the canonical text; where there is no memory for it, a front of it.
#[tactic(auto, using(vc_text::specs::Fronts::front_twice))]
fn push_context(context: &AnyContext, into: &mut String) -> Result<(), AllocError>
    ensures ok { OnOk result (string_bytes into.new ≡ string_bytes into.old ++ context_text (tapes_of context.now.labels) context.now.weights) }
    ensures front { IsFront (string_bytes into.old) (string_bytes into.new) }
{
    push_any(&context.labels, into)?;
    push_text(", ", into)?;
    push_text(weights_name(context.weights), into)
}

/// Appends the canonical text of the context.
///
/// It is `lal_char(..)`, `lan_char(..)` or `law_char(..)` with the letters ascending, or `lat<..>` with these and a comma and a
/// blank between them; then a comma, a blank and the weight set. Letters that are not plain have a backslash before them.
pub fn write_context(context: &AnyContext, into: &mut String) -> Result<(), AllocError>
    ensures ok { OnOk result (string_bytes into.new ≡ string_bytes into.old ++ context_text (tapes_of context.now.labels) context.now.weights) }
    ensures err { OnErr result (string_bytes into.new ≡ string_bytes into.old) }
{
    let length = into.len();
    let written = push_context(context, into);
    if written.is_err() {
        cut_back(into, length);
    }
    written
}
