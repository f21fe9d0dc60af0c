//! The canonical text of a label.
ghost use Rattle.std.specs.Prelude.{◌≡◌, ◌++◌, ◌∷◌, [], IsTrue, OnOk, length, string_bytes};
ghost use Rattle.std.specs.List.{flat_map};
ghost use Rattle.vc_exprio.specs.Writing.{label_part, label_text};
ghost use Rattle.vc_label.specs.Letters.{are_letters};
ghost use Rattle.vc_text.specs.Growing.{IsFront};
ghost use Rattle.vc_text.specs.Letters.{letter_text};

use std::alloc::AllocError;
use vc_label::LabelSet;
use vc_text::{push_byte, push_letter, push_text};

/// Appends letters, each with a backslash before it where it is not plain.
fn push_letters(letters: &[u8], into: &mut String) -> Result<(), AllocError>
    requires { IsTrue (are_letters letters.now) }
    ensures ok { OnOk result (string_bytes into.new ≡ string_bytes into.old ++ flat_map letter_text letters.now) }
    ensures front { IsFront (string_bytes into.old) (string_bytes into.new) }
{
    for letter in letters {
        push_letter(*letter, into)?;
    }
    Ok(())
}

/// Appends letters in single quotes.
#[tactic(auto, using(vc_text::specs::Fronts::front_twice))]
fn push_quoted(letters: &[u8], into: &mut String) -> Result<(), AllocError>
    requires { IsTrue (are_letters letters.now) }
    ensures ok { OnOk result (string_bytes into.new ≡ string_bytes into.old ++ 39 ∷ (flat_map letter_text letters.now ++ 39 ∷ [])) }
    ensures front { IsFront (string_bytes into.old) (string_bytes into.new) }
{
    push_byte(b'\'', into)?;
    push_letters(letters, into)?;
    push_byte(b'\'', into)
}

/// Appends a part of a label: `\e` where it is empty, a letter where it is one, else its letters in single quotes.
fn push_part(letters: &[u8], into: &mut String) -> Result<(), AllocError>
    requires { IsTrue (are_letters letters.now) }
    ensures ok { OnOk result (string_bytes into.new ≡ string_bytes into.old ++ label_part letters.now) }
    ensures front { IsFront (string_bytes into.old) (string_bytes into.new) }
{
    match letters {
        [] => push_text("\\e", into),
        [letter] => push_letter(*letter, into),
        _ => push_quoted(letters, into),
    }
}

/// Appends the parts of a label, with bars between them.
pub(crate) fn push_label<L: LabelSet>(
    labels: &L,
    label: &L::Label,
    into: &mut String,
) -> Result<(), AllocError>
    requires { length (L.parts label.now) ≡ length (L.sets labels.now) }
    ensures ok { OnOk result (string_bytes into.new ≡ string_bytes into.old ++ label_text (L.parts label.now)) }
    ensures front { IsFront (string_bytes into.old) (string_bytes into.new) }
{
    push_part(L::part(label, 0), into)?;
    for tape in 1..labels.tapes() {
        push_byte(b'|', into)?;
        push_part(L::part(label, tape), into)?;
    }
    Ok(())
}
