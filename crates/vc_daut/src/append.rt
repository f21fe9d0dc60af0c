ghost use Rattle.std.specs.Prelude.{◌≡◌, ◌<◌, ◌++◌, ◌∷◌, IsTrue, All, OnOk, length, string_bytes};
ghost use Rattle.vc_aut.specs.Stored.{transition_of};
ghost use Rattle.vc_text.specs.Growing.{IsFront};
ghost use Rattle.vc_daut.specs.Canonical.{part_text, label_text, weight_text, entry_text, entries_text};
ghost use Rattle.vc_daut.specs.Growing.{IsEntry, lent};
ghost use Rattle.vc_label.specs.Letters.{are_letters};

use std::alloc::AllocError;
use vc_aut::Transition;
use vc_label::LabelSet;
use vc_ring::Semiring;
use vc_text::{push_letter, push_text};

/// Appends a part of a label.
fn push_part(part: &[u8], into: &mut String) -> Result<(), AllocError>
    requires { IsTrue (are_letters part.now) }
    ensures ok { OnOk result (string_bytes into.new ≡ string_bytes into.old ++ part_text part.now) }
    ensures front { IsFront (string_bytes into.old) (string_bytes into.new) }
{
    if part.is_empty() {
        return push_text("\\e", into);
    }
    for letter in part {
        push_letter(*letter, into)?;
    }
    Ok(())
}

/// Appends a bar and a part of a label.
#[tactic(auto, using(vc_text::specs::Fronts::front_twice))]
fn push_next_part(part: &[u8], into: &mut String) -> Result<(), AllocError>
    requires { IsTrue (are_letters part.now) }
    ensures ok { OnOk result (string_bytes into.new ≡ string_bytes into.old ++ (124 ∷ part_text part.now)) }
    ensures front { IsFront (string_bytes into.old) (string_bytes into.new) }
{
    push_text("|", into)?;
    push_part(part, into)
}

/// Appends the parts of a label of so many tapes.
fn push_label<L: LabelSet>(
    tapes: usize,
    label: &L::Label,
    into: &mut String,
) -> Result<(), AllocError>
    requires { length (L.parts label.now) ≡ tapes }
    ensures ok { OnOk result (string_bytes into.new ≡ string_bytes into.old ++ label_text (L.parts label.now)) }
    ensures front { IsFront (string_bytes into.old) (string_bytes into.new) }
{
    push_part(L::part(label, 0), into)?;
    for tape in 1..tapes {
        push_next_part(L::part(label, tape), into)?;
    }
    Ok(())
}

/// Appends a weight in `<` and `>`.
#[tactic(auto, using(vc_text::specs::Fronts::front_twice))]
pub(crate) fn push_weight<S: Semiring>(
    weight: S::Value,
    into: &mut String,
) -> Result<(), AllocError>
    requires { IsTrue (S.set.in_range weight) }
    ensures ok { OnOk result (string_bytes into.new ≡ string_bytes into.old ++ weight_text S.canonical weight) }
    ensures front { IsFront (string_bytes into.old) (string_bytes into.new) }
{
    push_text("<", into)?;
    S::write(weight, into)?;
    push_text(">", into)
}

/// Appends the weight of an entry and its label.
#[tactic(auto, using(vc_text::specs::Fronts::front_twice))]
fn push_entry<L: LabelSet, S: Semiring>(
    tapes: usize,
    entry: &Transition<L, S>,
    into: &mut String,
) -> Result<(), AllocError>
    requires tapes { length (L.parts entry.now.label) ≡ tapes }
    requires in_range { IsTrue (S.set.in_range entry.now.weight) }
    ensures ok { OnOk result (string_bytes into.new ≡ string_bytes into.old ++ entry_text S.set S.Value.eq S.canonical (transition_of L.parts entry.now)) }
    ensures front { IsFront (string_bytes into.old) (string_bytes into.new) }
{
    if entry.weight != S::one() {
        push_weight::<S>(entry.weight, into)?;
    }
    push_label::<L>(tapes, &entry.label, into)
}

/// Appends a comma, a blank and an entry.
#[tactic(auto, using(vc_text::specs::Fronts::front_twice))]
fn push_next_entry<L: LabelSet, S: Semiring>(
    tapes: usize,
    entry: &Transition<L, S>,
    into: &mut String,
) -> Result<(), AllocError>
    requires tapes { length (L.parts entry.now.label) ≡ tapes }
    requires in_range { IsTrue (S.set.in_range entry.now.weight) }
    ensures ok { OnOk result (string_bytes into.new ≡ string_bytes into.old ++ (44 ∷ 32 ∷ entry_text S.set S.Value.eq S.canonical (transition_of L.parts entry.now))) }
    ensures front { IsFront (string_bytes into.old) (string_bytes into.new) }
{
    push_text(", ", into)?;
    push_entry(tapes, entry, into)
}

/// Appends entries, with commas between them.
pub(crate) fn push_entries<L: LabelSet, S: Semiring>(
    tapes: usize,
    entries: &[&Transition<L, S>],
    into: &mut String,
) -> Result<(), AllocError>
    requires some { 0 < length entries.now }
    requires entries { All (IsEntry S.set tapes) (lent L.parts entries.now) }
    ensures ok { OnOk result (string_bytes into.new ≡ string_bytes into.old ++ entries_text S.set S.Value.eq S.canonical (lent L.parts entries.now)) }
    ensures front { IsFront (string_bytes into.old) (string_bytes into.new) }
{
    push_entry(tapes, entries[0], into)?;
    for place in 1..entries.len() {
        push_next_entry(tapes, entries[place], into)?;
    }
    Ok(())
}
