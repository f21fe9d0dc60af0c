ghost use Rattle.std.specs.Prelude.{◌≡◌, ◌<◌, ◌∷◌, [], ℕ, List, length, map, option_to_list, true, IfOk, IsTrue, OnOk};
ghost use Rattle.std.specs.Option.{option_map};
ghost use Rattle.vc_reader.specs.Building.{IsAdded, IsWeightAnswer, KeepsShape, entry_weights, line_weights};
ghost use Rattle.vc_lex.specs.Labels.{IsClassOver, IsLabelOver, class_words};
ghost use Rattle.vc_lex.specs.Parts.{are_parts, is_label, parts_word};
ghost use Rattle.vc_lex.specs.Views.{seen};
ghost use Rattle.vc_lines.specs.Grammar.{entries_of, entry_label, entry_weight, has_labels, have_labels};
ghost use Rattle.vc_reader.specs.Meaning.{begins, ends, given_by, given_by_entry, given_by_entries, moves_with, number_of, only, weight_of};
ghost use Rattle.vc_lines.specs.Names.{line_names};
ghost use Rattle.vc_reader.specs.Spelling.{AreEntriesOver, IsLineOver};
ghost use Rattle.vc_lines.specs.Views.{line_seen};
ghost use Rattle.vc_label.specs.Sets.{IsOverSets};
ghost use Rattle.vc_model.specs.Lists.{In};

use crate::label::{Tapes, parts_label};
use crate::names::Numbering;
use std::alloc::Global;
use std::slice;
use vc_aut::{Builder, drafts_are_valid};
use vc_label::{LabelFault, LabelSet, Word, alphabets_are_sets, words_are_over_sets};
use vc_lex::{Token, class_body, is_class};
use vc_lines::{Line, cut_entry, entry_of};
use vc_ring::{MakeFault, NumberFault, Overflow, Semiring};
use vc_text::{class_letters, inside};

/// The weight of a token, or one where none stands. It refuses a number that is past its range.
fn weight_of<S: Semiring>(token: Option<Token<'_>>) -> Result<S::Value, MakeFault<S::Value>>
    ensures answer { IsWeightAnswer S.set S.spelled S.numbers_fit (option_map seen token.entry) (weight_of S.set S.spelled (option_map seen token.entry)) result }
    ensures in_range { IfOk result (λ w. IsTrue (S.set.in_range w)) }
{
    let Some(token) = token else {
        return Ok(S::one());
    };
    match S::read(inside(token.text)) {
        Ok(weight) => return Ok(weight),
        Err(NumberFault::Bad) => return Ok(S::one()),
        Err(NumberFault::Overflow) => {
            return Err(MakeFault::Overflow(Overflow::Numeral { at: token.at }));
        }
    }
}

/// The weight that stands there, or none.
fn only<'t>(weight: &[Token<'t>]) -> Option<Token<'t>>
    ensures { option_map seen result ≡ only (map seen weight.now) }
{
    match weight {
        [] => None,
        [token, ..] => Some(*token),
    }
}

/// A transition without its label.
#[derive(Clone, Copy)]
struct Arrow<V> {
    from: u32,
    to: u32,
    weight: V,
}

/// Adds a transition with one letter.
fn add_letter<L: LabelSet, S: Semiring>(
    alloc: Global,
    builder: &mut Builder<L, S>,
    labels: &L,
    arrow: Arrow<S::Value>,
    letter: u8,
) -> Result<(), MakeFault<S::Value>>
    requires sets { builder.old.sets ≡ L.sets labels.now }
    requires letter { IsOverSets (L.sets labels.now) ((letter ∷ []) ∷ []) }
    requires from { arrow.from < builder.old.automaton.states }
    requires to { arrow.to < builder.old.automaton.states }
    requires weight { IsTrue (S.set.in_range arrow.weight) }
    ensures answer { IsAdded S.set S.spelled S.numbers_fit [] builder.old (moves_with arrow.from arrow.to arrow.weight ((letter ∷ []) ∷ []) ∷ []) builder.new result }
    ensures kept { OnOk result (KeepsShape builder.old builder.new) }
{
    words_are_over_sets();
    let label = match labels.label(alloc, Word::one(slice::from_ref(&letter))) {
        Ok(label) => label,
        Err(LabelFault::NotHere) => unreachable!(),
        Err(LabelFault::Memory(e)) => return Err(MakeFault::Memory(e)),
    };
    builder.add_transition(arrow.from, label, arrow.to, arrow.weight)
}

/// Adds a transition for each letter of the class.
fn add_class<L: LabelSet, S: Semiring>(
    alloc: Global,
    builder: &mut Builder<L, S>,
    labels: &L,
    arrow: Arrow<S::Value>,
    body: &[u8],
) -> Result<(), MakeFault<S::Value>>
    requires sets { builder.old.sets ≡ L.sets labels.now }
    requires class { IsClassOver (L.sets labels.now) body.now }
    requires from { arrow.from < builder.old.automaton.states }
    requires to { arrow.to < builder.old.automaton.states }
    requires weight { IsTrue (S.set.in_range arrow.weight) }
    ensures answer { IsAdded S.set S.spelled S.numbers_fit [] builder.old (map (moves_with arrow.from arrow.to arrow.weight) (class_words (L.sets labels.now) body.now)) builder.new result }
    ensures kept { OnOk result (KeepsShape builder.old builder.new) }
{
    alphabets_are_sets();
    let letters = match class_letters(labels.tape(0).alphabet, body) {
        Some(letters) => letters,
        None => unreachable!(),
    };
    for letter in letters.letters() {
        if let Err(fault) = add_letter(alloc, builder, labels, arrow, letter) {
            return Err(fault);
        }
    }
    Ok(())
}

/// Adds a transition with the parts of a label.
fn add_parts<L: LabelSet, S: Semiring>(
    alloc: Global,
    builder: &mut Builder<L, S>,
    labels: &L,
    tapes: &mut Tapes,
    arrow: Arrow<S::Value>,
    parts: &[Token<'_>],
) -> Result<(), MakeFault<S::Value>>
    requires sets { builder.old.sets ≡ L.sets labels.now }
    requires parts { are_parts (map seen parts.now) ≡ true }
    requires over { IsOverSets (L.sets labels.now) (parts_word (map seen parts.now)) }
    requires from { arrow.from < builder.old.automaton.states }
    requires to { arrow.to < builder.old.automaton.states }
    requires weight { IsTrue (S.set.in_range arrow.weight) }
    ensures answer { IsAdded S.set S.spelled S.numbers_fit [] builder.old (moves_with arrow.from arrow.to arrow.weight (parts_word (map seen parts.now)) ∷ []) builder.new result }
    ensures kept { OnOk result (KeepsShape builder.old builder.new) }
{
    let label = match parts_label(alloc, labels, tapes, parts) {
        Ok(Some(label)) => label,
        Ok(None) => unreachable!(),
        Err(e) => return Err(MakeFault::Memory(e)),
    };
    builder.add_transition(arrow.from, label, arrow.to, arrow.weight)
}

/// Adds the transitions of an entry.
fn add_entry<L: LabelSet, S: Semiring>(
    alloc: Global,
    builder: &mut Builder<L, S>,
    labels: &L,
    tapes: &mut Tapes,
    from: u32,
    tokens: &[Token<'_>],
    to: u32,
) -> Result<(), MakeFault<S::Value>>
    requires sets { builder.old.sets ≡ L.sets labels.now }
    requires label { is_label (entry_label (map seen tokens.now)) ≡ true }
    requires over { IsLabelOver (L.sets labels.now) (entry_label (map seen tokens.now)) }
    requires from { from < builder.old.automaton.states }
    requires to { to < builder.old.automaton.states }
    ensures answer { IsAdded S.set S.spelled S.numbers_fit (option_to_list (entry_weight (map seen tokens.now))) builder.old
        (given_by_entry S.set S.spelled (L.sets labels.now) from to (map seen tokens.now)) builder.new result }
    ensures kept { OnOk result (KeepsShape builder.old builder.new) }
{
    let entry = entry_of(tokens);
    let weight = weight_of::<S>(entry.weight)?;
    let arrow = Arrow { from, to, weight };
    if is_class(entry.label) {
        let body = class_body(entry.label);
        return add_class(alloc, builder, labels, arrow, body);
    }
    add_parts(alloc, builder, labels, tapes, arrow, entry.label)
}

/// Adds the transitions of entries with commas between them.
fn add_entries<L: LabelSet, S: Semiring>(
    alloc: Global,
    builder: &mut Builder<L, S>,
    labels: &L,
    tapes: &mut Tapes,
    from: u32,
    entries: &[Token<'_>],
    to: u32,
) -> Result<(), MakeFault<S::Value>>
    requires sets { builder.old.sets ≡ L.sets labels.now }
    requires labels { have_labels (entries_of (map seen entries.now)) ≡ true }
    requires over { AreEntriesOver (L.sets labels.now) (entries_of (map seen entries.now)) }
    requires from { from < builder.old.automaton.states }
    requires to { to < builder.old.automaton.states }
    ensures answer { IsAdded S.set S.spelled S.numbers_fit (entry_weights (entries_of (map seen entries.now))) builder.old
        (given_by_entries S.set S.spelled (L.sets labels.now) from to (entries_of (map seen entries.now))) builder.new result }
    ensures kept { OnOk result (KeepsShape builder.old builder.new) }
{
    let mut rest = Some(entries);
    while let Some(tokens) = rest {
        let (entry, after) = cut_entry(tokens);
        if let Err(fault) = add_entry(alloc, builder, labels, tapes, from, entry, to) {
            return Err(fault);
        }
        rest = after;
    }
    Ok(())
}

fn add_initial<L: LabelSet, S: Semiring>(
    builder: &mut Builder<L, S>,
    state: u32,
    weight: &[Token<'_>],
) -> Result<(), MakeFault<S::Value>>
    requires { state < builder.old.automaton.states }
    ensures answer { IsAdded S.set S.spelled S.numbers_fit (option_to_list (only (map seen weight.now))) builder.old
        (begins state (weight_of S.set S.spelled (only (map seen weight.now))) ∷ []) builder.new result }
    ensures kept { OnOk result (KeepsShape builder.old builder.new) }
{
    let weight = weight_of::<S>(only(weight))?;
    match builder.add_initial(state, weight) {
        Ok(()) => return Ok(()),
        Err(step) => return Err(MakeFault::Overflow(step)),
    }
}

fn add_final<L: LabelSet, S: Semiring>(
    builder: &mut Builder<L, S>,
    state: u32,
    weight: &[Token<'_>],
) -> Result<(), MakeFault<S::Value>>
    requires { state < builder.old.automaton.states }
    ensures answer { IsAdded S.set S.spelled S.numbers_fit (option_to_list (only (map seen weight.now))) builder.old
        (ends state (weight_of S.set S.spelled (only (map seen weight.now))) ∷ []) builder.new result }
    ensures kept { OnOk result (KeepsShape builder.old builder.new) }
{
    let weight = weight_of::<S>(only(weight))?;
    match builder.add_final(state, weight) {
        Ok(()) => return Ok(()),
        Err(step) => return Err(MakeFault::Overflow(step)),
    }
}

/// Adds what a line gives.
pub(crate) fn add_line<L: LabelSet, S: Semiring>(
    alloc: Global,
    builder: &mut Builder<L, S>,
    labels: &L,
    tapes: &mut Tapes,
    numbering: &Numbering<'_>,
    line: &Line<'_, '_>,
) -> Result<(), MakeFault<S::Value>>
    requires sets { builder.old.sets ≡ L.sets labels.now }
    requires states { builder.old.automaton.states ≡ length numbering.now }
    requires named { (a : List ℕ) → In a (line_names (line_seen line.now)) → In a numbering.now }
    requires labels { has_labels (line_seen line.now) ≡ true }
    requires over { IsLineOver (L.sets labels.now) (line_seen line.now) }
    ensures answer { IsAdded S.set S.spelled S.numbers_fit (line_weights (line_seen line.now)) builder.old
        (given_by S.set S.spelled (L.sets labels.now) (number_of numbering.now) (line_seen line.now)) builder.new result }
    ensures kept { OnOk result (KeepsShape builder.old builder.new) }
{
    drafts_are_valid(builder);
    match line {
        Line::Blank => return Ok(()),
        Line::State(_) => return Ok(()),
        Line::Initial(state, weight) => {
            return add_initial(builder, numbering.number(*state), weight);
        }
        Line::Final(state, weight) => return add_final(builder, numbering.number(*state), weight),
        Line::Moves(from, to, entries) => {
            let from = numbering.number(*from);
            let to = numbering.number(*to);
            return add_entries(alloc, builder, labels, tapes, from, entries, to);
        }
    }
}
