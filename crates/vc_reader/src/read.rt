ghost use Rattle.std.specs.Prelude.{◌≡◌, true, ◌+◌, ◌<◌, ◌≤◌, ◌^◌, ℕ, List, length, IfErr, IfOk, OnOk, Some, None, Err};
ghost use Rattle.vc_reader.specs.declared.fault.DautFault.TheVariants.{Syntax};
ghost use Rattle.std.specs.List.{flat_map};
ghost use Rattle.vc_reader.specs.Building.{IsAdded, KeepsShape, line_weights};
ghost use Rattle.vc_reader.specs.Answers.{IsBuiltBy, IsReadAfter};
ghost use Rattle.vc_lines.specs.Heads.{HeadLine, head_line};
ghost use Rattle.vc_lines.specs.Lines.{lines_of, more_lines};
ghost use Rattle.vc_reader.specs.Meaning.{given_by, number_of};
ghost use Rattle.vc_lines.specs.Names.{line_names};
ghost use Rattle.vc_reader.specs.Passes.{AreAdded, IsWant, fault_at, with_states};
ghost use Rattle.vc_reader.specs.Spelling.{AreOver, IsLineOver, line_in, lines_in};
ghost use Rattle.vc_model.specs.Lists.{In};

use crate::add::add_line;
use crate::check::check_lines;
use crate::fault::DautFault;
use crate::label::Tapes;
use crate::names::{Found, Numbering, in_order};
use std::alloc::Global;
use vc_aut::{Automaton, Builder, drafts_are_valid};
use vc_label::LabelSet;
use vc_lex::{Mode, Token, cut_tokens};
use vc_lines::{Head, cut_line, head_of, line_of};
use vc_ring::{Limit, MakeFault, Measure, Semiring, Weighed};

const MOST_STATES: u64 = 1_000_000;

fn fault_at<V>(line: u64, fault: MakeFault<V>) -> DautFault<V>
    ensures { result ≡ fault_at line fault }
{
    match fault {
        MakeFault::Overflow(of) => DautFault::Overflow { line, of },
        MakeFault::Limit(limit) => DautFault::Limit(limit),
        MakeFault::Memory(e) => DautFault::Memory(e),
    }
}

/// Adds what a text gives that is a line.
fn add_text<'t, L: LabelSet, S: Semiring>(
    alloc: Global,
    builder: &mut Builder<L, S>,
    labels: &L,
    tapes: &mut Tapes,
    tokens: &mut Vec<Token<'t>>,
    numbering: &Numbering<'_>,
    text: &'t [u8],
) -> Result<(), MakeFault<S::Value>>
    requires sets { builder.old.sets ≡ L.sets labels.now }
    requires states { builder.old.automaton.states ≡ length numbering.now }
    requires named { (a : List ℕ) → In a (line_names (line_in S.spelled text.now)) → In a numbering.now }
    requires over { IsLineOver (L.sets labels.now) (line_in S.spelled text.now) }
    ensures answer { IsAdded S.set S.spelled S.numbers_fit (line_weights (line_in S.spelled text.now)) builder.old
        (given_by S.set S.spelled (L.sets labels.now) (number_of numbering.now) (line_in S.spelled text.now)) builder.new result }
    ensures kept { OnOk result (KeepsShape builder.old builder.new) }
{
    match cut_tokens(text, Mode::Line, tokens) {
        Ok(None) => {}
        Ok(Some(_)) => return Ok(()),
        Err(e) => return Err(MakeFault::Memory(e)),
    }
    let Some(line) = line_of::<S>(tokens) else {
        return Ok(());
    };
    add_line(alloc, builder, labels, tapes, numbering, &line)
}

/// Adds what the lines of a text give, of which the first has this number.
fn add_lines<L: LabelSet, S: Semiring>(
    alloc: Global,
    builder: &mut Builder<L, S>,
    labels: &L,
    numbering: &Numbering<'_>,
    text: &[u8],
    first: u64,
) -> Result<(), DautFault<S::Value>>
    requires room { first + length text.now < 2 ^ 64 }
    requires sets { builder.old.sets ≡ L.sets labels.now }
    requires states { builder.old.automaton.states ≡ length numbering.now }
    requires named { (a : List ℕ) → In a (flat_map line_names (lines_in S.spelled (more_lines text.now))) → In a numbering.now }
    requires over { AreOver (L.sets labels.now) (lines_in S.spelled (more_lines text.now)) }
    ensures kept { OnOk result (KeepsShape builder.old builder.new) }
    ensures answer { AreAdded S.set S.spelled S.numbers_fit (given_by S.set S.spelled (L.sets labels.now) (number_of numbering.now))
        first (lines_in S.spelled (more_lines text.now)) builder.old builder.new result }
{
    let mut tokens = Vec::new(alloc);
    let mut tapes = Tapes::new(alloc);
    let mut number = first;
    let mut rest = text;
    while !rest.is_empty() {
        let (line, after) = cut_line(rest);
        if let Err(fault) = add_text(
            alloc,
            builder,
            labels,
            &mut tapes,
            &mut tokens,
            numbering,
            line,
        ) {
            return Err(fault_at(number, fault));
        }
        rest = after;
        number += 1;
    }
    Ok(())
}

/// Adds so many states.
fn add_states<L: LabelSet, S: Semiring>(
    builder: &mut Builder<L, S>,
    count: usize,
) -> Result<(), MakeFault<S::Value>>
    requires { builder.old.automaton.states + count ≤ builder.old.most }
    ensures ok { OnOk result (builder.new ≡ with_states S.set count builder.old) }
    ensures err { IfErr result IsWant }
{
    for _ in 0..count {
        if let Err(fault) = builder.add_state() {
            return Err(fault);
        }
    }
    Ok(())
}

/// The automaton of the lines of a text, of which the first has this number, where the names of their states are these.
fn build<L: LabelSet, S: Semiring>(
    alloc: Global,
    labels: L,
    numbering: &Numbering<'_>,
    text: &[u8],
    first: u64,
) -> Result<Automaton<L, S>, DautFault<S::Value>>
    requires room { first + length text.now < 2 ^ 64 }
    requires few { length numbering.now ≤ 1000000 }
    requires named { (a : List ℕ) → In a (flat_map line_names (lines_in S.spelled (more_lines text.now))) → In a numbering.now }
    requires over { AreOver (L.sets labels) (lines_in S.spelled (more_lines text.now)) }
    ensures answer { IsBuiltBy ⟦<S as Weighed>⟧.texts (L.sets labels) first (lines_in S.spelled (more_lines text.now)) numbering.now result }
    ensures sets { IfOk result (λ a. a.sets ≡ L.sets labels) }
    ensures states { IfOk result (λ a. a.automaton.states ≤ 1000000) }
{
    let mut builder = Builder::new(alloc, labels, MOST_STATES);
    if let Err(fault) = add_states(&mut builder, numbering.states()) {
        return Err(fault_at(first, fault));
    }
    if let Err(fault) = add_lines(alloc, &mut builder, &labels, numbering, text, first) {
        return Err(fault);
    }
    drafts_are_valid(&builder);
    match builder.finish() {
        Ok(automaton) => return Ok(automaton),
        Err(e) => return Err(DautFault::Memory(e)),
    }
}

/// The automaton of the lines after the context line, over these labels.
///
/// The context line is the first line that is not blank; what it says is not read here. Where all lines are blank, the
/// answer is `Syntax` with the last one. Otherwise `Syntax` comes where a line after it is outside the grammar, and then
/// `NotALabel` where a label is not in the label set; and where neither comes, `Overflow` where a number is past its
/// range or a sum of equal entries, in the order of the file, does not fit, and `Limit` where more than 1,000,000 states
/// or 4,000,000 transitions are named.
pub fn read_daut<L: LabelSet, S: Semiring>(
    alloc: Global,
    bytes: &[u8],
    labels: L,
) -> Result<Automaton<L, S>, DautFault<S::Value>>
    ensures sets { IfOk result (λ a. a.sets ≡ L.sets labels) }
    ensures states { IfOk result (λ a. a.automaton.states ≤ 1000000) }
    ensures blank { head_line 1 (lines_of bytes.now) ≡ None → result ≡ Err (Syntax (length (lines_of bytes.now))) }
    ensures after { (h : HeadLine) → head_line 1 (lines_of bytes.now) ≡ Some h → IsReadAfter ⟦<S as Weighed>⟧.texts (L.sets labels) h result }
{
    let (line, text) = match head_of(bytes) {
        Head::Blank(line) => return Err(DautFault::Syntax { line }),
        Head::Line(line, _, text) => (line + 1, text),
    };
    let mut found = match Found::new(alloc, text.len()) {
        Ok(found) => found,
        Err(e) => return Err(DautFault::Memory(e)),
    };
    if let Err(fault) = check_lines::<L, S>(alloc, &labels, text, line, &mut found) {
        return Err(fault);
    }
    if found.names.len() as u64 > MOST_STATES {
        return Err(DautFault::Limit(Limit {
            what: Measure::States,
            most: MOST_STATES,
        }));
    }
    let numbering = match in_order(alloc, &found.names) {
        Ok(numbering) => numbering,
        Err(e) => return Err(DautFault::Memory(e)),
    };
    build(alloc, labels, &numbering, text, line)
}
