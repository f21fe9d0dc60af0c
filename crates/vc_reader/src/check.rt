ghost use Rattle.std.specs.Prelude.{◌≡◌, ◌+◌, ◌<◌, ◌^◌, length, map, true, IfOk, MatchOption, OnOk};
ghost use Rattle.vc_lex.specs.Marks.{end_of, span_of};
ghost use Rattle.vc_lex.specs.Views.{seen, AreFit};
ghost use Rattle.vc_lines.specs.Grammar.{entries_of, have_labels, has_labels};
ghost use Rattle.vc_reader.specs.Spelling.{AreEntriesOver, IsFirstEntry, IsLineOver, IsFirstInLine};
ghost use Rattle.vc_lines.specs.Lines.{more_lines};
ghost use Rattle.vc_reader.specs.NameSets.{AreMarked, names_seen};
ghost use Rattle.vc_reader.specs.Passes.{IsChecked, IsJudged, first_outside};
ghost use Rattle.vc_lines.specs.Views.{line_seen, IsFitLine};

use crate::fault::DautFault;
use crate::label::{Tapes, is_label_over};
use crate::names::Found;
use std::alloc::{AllocError, Global};
use vc_label::LabelSet;
use vc_lex::{Mode, Token, cut_tokens};
use vc_lines::{Line, cut_entry, cut_line, entry_of, line_of};
use vc_ring::Semiring;

/// From which place of its line to which one a label stands.
pub type Span = (usize, usize);

/// A label that is not in the label set: its line and its span there.
#[derive(Clone, Copy)]
pub struct Outside {
    pub line: u64,
    pub span: Span,
}

/// What a line was found to be.
#[derive(Clone, Copy)]
pub enum Judged {
    /// It is outside the grammar.
    Bad,
    /// It is in the grammar, and this is its first label that is not in the label set.
    Good(Option<Span>),
}

/// From which place of its line to which one the tokens stand.
fn span(label: &[Token<'_>]) -> Span
    requires { AreFit label.now }
    ensures { result ≡ span_of (map seen label.now) }
{
    match label {
        [] => (0, 0),
        [first, rest @ ..] => (first.at, end_of(*first, rest)),
    }
}

/// The place after the last of the tokens.
fn end_of(first: Token<'_>, rest: &[Token<'_>]) -> usize
    requires first { first.at + length first.text.now < 2 ^ 64 }
    requires rest { AreFit rest.now }
    ensures { result ≡ end_of (seen first.entry) (map seen rest.now) }
{
    let mut last = first;
    for token in rest {
        last = *token;
    }
    last.at + last.text.len()
}

/// The first label of the entries that is not in the label set.
fn outside_entries<L: LabelSet>(
    alloc: Global,
    labels: &L,
    tapes: &mut Tapes,
    entries: &[Token<'_>],
) -> Result<Option<Span>, AllocError>
    requires labels { have_labels (entries_of (map seen entries.now)) ≡ true }
    requires fit { AreFit entries.now }
    ensures { IfOk result (λ o. MatchOption o (AreEntriesOver (L.sets labels.now) (entries_of (map seen entries.now)))
        (λ p. IsFirstEntry (L.sets labels.now) (entries_of (map seen entries.now)) p)) }
{
    let mut rest = Some(entries);
    while let Some(tokens) = rest {
        let (entry, after) = cut_entry(tokens);
        let label = entry_of(entry).label;
        if !is_label_over(alloc, labels, tapes, label)? {
            return Ok(Some(span(label)));
        }
        rest = after;
    }
    Ok(None)
}

/// The first label of the line that is not in the label set.
fn outside_line<L: LabelSet>(
    alloc: Global,
    labels: &L,
    tapes: &mut Tapes,
    line: &Line<'_, '_>,
) -> Result<Option<Span>, AllocError>
    requires labels { has_labels (line_seen line.now) ≡ true }
    requires fit { IsFitLine line.now }
    ensures { IfOk result (λ o. MatchOption o (IsLineOver (L.sets labels.now) (line_seen line.now))
        (λ p. IsFirstInLine (L.sets labels.now) (line_seen line.now) p)) }
{
    match line {
        Line::Moves(_, _, entries) => outside_entries(alloc, labels, tapes, entries),
        _ => Ok(None),
    }
}

/// Reads a line, and adds the names of its states.
fn check_line<'t, L: LabelSet, S: Semiring>(
    alloc: Global,
    labels: &L,
    tapes: &mut Tapes,
    tokens: &mut Vec<Token<'t>>,
    text: &'t [u8],
    found: &mut Found<'t>,
) -> Result<Judged, AllocError>
    requires { AreMarked found.old.marks.items (names_seen found.old.names) }
    ensures judged { IfOk result (IsJudged S.spelled (L.sets labels.now) text.now (names_seen found.old.names) (names_seen found.new.names)) }
    ensures marked { OnOk result (AreMarked found.new.marks.items (names_seen found.new.names)) }
{
    if cut_tokens(text, Mode::Line, tokens)?.is_some() {
        return Ok(Judged::Bad);
    }
    let Some(line) = line_of::<S>(tokens) else {
        return Ok(Judged::Bad);
    };
    found.add_names(&line)?;
    let outside = outside_line(alloc, labels, tapes, &line)?;
    Ok(Judged::Good(outside))
}

/// The label that was met before, or else the one that is found in this line.
fn first_outside(before: Option<Outside>, line: u64, found: Option<Span>) -> Option<Outside>
    ensures { result ≡ first_outside before line found }
{
    match (before, found) {
        (Some(outside), _) => Some(outside),
        (None, Some(span)) => Some(Outside { line, span }),
        (None, None) => None,
    }
}

/// Reads the lines of a text, of which the first has this number, and adds the names of their states.
pub(crate) fn check_lines<'t, L: LabelSet, S: Semiring>(
    alloc: Global,
    labels: &L,
    text: &'t [u8],
    first: u64,
    found: &mut Found<'t>,
) -> Result<(), DautFault<S::Value>>
    requires room { first + length text.now < 2 ^ 64 }
    requires marked { AreMarked found.old.marks.items (names_seen found.old.names) }
    ensures { IsChecked S.spelled (L.sets labels.now) first (more_lines text.now) (names_seen found.old.names) (names_seen found.new.names) result }
{
    let mut tokens = Vec::new(alloc);
    let mut tapes = Tapes::new(alloc);
    let mut outside = None;
    let mut number = first;
    let mut rest = text;
    while !rest.is_empty() {
        let (line, after) = cut_line(rest);
        let label = match check_line::<L, S>(alloc, labels, &mut tapes, &mut tokens, line, found) {
            Ok(Judged::Good(label)) => label,
            Ok(Judged::Bad) => return Err(DautFault::Syntax { line: number }),
            Err(e) => return Err(DautFault::Memory(e)),
        };
        outside = first_outside(outside, number, label);
        rest = after;
        number += 1;
    }
    match outside {
        None => return Ok(()),
        Some(
            Outside {
                line,
                span: (from, to),
            },
        ) => {
            return Err(DautFault::NotALabel { line, from, to });
        }
    }
}
