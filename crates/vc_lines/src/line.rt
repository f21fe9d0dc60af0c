ghost use Rattle.std.specs.Prelude.{◌≡◌, ◌≤◌, ◌∷◌, not, map, length, IfSome};
ghost use Rattle.std.specs.List.{list_all, prefix_len};
ghost use Rattle.std.specs.Option.{option_map};
ghost use Rattle.vc_lex.specs.Parts.{is_part_kind, is_bar_kind, are_parts, is_class, class_body};
ghost use Rattle.vc_lex.specs.Views.{seen, AreFit};
ghost use Rattle.vc_text.specs.Escapes.{inside};
ghost use Rattle.vc_lines.specs.Grammar.{is_state, is_comma_kind, is_arrow_kind, is_dollar_kind, is_weight_kind, name_of, is_comma, entries_of, entry_weight, entry_label, is_weight, is_end, is_entry, are_entries, arrow_line, line_of};
ghost use Rattle.vc_lines.specs.Views.{line_seen, more_entries, tokens_left, AreFitAfter, IsFitLine};
ghost use Rattle.vc_text.specs.Letters.{is_plain};

use vc_lex::{Token, TokenKind, are_parts, is_class};
use vc_ring::{NumberFault, Semiring};
use vc_text::{inside, is_plain};

/// A line after the context line, by its tokens.
#[derive(Clone, Copy)]
pub enum Line<'b, 't> {
    /// Nothing but blanks, and a comment.
    Blank,
    /// An initial weight of a state: the state, and the weight, if one stands there.
    Initial(Token<'t>, &'b [Token<'t>]),
    /// A final weight of a state.
    Final(Token<'t>, &'b [Token<'t>]),
    /// Transitions from a state to a state, with the tokens of their entries.
    Moves(Token<'t>, Token<'t>, &'b [Token<'t>]),
    /// A state.
    State(Token<'t>),
}

fn is_plain_text(text: &[u8]) -> bool
    ensures { result ≡ list_all is_plain text.now }
{
    text.iter().all(|byte| is_plain(*byte))
}

fn is_state(token: Token<'_>) -> bool
    ensures { result ≡ is_state (seen token.entry) }
{
    match token.kind {
        TokenKind::Run => is_plain_text(token.text),
        TokenKind::Name => true,
        _ => false,
    }
}

/// The name of a state, as it stands in double quotes.
pub fn name_of<'t>(token: Token<'t>) -> &'t [u8]
    ensures { result.now ≡ name_of (seen token.entry) }
{
    match token.kind {
        TokenKind::Name => inside(token.text),
        _ => token.text,
    }
}

fn is_comma(kind: TokenKind) -> bool
    ensures { result ≡ is_comma_kind kind }
{
    matches!(kind, TokenKind::Comma)
}

fn is_arrow(kind: TokenKind) -> bool
    ensures { result ≡ is_arrow_kind kind }
{
    matches!(kind, TokenKind::Arrow)
}

fn is_dollar(kind: TokenKind) -> bool
    ensures { result ≡ is_dollar_kind kind }
{
    matches!(kind, TokenKind::Dollar)
}

fn is_weight_kind(kind: TokenKind) -> bool
    ensures { result ≡ is_weight_kind kind }
{
    matches!(kind, TokenKind::Weight)
}

/// Whether the text of a weight is one of the weight set.
fn is_weight<S: Semiring>(token: Token<'_>) -> bool
    ensures { result ≡ is_weight S.spelled (seen token.entry) }
{
    !matches!(S::read(inside(token.text)), Err(NumberFault::Bad))
}

/// Whether nothing stands there, or a weight.
fn is_end<S: Semiring>(rest: &[Token<'_>]) -> bool
    ensures { result ≡ is_end S.spelled (map seen rest.now) }
{
    match rest {
        [] => true,
        [weight] => is_weight_kind(weight.kind) && is_weight::<S>(*weight),
        _ => false,
    }
}

/// An entry: its weight, if one stands there, and its label.
#[derive(Clone, Copy)]
pub struct Entry<'b, 't> {
    pub weight: Option<Token<'t>>,
    pub label: &'b [Token<'t>],
}

/// The weight and the label of the tokens of an entry.
pub fn entry_of<'b, 't>(tokens: &'b [Token<'t>]) -> Entry<'b, 't>
    ensures weight { option_map seen result.weight ≡ entry_weight (map seen tokens.now) }
    ensures label { map seen result.label.now ≡ entry_label (map seen tokens.now) }
    ensures fit { AreFit tokens.now → AreFit result.label.now }
{
    match tokens {
        [weight, label @ ..] if is_weight_kind(weight.kind) => Entry {
            weight: Some(*weight),
            label,
        },
        _ => Entry {
            weight: None,
            label: tokens,
        },
    }
}

/// How many tokens stand before the first comma.
fn entry_length(tokens: &[Token<'_>]) -> usize
    ensures value { result ≡ prefix_len (λ t. not (is_comma_kind t.kind)) tokens.now }
    ensures within { result ≤ length tokens.now }
{
    tokens
        .iter()
        .take_while(|token| !is_comma(token.kind))
        .count()
}

/// The tokens up to the first comma, and those after it, if there is one.
pub fn cut_entry<'b, 't>(tokens: &'b [Token<'t>]) -> (&'b [Token<'t>], Option<&'b [Token<'t>]>)
    ensures entries { entries_of (map seen tokens.now) ≡ map seen result.0.now ∷ more_entries result.1 }
    ensures shorter { tokens_left result.1 ≤ length tokens.now }
    ensures fit { AreFit tokens.now → AreFit result.0.now × AreFitAfter result.1 }
{
    let end = entry_length(tokens);
    if end < tokens.len() {
        (&tokens[..end], Some(&tokens[end + 1..]))
    } else {
        (tokens, None)
    }
}

fn is_entry<S: Semiring>(tokens: &[Token<'_>]) -> bool
    ensures { result ≡ is_entry S.spelled (map seen tokens.now) }
{
    let entry = entry_of(tokens);
    let weighted = match entry.weight {
        None => true,
        Some(weight) => is_weight::<S>(weight),
    };
    weighted && (is_class(entry.label) || are_parts(entry.label))
}

fn are_entries<S: Semiring>(tokens: &[Token<'_>]) -> bool
    ensures { result ≡ are_entries S.spelled (map seen tokens.now) }
{
    let mut rest = Some(tokens);
    while let Some(entries) = rest {
        let (entry, after) = cut_entry(entries);
        if !is_entry::<S>(entry) {
            return false;
        }
        rest = after;
    }
    true
}

fn arrow_line<'b, 't, S: Semiring>(
    first: Token<'t>,
    second: Token<'t>,
    rest: &'b [Token<'t>],
) -> Option<Line<'b, 't>>
    ensures line { option_map line_seen result ≡ arrow_line S.spelled (seen first.entry) (seen second.entry) (map seen rest.now) }
    ensures fit { AreFit rest.now → IfSome result IsFitLine }
{
    if is_dollar(first.kind) && is_state(second) {
        if is_end::<S>(rest) {
            Some(Line::Initial(second, rest))
        } else {
            None
        }
    } else if is_state(first) && is_dollar(second.kind) {
        if is_end::<S>(rest) {
            Some(Line::Final(first, rest))
        } else {
            None
        }
    } else if is_state(first) && is_state(second) {
        if are_entries::<S>(rest) {
            Some(Line::Moves(first, second, rest))
        } else {
            None
        }
    } else {
        None
    }
}

/// The line that the tokens are. None where they are outside the grammar.
pub fn line_of<'b, 't, S: Semiring>(tokens: &'b [Token<'t>]) -> Option<Line<'b, 't>>
    ensures line { option_map line_seen result ≡ line_of S.spelled (map seen tokens.now) }
    ensures fit { AreFit tokens.now → IfSome result IsFitLine }
{
    match tokens {
        [] => Some(Line::Blank),
        [state] => {
            if is_state(*state) {
                Some(Line::State(*state))
            } else {
                None
            }
        }
        [_, _] => None,
        [first, arrow, second, rest @ ..] => {
            if is_arrow(arrow.kind) {
                arrow_line::<S>(*first, *second, rest)
            } else {
                None
            }
        }
    }
}
