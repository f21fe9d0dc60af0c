ghost use Rattle.std.specs.Prelude.{◌≡◌, ℕ, List, map, codes, IfOk, OnErr};
ghost use Rattle.std.specs.Option.{option_map, option_copied};
ghost use Rattle.vc_context.specs.Gathered.{sets_in};
ghost use Rattle.vc_context.specs.Reading.{tape_of, listed_front, labels_front, arrow, is_last, weights_at, context_at};
ghost use Rattle.vc_context.specs.Sets.{tapes_of};
ghost use Rattle.vc_context.specs.Spelling.{SpellsContext};
ghost use Rattle.vc_context.specs.declared.context.Weights.{Weights};
ghost use Rattle.vc_label.specs.declared.tape_set.TapeSet.{TapeSet};

use crate::context::{AnyContext, AnyLabels, ContextFault, Weights};
use crate::joined::{Style, Tapes};
use crate::laws::texts_are_read;
use crate::pieces::after;
use crate::tapes::named;
use vc_atoms::{Letters, Nullable, Words};
use vc_label::{TapeKind, TapeSet};
use vc_text::after_blanks;
use vc_tuple::Tuple;

// In angle brackets two to four tapes.
fn listed(text: &[u8]) -> Option<(Tapes, &[u8])>
    ensures { option_map (λ r. (map tape_of (sets_in r.0), r.1.now)) result ≡ listed_front text.now }
{
    let text = after(b"<", text)?;
    let (tapes, rest) = Tapes::front(Style::Commas, text)?;
    let rest = after(b">", rest)?;
    match tapes {
        Tapes::One(_) => None,
        _ => Some((tapes, rest)),
    }
}

// A label set.
fn labels_front(text: &[u8]) -> Option<(Tapes, &[u8])>
    ensures { option_map (λ r. (map tape_of (sets_in r.0), r.1.now)) result ≡ labels_front text.now }
{
    if let Some(rest) = after(b"lat", text) {
        return listed(rest);
    }
    if let Some(rest) = after(b"tupleset", text) {
        return listed(rest);
    }
    if let Some(found) = Tapes::front(Style::Crosses, text) {
        return Some(found);
    }
    let (set, rest) = named(text)?;
    Some((Tapes::One(set), rest))
}

// What stands behind the mark before the weight set.
fn arrow(text: &[u8]) -> Option<&[u8]>
    ensures { option_copied result ≡ arrow text.now }
{
    after(b",", text).or_else(|| after(b"->", text))
}

// Whether the name is the last piece of the text.
fn is_last(name: &[u8], text: &[u8]) -> bool
    ensures { result ≡ is_last name.now text.now }
{
    match after(name, text) {
        Some(rest) => after_blanks(rest).is_empty(),
        None => false,
    }
}

// The weight set whose name is the last piece of the text.
fn weights_at(text: &[u8]) -> Option<Weights>
    ensures { result ≡ weights_at text.now }
{
    if is_last(b"b", text) {
        Some(Weights::B)
    } else if is_last(b"f2", text) {
        Some(Weights::F2)
    } else if is_last(b"z", text) {
        Some(Weights::Z)
    } else if is_last(b"q", text) {
        Some(Weights::Q)
    } else if is_last(b"nmin", text) {
        Some(Weights::Nmin)
    } else {
        None
    }
}

// The label set of one tape.
fn single(set: TapeSet) -> AnyLabels
    ensures { tapes_of result ≡ sets_in (Tapes.One set) }
{
    match set.kind {
        TapeKind::Letters => AnyLabels::Letters(Letters::new(set.alphabet)),
        TapeKind::Nullable => AnyLabels::Nullable(Nullable::new(set.alphabet)),
        TapeKind::Words => AnyLabels::Words(Words::new(set.alphabet)),
    }
}

// The label set of these tapes.
fn labels_of(tapes: Tapes) -> AnyLabels
    ensures { tapes_of result ≡ sets_in tapes }
{
    match tapes {
        Tapes::One(set) => single(set),
        Tapes::Two(a, b) => AnyLabels::Tuple(Tuple::two(a, b)),
        Tapes::Three(a, b, c) => AnyLabels::Tuple(Tuple::three(a, b, c)),
        Tapes::Four(a, b, c, d) => AnyLabels::Tuple(Tuple::four(a, b, c, d)),
    }
}

// The context that the text spells.
fn context_at(text: &[u8]) -> Option<AnyContext>
    ensures { option_map (λ c. (map tape_of (tapes_of c.labels), c.weights)) result ≡ context_at text.now }
{
    let (tapes, rest) = labels_front(text)?;
    let weights = weights_at(arrow(rest)?)?;
    Some(AnyContext {
        labels: labels_of(tapes),
        weights,
    })
}

/// The context that the text spells.
///
/// A label set of one tape is `lal_char(..)`, `lal<char(..)>`, `letterset<char_letters(..)>` or `[..]`; `lan_char(..)`,
/// `lan<char(..)>`, `nullableset<X>`, where X is one of the first three, or `[..]?`; `law_char(..)`, `law<char(..)>`,
/// `wordset<char_letters(..)>` or `[..]*`. Between the parentheses or brackets stand letters, and ranges as `a-z`. One of
/// two to four tapes is `lat<..>` or `tupleset<..>` with commas between the tapes, or bracketed tapes with ` x ` between them.
/// Then comes `,` or `->`, and `b`, `f2`, `z`, `q` or `nmin`. Blanks may stand around each name, mark and alphabet.
pub fn read_context(text: &[u8]) -> Result<AnyContext, ContextFault>
    ensures spelled { IfOk result (λ c. SpellsContext text.now (tapes_of c.labels) c.weights) }
    ensures none { OnErr result ((sets : List TapeSet) (weights : Weights) → ¬ SpellsContext text.now sets weights) }
{
    texts_are_read();
    context_at(text).ok_or(ContextFault::NotAContext)
}
