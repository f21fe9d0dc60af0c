ghost use Rattle.std.specs.Prelude.{◌≡◌, ◌<◌, ◌&&◌, ◌||◌, ◌==◌, ◌∷◌, [], ℕ, true, false, length, nat_le, MatchOption, List};
ghost use Rattle.vc_label.specs.Alphabets.{has_letter};
ghost use Rattle.vc_text.specs.Classes.{letter, symbols, items_of, has_singles, names_letter, is_negated, begins_no_letter, body_items, IsClassOf};
ghost use Rattle.vc_text.specs.ItemViews.{item_seen};

use vc_label::{Alphabet, alphabets_are_sets};

// An item of a class.
#[derive(Clone, Copy)]
enum Item {
    Single(u8),
    Range(u8, u8),
}

// The letter that a text begins with, and the text after it. None where a dash without a backslash stands there.
fn next_letter(text: &[u8]) -> Option<(u8, &[u8])>
    ensures { MatchOption result (begins_no_letter text.now)
        (λ r. (symbols text.now ≡ letter r.0 ∷ symbols r.1.now) × (length r.1.now < length text.now)) }
{
    match text {
        [] | [b'-', ..] => None,
        [b'\\', letter, rest @ ..] => Some((*letter, rest)),
        [letter, rest @ ..] => Some((*letter, rest)),
    }
}

// The text after the dash that it begins with.
fn after_dash(text: &[u8]) -> Option<&[u8]>
    ensures { MatchOption result ((rest : List ℕ) → text.now ≡ 45 ∷ rest → ⊥) (λ behind. text.now ≡ 45 ∷ behind.now) }
{
    match text {
        [b'-', rest @ ..] => Some(rest),
        _ => None,
    }
}

// The item that a text begins with, and the text after it.
fn next_item(text: &[u8]) -> Option<(Item, &[u8])>
    ensures { MatchOption result (items_of (symbols text.now) ≡ [])
        (λ r. (items_of (symbols text.now) ≡ item_seen r.0 ∷ items_of (symbols r.1.now)) × (length r.1.now < length text.now)) }
{
    let (first, rest) = next_letter(text)?;
    if let Some(behind) = after_dash(rest) {
        if let Some((last, after)) = next_letter(behind) {
            return Some((Item::Range(first, last), after));
        }
    }
    Some((Item::Single(first), rest))
}

// Whether the class begins with `^`, and its items.
fn negation(body: &[u8]) -> (bool, &[u8])
    ensures negated { result.0 ≡ is_negated body.now }
    ensures items { result.1.now ≡ body_items body.now }
{
    match body {
        [b'^', items @ ..] => (true, items),
        _ => (false, body),
    }
}

// The letters that are there, and those of the alphabet from the first to the last one.
fn with_range(alphabet: Alphabet, named: Alphabet, first: u8, last: u8) -> Alphabet
    ensures { (x : ℕ) → has_letter result x ≡ (has_letter named x || (has_letter alphabet x && (nat_le first x && nat_le x last))) }
{
    alphabets_are_sets();
    named.union(alphabet.intersection(Alphabet::new().with_range(first, last)))
}

// The letters of the alphabet that the items name. None where one that stands alone is not in the alphabet.
fn named_letters(alphabet: Alphabet, items: &[u8]) -> Option<Alphabet>
    ensures { MatchOption result (has_singles alphabet (items_of (symbols items.now)) ≡ false)
        (λ named. (has_singles alphabet (items_of (symbols items.now)) ≡ true)
        × ((x : ℕ) → has_letter named x ≡ (has_letter alphabet x && names_letter (items_of (symbols items.now)) x))) }
{
    alphabets_are_sets();
    let mut named = Alphabet::new();
    let mut rest = items;
    while let Some((item, after)) = next_item(rest) {
        match item {
            Item::Single(letter) => {
                if !alphabet.has(letter) {
                    return None;
                }
                named = named.with(letter);
            }
            Item::Range(first, last) => named = with_range(alphabet, named, first, last),
        }
        rest = after;
    }
    Some(named)
}

/// The letters of the class with this text between its brackets: those of the alphabet that its items name, or with `^`
/// those that they do not name. None where a letter that stands alone in it is not in the alphabet.
pub fn class_letters(alphabet: Alphabet, body: &[u8]) -> Option<Alphabet>
    ensures { IsClassOf alphabet body.now result }
{
    let (negated, items) = negation(body);
    let named = named_letters(alphabet, items)?;
    if negated {
        Some(alphabet.without(named))
    } else {
        Some(named)
    }
}
