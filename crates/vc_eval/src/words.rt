//! Positions of words: what stands in front of them, and labels that end there.

ghost use Rattle.std.specs.Prelude.{◌≡◌, ◌<◌, ◌≤◌, ◌+◌, ◌*◌, ◌/◌, ◌%◌, ◌^◌, [], length, take, IsTrue};
ghost use Rattle.vc_label.specs.Borrowed.{word_of};
ghost use Rattle.vc_label.specs.Letters.{are_letters};
ghost use Rattle.vc_eval.specs.Moves.{ends};
ghost use Rattle.vc_eval.specs.Positions.{positions, place_of, prefix_at};

use vc_label::{LabelSet, Word};

/// What a word has in front of a position.
pub(crate) fn front<'w>(word: Word<'w>, position: usize) -> Word<'w>
    requires inside { position < positions (word_of word) }
    requires small { positions (word_of word) < 2 ^ 64 }
    ensures { word_of result ≡ prefix_at (word_of word.entry) position }
{
    match word.tapes() {
        1 => {
            let (a, _) = cut(word.tape(0), 1, position);
            return Word::one(a);
        }
        2 => {
            let rest = word.tape(1).len() + 1;
            let (a, position) = cut(word.tape(0), rest, position);
            let (b, _) = cut(word.tape(1), 1, position);
            return Word::two(a, b);
        }
        3 => {
            let last = word.tape(2).len() + 1;
            let rest = (word.tape(1).len() + 1) * last;
            let (a, position) = cut(word.tape(0), rest, position);
            let (b, position) = cut(word.tape(1), last, position);
            let (c, _) = cut(word.tape(2), 1, position);
            return Word::three(a, b, c);
        }
        _ => {
            let last = word.tape(3).len() + 1;
            let middle = (word.tape(2).len() + 1) * last;
            let rest = (word.tape(1).len() + 1) * middle;
            let (a, position) = cut(word.tape(0), rest, position);
            let (b, position) = cut(word.tape(1), middle, position);
            let (c, position) = cut(word.tape(2), last, position);
            let (d, _) = cut(word.tape(3), 1, position);
            return Word::four(a, b, c, d);
        }
    }
}

/// What a tape has in front of a position, and the position on the tapes behind it, which have so
/// many.
fn cut(tape: &[u8], rest: usize, position: usize) -> (&[u8], usize)
    requires some { 1 ≤ rest }
    requires inside { position < (length tape.now + 1) * rest }
    requires letters { IsTrue (are_letters tape.now) }
    ensures tape { result.0.now ≡ take (position / rest) tape.now }
    ensures letters { IsTrue (are_letters result.0.now) }
    ensures position { result.1 ≡ position % rest }
    ensures inside { result.1 < rest }
{
    (&tape[..position / rest], position % rest)
}

/// A label of so many parts as the word of its parts.
pub(crate) fn parts<L: LabelSet>(label: &L::Label, tapes: usize) -> Word<'_>
    requires { tapes ≡ length (L.parts label.now) }
    ensures { word_of result ≡ L.parts label.now }
{
    match tapes {
        1 => Word::one(L::part(label, 0)),
        2 => Word::two(L::part(label, 0), L::part(label, 1)),
        3 => Word::three(L::part(label, 0), L::part(label, 1), L::part(label, 2)),
        _ => Word::four(
            L::part(label, 0),
            L::part(label, 1),
            L::part(label, 2),
            L::part(label, 3),
        ),
    }
}

/// Whether each tape of a word ends with that tape of the label.
pub(crate) fn is_end(label: Word<'_>, word: Word<'_>) -> bool
    requires { length (word_of label) ≡ length (word_of word) }
    ensures { result ≡ ends (word_of label.entry) (word_of word.entry) }
{
    for tape in 0..word.tapes() {
        if !word.tape(tape).ends_with(label.tape(tape)) {
            return false;
        }
    }
    true
}

/// The number of the position in a word whose lengths are those of the label.
pub(crate) fn place(label: Word<'_>, word: Word<'_>) -> usize
    requires tapes { length (word_of label) ≡ length (word_of word) }
    requires small { place_of (word_of word) (word_of label) < 2 ^ 64 }
    ensures { result ≡ place_of (word_of word.entry) (word_of label.entry) }
{
    let mut place = 0;
    for tape in 0..word.tapes() {
        place = place * (word.tape(tape).len() + 1) + label.tape(tape).len();
    }
    place
}
