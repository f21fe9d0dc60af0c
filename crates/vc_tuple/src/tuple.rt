ghost use Rattle.std.specs.Prelude.{IsTrue, ◌↔◌};
ghost use Rattle.vc_label.specs.Sets.{IsPartOf};

use crate::cuts::rest_of_word;
use crate::label::TupleLabel;
use std::alloc::{AllocError, Global};
use vc_label::{LabelFault, LabelSet, TapeKind, TapeSet, Word, WordBuf};

/// The sets of the tapes.
#[derive(Clone, Copy, Debug)]
enum Sets {
    Two(TapeSet, TapeSet),
    Three(TapeSet, TapeSet, TapeSet),
    Four(TapeSet, TapeSet, TapeSet, TapeSet),
}

/// The label set `lat`: a part of a `lal`, `lan` or `law` set on each of two to four tapes.
#[derive(Clone, Copy, Debug)]
pub struct Tuple {
    sets: Sets,
}

/// Whether a part is in the set of its tape.
fn is_part(set: TapeSet, part: &[u8]) -> bool
    ensures { IsTrue result ↔ IsPartOf set part.now }
{
    let has_length = match set.kind {
        TapeKind::Letters => part.len() == 1,
        TapeKind::Nullable => part.len() <= 1,
        TapeKind::Words => true,
    };
    has_length && set.alphabet.has_all(part)
}

/// Whether two parts are in the sets of their tapes.
fn are_parts(a: TapeSet, first: &[u8], b: TapeSet, second: &[u8]) -> bool
    ensures { IsTrue result ↔ (IsPartOf a first.now × IsPartOf b second.now) }
{
    is_part(a, first) && is_part(b, second)
}

impl Tuple {
    ghost use Rattle.std.specs.Prelude.{◌≡◌, ◌∷◌, [], IsTrue, ◌↔◌};
    ghost use Rattle.vc_label.specs.Borrowed.{word_of};
    ghost use Rattle.vc_label.specs.Sets.{IsOverSets};
    ghost use Rattle.vc_tuple.specs.Tuples.{sets_of};

    /// The labels of two tapes.
    pub fn two(a: TapeSet, b: TapeSet) -> Tuple
        ensures { ⟦<Tuple as LabelSet>⟧.sets result ≡ a ∷ b ∷ [] }
    {
        Tuple {
            sets: Sets::Two(a, b),
        }
    }

    /// The labels of three tapes.
    pub fn three(a: TapeSet, b: TapeSet, c: TapeSet) -> Tuple
        ensures { ⟦<Tuple as LabelSet>⟧.sets result ≡ a ∷ b ∷ c ∷ [] }
    {
        Tuple {
            sets: Sets::Three(a, b, c),
        }
    }

    /// The labels of four tapes.
    pub fn four(a: TapeSet, b: TapeSet, c: TapeSet, d: TapeSet) -> Tuple
        ensures { ⟦<Tuple as LabelSet>⟧.sets result ≡ a ∷ b ∷ c ∷ d ∷ [] }
    {
        Tuple {
            sets: Sets::Four(a, b, c, d),
        }
    }

    /// Whether the word has a tape for each set, and each tape is in its set.
    fn is_over(self, word: Word<'_>) -> bool
        ensures { IsTrue result ↔ IsOverSets (sets_of self.sets) (word_of word.entry) }
    {
        match (self.sets, word.tapes()) {
            (Sets::Two(a, b), 2) => are_parts(a, word.tape(0), b, word.tape(1)),
            (Sets::Three(a, b, c), 3) => {
                are_parts(a, word.tape(0), b, word.tape(1)) && is_part(c, word.tape(2))
            }
            (Sets::Four(a, b, c, d), 4) => {
                are_parts(a, word.tape(0), b, word.tape(1))
                    && are_parts(c, word.tape(2), d, word.tape(3))
            }
            _ => false,
        }
    }
}

impl LabelSet for Tuple {
    ghost use Rattle.std.specs.Prelude.{◌≡◌, true, false, IsTrue};
    ghost use Rattle.vc_tuple.specs.Laws.{same_parts_of, parts_in_order, few_of_several};
    ghost use Rattle.vc_tuple.specs.Parts.{parts_of};
    ghost use Rattle.vc_tuple.specs.Tuples.{sets_of, few_sets};

    type Label = TupleLabel;

    const SINGLE: bool = false;

    ghost SINGLE = { false };

    ghost sets = { λ s. sets_of s.sets };

    ghost parts = { λ l. parts_of l.bytes.items };

    ghost letters = { λ l. l.of_letters };

    ghost same_parts = { λ a b. same_parts_of a.bytes.items b.bytes.items };

    ghost ordered = { λ a b. parts_in_order a.bytes.items b.bytes.items };

    ghost few_tapes = { λ s. few_sets s.sets };

    ghost few_parts = { λ l. few_of_several l.bytes.items l.few };

    ghost single_sets = { λ h s. Prim.cc };

    ghost single_parts = { λ h l. Prim.cc };

    fn tapes(&self) -> usize {
        match self.sets {
            Sets::Two(_, _) => 2,
            Sets::Three(_, _, _) => 3,
            Sets::Four(_, _, _, _) => 4,
        }
    }

    fn tape(&self, i: usize) -> TapeSet {
        match (self.sets, i) {
            (Sets::Two(a, _), 0) => a,
            (Sets::Two(_, b), _) => b,
            (Sets::Three(a, _, _), 0) => a,
            (Sets::Three(_, b, _), 1) => b,
            (Sets::Three(_, _, c), _) => c,
            (Sets::Four(a, _, _, _), 0) => a,
            (Sets::Four(_, b, _, _), 1) => b,
            (Sets::Four(_, _, c, _), 2) => c,
            (Sets::Four(_, _, _, d), _) => d,
        }
    }

    fn is_empty(label: &TupleLabel) -> bool {
        label.word().is_empty()
    }

    fn part(label: &TupleLabel, tape: usize) -> &[u8] {
        label.word().tape(tape)
    }

    fn cut<'w>(label: &TupleLabel, word: Word<'w>) -> Option<Word<'w>> {
        rest_of_word(label.word(), word)
    }

    fn join(label: &TupleLabel, onto: &mut WordBuf) -> Result<(), AllocError> {
        onto.append(label.word())
    }

    fn label(&self, alloc: Global, word: Word<'_>) -> Result<TupleLabel, LabelFault> {
        if !self.is_over(word) {
            return Err(LabelFault::NotHere);
        }
        match TupleLabel::new(alloc, word) {
            Ok(label) => Ok(label),
            Err(e) => Err(LabelFault::Memory(e)),
        }
    }

    fn copy(alloc: Global, label: &TupleLabel) -> Result<TupleLabel, AllocError> {
        label.copy(alloc)
    }
}
