ghost use Rattle.std.specs.Prelude.{IsTrue};
ghost use Rattle.vc_label.specs.Letters.{are_letters};

use smallvec::SmallVec;
use std::alloc::{AllocError, Global};
use vc_label::{Alphabet, LabelFault, LabelSet, TapeKind, TapeSet, Word, WordBuf, tapes_are_cut};

/// A label of any number of letters. Up to sixteen of them take no memory.
#[derive(Debug, Drop, PartialEq, Eq, PartialOrd, Ord, Hash)]
pub struct WordLabel {
    letters: SmallVec<u8, 16>,
    ghost of_letters: { IsTrue (are_letters letters.items) },
}

/// The label set `law`: the words over an alphabet, the empty one included.
#[derive(Clone, Copy, Debug)]
pub struct Words {
    alphabet: Alphabet,
}

impl Words {
    ghost use Rattle.std.specs.Prelude.{◌≡◌, ◌∷◌, []};
    ghost use Rattle.vc_label.specs.declared.tape_set.TapeKind.TheVariants.{Words as WordsKind};
    ghost use Rattle.vc_label.specs.declared.tape_set.TapeSet.{TapeSet};

    /// The words over the alphabet.
    pub fn new(alphabet: Alphabet) -> Words
        ensures { ⟦<Words as LabelSet>⟧.sets result ≡ record { kind = WordsKind; alphabet = alphabet } ∷ [] }
    {
        Words { alphabet }
    }
}

impl LabelSet for Words {
    ghost use Rattle.std.specs.Prelude.{◌≡◌, true, false, ◌∷◌, [], IsTrue};
    ghost use Rattle.vc_label.specs.declared.tape_set.TapeKind.TheVariants.{Words as WordsKind};
    ghost use Rattle.vc_label.specs.declared.tape_set.TapeSet.{TapeSet};
    ghost use Rattle.vc_atoms.specs.Labels.{one_tape, of_letters, same_tapes, tapes_in_order, one_is_few};

    type Label = WordLabel;

    const SINGLE: bool = false;

    ghost SINGLE = { false };

    ghost sets = { λ s. record { kind = WordsKind; alphabet = s.alphabet } ∷ [] };

    ghost parts = { λ l. one_tape l.letters.items };

    ghost letters = { λ l. of_letters l.letters.items l.of_letters };

    ghost same_parts = { λ a b. same_tapes a.letters.items b.letters.items };

    ghost ordered = { λ a b. tapes_in_order a.letters.items b.letters.items };

    ghost few_tapes = { λ s. one_is_few };

    ghost few_parts = { λ l. one_is_few };

    ghost single_sets = { λ h s. Prim.cc };

    ghost single_parts = { λ h l. Prim.cc };

    fn tapes(&self) -> usize {
        1
    }

    fn tape(&self, _i: usize) -> TapeSet {
        TapeSet {
            kind: TapeKind::Words,
            alphabet: self.alphabet,
        }
    }

    fn is_empty(label: &WordLabel) -> bool {
        label.letters.is_empty()
    }

    fn part(label: &WordLabel, _tape: usize) -> &[u8] {
        label.letters.as_slice()
    }

    fn cut<'w>(label: &WordLabel, word: Word<'w>) -> Option<Word<'w>> {
        tapes_are_cut();
        match word.tape(0).strip_prefix(label.letters.as_slice()) {
            Some(rest) => Some(Word::one(rest)),
            None => None,
        }
    }

    fn join(label: &WordLabel, onto: &mut WordBuf) -> Result<(), AllocError> {
        onto.append(Word::one(label.letters.as_slice()))
    }

    fn label(&self, alloc: Global, word: Word<'_>) -> Result<WordLabel, LabelFault> {
        if word.tapes() != 1 {
            return Err(LabelFault::NotHere);
        }
        let tape = word.tape(0);
        if !self.alphabet.has_all(tape) {
            return Err(LabelFault::NotHere);
        }
        match SmallVec::from_slice(alloc, tape) {
            Ok(letters) => Ok(WordLabel { letters }),
            Err(e) => Err(LabelFault::Memory(e)),
        }
    }

    fn copy(alloc: Global, label: &WordLabel) -> Result<WordLabel, AllocError> {
        let letters = SmallVec::from_slice(alloc, label.letters.as_slice())?;
        Ok(WordLabel { letters })
    }
}
