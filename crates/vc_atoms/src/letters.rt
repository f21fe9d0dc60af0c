ghost use Rattle.std.specs.Prelude.{IsTrue};
ghost use Rattle.vc_label.specs.Letters.{is_letter};

use std::alloc::{AllocError, Global};
use std::slice;
use vc_label::{Alphabet, LabelFault, LabelSet, TapeKind, TapeSet, Word, WordBuf};

/// A label of one letter.
#[derive(Clone, Copy, Debug, PartialEq, Eq, PartialOrd, Ord, Hash)]
pub struct Letter {
    code: u8,
    ghost letter: { IsTrue (is_letter code) },
}

impl Letter {
    ghost use Rattle.std.specs.Prelude.{◌≡◌, ◌∷◌, [], IsTrue};
    ghost use Rattle.vc_label.specs.Letters.{is_letter};

    pub(crate) fn new(code: u8) -> Letter
        requires { IsTrue (is_letter code) }
        ensures { result.code ≡ code }
    {
        Letter { code }
    }

    pub(crate) fn code(self) -> u8
        ensures { result ≡ self.code }
    {
        self.code
    }

    pub(crate) fn as_slice(&self) -> &[u8]
        ensures { result.now ≡ self.now.code ∷ [] }
    {
        slice::from_ref(&self.code)
    }
}

/// The label set `lal`: the letters of an alphabet.
#[derive(Clone, Copy, Debug)]
pub struct Letters {
    alphabet: Alphabet,
}

impl Letters {
    ghost use Rattle.std.specs.Prelude.{◌≡◌, ◌∷◌, []};
    ghost use Rattle.vc_label.specs.declared.tape_set.TapeKind.TheVariants.{Letters as LettersKind};
    ghost use Rattle.vc_label.specs.declared.tape_set.TapeSet.{TapeSet};

    /// The letters of the alphabet.
    pub fn new(alphabet: Alphabet) -> Letters
        ensures { ⟦<Letters as LabelSet>⟧.sets result ≡ record { kind = LettersKind; alphabet = alphabet } ∷ [] }
    {
        Letters { alphabet }
    }
}

impl LabelSet for Letters {
    ghost use Rattle.std.specs.Prelude.{◌≡◌, true, ◌∷◌, [], IsTrue};
    ghost use Rattle.vc_label.specs.declared.tape_set.TapeKind.TheVariants.{Letters as LettersKind};
    ghost use Rattle.vc_label.specs.declared.tape_set.TapeSet.{TapeSet};
    ghost use Rattle.vc_atoms.specs.Labels.{one_tape, letter_of_letters, same_letters, letters_in_order, one_is_few, one_is_single};

    type Label = Letter;

    const SINGLE: bool = true;

    ghost SINGLE = { true };

    ghost sets = { λ s. record { kind = LettersKind; alphabet = s.alphabet } ∷ [] };

    ghost parts = { λ l. one_tape (l.code ∷ []) };

    ghost letters = { λ l. letter_of_letters l.code l.letter };

    ghost same_parts = { λ a b. same_letters a.code b.code };

    ghost ordered = { λ a b. letters_in_order a.code b.code };

    ghost few_tapes = { λ s. one_is_few };

    ghost few_parts = { λ l. one_is_few };

    ghost single_sets = { λ h s. tt };

    ghost single_parts = { λ h l. one_is_single };

    fn tapes(&self) -> usize {
        1
    }

    fn tape(&self, _i: usize) -> TapeSet {
        TapeSet {
            kind: TapeKind::Letters,
            alphabet: self.alphabet,
        }
    }

    fn is_empty(_label: &Letter) -> bool {
        false
    }

    fn part(label: &Letter, _tape: usize) -> &[u8] {
        label.as_slice()
    }

    fn cut<'w>(label: &Letter, word: Word<'w>) -> Option<Word<'w>> {
        match word.tape(0) {
            [first, rest @ ..] if *first == label.code => Some(Word::one(rest)),
            _ => None,
        }
    }

    fn join(label: &Letter, onto: &mut WordBuf) -> Result<(), AllocError> {
        onto.push(0, label.code)
    }

    fn label(&self, _alloc: Global, word: Word<'_>) -> Result<Letter, LabelFault> {
        if word.tapes() != 1 {
            return Err(LabelFault::NotHere);
        }
        match word.tape(0) {
            [code] if self.alphabet.has(*code) => Ok(Letter { code: *code }),
            _ => Err(LabelFault::NotHere),
        }
    }

    fn copy(_alloc: Global, label: &Letter) -> Result<Letter, AllocError> {
        Ok(*label)
    }
}
