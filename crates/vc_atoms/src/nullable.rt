use crate::letters::Letter;
use std::alloc::{AllocError, Global};
use std::slice;
use vc_label::{Alphabet, LabelFault, LabelSet, TapeKind, TapeSet, Word, WordBuf};

/// The label set `lan`: the letters of an alphabet, and the empty label.
#[derive(Clone, Copy, Debug)]
pub struct Nullable {
    alphabet: Alphabet,
}

impl Nullable {
    ghost use Rattle.std.specs.Prelude.{◌≡◌, ◌∷◌, []};
    ghost use Rattle.vc_label.specs.declared.tape_set.TapeKind.TheVariants.{Nullable as NullableKind};
    ghost use Rattle.vc_label.specs.declared.tape_set.TapeSet.{TapeSet};

    /// The letters of the alphabet, and the empty label.
    pub fn new(alphabet: Alphabet) -> Nullable
        ensures { ⟦<Nullable as LabelSet>⟧.sets result ≡ record { kind = NullableKind; alphabet = alphabet } ∷ [] }
    {
        Nullable { alphabet }
    }
}

impl LabelSet for Nullable {
    ghost use Rattle.std.specs.Prelude.{◌≡◌, true, ◌∷◌, [], IsTrue};
    ghost use Rattle.vc_label.specs.declared.tape_set.TapeKind.TheVariants.{Nullable as NullableKind};
    ghost use Rattle.vc_label.specs.declared.tape_set.TapeSet.{TapeSet};
    ghost use Rattle.vc_atoms.specs.Labels.{one_tape, one_is_few};
    ghost use Rattle.vc_atoms.specs.Optional.{letters_in, optional_of_letters, same_optional, optional_in_order, optional_is_single};

    /// None is the empty label.
    type Label = Option<Letter>;

    const SINGLE: bool = true;

    ghost SINGLE = { true };

    ghost sets = { λ s. record { kind = NullableKind; alphabet = s.alphabet } ∷ [] };

    ghost parts = { λ l. one_tape (letters_in l) };

    ghost letters = { λ l. optional_of_letters l };

    ghost same_parts = { λ a b. same_optional a b };

    ghost ordered = { λ a b. optional_in_order a b };

    ghost few_tapes = { λ s. one_is_few };

    ghost few_parts = { λ l. one_is_few };

    ghost single_sets = { λ h s. tt };

    ghost single_parts = { λ h l. optional_is_single l };

    fn tapes(&self) -> usize {
        1
    }

    fn tape(&self, _i: usize) -> TapeSet {
        TapeSet {
            kind: TapeKind::Nullable,
            alphabet: self.alphabet,
        }
    }

    fn is_empty(label: &Option<Letter>) -> bool {
        label.is_none()
    }

    fn part(label: &Option<Letter>, _tape: usize) -> &[u8] {
        match label {
            Some(letter) => letter.as_slice(),
            None => &[],
        }
    }

    fn cut<'w>(label: &Option<Letter>, word: Word<'w>) -> Option<Word<'w>> {
        let Some(letter) = label else {
            return Some(Word::one(word.tape(0)));
        };
        match word.tape(0) {
            [first, rest @ ..] if *first == letter.code() => Some(Word::one(rest)),
            _ => None,
        }
    }

    fn join(label: &Option<Letter>, onto: &mut WordBuf) -> Result<(), AllocError> {
        match label {
            Some(letter) => onto.push(0, letter.code()),
            None => Ok(()),
        }
    }

    fn label(&self, _alloc: Global, word: Word<'_>) -> Result<Option<Letter>, LabelFault> {
        if word.tapes() != 1 {
            return Err(LabelFault::NotHere);
        }
        match word.tape(0) {
            [] => Ok(None),
            [code] if self.alphabet.has(*code) => Ok(Some(Letter::new(*code))),
            _ => Err(LabelFault::NotHere),
        }
    }

    fn copy(_alloc: Global, label: &Option<Letter>) -> Result<Option<Letter>, AllocError> {
        Ok(*label)
    }
}
