ghost use Rattle.std.specs.Prelude.{◌≡◌, ℕ, ◌<◌, ◌≤◌, Bool, true, List, [], length, slice_index_or, slice_get, IsTrue, ◌↔◌, OnOk, OnErr, IfOk, Some};
ghost use Rattle.std.specs.Option.{option_map};
ghost use Rattle.vc_label.specs.Borrowed.{word_of};
ghost use Rattle.vc_label.specs.Faults.{IsNotHere};
ghost use Rattle.vc_label.specs.Letters.{are_letters, is_of_letters};
ghost use Rattle.vc_label.specs.Order.{word_order};
ghost use Rattle.vc_label.specs.Sets.{IsOverSets, AreSingleSets, IsSingleWord};
ghost use Rattle.vc_label.specs.declared.tape_set.TapeSet.{TapeSet};
ghost use Rattle.vc_model.specs.Words.{Word, is_empty, cut, join};

use crate::tape_set::TapeSet;
use crate::word::Word;
use crate::word_buf::WordBuf;
use std::alloc::{AllocError, Global};
use std::hash::Hash;

/// Why a word has no label.
#[derive(Debug, Drop)]
pub enum LabelFault {
    /// The word has not as many tapes as the set, or a part is not in the set of its tape.
    NotHere,

    /// There was no memory.
    Memory(AllocError),
}

/// A set of labels, as `lal`, `lan`, `law` and `lat` are.
///
/// A label is seen by its parts, one for each tape. What is joined before a word by `join` is
/// cut from it again by `cut`, and lengths add: `vc_model`'s `words_are_cut` and
/// `words_are_joined` state it. Labels are ordered tape by tape, and each part is ordered as a
/// list of bytes, the empty one first.
pub trait LabelSet: Copy {
    type Label: Ord + Hash + Drop;

    /// Whether each set of this type has one tape, whose parts have at most one letter.
    const SINGLE: bool;

    ghost SINGLE: { Bool };

    ghost sets: { Self → List TapeSet };

    ghost parts: { Self.Label → Word };

    /// The number of tapes.
    fn tapes(&self) -> usize
        ensures value { result ≡ length (sets self.now) }
        ensures some { 1 ≤ result }
        ensures few { result ≤ 4 };

    /// What a label may have on a tape.
    fn tape(&self, i: usize) -> TapeSet
        requires { i < length (sets self.now) }
        ensures { slice_get (sets self.now) i ≡ Some result };

    /// Whether no part has a letter.
    fn is_empty(label: &Self::Label) -> bool
        ensures { result ≡ is_empty (parts label.now) };

    /// The letters of a label on a tape.
    fn part(label: &Self::Label, tape: usize) -> &[u8]
        requires { tape < length (parts label.now) }
        ensures value { result.now ≡ slice_index_or (parts label.now) tape [] }
        ensures letters { IsTrue (are_letters result.now) };

    /// What follows the label in the word, borrowed from the same letters. None where some part
    /// of the label is no prefix of its tape.
    fn cut<'w>(label: &Self::Label, word: Word<'w>) -> Option<Word<'w>>
        requires { length (parts label.now) ≡ length (word_of word) }
        ensures { option_map word_of result ≡ cut (parts label.now) (word_of word.entry) };

    /// Appends the parts of the label to the tapes.
    fn join(label: &Self::Label, onto: &mut WordBuf) -> Result<(), AllocError>
        requires { length (parts label.now) ≡ length onto.old }
        ensures ok { OnOk result (onto.new ≡ join onto.old (parts label.now)) }
        ensures err { OnErr result (onto.new ≡ onto.old) };

    /// The label with these parts.
    fn label(&self, alloc: Global, word: Word<'_>) -> Result<Self::Label, LabelFault>
        ensures parts { IfOk result (λ l. parts l ≡ word_of word.entry) }
        ensures inside { OnOk result (IsOverSets (sets self.now) (word_of word.entry)) }
        ensures outside { IsNotHere result → ¬ IsOverSets (sets self.now) (word_of word.entry) };

    /// A label with the same parts.
    fn copy(alloc: Global, label: &Self::Label) -> Result<Self::Label, AllocError>
        ensures { IfOk result (λ l. parts l ≡ parts label.now) };

    ghost letters: { (l : Self.Label) → IsTrue (is_of_letters (parts l)) };

    ghost same_parts: { (a b : Self.Label) → (Self.Label.eq a b ≡ true) ↔ (parts a ≡ parts b) };

    ghost ordered: { (a b : Self.Label) → Self.Label.cmp a b ≡ word_order (parts a) (parts b) };

    ghost few_tapes: { (s : Self) → (1 ≤ length (sets s)) × (length (sets s) ≤ 4) };

    ghost few_parts: { (l : Self.Label) → (1 ≤ length (parts l)) × (length (parts l) ≤ 4) };

    ghost single_sets: { IsTrue SINGLE → (s : Self) → AreSingleSets (sets s) };

    ghost single_parts: { IsTrue SINGLE → (l : Self.Label) → IsSingleWord (parts l) };
}
