ghost use Rattle.std.specs.Prelude.{◌≤◌, IsTrue, length};
ghost use Rattle.vc_label.specs.Letters.{is_of_letters};
ghost use Rattle.vc_tuple.specs.Parts.{parts_of};

use crate::cuts::first_part;
use smallvec::SmallVec;
use std::alloc::{AllocError, Global};
use vc_label::Word;

/// A label of two to four parts, in one list of bytes with a zero between two parts. No letter
/// is zero, so the bytes compare as the parts do. Up to sixteen bytes take no memory.
#[derive(Debug, Drop, PartialEq, Eq, PartialOrd, Ord, Hash)]
pub struct TupleLabel {
    bytes: SmallVec<u8, 16>,
    ghost of_letters: { IsTrue (is_of_letters (parts_of bytes.items)) },
    ghost several: { 2 ≤ length (parts_of bytes.items) },
    ghost few: { length (parts_of bytes.items) ≤ 4 },
}

impl TupleLabel {
    ghost use Rattle.std.specs.Prelude.{◌≡◌, ◌≤◌, IfOk, length};
    ghost use Rattle.vc_label.specs.Borrowed.{word_of};
    ghost use Rattle.vc_tuple.specs.Parts.{parts_of};

    /// The label with the tapes of a word as its parts.
    pub(crate) fn new(alloc: Global, word: Word<'_>) -> Result<TupleLabel, AllocError>
        requires { 2 ≤ length (word_of word) }
        ensures { IfOk result (λ l. parts_of l.bytes.items ≡ word_of word.entry) }
    {
        let mut bytes = SmallVec::from_slice(alloc, word.tape(0))?;
        for i in 1..word.tapes() {
            bytes.push(0)?;
            bytes.extend_from_slice(word.tape(i))?;
        }
        Ok(TupleLabel { bytes })
    }

    /// A label with the same parts.
    pub(crate) fn copy(&self, alloc: Global) -> Result<TupleLabel, AllocError>
        ensures { IfOk result (λ l. parts_of l.bytes.items ≡ parts_of self.now.bytes.items) }
    {
        let bytes = SmallVec::from_slice(alloc, self.bytes.as_slice())?;
        Ok(TupleLabel { bytes })
    }

    /// The parts, as the tapes of a word.
    pub(crate) fn word(&self) -> Word<'_>
        ensures { word_of result ≡ parts_of self.now.bytes.items }
    {
        let (a, after_a) = first_part(self.bytes.as_slice());
        let Some(from_b) = after_a else {
            return Word::one(a);
        };
        let (b, after_b) = first_part(from_b);
        let Some(from_c) = after_b else {
            return Word::two(a, b);
        };
        let (c, after_c) = first_part(from_c);
        let Some(from_d) = after_c else {
            return Word::three(a, b, c);
        };
        let (d, _) = first_part(from_d);
        Word::four(a, b, c, d)
    }
}
