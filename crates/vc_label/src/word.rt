ghost use Rattle.std.specs.Prelude.{◌≡◌, ◌<◌, ◌≤◌, [], ◌∷◌, length, slice_index_or, IsTrue, ◌↔◌};
ghost use Rattle.vc_label.specs.Letters.{are_letters, is_of_letters};
ghost use Rattle.vc_label.specs.Tapes.{word_on};

/// The tapes of a word, each a list of bytes.
#[derive(Clone, Copy)]
enum Tapes<'w> {
    One(&'w [u8]),
    Two(&'w [u8], &'w [u8]),
    Three(&'w [u8], &'w [u8], &'w [u8]),
    Four(&'w [u8], &'w [u8], &'w [u8], &'w [u8]),
}

/// A borrowed word: one to four tapes, each a list of letters.
#[derive(Clone, Copy)]
pub struct Word<'w> {
    tapes: Tapes<'w>,
    ghost letters: { IsTrue (is_of_letters (word_on tapes)) },
}

impl<'w> Word<'w> {
    ghost use Rattle.vc_label.specs.Borrowed.{word_of};
    ghost use Rattle.vc_model.specs.Words.{is_empty};

    /// The word of one tape.
    pub fn one(a: &'w [u8]) -> Word<'w>
        requires { IsTrue (are_letters a.now) }
        ensures { word_of result ≡ a.entry.now ∷ [] }
    {
        Word {
            tapes: Tapes::One(a),
        }
    }

    /// The word of two tapes.
    pub fn two(a: &'w [u8], b: &'w [u8]) -> Word<'w>
        requires first { IsTrue (are_letters a.now) }
        requires second { IsTrue (are_letters b.now) }
        ensures { word_of result ≡ a.entry.now ∷ b.entry.now ∷ [] }
    {
        Word {
            tapes: Tapes::Two(a, b),
        }
    }

    /// The word of three tapes.
    pub fn three(a: &'w [u8], b: &'w [u8], c: &'w [u8]) -> Word<'w>
        requires first { IsTrue (are_letters a.now) }
        requires second { IsTrue (are_letters b.now) }
        requires third { IsTrue (are_letters c.now) }
        ensures { word_of result ≡ a.entry.now ∷ b.entry.now ∷ c.entry.now ∷ [] }
    {
        Word {
            tapes: Tapes::Three(a, b, c),
        }
    }

    /// The word of four tapes.
    pub fn four(a: &'w [u8], b: &'w [u8], c: &'w [u8], d: &'w [u8]) -> Word<'w>
        requires first { IsTrue (are_letters a.now) }
        requires second { IsTrue (are_letters b.now) }
        requires third { IsTrue (are_letters c.now) }
        requires fourth { IsTrue (are_letters d.now) }
        ensures { word_of result ≡ a.entry.now ∷ b.entry.now ∷ c.entry.now ∷ d.entry.now ∷ [] }
    {
        Word {
            tapes: Tapes::Four(a, b, c, d),
        }
    }

    /// The number of tapes, which is at least 1 and at most 4.
    pub fn tapes(self) -> usize
        ensures value { result ≡ length (word_of self.entry) }
        ensures some { 1 ≤ result }
        ensures few { result ≤ 4 }
    {
        match self.tapes {
            Tapes::One(_) => 1,
            Tapes::Two(_, _) => 2,
            Tapes::Three(_, _, _) => 3,
            Tapes::Four(_, _, _, _) => 4,
        }
    }

    /// The letters of a tape.
    pub fn tape(self, i: usize) -> &'w [u8]
        requires { i < length (word_of self) }
        ensures value { result.now ≡ slice_index_or (word_of self.entry) i [] }
        ensures letters { IsTrue (are_letters result.now) }
    {
        match self.tapes {
            Tapes::One(a) => a,
            Tapes::Two(a, b) => if i == 0 { a } else { b },
            Tapes::Three(a, b, c) => if i == 0 {
                a
            } else if i == 1 {
                b
            } else {
                c
            },
            Tapes::Four(a, b, c, d) => if i == 0 {
                a
            } else if i == 1 {
                b
            } else if i == 2 {
                c
            } else {
                d
            },
        }
    }

    /// Whether no tape has a letter.
    pub fn is_empty(self) -> bool
        ensures { result ≡ is_empty (word_of self.entry) }
    {
        match self.tapes {
            Tapes::One(a) => a.is_empty(),
            Tapes::Two(a, b) => a.is_empty() && b.is_empty(),
            Tapes::Three(a, b, c) => a.is_empty() && b.is_empty() && c.is_empty(),
            Tapes::Four(a, b, c, d) => a.is_empty() && b.is_empty() && c.is_empty() && d.is_empty(),
        }
    }
}
