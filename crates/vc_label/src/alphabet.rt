ghost use Rattle.std.specs.Prelude.{◌≡◌, ℕ, IsTrue};
ghost use Rattle.std.specs.Int.{bit_at};
ghost use Rattle.vc_label.specs.Letters.{is_letter};

use std::marker::Model;

/// A set of letters, which are the bytes from 0x21 to 0x7E.
#[derive(Clone, Copy, Debug, PartialEq, Eq)]
pub struct Alphabet {
    bits: u128,
    ghost letters: { (x : ℕ) → bit_at bits x ≡ 1 → IsTrue (is_letter x) },
}

impl Alphabet {
    ghost use Rattle.std.specs.Prelude.{◌≡◌, ℕ, IsTrue, Bool, true, false, not, ◌&&◌, ◌||◌, ◌==◌, ◌↔◌, All, nat_le};
    ghost use Rattle.vc_label.specs.Alphabets.{has_letter, letters_of};
    ghost use Rattle.vc_label.specs.Letters.{are_letters};

    /// The alphabet without a letter.
    pub fn new() -> Alphabet
        ensures { (x : ℕ) → has_letter result x ≡ false }
    {
        Alphabet { bits: 0 }
    }

    /// The alphabet with one more letter, which it may have already.
    pub fn with(self, letter: u8) -> Alphabet
        requires { IsTrue (is_letter letter) }
        ensures { (x : ℕ) → has_letter result x ≡ (has_letter self x || x == letter) }
    {
        Alphabet {
            bits: self.bits | (1 << letter),
        }
    }

    /// The alphabet with the letters from the first byte to the last one, both included. No letter
    /// is added where the first is above the last.
    pub fn with_range(self, first: u8, last: u8) -> Alphabet
        ensures { (x : ℕ) → has_letter result x
            ≡ (has_letter self x || (is_letter x && (nat_le first x && nat_le x last))) }
    {
        let low = first.max(0x21);
        let high = last.min(0x7e);
        if high < low {
            return self;
        }
        Alphabet {
            bits: self.bits | ((1 << (high + 1)) - (1 << low)),
        }
    }

    /// Whether the byte is a letter of the alphabet.
    pub fn has(self, letter: u8) -> bool
        ensures { result ≡ has_letter self letter }
    {
        letter < 128 && (self.bits >> letter) & 1 == 1
    }

    /// Whether each byte is a letter of the alphabet.
    pub fn has_all(self, letters: &[u8]) -> bool
        ensures { IsTrue result ↔ All (λ x. has_letter self x ≡ true) letters.now }
    {
        letters.iter().all(|letter| self.has(*letter))
    }

    /// The letters of both alphabets.
    pub fn union(self, other: Alphabet) -> Alphabet
        ensures { (x : ℕ) → has_letter result x ≡ (has_letter self x || has_letter other x) }
    {
        Alphabet {
            bits: self.bits | other.bits,
        }
    }
    /// The letters that are in both alphabets.
    pub fn intersection(self, other: Alphabet) -> Alphabet
        ensures { (x : ℕ) → has_letter result x ≡ (has_letter self x && has_letter other x) }
    {
        Alphabet {
            bits: self.bits & other.bits,
        }
    }

    /// The letters of this alphabet that the other one has not.
    pub fn without(self, other: Alphabet) -> Alphabet
        ensures { (x : ℕ) → has_letter result x ≡ (has_letter self x && not (has_letter other x)) }
    {
        Alphabet {
            bits: self.bits & !other.bits,
        }
    }

    /// The letters, ascending.
    pub fn letters(self) -> Ascending
        ensures { result ≡ letters_of self }
    {
        Ascending { left: self }
    }
}

/// The letters of an alphabet, ascending. A contract sees those that are left.
#[derive(Drop)]
pub struct Ascending {
    left: Alphabet,
}

impl Model for Ascending {
    ghost use Rattle.std.specs.Prelude.{ℕ, List};
    ghost use Rattle.vc_label.specs.Alphabets.{letters_of};

    ghost Value = { List ℕ };

    ghost view = { λ a. letters_of a.left };
}

impl Iterator for Ascending {
    ghost use Rattle.std.specs.Iterator.{YieldsFirst, item_count};

    type Item = u8;

    ghost next_gives = { YieldsFirst (λ rest. rest) };

    ghost remaining = { item_count (λ rest. rest) };

    fn next(&mut self) -> Option<u8> {
        if self.left.bits == 0 {
            return None;
        }
        let letter = self.left.bits.trailing_zeros() as u8;
        self.left = self.left.without(Alphabet::new().with(letter));
        Some(letter)
    }
}
