ghost use Rattle.std.specs.Prelude.{◌≡◌, ◌<◌, ◌≤◌, [], ◌∷◌, ◌++◌, length, OnOk, OnErr, IsTrue, replicate, true};
ghost use Rattle.vc_label.specs.Letters.{is_letter, are_letters};
ghost use Rattle.vc_label.specs.Growth.{grown};
ghost use Rattle.vc_model.specs.Words.{empty_word, join};

use crate::extend::{extend_three, extend_two};
use crate::word::Word;
use std::alloc::{AllocError, Global};
use std::marker::Model;

/// The tapes of a word that grows.
#[derive(Drop)]
enum Lists {
    One(Vec<u8>),
    Two(Vec<u8>, Vec<u8>),
    Three(Vec<u8>, Vec<u8>, Vec<u8>),
    Four(Vec<u8>, Vec<u8>, Vec<u8>, Vec<u8>),
}

/// An owned word that grows: one to four tapes, each a list of letters.
#[derive(Drop)]
pub struct WordBuf {
    lists: Lists,
}

impl Model for WordBuf {
    ghost use Rattle.std.specs.Prelude.{IsTrue};
    ghost use Rattle.vc_model.specs.Words.{Word};
    ghost use Rattle.vc_label.specs.Letters.{is_of_letters};
    ghost use Rattle.vc_label.specs.Owned.{word_in};

    ghost Value = { Word };

    ghost view = { λ b. word_in b.lists };

    ghost invariant = { λ b. IsTrue (is_of_letters (word_in b.lists)) };
}

impl WordBuf {
    ghost use Rattle.vc_label.specs.Borrowed.{word_of};

    /// The empty word of 1 to 4 tapes. It takes no memory.
    pub fn new(alloc: Global, tapes: usize) -> WordBuf
        requires low { 1 ≤ tapes }
        requires high { tapes ≤ 4 }
        ensures { result ≡ empty_word tapes }
    {
        let lists = match tapes {
            1 => Lists::One(Vec::new(alloc)),
            2 => Lists::Two(Vec::new(alloc), Vec::new(alloc)),
            3 => Lists::Three(Vec::new(alloc), Vec::new(alloc), Vec::new(alloc)),
            _ => Lists::Four(
                Vec::new(alloc),
                Vec::new(alloc),
                Vec::new(alloc),
                Vec::new(alloc),
            ),
        };
        WordBuf { lists }
    }

    /// Appends a letter to a tape.
    #[tactic(auto, using(crate::proofs::Letters::are_letters_push))]
    pub fn push(&mut self, tape: usize, letter: u8) -> Result<(), AllocError>
        requires exists { tape < length self.old }
        requires letter { IsTrue (is_letter letter) }
        ensures ok { OnOk result (self.new ≡ grown self.old tape (letter ∷ [])) }
        ensures err { OnErr result (self.new ≡ self.old) }
    {
        match (&mut self.lists, tape) {
            (Lists::One(a), _) => return Ok(a.push(letter)?),
            (Lists::Two(a, _), 0) => return Ok(a.push(letter)?),
            (Lists::Two(_, b), _) => return Ok(b.push(letter)?),
            (Lists::Three(a, _, _), 0) => return Ok(a.push(letter)?),
            (Lists::Three(_, b, _), 1) => return Ok(b.push(letter)?),
            (Lists::Three(_, _, c), _) => return Ok(c.push(letter)?),
            (Lists::Four(a, _, _, _), 0) => return Ok(a.push(letter)?),
            (Lists::Four(_, b, _, _), 1) => return Ok(b.push(letter)?),
            (Lists::Four(_, _, c, _), 2) => return Ok(c.push(letter)?),
            (Lists::Four(_, _, _, d), _) => return Ok(d.push(letter)?),
        }
    }

    /// Appends a word of as many tapes, each of its tapes to the tape of the same place.
    #[tactic(auto, using(crate::proofs::Letters::are_letters_append))]
    pub fn append(&mut self, word: Word<'_>) -> Result<(), AllocError>
        requires { length self.old ≡ length (word_of word) }
        ensures ok { OnOk result (self.new ≡ join self.old (word_of word.entry)) }
        ensures err { OnErr result (self.new ≡ self.old) }
    {
        match &mut self.lists {
            Lists::One(a) => return Ok(a.extend_from_slice(word.tape(0))?),
            Lists::Two(a, b) => return extend_two(a, b, word.tape(0), word.tape(1)),
            Lists::Three(a, b, c) => {
                return extend_three(a, b, c, word.tape(0), word.tape(1), word.tape(2));
            }
            Lists::Four(a, b, c, d) => {
                a.reserve(word.tape(0).len())?;
                extend_three(b, c, d, word.tape(1), word.tape(2), word.tape(3))?;
                return Ok(a.extend_from_slice(word.tape(0))?);
            }
        }
    }

    /// The word, lent.
    pub fn word(&self) -> Word<'_>
        ensures { word_of result ≡ self.now }
    {
        match &self.lists {
            Lists::One(a) => Word::one(a),
            Lists::Two(a, b) => Word::two(a, b),
            Lists::Three(a, b, c) => Word::three(a, b, c),
            Lists::Four(a, b, c, d) => Word::four(a, b, c, d),
        }
    }
}
