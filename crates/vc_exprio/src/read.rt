//! What the text of an expression is, before its labels are looked at.
ghost use Rattle.std.specs.Prelude.{IfOk};
ghost use Rattle.vc_exprio.specs.Readings.{IsReading};
ghost use Rattle.vc_exprio.specs.Spelling.{is_weight_of};

use crate::depth::depth_of;
use crate::parser::{Parsed, parse};
use crate::step::Step;
use std::alloc::{AllocError, Global};
use vc_lex::{Mode, Token, cut_tokens, texts_have_their_tokens};
use vc_ring::Semiring;

/// What the text of an expression is.
#[derive(Drop)]
pub(crate) enum Reading<'t> {
    /// It has more than 65,536 bytes.
    TooLong,
    /// No token begins at the byte at this place, which is the first such byte.
    BadByte(usize),
    /// Its tokens are no expression: the place of the first token after the longest front with which an expression can
    /// begin, or the length of the text.
    NotAnExpression(usize),
    /// The depth of its tree is more than 1,000.
    TooDeep,
    /// It spells a tree: its tokens, and the steps that make the tree.
    Steps(Vec<Token<'t>>, Vec<Step<'t>>),
}

/// The tree that a text spells, as steps.
pub(crate) fn read_steps<'t, S: Semiring>(
    alloc: Global,
    text: &'t [u8],
) -> Result<Reading<'t>, AllocError>
    ensures { IfOk result (λ reading. IsReading (is_weight_of S.spelled) text.now reading) }
{
    texts_have_their_tokens();
    if text.len() > 65_536 {
        return Ok(Reading::TooLong);
    }
    let mut tokens = Vec::new(alloc);
    if let Some(bad) = cut_tokens(text, Mode::Expression, &mut tokens)? {
        return Ok(Reading::BadByte(bad.at));
    }
    match parse::<S>(alloc, &tokens, text.len())? {
        Parsed::Fault(at) => return Ok(Reading::NotAnExpression(at)),
        Parsed::Steps(steps) => {
            if depth_of(alloc, &steps)? > 1_000 {
                return Ok(Reading::TooDeep);
            }
            return Ok(Reading::Steps(tokens, steps));
        }
    }
}
