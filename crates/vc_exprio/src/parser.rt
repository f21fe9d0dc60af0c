//! The parser of expressions, from their tokens to the steps that make them.
ghost use Rattle.std.specs.Prelude.{◌≡◌, map, IfOk};
ghost use Rattle.vc_exprio.specs.Flat.{is_read};
ghost use Rattle.vc_exprio.specs.Readings.{IsParsed};
ghost use Rattle.vc_exprio.specs.Spelling.{is_weight_of};
ghost use Rattle.vc_lex.specs.Views.{seen};

use crate::closing::close_sum;
use crate::state::{Level, Parser, Phase};
use crate::step::Step;
use crate::tokens::read_token;
use std::alloc::{AllocError, Global};
use vc_lex::Token;
use vc_ring::Semiring;

/// What tokens are.
#[derive(Drop)]
pub(crate) enum Parsed<'t> {
    /// An expression: the steps that make it.
    Steps(Vec<Step<'t>>),
    /// None, with the place of the first token after the longest front with which an expression can begin, or of the
    /// text's end.
    Fault(usize),
}

/// Whether an operand was read.
fn is_read(phase: Phase) -> bool
    ensures { result ≡ is_read phase }
{
    matches!(phase, Phase::Label | Phase::Operand)
}

/// The tree of tokens, as steps. The text ends at `end`.
pub(crate) fn parse<'t, S: Semiring>(
    alloc: Global,
    tokens: &[Token<'t>],
    end: usize,
) -> Result<Parsed<'t>, AllocError>
    ensures { IfOk result (λ parsed. IsParsed (is_weight_of S.spelled) end (map seen tokens.now) parsed) }
{
    let mut parser = Parser {
        steps: Vec::new(alloc),
        outer: Vec::new(alloc),
        pending: Vec::new(alloc),
        level: Level {
            members: 0,
            shuffled: false,
            conjunct: false,
            weights: 0,
            factors: 0,
        },
        phase: Phase::Wanted,
    };
    for token in tokens {
        if !read_token::<S>(&mut parser, *token)? {
            return Ok(Parsed::Fault(token.at));
        }
    }
    if !parser.outer.is_empty() {
        return Ok(Parsed::Fault(end));
    }
    if !is_read(parser.phase) {
        return Ok(Parsed::Fault(end));
    }
    close_sum(&mut parser)?;
    Ok(Parsed::Steps(parser.steps))
}
