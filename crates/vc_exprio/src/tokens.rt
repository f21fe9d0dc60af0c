//! The parser reads a token.
ghost use Rattle.std.specs.Prelude.{true, ◌≡◌, ◌+◌, ◌<◌, ◌^◌, IfOk, Some, None, if◌then◌else◌};
ghost use Rattle.vc_exprio.specs.Flat.{put, flat_begin, flat_wanted, flat_operand, flat_step, with_factor, parser_seen};
ghost use Rattle.vc_exprio.specs.Grammar.{is_part_kind};
ghost use Rattle.vc_exprio.specs.Spelling.{is_weight_of};
ghost use Rattle.vc_exprio.specs.Steps.{weight_op};
ghost use Rattle.vc_exprio.specs.Views.{step_seen};
ghost use Rattle.vc_exprio.specs.declared.state.Phase.TheVariants.{Operand};
ghost use Rattle.vc_lex.specs.Views.{seen};
ghost use Rattle.vc_lex.specs.declared.token.TokenKind.TheVariants.{Weight};

use crate::closing::{close_level, close_weights, read_and, read_plus, read_shuffle};
use crate::state::{Level, Parser, Phase};
use crate::step::Step;
use std::alloc::AllocError;
use vc_lex::{Token, TokenKind};
use vc_ring::{NumberFault, Semiring};
use vc_text::inside;

/// Whether the token is a weight of the weight set.
fn is_weight<S: Semiring>(token: Token<'_>) -> bool
    ensures { result ≡ is_weight_of S.spelled (seen token.entry) }
{
    !matches!(S::read(inside(token.text)), Err(NumberFault::Bad))
}

fn is_part(kind: TokenKind) -> bool
    ensures { result ≡ is_part_kind kind }
{
    matches!(kind, TokenKind::Letter | TokenKind::Quoted | TokenKind::One)
}

/// An operand of one step.
fn put<'t>(parser: &mut Parser<'t>, step: Step<'t>, phase: Phase) -> Result<bool, AllocError>
    ensures { IfOk result (λ went. (went ≡ true) × (parser_seen parser.new ≡ put (parser_seen parser.old) (step_seen step.entry) phase)) }
{
    parser.steps.push(step)?;
    parser.phase = phase;
    Ok(true)
}

/// The first token of an operand. False where none can begin with it.
fn begin<'t>(parser: &mut Parser<'t>, token: Token<'t>) -> Result<bool, AllocError>
    ensures { IfOk result (λ went. flat_begin (parser_seen parser.old) (seen token.entry) token.entry.kind ≡ (if went then Some (parser_seen parser.new) else None)) }
{
    match token.kind {
        TokenKind::Zero => put(parser, Step::Zero, Phase::Operand),
        TokenKind::One | TokenKind::Letter | TokenKind::Quoted => {
            put(parser, Step::Part(token), Phase::Label)
        }
        TokenKind::Class => put(parser, Step::Class(token), Phase::Operand),
        TokenKind::Left => {
            parser.outer.push(parser.level)?;
            parser.level = Level {
                members: 0,
                shuffled: false,
                conjunct: false,
                weights: parser.pending.len(),
                factors: 0,
            };
            parser.phase = Phase::Wanted;
            Ok(true)
        }
        _ => Ok(false),
    }
}

/// A weight before an operand. False where it is no weight of the weight set.
fn weigh_before<'t, S: Semiring>(
    parser: &mut Parser<'t>,
    token: Token<'t>,
) -> Result<bool, AllocError>
    ensures { IfOk result (λ went. flat_wanted (is_weight_of S.spelled) (parser_seen parser.old) (seen token.entry) Weight ≡ (if went then Some (parser_seen parser.new) else None)) }
{
    if !is_weight::<S>(token) {
        return Ok(false);
    }
    parser.pending.push(token)?;
    parser.phase = Phase::Wanted;
    Ok(true)
}

/// A token where an operand is wanted. False where it cannot stand there.
fn read_wanted<'t, S: Semiring>(
    parser: &mut Parser<'t>,
    token: Token<'t>,
) -> Result<bool, AllocError>
    ensures { IfOk result (λ went. flat_wanted (is_weight_of S.spelled) (parser_seen parser.old) (seen token.entry) token.entry.kind ≡ (if went then Some (parser_seen parser.new) else None)) }
{
    match token.kind {
        TokenKind::Weight => weigh_before::<S>(parser, token),
        _ => begin(parser, token),
    }
}

/// A weight after an operand. False where it is no weight of the weight set.
fn weigh_after<'t, S: Semiring>(
    parser: &mut Parser<'t>,
    token: Token<'t>,
) -> Result<bool, AllocError>
    ensures { IfOk result (λ went. (if is_weight_of S.spelled (seen token.entry) then Some (put (parser_seen parser.old) (weight_op (seen token.entry)) Operand) else None) ≡ (if went then Some (parser_seen parser.new) else None)) }
{
    if !is_weight::<S>(token) {
        return Ok(false);
    }
    put(parser, Step::Weight(token), Phase::Operand)
}

/// One more factor of a product.
fn next_factor<'t>(parser: &mut Parser<'t>, token: Token<'t>) -> Result<bool, AllocError>
    requires { parser.old.level.factors + 1 < 2 ^ 64 }
    ensures { IfOk result (λ went. flat_begin (with_factor (parser_seen parser.old)) (seen token.entry) token.entry.kind ≡ (if went then Some (parser_seen parser.new) else None)) }
{
    close_weights(parser)?;
    parser.level.factors += 1;
    parser.phase = Phase::Wanted;
    begin(parser, token)
}

/// A token after an operand. False where it cannot stand there.
fn read_after<'t, S: Semiring>(
    parser: &mut Parser<'t>,
    is_label: bool,
    token: Token<'t>,
) -> Result<bool, AllocError>
    requires factors { parser.old.level.factors + 1 < 2 ^ 64 }
    requires members { parser.old.level.members + 1 < 2 ^ 64 }
    ensures { IfOk result (λ went. flat_operand (is_weight_of S.spelled) (parser_seen parser.old) is_label (seen token.entry) token.entry.kind ≡ (if went then Some (parser_seen parser.new) else None)) }
{
    match token.kind {
        TokenKind::Star => put(parser, Step::Star, Phase::Operand),
        TokenKind::Weight => weigh_after::<S>(parser, token),
        TokenKind::And => read_and(parser),
        TokenKind::Shuffle => read_shuffle(parser),
        TokenKind::Plus => read_plus(parser),
        TokenKind::Right => close_level(parser),
        TokenKind::Bar => {
            if is_label {
                parser.phase = Phase::Barred;
            }
            Ok(is_label)
        }
        _ => next_factor(parser, token),
    }
}

/// The next token. False where it cannot stand there.
pub(crate) fn read_token<'t, S: Semiring>(
    parser: &mut Parser<'t>,
    token: Token<'t>,
) -> Result<bool, AllocError>
    requires factors { parser.old.level.factors + 1 < 2 ^ 64 }
    requires members { parser.old.level.members + 1 < 2 ^ 64 }
    ensures { IfOk result (λ went. flat_step (is_weight_of S.spelled) (parser_seen parser.old) (seen token.entry) ≡ (if went then Some (parser_seen parser.new) else None)) }
{
    match parser.phase {
        Phase::Wanted => read_wanted::<S>(parser, token),
        Phase::Label => read_after::<S>(parser, true, token),
        Phase::Operand => read_after::<S>(parser, false, token),
        Phase::Barred => {
            if !is_part(token.kind) {
                return Ok(false);
            }
            put(parser, Step::More(token), Phase::Label)
        }
    }
}
