//! The parser makes what an operand ends: products, conjunctions, shuffles and sums.
ghost use Rattle.std.specs.Prelude.{true, false, ◌≡◌, ◌+◌, ◌<◌, ◌^◌, IfOk, OnOk, Some, None, if◌then◌else◌};
ghost use Rattle.vc_exprio.specs.Flat.{weights_closed, product_closed, conjunction_closed, shuffle_closed, sum_closed, flat_closed_in, last_level, moved, level_with, parser_seen};
ghost use Rattle.vc_exprio.specs.declared.state.Phase.TheVariants.{Wanted};

use crate::state::{Parser, Phase};
use crate::step::Step;
use std::alloc::AllocError;

/// The weights before the first factor: the last one comes first.
pub(crate) fn close_weights(parser: &mut Parser<'_>) -> Result<(), AllocError>
    ensures { OnOk result (parser_seen parser.new ≡ weights_closed (parser_seen parser.old)) }
{
    while parser.pending.len() > parser.level.weights {
        let Some(weight) = parser.pending.pop() else {
            return Ok(());
        };
        parser.steps.push(Step::Weight(weight))?;
    }
    Ok(())
}

fn close_product(parser: &mut Parser<'_>) -> Result<(), AllocError>
    requires { parser.old.level.factors + 1 < 2 ^ 64 }
    ensures { OnOk result (parser_seen parser.new ≡ product_closed (parser_seen parser.old)) }
{
    let factors = parser.level.factors;
    close_weights(parser)?;
    if factors != 0 {
        parser.steps.push(Step::Product(factors + 1))?;
    }
    Ok(())
}

fn close_conjunction(parser: &mut Parser<'_>) -> Result<(), AllocError>
    requires { parser.old.level.factors + 1 < 2 ^ 64 }
    ensures { OnOk result (parser_seen parser.new ≡ conjunction_closed (parser_seen parser.old)) }
{
    let conjunct = parser.level.conjunct;
    close_product(parser)?;
    if conjunct {
        parser.steps.push(Step::And)?;
    }
    Ok(())
}

fn close_shuffle(parser: &mut Parser<'_>) -> Result<(), AllocError>
    requires { parser.old.level.factors + 1 < 2 ^ 64 }
    ensures { OnOk result (parser_seen parser.new ≡ shuffle_closed (parser_seen parser.old)) }
{
    let shuffled = parser.level.shuffled;
    close_conjunction(parser)?;
    if shuffled {
        parser.steps.push(Step::Shuffle)?;
    }
    Ok(())
}

pub(crate) fn close_sum(parser: &mut Parser<'_>) -> Result<(), AllocError>
    requires factors { parser.old.level.factors + 1 < 2 ^ 64 }
    requires members { parser.old.level.members + 1 < 2 ^ 64 }
    ensures { OnOk result (parser_seen parser.new ≡ sum_closed (parser_seen parser.old)) }
{
    let members = parser.level.members;
    close_shuffle(parser)?;
    if members != 0 {
        parser.steps.push(Step::Sum(members + 1))?;
    }
    Ok(())
}

/// `&` after an operand.
pub(crate) fn read_and(parser: &mut Parser<'_>) -> Result<bool, AllocError>
    requires { parser.old.level.factors + 1 < 2 ^ 64 }
    ensures { IfOk result (λ went. (went ≡ true) × (let f = parser_seen parser.old in parser_seen parser.new ≡ moved (conjunction_closed f) (level_with f.level.members f.level.shuffled true f.level.weights 0) Wanted)) }
{
    close_conjunction(parser)?;
    parser.level.conjunct = true;
    parser.level.factors = 0;
    parser.phase = Phase::Wanted;
    Ok(true)
}

/// `:` after an operand.
pub(crate) fn read_shuffle(parser: &mut Parser<'_>) -> Result<bool, AllocError>
    requires { parser.old.level.factors + 1 < 2 ^ 64 }
    ensures { IfOk result (λ went. (went ≡ true) × (let f = parser_seen parser.old in parser_seen parser.new ≡ moved (shuffle_closed f) (level_with f.level.members true false f.level.weights 0) Wanted)) }
{
    close_shuffle(parser)?;
    parser.level.shuffled = true;
    parser.level.conjunct = false;
    parser.level.factors = 0;
    parser.phase = Phase::Wanted;
    Ok(true)
}

/// `+` after an operand.
pub(crate) fn read_plus(parser: &mut Parser<'_>) -> Result<bool, AllocError>
    requires factors { parser.old.level.factors + 1 < 2 ^ 64 }
    requires members { parser.old.level.members + 1 < 2 ^ 64 }
    ensures { IfOk result (λ went. (went ≡ true) × (let f = parser_seen parser.old in parser_seen parser.new ≡ moved (shuffle_closed f) (level_with (f.level.members + 1) false false f.level.weights 0) Wanted)) }
{
    close_shuffle(parser)?;
    parser.level.members += 1;
    parser.level.shuffled = false;
    parser.level.conjunct = false;
    parser.level.factors = 0;
    parser.phase = Phase::Wanted;
    Ok(true)
}

/// The parenthesis that closes a level. False where none is open.
pub(crate) fn close_level(parser: &mut Parser<'_>) -> Result<bool, AllocError>
    requires factors { parser.old.level.factors + 1 < 2 ^ 64 }
    requires members { parser.old.level.members + 1 < 2 ^ 64 }
    ensures { IfOk result (λ went. flat_closed_in (sum_closed (parser_seen parser.old)) (last_level (parser_seen parser.old).outer) ≡ (if went then Some (parser_seen parser.new) else None)) }
{
    close_sum(parser)?;
    let Some(level) = parser.outer.pop() else {
        return Ok(false);
    };
    parser.steps.push(Step::Group)?;
    parser.level = level;
    parser.phase = Phase::Operand;
    Ok(true)
}
