//! Expressions from their texts.
ghost use Rattle.std.specs.Prelude.{◌≤◌, ℕ, List, IfOk, length, map};
ghost use Rattle.vc_expr.specs.Names.{Grows, tree_of};
ghost use Rattle.vc_exprio.specs.Canonical.{IsRootOver};
ghost use Rattle.vc_exprio.specs.Readings.{HasSteps};
ghost use Rattle.vc_exprio.specs.Spelling.{is_weight_of};
ghost use Rattle.vc_exprio.specs.TextAnswers.{IsTextAnswer, IsOperatorOutside};
ghost use Rattle.vc_lex.specs.Views.{seen};
ghost use Rattle.vc_terms.specs.Forms.{Everywhere};

use crate::build::build;
use crate::fault::TextFault;
use crate::labels::first_outside;
use crate::laws::steps_make_expressions;
use crate::places::{first_operator, first_unfit};
use crate::read::{Reading, read_steps};
use crate::step::Step;
use std::alloc::Global;
use vc_expr::{Expr, Exprs, names_keep_their_trees};
use vc_label::{LabelSet, alphabets_are_sets};
use vc_lex::Token;
use vc_ring::{Limit, Measure, Overflow, Semiring, Weighed};

/// The place of the first `&` or `:` where labels are not of single letters.
fn operator_outside<L: LabelSet>(tokens: &[Token<'_>]) -> Option<usize>
    ensures { IsOperatorOutside L.SINGLE (map seen tokens.now) result }
{
    if L::SINGLE {
        return None;
    }
    first_operator(tokens)
}

/// The expression of the tokens and steps of a text.
fn read_tree<L: LabelSet, S: Semiring>(
    alloc: Global,
    exprs: &mut Exprs<L, S>,
    labels: &L,
    tokens: &[Token<'_>],
    steps: &[Step<'_>],
) -> Result<Expr, TextFault<S::Value>>
    requires { (text : List ℕ) × HasSteps (is_weight_of S.spelled) text tokens.now steps.now }
    ensures answer { (text : List ℕ) → length text ≤ 65536 → HasSteps (is_weight_of S.spelled) text tokens.now steps.now
        → IsTextAnswer ⟦<S as Weighed>⟧.texts L.SINGLE (L.sets labels.now) text exprs.new result }
    ensures grows { Grows exprs.old exprs.new }
    ensures labels { IfOk result (λ e. Everywhere (IsRootOver (L.sets labels.now)) (tree_of exprs.new e)) }
{
    steps_make_expressions::<S::Value>();
    names_keep_their_trees::<S::Value>();
    alphabets_are_sets();
    if let Some(at) = first_outside(alloc, labels, steps)? {
        return Err(TextFault::NotALabel { at });
    }
    if let Some(at) = operator_outside::<L>(tokens) {
        return Err(TextFault::NotInContext { at });
    }
    if let Some(at) = first_unfit::<S>(tokens) {
        return Err(TextFault::Overflow(Overflow::Numeral { at }));
    }
    build(alloc, exprs, labels, steps)
}

/// The expression that a text spells, built in a store. Parts are built before the whole and from
/// left to right. It takes memory for the text's tokens and steps, and no recursion.
pub fn read_expr<L: LabelSet, S: Semiring>(
    alloc: Global,
    exprs: &mut Exprs<L, S>,
    labels: &L,
    text: &str,
) -> Result<Expr, TextFault<S::Value>>
    ensures answer { IsTextAnswer ⟦<S as Weighed>⟧.texts L.SINGLE (L.sets labels.now) text.now exprs.new result }
    ensures grows { Grows exprs.old exprs.new }
    ensures labels { IfOk result (λ e. Everywhere (IsRootOver (L.sets labels.now)) (tree_of exprs.new e)) }
{
    match read_steps::<S>(alloc, text.as_bytes())? {
        Reading::TooLong => {
            return Err(TextFault::Limit(Limit {
                what: Measure::Bytes,
                most: 65_536,
            }));
        }
        Reading::BadByte(at) => return Err(TextFault::BadByte { at }),
        Reading::NotAnExpression(at) => return Err(TextFault::NotAnExpression { at }),
        Reading::TooDeep => {
            return Err(TextFault::Limit(Limit {
                what: Measure::Depth,
                most: 1_000,
            }));
        }
        Reading::Steps(tokens, steps) => return read_tree(alloc, exprs, labels, &tokens, &steps),
    }
}
