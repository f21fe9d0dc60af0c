//! Commands over a context and the text of an expression.
ghost use Rattle.std.specs.Prelude.{◌≡◌, ◌++◌, ◌∷◌, [], IfOk, string_bytes};
ghost use Rattle.vc_context.specs.Sets.{tapes_of};
ghost use Rattle.vc_expr.specs.Names.{Has, tree_of};
ghost use Rattle.vc_exprio.specs.Canonical.{expression_text, IsRootOver};
ghost use Rattle.vc_terms.specs.Forms.{Everywhere};
ghost use Rattle.vc_top.specs.Expressions.{AnswersExpr, AnswersExprOver, ReadsExpression, are_single};
ghost use Rattle.vc_top.specs.Outcomes.{OrMemory};
ghost use Rattle.vc_top.specs.Reasons.{reason_of};
ghost use Rattle.vc_top.specs.Views.{answer_of, seen_by, text_fault_reason};

use crate::refusal::{Bound, Place, Refusal};
use std::alloc::{AllocError, Global};
use vc_basic::{B, F2, Nmin, Z};
use vc_context::{AnyLabels, Weights, labels_have_tapes, read_context};
use vc_expr::{Expr, Exprs, stores_are_valid};
use vc_exprio::{
    TextFault, canonical_texts_are_read, read_expr, read_expressions_have_their_series, write_expr,
};
use vc_label::LabelSet;
use vc_rat::Q;
use vc_ring::{Semiring, Weighed};

/// The refusal of a text that gives no expression.
fn refusal_of<'w, V: Drop>(fault: TextFault<V>) -> Refusal<'w>
    ensures { reason_of result ≡ text_fault_reason fault }
{
    match fault {
        TextFault::Limit(limit) => Refusal::Limit(Bound::Of(limit.what)),
        TextFault::BadByte { at } => Refusal::Syntax(Place::Expression { at }),
        TextFault::NotAnExpression { at } => Refusal::Syntax(Place::Expression { at }),
        TextFault::NotALabel { at } => Refusal::NotALabel(Place::Expression { at }),
        TextFault::NotInContext { .. } => Refusal::Contexts,
        TextFault::InvalidStar { .. } => Refusal::InvalidStar,
        TextFault::Overflow(_) => Refusal::Overflow,
        TextFault::Memory(_) => Refusal::Memory,
    }
}

/// The expression of a text, in a store that is still empty or not.
pub(crate) fn read_over<'w, L: LabelSet, S: Semiring>(
    alloc: Global,
    exprs: &mut Exprs<L, S>,
    labels: &L,
    text: &str,
) -> Result<Expr, Refusal<'w>>
    requires { are_single (L.sets labels.now) ≡ L.SINGLE }
    ensures has { IfOk result (λ e. Has exprs.new e) }
    ensures labels { IfOk result (λ e. Everywhere (IsRootOver (L.sets labels.now)) (tree_of
        exprs.new e)) }
    ensures read { OrMemory (ReadsExpression ⟦<S as Weighed>⟧.texts (L.sets labels.now) text.now)
        (seen_by (tree_of exprs.new) result) }
{
    read_expressions_have_their_series::<S::Value>();
    match read_expr(alloc, exprs, labels, text) {
        Ok(e) => Ok(e),
        Err(fault) => Err(refusal_of(fault)),
    }
}

/// The canonical text of an expression, and a line feed.
fn line_of<L: LabelSet, S: Semiring>(
    alloc: Global,
    exprs: &Exprs<L, S>,
    labels: &L,
    e: Expr,
) -> Result<String, AllocError>
    requires has { Has exprs.now e }
    requires labels { Everywhere (IsRootOver (L.sets labels.now)) (tree_of exprs.now e) }
    ensures { IfOk result (λ text. string_bytes text ≡ expression_text S.canonical (tree_of
        exprs.now e) ++ 10 ∷ []) }
{
    let mut text = String::new(alloc);
    write_expr(alloc, exprs, labels, e, &mut text)?;
    text.push('\n')?;
    Ok(text)
}

/// The canonical text of the expression of a text, over these labels.
fn expr_over<'w, L: LabelSet, S: Semiring>(
    alloc: Global,
    labels: &L,
    text: &str,
) -> Result<String, Refusal<'w>>
    requires { are_single (L.sets labels.now) ≡ L.SINGLE }
    ensures { OrMemory (AnswersExprOver ⟦<S as Weighed>⟧.texts (L.sets labels.now) text.now)
        (answer_of result) }
{
    let mut exprs = Exprs::<L, S>::new(alloc);
    let e = match read_over(alloc, &mut exprs, labels, text) {
        Ok(e) => e,
        Err(refusal) => return Err(refusal),
    };
    stores_are_valid(&exprs);
    canonical_texts_are_read::<S::Value>();
    match line_of(alloc, &exprs, labels, e) {
        Ok(line) => Ok(line),
        Err(_) => Err(Refusal::Memory),
    }
}

/// The same over any labels.
fn expr_any<'w, S: Semiring>(
    alloc: Global,
    labels: &AnyLabels,
    text: &str,
) -> Result<String, Refusal<'w>>
    ensures { OrMemory (AnswersExprOver ⟦<S as Weighed>⟧.texts (tapes_of labels.now) text.now)
        (answer_of result) }
{
    labels_have_tapes();
    match labels {
        AnyLabels::Letters(labels) => expr_over::<_, S>(alloc, labels, text),
        AnyLabels::Nullable(labels) => expr_over::<_, S>(alloc, labels, text),
        AnyLabels::Words(labels) => expr_over::<_, S>(alloc, labels, text),
        AnyLabels::Tuple(labels) => expr_over::<_, S>(alloc, labels, text),
    }
}

/// `expr C E`: the canonical text of the expression, in the context.
pub(crate) fn expr<'w>(alloc: Global, context: &[u8], text: &str) -> Result<String, Refusal<'w>>
    ensures { OrMemory (AnswersExpr context.now text.now) (answer_of result) }
{
    let Ok(context) = read_context(context) else {
        return Err(Refusal::Syntax(Place::Context));
    };
    match context.weights {
        Weights::B => expr_any::<B>(alloc, &context.labels, text),
        Weights::F2 => expr_any::<F2>(alloc, &context.labels, text),
        Weights::Z => expr_any::<Z>(alloc, &context.labels, text),
        Weights::Q => expr_any::<Q>(alloc, &context.labels, text),
        Weights::Nmin => expr_any::<Nmin>(alloc, &context.labels, text),
    }
}
