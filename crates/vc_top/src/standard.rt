//! Commands over the standard automaton of an expression.
ghost use Rattle.std.specs.Prelude.{◌≡◌, false, IfOk, length, true};
ghost use Rattle.vc_command.specs.Requests.{IsLimit};
ghost use Rattle.vc_context.specs.Sets.{tapes_of};
ghost use Rattle.vc_expr.specs.Names.{Has, tree_of};
ghost use Rattle.vc_exprio.specs.Canonical.{IsRootOver};
ghost use Rattle.vc_terms.specs.Forms.{Everywhere};
ghost use Rattle.vc_top.specs.Evaluations.{is_one};
ghost use Rattle.vc_top.specs.Expressions.{are_single};
ghost use Rattle.vc_top.specs.Outcomes.{Gives, OrMemory};
ghost use Rattle.vc_top.specs.Standards.{AnswersEvalText, AnswersEvalTextOver, AnswersStandard, AnswersStandardOver, ReadsWithStandard, WithStandard};
ghost use Rattle.vc_top.specs.Views.{answer_of, seen_by};

use crate::automata::text_of;
use crate::evaluation::{value_one, value_several};
use crate::expression::read_over;
use crate::refusal::{Place, Refusal, made_not};
use crate::word::word_over;
use std::alloc::Global;
use vc_aut::{Proper, proper_automata_are_proper};
use vc_basic::{B, F2, Nmin, Z};
use vc_context::{AnyContext, AnyLabels, Weights, labels_have_tapes, read_context};
use vc_expr::{Expr, Exprs};
use vc_label::{LabelSet, WordBuf};
use vc_rat::Q;
use vc_ring::{Semiring, Weighed};

/// The greatest number of states of an automaton that is made to evaluate a word.
const MOST_STATES: u64 = 100_000;

/// The standard automaton of an expression.
fn made<'w, L: LabelSet, S: Semiring>(
    alloc: Global,
    exprs: &Exprs<L, S>,
    labels: L,
    e: Expr,
    limit: u64,
) -> Result<Proper<L, S>, Refusal<'w>>
    requires has { Has exprs.now e }
    requires labels { Everywhere (IsRootOver (L.sets labels)) (tree_of exprs.now e) }
    requires limit { IsLimit limit }
    ensures made { OrMemory (WithStandard ⟦<S as Weighed>⟧.texts (L.sets labels) limit Gives
        (tree_of exprs.now e)) (seen_by (λ a. a) result) }
    ensures sets { IfOk result (λ a. a.sets ≡ L.sets labels) }
{
    match vc_standard::standard(alloc, exprs, labels, e, limit) {
        Ok(automaton) => {
            proper_automata_are_proper(&automaton);
            Ok(automaton)
        }
        Err(fault) => Err(made_not(fault)),
    }
}

/// The text of the standard automaton of the expression of a text, over these labels.
fn standard_over<'w, L: LabelSet, S: Semiring>(
    alloc: Global,
    context: &AnyContext,
    labels: &L,
    text: &str,
    limit: u64,
) -> Result<String, Refusal<'w>>
    requires sets { tapes_of context.now.labels ≡ L.sets labels.now }
    requires single { are_single (L.sets labels.now) ≡ L.SINGLE }
    requires limit { IsLimit limit }
    ensures { OrMemory (AnswersStandardOver ⟦<S as Weighed>⟧.texts (L.sets labels.now)
        context.now.weights text.now limit) (answer_of result) }
{
    let mut exprs = Exprs::<L, S>::new(alloc);
    let e = match read_over(alloc, &mut exprs, labels, text) {
        Ok(e) => e,
        Err(refusal) => return Err(refusal),
    };
    match made(alloc, &exprs, *labels, e, limit) {
        Ok(proper) => return text_of(alloc, context, proper.automaton()),
        Err(refusal) => return Err(refusal),
    }
}

/// The same over any labels.
fn standard_any<'w, S: Semiring>(
    alloc: Global,
    context: &AnyContext,
    text: &str,
    limit: u64,
) -> Result<String, Refusal<'w>>
    requires { IsLimit limit }
    ensures { OrMemory (AnswersStandardOver ⟦<S as Weighed>⟧.texts (tapes_of context.now.labels)
        context.now.weights text.now limit) (answer_of result) }
{
    labels_have_tapes();
    match &context.labels {
        AnyLabels::Letters(labels) => standard_over::<_, S>(alloc, context, labels, text, limit),
        AnyLabels::Nullable(labels) => standard_over::<_, S>(alloc, context, labels, text, limit),
        AnyLabels::Words(labels) => standard_over::<_, S>(alloc, context, labels, text, limit),
        AnyLabels::Tuple(labels) => standard_over::<_, S>(alloc, context, labels, text, limit),
    }
}

/// `standard C E`: the text of the standard automaton of the expression, in the context.
pub(crate) fn standard<'w>(
    alloc: Global,
    context: &[u8],
    text: &str,
    limit: u64,
) -> Result<String, Refusal<'w>>
    requires { IsLimit limit }
    ensures { OrMemory (AnswersStandard context.now text.now limit) (answer_of result) }
{
    let Ok(context) = read_context(context) else {
        return Err(Refusal::Syntax(Place::Context));
    };
    match context.weights {
        Weights::B => standard_any::<B>(alloc, &context, text, limit),
        Weights::F2 => standard_any::<F2>(alloc, &context, text, limit),
        Weights::Z => standard_any::<Z>(alloc, &context, text, limit),
        Weights::Q => standard_any::<Q>(alloc, &context, text, limit),
        Weights::Nmin => standard_any::<Nmin>(alloc, &context, text, limit),
    }
}

/// The word of the second text, and the standard automaton of the expression of the first.
fn word_and_standard<'w, L: LabelSet, S: Semiring>(
    alloc: Global,
    labels: &L,
    text: &str,
    word: &str,
) -> Result<(WordBuf, Proper<L, S>), Refusal<'w>>
    requires { are_single (L.sets labels.now) ≡ L.SINGLE }
    ensures read { OrMemory (ReadsWithStandard ⟦<S as Weighed>⟧.texts (L.sets labels.now) text.now
        word.now) (seen_by (λ p. p) result) }
    ensures sets { IfOk result (λ p. p.1.sets ≡ L.sets labels.now) }
    ensures tapes { IfOk result (λ p. length p.0 ≡ length (L.sets labels.now)) }
{
    let mut exprs = Exprs::<L, S>::new(alloc);
    let e = match read_over(alloc, &mut exprs, labels, text) {
        Ok(e) => e,
        Err(refusal) => return Err(refusal),
    };
    let word = match word_over(alloc, labels, word) {
        Ok(word) => word,
        Err(refusal) => return Err(refusal),
    };
    match made(alloc, &exprs, *labels, e, MOST_STATES) {
        Ok(proper) => return Ok((word, proper)),
        Err(refusal) => return Err(refusal),
    }
}

/// The coefficient of the expression of the first text at the word of the second, over labels of
/// one tape.
fn eval_text_one<'w, L: LabelSet, S: Semiring>(
    alloc: Global,
    labels: &L,
    text: &str,
    word: &str,
) -> Result<String, Refusal<'w>>
    requires single { are_single (L.sets labels.now) ≡ L.SINGLE }
    requires one { is_one (L.sets labels.now) ≡ true }
    ensures { OrMemory (AnswersEvalTextOver ⟦<S as Weighed>⟧.texts (L.sets labels.now) text.now
        word.now) (answer_of result) }
{
    match word_and_standard::<L, S>(alloc, labels, text, word) {
        Ok((word, proper)) => value_one(alloc, &proper, word.word()),
        Err(refusal) => Err(refusal),
    }
}

/// The same over labels of several tapes.
fn eval_text_several<'w, L: LabelSet, S: Semiring>(
    alloc: Global,
    labels: &L,
    text: &str,
    word: &str,
) -> Result<String, Refusal<'w>>
    requires single { are_single (L.sets labels.now) ≡ L.SINGLE }
    requires several { is_one (L.sets labels.now) ≡ false }
    ensures { OrMemory (AnswersEvalTextOver ⟦<S as Weighed>⟧.texts (L.sets labels.now) text.now
        word.now) (answer_of result) }
{
    match word_and_standard::<L, S>(alloc, labels, text, word) {
        Ok((word, proper)) => value_several(alloc, &proper, word.word()),
        Err(refusal) => Err(refusal),
    }
}

/// The same over any labels.
fn eval_text_any<'w, S: Semiring>(
    alloc: Global,
    labels: &AnyLabels,
    text: &str,
    word: &str,
) -> Result<String, Refusal<'w>>
    ensures { OrMemory (AnswersEvalTextOver ⟦<S as Weighed>⟧.texts (tapes_of labels.now) text.now
        word.now) (answer_of result) }
{
    labels_have_tapes();
    match labels {
        AnyLabels::Letters(labels) => eval_text_one::<_, S>(alloc, labels, text, word),
        AnyLabels::Nullable(labels) => eval_text_one::<_, S>(alloc, labels, text, word),
        AnyLabels::Words(labels) => eval_text_one::<_, S>(alloc, labels, text, word),
        AnyLabels::Tuple(labels) => eval_text_several::<_, S>(alloc, labels, text, word),
    }
}

/// `eval C E WORD`: the coefficient of the expression at the word, in the context.
pub(crate) fn eval_text<'w>(
    alloc: Global,
    context: &[u8],
    text: &str,
    word: &str,
) -> Result<String, Refusal<'w>>
    ensures { OrMemory (AnswersEvalText context.now text.now word.now) (answer_of result) }
{
    let Ok(context) = read_context(context) else {
        return Err(Refusal::Syntax(Place::Context));
    };
    match context.weights {
        Weights::B => eval_text_any::<B>(alloc, &context.labels, text, word),
        Weights::F2 => eval_text_any::<F2>(alloc, &context.labels, text, word),
        Weights::Z => eval_text_any::<Z>(alloc, &context.labels, text, word),
        Weights::Q => eval_text_any::<Q>(alloc, &context.labels, text, word),
        Weights::Nmin => eval_text_any::<Nmin>(alloc, &context.labels, text, word),
    }
}
