//! The coefficient of an automaton at a word.
ghost use Rattle.std.specs.Prelude.{◌≡◌, ◌++◌, ◌∷◌, [], false, IfOk, IsTrue, length, None, Option, Some, string_bytes, true};
ghost use Rattle.vc_eval.specs.Cells.{cells_refusal, tuple_refusal};
ghost use Rattle.vc_label.specs.Borrowed.{word_of};
ghost use Rattle.vc_model.specs.Automata.{Automaton as Graph};
ghost use Rattle.vc_model.specs.Words.{Word as Letters};
ghost use Rattle.vc_ring.specs.declared.faults.MakeFault.{MakeFault as Cause};
ghost use Rattle.vc_top.specs.Evaluations.{AnswersEval, AnswersEvalOver, AnswersSteps, AnswersWord, IsCoefficient, ReadsWithProper, is_one};
ghost use Rattle.vc_top.specs.Outcomes.{OrMemory};
ghost use Rattle.vc_top.specs.Refused.{UnlessCause};
ghost use Rattle.vc_top.specs.Views.{answer_of, input_of, labelled_of, seen_by};

use crate::input::{AnyInput, AnyOf};
use crate::operation::closed;
use crate::refusal::{Refusal, made_not};
use crate::word::word_over;
use std::alloc::{AllocError, Global};
use vc_aut::{Automaton, Proper};
use vc_context::labels_have_tapes;
use vc_eval::{Evaluator, eval_tuple};
use vc_label::{LabelSet, Word, WordBuf};
use vc_ring::{MakeFault, Semiring, Weighed};
use vc_tuple::Tuple;

/// The text of a weight, and a line feed.
fn line_of<S: Semiring>(alloc: Global, weight: S::Value) -> Result<String, AllocError>
    requires { IsTrue (S.set.in_range weight) }
    ensures { IfOk result (λ text. string_bytes text ≡ S.canonical weight ++ 10 ∷ []) }
{
    let mut text = String::new(alloc);
    S::write(weight, &mut text)?;
    text.push('\n')?;
    Ok(text)
}

/// The answer for a coefficient, or for why there is none.
fn answer_with<'w, S: Semiring>(
    alloc: Global,
    coefficient: Result<S::Value, MakeFault<S::Value>>,
) -> Result<String, Refusal<'w>>
    requires { IfOk coefficient (λ v. IsTrue (S.set.in_range v)) }
    ensures { (cause : Option (Cause S.Value)) (automaton : Graph S.Value) (word : Letters) → IsCoefficient S.set cause automaton word coefficient
        → OrMemory (UnlessCause cause (AnswersSteps ⟦<S as Weighed>⟧.texts automaton word)) (answer_of result) }
{
    let weight = match coefficient {
        Ok(weight) => weight,
        Err(fault) => return Err(made_not(fault)),
    };
    match line_of::<S>(alloc, weight) {
        Ok(text) => Ok(text),
        Err(_) => Err(Refusal::Memory),
    }
}

/// The coefficient of an automaton of one tape at a word.
fn eval_one_tape<L: LabelSet, S: Semiring>(
    alloc: Global,
    automaton: &Proper<L, S>,
    word: Word<'_>,
) -> Result<S::Value, MakeFault<S::Value>>
    requires sets { length automaton.now.sets ≡ 1 }
    requires word { length (word_of word) ≡ 1 }
    ensures in_range { IfOk result (λ v. IsTrue (S.set.in_range v)) }
    ensures answer { IsCoefficient S.set (cells_refusal automaton.now.automaton)
        automaton.now.automaton (word_of word.entry) result }
{
    let mut evaluator = match Evaluator::new(alloc, automaton) {
        Ok(evaluator) => evaluator,
        Err(fault) => return Err(fault),
    };
    match evaluator.eval(word) {
        Ok(coefficient) => Ok(coefficient),
        Err(step) => Err(MakeFault::Overflow(step)),
    }
}

/// The answer for the coefficient of an automaton of one tape at a word.
pub(crate) fn value_one<'w, L: LabelSet, S: Semiring>(
    alloc: Global,
    automaton: &Proper<L, S>,
    word: Word<'_>,
) -> Result<String, Refusal<'w>>
    requires one { is_one automaton.now.sets ≡ true }
    requires tapes { length (word_of word) ≡ length automaton.now.sets }
    ensures { OrMemory (AnswersWord ⟦<S as Weighed>⟧.texts automaton.now (word_of word.entry))
        (answer_of result) }
{
    answer_with::<S>(alloc, eval_one_tape(alloc, automaton, word))
}

/// The answer for the coefficient of an automaton of several tapes at a word.
pub(crate) fn value_several<'w, L: LabelSet, S: Semiring>(
    alloc: Global,
    automaton: &Proper<L, S>,
    word: Word<'_>,
) -> Result<String, Refusal<'w>>
    requires several { is_one automaton.now.sets ≡ false }
    requires tapes { length (word_of word) ≡ length automaton.now.sets }
    ensures { OrMemory (AnswersWord ⟦<S as Weighed>⟧.texts automaton.now (word_of word.entry))
        (answer_of result) }
{
    answer_with::<S>(alloc, eval_tuple(alloc, automaton, word))
}

/// The word of a text over the labels of an automaton, and the automaton without empty labels.
fn word_and_proper<'w, L: LabelSet, S: Semiring>(
    alloc: Global,
    automaton: Automaton<L, S>,
    text: &str,
) -> Result<(WordBuf, Proper<L, S>), Refusal<'w>>
    ensures read { OrMemory (ReadsWithProper ⟦<S as Weighed>⟧.texts S.ABSORBS automaton text.now)
        (seen_by (λ p. p) result) }
    ensures sets { IfOk result (λ p. p.1.sets ≡ automaton.sets) }
    ensures tapes { IfOk result (λ p. length p.0 ≡ length automaton.sets) }
{
    let word = match word_over(alloc, automaton.labels(), text) {
        Ok(word) => word,
        Err(refusal) => return Err(refusal),
    };
    match closed(alloc, &automaton) {
        Ok(proper) => return Ok((word, proper)),
        Err(refusal) => return Err(refusal),
    }
}

/// The coefficient of an automaton of one tape at the word of a text.
fn eval_one<'w, L: LabelSet, S: Semiring>(
    alloc: Global,
    automaton: Automaton<L, S>,
    text: &str,
) -> Result<String, Refusal<'w>>
    requires { is_one automaton.sets ≡ true }
    ensures { OrMemory (AnswersEvalOver ⟦<S as Weighed>⟧.texts S.ABSORBS text.now automaton)
        (answer_of result) }
{
    match word_and_proper(alloc, automaton, text) {
        Ok((word, proper)) => value_one(alloc, &proper, word.word()),
        Err(refusal) => Err(refusal),
    }
}

/// The coefficient of an automaton of several tapes at the word of a text.
fn eval_several<'w, L: LabelSet, S: Semiring>(
    alloc: Global,
    automaton: Automaton<L, S>,
    text: &str,
) -> Result<String, Refusal<'w>>
    requires { is_one automaton.sets ≡ false }
    ensures { OrMemory (AnswersEvalOver ⟦<S as Weighed>⟧.texts S.ABSORBS text.now automaton)
        (answer_of result) }
{
    match word_and_proper(alloc, automaton, text) {
        Ok((word, proper)) => value_several(alloc, &proper, word.word()),
        Err(refusal) => Err(refusal),
    }
}

/// The same over any labels.
fn eval_any<'w, S: Semiring>(
    alloc: Global,
    automaton: AnyOf<S>,
    text: &str,
) -> Result<String, Refusal<'w>>
    ensures { OrMemory (AnswersEvalOver ⟦<S as Weighed>⟧.texts S.ABSORBS text.now (labelled_of
        automaton)) (answer_of result) }
{
    labels_have_tapes();
    match automaton {
        AnyOf::Letters(a) => eval_one(alloc, a, text),
        AnyOf::Nullable(a) => eval_one(alloc, a, text),
        AnyOf::Words(a) => eval_one(alloc, a, text),
        AnyOf::Tuple(a) => eval_several(alloc, a, text),
    }
}

/// `eval FILE WORD`: the coefficient at the word.
pub(crate) fn eval<'w>(alloc: Global, input: AnyInput, text: &str) -> Result<String, Refusal<'w>>
    ensures { OrMemory (AnswersEval text.now (input_of input)) (answer_of result) }
{
    match input {
        AnyInput::B(a) => eval_any(alloc, a, text),
        AnyInput::F2(a) => eval_any(alloc, a, text),
        AnyInput::Z(a) => eval_any(alloc, a, text),
        AnyInput::Q(a) => eval_any(alloc, a, text),
        AnyInput::Nmin(a) => eval_any(alloc, a, text),
    }
}
