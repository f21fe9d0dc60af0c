//! Commands that print the automaton of a file, or one that is made of it.
ghost use Rattle.std.specs.Prelude.{◌≡◌, IfOk};
ghost use Rattle.vc_context.specs.Sets.{tapes_of};
ghost use Rattle.vc_top.specs.Automata.{Prints};
ghost use Rattle.vc_top.specs.Inputs.{HasRefusedCircuit, IsSoundInput};
ghost use Rattle.vc_top.specs.Operations.{AnswersPrint, IsTrimOf, PrintsOperation, WithProper};
ghost use Rattle.vc_top.specs.Outcomes.{ForSuch, Gives, OrMemory};
ghost use Rattle.vc_top.specs.Reasons.{reason_of};
ghost use Rattle.vc_top.specs.Refused.{closing_reason};
ghost use Rattle.vc_top.specs.Views.{answer_of, input_of, labelled_of, seen_by};

use crate::automata::text_of;
use crate::input::{AnyInput, AnyOf};
use crate::refusal::{Bound, Refusal};
use std::alloc::Global;
use vc_aut::{Automaton, Proper, automata_are_valid, proper_automata_are_proper, trim};
use vc_closure::{ProperFault, proper};
use vc_context::{AnyContext, AnyLabels, Weights, labels_have_tapes};
use vc_label::LabelSet;
use vc_ring::{Semiring, Weighed};

/// What is printed of the automaton of a file.
#[derive(Clone, Copy)]
pub(crate) enum Operation {
    /// The automaton itself.
    Itself,
    /// The automaton without empty labels.
    Proper,
    /// The automaton of the useful states.
    Trim,
}

/// The refusal of empty labels that were not removed.
fn not_closed<'w, L: LabelSet, S: Semiring>(fault: ProperFault<L, S>) -> Refusal<'w>
    ensures { reason_of result ≡ closing_reason fault }
{
    match fault {
        ProperFault::Circuit(_) => Refusal::EmptyCircuit,
        ProperFault::Overflow(_) => Refusal::Overflow,
        ProperFault::Limit(limit) => Refusal::Limit(Bound::Of(limit.what)),
        ProperFault::Memory(_) => Refusal::Memory,
    }
}

/// The automaton without empty labels.
pub(crate) fn closed<'w, L: LabelSet, S: Semiring>(
    alloc: Global,
    automaton: &Automaton<L, S>,
) -> Result<Proper<L, S>, Refusal<'w>>
    ensures closed { OrMemory (WithProper ⟦<S as Weighed>⟧.texts S.ABSORBS automaton.now Gives)
        (seen_by (λ p. p) result) }
    ensures sets { IfOk result (λ p. p.sets ≡ automaton.now.sets) }
{
    automata_are_valid(automaton);
    match proper(alloc, automaton) {
        Ok(proper) => {
            proper_automata_are_proper(&proper);
            Ok(proper)
        }
        Err(fault) => Err(not_closed(fault)),
    }
}

/// The text of the automaton without empty labels, in its context.
fn proper_text<'w, L: LabelSet, S: Semiring>(
    alloc: Global,
    context: &AnyContext,
    automaton: &Automaton<L, S>,
) -> Result<String, Refusal<'w>>
    requires { tapes_of context.now.labels ≡ automaton.now.sets }
    ensures { OrMemory (WithProper ⟦<S as Weighed>⟧.texts S.ABSORBS automaton.now (Prints ⟦<S as Weighed>⟧.texts context.now.weights)) (answer_of result) }
{
    match closed(alloc, automaton) {
        Ok(proper) => return text_of(alloc, context, proper.automaton()),
        Err(refusal) => return Err(refusal),
    }
}

/// The text of the automaton of the useful states, in its context.
fn trim_text<'w, L: LabelSet, S: Semiring>(
    alloc: Global,
    context: &AnyContext,
    automaton: &Automaton<L, S>,
) -> Result<String, Refusal<'w>>
    requires labels { tapes_of context.now.labels ≡ automaton.now.sets }
    requires sound { ¬ HasRefusedCircuit S.ABSORBS automaton.now }
    ensures { OrMemory (ForSuch (IsTrimOf ⟦<S as Weighed>⟧.texts automaton.now) (Prints ⟦<S as Weighed>⟧.texts context.now.weights)) (answer_of result) }
{
    automata_are_valid(automaton);
    match trim(alloc, automaton) {
        Ok(trimmed) => {
            automata_are_valid(&trimmed);
            return text_of(alloc, context, &trimmed);
        }
        Err(_) => return Err(Refusal::Memory),
    }
}

/// The text of the automaton, or of what is made of it, in its context.
fn print_in<'w, L: LabelSet, S: Semiring>(
    alloc: Global,
    operation: Operation,
    context: &AnyContext,
    automaton: &Automaton<L, S>,
) -> Result<String, Refusal<'w>>
    requires labels { tapes_of context.now.labels ≡ automaton.now.sets }
    requires sound { ¬ HasRefusedCircuit S.ABSORBS automaton.now }
    ensures { OrMemory (PrintsOperation ⟦<S as Weighed>⟧.texts S.ABSORBS operation
        context.now.weights automaton.now) (answer_of result) }
{
    match operation {
        Operation::Itself => text_of(alloc, context, automaton),
        Operation::Proper => proper_text(alloc, context, automaton),
        Operation::Trim => trim_text(alloc, context, automaton),
    }
}

/// The same of an automaton over any labels, over the weight set of this name.
fn print_over<'w, S: Semiring>(
    alloc: Global,
    operation: Operation,
    weights: Weights,
    automaton: &AnyOf<S>,
) -> Result<String, Refusal<'w>>
    requires { ¬ HasRefusedCircuit S.ABSORBS (labelled_of automaton.now) }
    ensures { OrMemory (PrintsOperation ⟦<S as Weighed>⟧.texts S.ABSORBS operation weights
        (labelled_of automaton.now)) (answer_of result) }
{
    labels_have_tapes();
    match automaton {
        AnyOf::Letters(a) => {
            let labels = AnyLabels::Letters(*a.labels());
            print_in(alloc, operation, &AnyContext { labels, weights }, a)
        }
        AnyOf::Nullable(a) => {
            let labels = AnyLabels::Nullable(*a.labels());
            print_in(alloc, operation, &AnyContext { labels, weights }, a)
        }
        AnyOf::Words(a) => {
            let labels = AnyLabels::Words(*a.labels());
            print_in(alloc, operation, &AnyContext { labels, weights }, a)
        }
        AnyOf::Tuple(a) => {
            let labels = AnyLabels::Tuple(*a.labels());
            print_in(alloc, operation, &AnyContext { labels, weights }, a)
        }
    }
}

/// `cat FILE`, `proper FILE` and `trim FILE`: the canonical text.
pub(crate) fn print<'w>(
    alloc: Global,
    operation: Operation,
    input: &AnyInput,
) -> Result<String, Refusal<'w>>
    requires { IsSoundInput (input_of input.now) }
    ensures { OrMemory (AnswersPrint operation (input_of input.now)) (answer_of result) }
{
    match input {
        AnyInput::B(a) => print_over(alloc, operation, Weights::B, a),
        AnyInput::F2(a) => print_over(alloc, operation, Weights::F2, a),
        AnyInput::Z(a) => print_over(alloc, operation, Weights::Z, a),
        AnyInput::Q(a) => print_over(alloc, operation, Weights::Q, a),
        AnyInput::Nmin(a) => print_over(alloc, operation, Weights::Nmin, a),
    }
}
