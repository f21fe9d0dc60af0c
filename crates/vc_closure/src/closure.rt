//! Automata without empty labels.
ghost use Rattle.std.specs.Prelude.{◌≡◌, ◌<◌, ℕ, IfErr, IfOk, OnOk, length, replicate, true};
ghost use Rattle.vc_closure.specs.Closing.{IsClosing, closure};
ghost use Rattle.vc_closure.specs.Formula.{IsBroughtStep, IsEntryStep, IsMatrixStep};
ghost use Rattle.vc_closure.specs.Refused.{IsAllowed, IsCause, IsPastEither, IsStepOf, IsSumCause, fault_of};
ghost use Rattle.vc_closure.specs.Searches.{IsOrder};
ghost use Rattle.vc_model.specs.Automata.{IsProper, coefficient, future};
ghost use Rattle.vc_model.specs.Words.{Word};

use crate::bring::closed;
use crate::fault::{ProperFault, SumFault};
use crate::laws::closings_keep_futures;
use crate::rounds::rows_with_circuits;
use crate::rows::rows_in_order;
use crate::search::{Found, search_circuit};
use std::alloc::{AllocError, Global};
use vc_aut::{Automaton, Proper, automata_are_valid, proper_automata_are_proper};
use vc_label::LabelSet;
use vc_model::empty_words_are_tested;
use vc_ring::Semiring;

/// The automaton without empty labels: from each state it moves and ends as the given one does
/// after empty labels, whose closure sums the weights of all their paths (Sakarovitch, Elements of
/// Automata Theory). It has the same states, initial weights, futures and series. An automaton
/// without empty labels is its own.
///
/// `Circuit` comes exactly where one does not absorb each weight and there is an empty circuit, and
/// it has such a circuit. `Overflow` comes only where a step of the closure, of a final weight or of
/// a transition does not fit. `Limit` comes only where more than 4,000,000 pairs of different states
/// are joined by empty labels, or where the closure brings more than 4,000,000 triples. Where none of
/// these stands, the automaton comes, or `Memory`.
pub fn proper<L: LabelSet, S: Semiring>(
    alloc: Global,
    aut: &Automaton<L, S>,
) -> Result<Proper<L, S>, ProperFault<L, S>>
    ensures sets { IfOk result (λ p. p.sets ≡ aut.now.sets) }
    ensures closing { IfOk result (λ p. IsClosing S.set aut.now.automaton p.automaton (closure S.set
        aut.now.automaton)) }
    ensures futures { IfOk result (λ p. (q : ℕ) (w : Word) → q < aut.now.automaton.states → length w
        ≡ length aut.now.sets → future S.set p.automaton q w ≡ future S.set aut.now.automaton q w) }
    ensures series { IfOk result (λ p. (w : Word) → length w ≡ length aut.now.sets → coefficient
        S.set p.automaton w ≡ coefficient S.set aut.now.automaton w) }
    ensures same { IfOk result (λ p. IsProper aut.now.automaton → p ≡ aut.now) }
    ensures allowed { OnOk result (IsAllowed S.ABSORBS (length aut.now.sets) aut.now.automaton) }
    ensures fault { IfErr result (IsCause L.parts S.set S.ABSORBS (length aut.now.sets)
        aut.now.automaton) }
{
    automata_are_valid(aut);
    closings_keep_futures::<S::Value>();
    let proper = match own_or_closed(alloc, aut) {
        Ok(proper) => proper,
        Err(fault) => return Err(fault),
    };
    proper_automata_are_proper(&proper);
    Ok(proper)
}

/// A copy of the automaton where no label is empty, and else the one that the closure makes.
fn own_or_closed<L: LabelSet, S: Semiring>(
    alloc: Global,
    aut: &Automaton<L, S>,
) -> Result<Proper<L, S>, ProperFault<L, S>>
    ensures sets { IfOk result (λ p. p.sets ≡ aut.now.sets) }
    ensures closing { IfOk result (λ p. IsClosing S.set aut.now.automaton p.automaton (closure S.set
        aut.now.automaton)) }
    ensures allowed { OnOk result (IsAllowed S.ABSORBS (length aut.now.sets) aut.now.automaton) }
    ensures fault { IfErr result (IsCause L.parts S.set S.ABSORBS (length aut.now.sets)
        aut.now.automaton) }
{
    automata_are_valid(aut);
    let own = match aut.to_proper(alloc) {
        Ok(own) => own,
        Err(error) => return Err(ProperFault::Memory(error)),
    };
    if let Some(proper) = own {
        return Ok(proper);
    }
    proper_of(alloc, aut)
}

/// The automaton that the closure makes.
fn proper_of<L: LabelSet, S: Semiring>(
    alloc: Global,
    aut: &Automaton<L, S>,
) -> Result<Proper<L, S>, ProperFault<L, S>>
    ensures sets { IfOk result (λ p. p.sets ≡ aut.now.sets) }
    ensures closing { IfOk result (λ p. IsClosing S.set aut.now.automaton p.automaton (closure S.set
        aut.now.automaton)) }
    ensures allowed { OnOk result (IsAllowed S.ABSORBS (length aut.now.sets) aut.now.automaton) }
    ensures fault { IfErr result (IsCause L.parts S.set S.ABSORBS (length aut.now.sets)
        aut.now.automaton) }
{
    automata_are_valid(aut);
    let Ok(tapes) = Vec::from_elem(alloc, true, aut.labels().tapes()) else {
        return Err(ProperFault::Memory(AllocError));
    };
    let found = match search_circuit(alloc, aut, &tapes) {
        Ok(found) => found,
        Err(error) => return Err(ProperFault::Memory(error)),
    };
    match found {
        Found::Order(order) => match proper_in_order(alloc, aut, &order) {
            Ok(proper) => return Ok(proper),
            Err(fault) => return Err(proper_fault(fault)),
        },
        Found::Circuit(circuit) => {
            if !S::ABSORBS {
                return Err(ProperFault::Circuit(circuit));
            }
            match proper_with_circuits(alloc, aut) {
                Ok(proper) => return Ok(proper),
                Err(fault) => return Err(proper_fault(fault)),
            }
        }
    }
}

/// The automaton that the closure makes, where empty transitions lead back in the order.
fn proper_in_order<L: LabelSet, S: Semiring>(
    alloc: Global,
    aut: &Automaton<L, S>,
    order: &[u32],
) -> Result<Proper<L, S>, SumFault<S>>
    requires { IsOrder aut.now.automaton (replicate (length aut.now.sets) true) order.now }
    ensures sets { IfOk result (λ p. p.sets ≡ aut.now.sets) }
    ensures closing { IfOk result (λ p. IsClosing S.set aut.now.automaton p.automaton (closure S.set
        aut.now.automaton)) }
    ensures fault { IfErr result (IsSumCause S.set (IsStepOf (IsEntryStep S.set aut.now.automaton
        (closure S.set aut.now.automaton)) (IsBroughtStep S.set aut.now.automaton)) (IsPastEither
        S.set (length aut.now.sets) aut.now.automaton)) }
{
    empty_words_are_tested();
    closings_keep_futures::<S::Value>();
    let rows = match rows_in_order(alloc, aut, order) {
        Ok(rows) => rows,
        Err(fault) => return Err(fault),
    };
    let automaton = match closed(alloc, aut, &rows) {
        Ok(automaton) => automaton,
        Err(fault) => return Err(fault),
    };
    match automaton.into_proper() {
        Ok(proper) => return Ok(proper),
        Err(_) => unreachable!(),
    }
}

/// The automaton that the closure makes, where circuits are absorbed.
fn proper_with_circuits<L: LabelSet, S: Semiring>(
    alloc: Global,
    aut: &Automaton<L, S>,
) -> Result<Proper<L, S>, SumFault<S>>
    requires { S.ABSORBS ≡ true }
    ensures sets { IfOk result (λ p. p.sets ≡ aut.now.sets) }
    ensures closing { IfOk result (λ p. IsClosing S.set aut.now.automaton p.automaton (closure S.set
        aut.now.automaton)) }
    ensures fault { IfErr result (IsSumCause S.set (IsStepOf (IsMatrixStep S.set aut.now.automaton)
        (IsBroughtStep S.set aut.now.automaton)) (IsPastEither S.set (length aut.now.sets)
        aut.now.automaton)) }
{
    empty_words_are_tested();
    closings_keep_futures::<S::Value>();
    let rows = match rows_with_circuits(alloc, aut) {
        Ok(rows) => rows,
        Err(fault) => return Err(fault),
    };
    let automaton = match closed(alloc, aut, &rows) {
        Ok(automaton) => automaton,
        Err(fault) => return Err(fault),
    };
    match automaton.into_proper() {
        Ok(proper) => return Ok(proper),
        Err(_) => unreachable!(),
    }
}

/// The refusal that is no circuit.
fn proper_fault<L: LabelSet, S: Semiring>(fault: SumFault<S>) -> ProperFault<L, S>
    ensures { result ≡ fault_of fault }
{
    match fault {
        SumFault::Overflow(overflow) => ProperFault::Overflow(overflow),
        SumFault::Limit(limit) => ProperFault::Limit(limit),
        SumFault::Memory(error) => ProperFault::Memory(error),
    }
}
