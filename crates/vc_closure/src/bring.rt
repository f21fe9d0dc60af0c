//! What the closure brings to each state: transitions and final weights.
ghost use Rattle.std.specs.Prelude.{◌≡◌, ◌<◌, ◌≤◌, ◌∷◌, [], All, ℕ, IfErr, IfOk, IsTrue, OnOk, length, map, slice_index_or};
ghost use Rattle.vc_aut.specs.Stored.{transition_of};
ghost use Rattle.vc_aut.specs.Validity.{IsMove};
ghost use Rattle.vc_closure.specs.Brought.{AreProducts, AreTotalSteps, IsMore, IsProduct, IsProductOf, IsTotalStep, moves_brought, row_brought, row_final, rows_brought};
ghost use Rattle.vc_closure.specs.Closing.{IsClosing, closure};
ghost use Rattle.vc_closure.specs.Formula.{IsBroughtStep};
ghost use Rattle.vc_closure.specs.Refused.{IsPastTriples, IsSumCause, NoLimit, sum_of};
ghost use Rattle.vc_closure.specs.Rows.{AreRows, AreRowsOf, IsRow, entries_at};
ghost use Rattle.vc_label.specs.declared.tape_set.TapeSet.{TapeSet};
ghost use Rattle.vc_model.specs.Automata.{Transition as Move, final_weight};
ghost use Rattle.vc_model.specs.Lists.{In};
ghost use Rattle.vc_model.specs.WeightSet.{InRange};

use crate::fault::SumFault;
use crate::rows::Entry;
use std::alloc::{AllocError, Global};
use vc_aut::{Automaton, Transition, automata_are_valid, drafts_are_sums, transitions_are_added};
use vc_label::LabelSet;
use vc_ring::{MakeFault, Semiring};

/// The automaton in which each state has what the states of its row have.
pub(crate) fn closed<L: LabelSet, S: Semiring>(
    alloc: Global,
    aut: &Automaton<L, S>,
    rows: &[Vec<Entry<S>>],
) -> Result<Automaton<L, S>, SumFault<S>>
    requires rows { AreRows S.set aut.now.automaton.states rows.now }
    requires entries { AreRowsOf S.set aut.now.automaton (closure S.set aut.now.automaton) rows.now }
    ensures sets { IfOk result (λ p. p.sets ≡ aut.now.sets) }
    ensures closing { IfOk result (λ p. IsClosing S.set aut.now.automaton p.automaton (closure S.set
        aut.now.automaton)) }
    ensures fault { IfErr result (IsSumCause S.set (IsBroughtStep S.set aut.now.automaton)
        (IsPastTriples S.set aut.now.automaton)) }
{
    automata_are_valid(aut);
    drafts_are_sums::<S::Value>();
    transitions_are_added::<S::Value>();
    let Ok(initial) = initial_weights(alloc, aut) else {
        return Err(SumFault::Memory(AllocError));
    };
    let finals = match final_weights(alloc, aut, rows) {
        Ok(finals) => finals,
        Err(fault) => return Err(fault),
    };
    let mut moves = Vec::new(alloc);
    if let Err(fault) = bring_rows(alloc, aut, rows, &mut moves) {
        return Err(fault);
    }
    match Automaton::from_transitions(alloc, *aut.labels(), initial, finals, moves) {
        Ok(automaton) => return Ok(automaton),
        Err(fault) => return Err(sum_fault::<S>(fault)),
    }
}

/// The refusal of sums.
fn sum_fault<S: Semiring>(fault: MakeFault<S::Value>) -> SumFault<S>
    ensures { result ≡ sum_of fault }
{
    match fault {
        MakeFault::Overflow(overflow) => SumFault::Overflow(overflow),
        MakeFault::Limit(limit) => SumFault::Limit(limit),
        MakeFault::Memory(error) => SumFault::Memory(error),
    }
}

/// The initial weights of the states.
fn initial_weights<L: LabelSet, S: Semiring>(
    alloc: Global,
    aut: &Automaton<L, S>,
) -> Result<Vec<S::Value>, AllocError>
    ensures { IfOk result (λ v. v.items ≡ aut.now.automaton.initial) }
{
    automata_are_valid(aut);
    let mut weights = Vec::with_capacity(alloc, aut.states() as usize)?;
    for state in 0..aut.states() {
        weights.push(aut.initial_weight(state))?;
    }
    Ok(weights)
}

/// The final weights that the rows bring.
fn final_weights<L: LabelSet, S: Semiring>(
    alloc: Global,
    aut: &Automaton<L, S>,
    rows: &[Vec<Entry<S>>],
) -> Result<Vec<S::Value>, SumFault<S>>
    requires { AreRows S.set aut.now.automaton.states rows.now }
    ensures count { IfOk result (λ v. length v.items ≡ aut.now.automaton.states) }
    ensures in_range { IfOk result (λ v. InRange S.set v.items) }
    ensures sums { IfOk result (λ v. (p : ℕ) → p < aut.now.automaton.states → slice_index_or v.items
        p S.set.zero ≡ row_final S.set aut.now.automaton (entries_at rows.now p)) }
    ensures fault { IfErr result (IsSumCause S.set (AreTotalSteps S.set aut.now.automaton rows.now)
        NoLimit) }
{
    let Ok(mut weights) = Vec::with_capacity(alloc, aut.states() as usize) else {
        return Err(SumFault::Memory(AllocError));
    };
    for state in 0..aut.states() {
        let weight = match final_of(aut, &rows[state as usize]) {
            Ok(weight) => weight,
            Err(fault) => return Err(fault),
        };
        let Ok(()) = weights.push(weight) else {
            return Err(SumFault::Memory(AllocError));
        };
    }
    Ok(weights)
}

/// The final weight that a row brings.
fn final_of<L: LabelSet, S: Semiring>(
    aut: &Automaton<L, S>,
    row: &[Entry<S>],
) -> Result<S::Value, SumFault<S>>
    requires { IsRow S.set aut.now.automaton.states row.now }
    ensures in_range { IfOk result (λ w. IsTrue (S.set.in_range w)) }
    ensures sum { IfOk result (λ w. w ≡ row_final S.set aut.now.automaton row.now) }
    ensures fault { IfErr result (IsSumCause S.set (IsTotalStep S.set aut.now.automaton row.now)
        NoLimit) }
{
    let mut sum = S::zero();
    for entry in row {
        let product = match S::mul(entry.weight, aut.final_weight(entry.state)) {
            Ok(product) => product,
            Err(overflow) => return Err(SumFault::Overflow(overflow)),
        };
        sum = match S::add(sum, product) {
            Ok(sum) => sum,
            Err(overflow) => return Err(SumFault::Overflow(overflow)),
        };
    }
    Ok(sum)
}

/// Appends the transitions that the states have by their rows.
fn bring_rows<L: LabelSet, S: Semiring>(
    alloc: Global,
    aut: &Automaton<L, S>,
    rows: &[Vec<Entry<S>>],
    into: &mut Vec<Transition<L, S>>,
) -> Result<(), SumFault<S>>
    requires { AreRows S.set aut.now.automaton.states rows.now }
    ensures ok { OnOk result (IsMore S.set aut.now.sets aut.now.automaton.states (map (transition_of
        L.parts) into.old.items) (map (transition_of L.parts) into.new.items) (rows_brought S.set
        aut.now.automaton rows.now aut.now.automaton.states)) }
    ensures fault { IfErr result (IsSumCause S.set (IsProductOf S.set aut.now.automaton rows.now)
        NoLimit) }
{
    for state in 0..aut.states() {
        if let Err(fault) = bring_row(alloc, aut, state, &rows[state as usize], into) {
            return Err(fault);
        }
    }
    Ok(())
}

/// Appends the transitions that a state has by its row.
fn bring_row<L: LabelSet, S: Semiring>(
    alloc: Global,
    aut: &Automaton<L, S>,
    state: u32,
    row: &[Entry<S>],
    into: &mut Vec<Transition<L, S>>,
) -> Result<(), SumFault<S>>
    requires row { IsRow S.set aut.now.automaton.states row.now }
    requires state { state < aut.now.automaton.states }
    ensures ok { OnOk result (IsMore S.set aut.now.sets aut.now.automaton.states (map (transition_of
        L.parts) into.old.items) (map (transition_of L.parts) into.new.items) (row_brought S.set
        aut.now.automaton state row.now)) }
    ensures fault { IfErr result (IsSumCause S.set (IsProduct S.set aut.now.automaton row.now)
        NoLimit) }
{
    automata_are_valid(aut);
    for entry in row {
        let moves = aut.transitions_from(entry.state);
        if let Err(fault) = bring_moves(alloc, aut, state, entry.weight, moves, into) {
            return Err(fault);
        }
    }
    Ok(())
}

/// Appends, as transitions from a state, a weight times those of the transitions whose labels are
/// not empty.
fn bring_moves<L: LabelSet, S: Semiring>(
    alloc: Global,
    aut: &Automaton<L, S>,
    state: u32,
    weight: S::Value,
    moves: &[Transition<L, S>],
    into: &mut Vec<Transition<L, S>>,
) -> Result<(), SumFault<S>>
    requires state { state < aut.now.automaton.states }
    requires weight { IsTrue (S.set.in_range weight) }
    requires moves { (t : Move S.Value) → In t (map (transition_of L.parts) moves.now) → IsMove
        S.set aut.now.sets aut.now.automaton.states t }
    ensures ok { OnOk result (IsMore S.set aut.now.sets aut.now.automaton.states (map (transition_of
        L.parts) into.old.items) (map (transition_of L.parts) into.new.items) (moves_brought S.set
        state weight (map (transition_of L.parts) moves.now))) }
    ensures fault { IfErr result (IsSumCause S.set (AreProducts S.set weight (map (transition_of
        L.parts) moves.now)) NoLimit) }
{
    for transition in moves {
        if let Err(fault) = bring_move(alloc, aut, state, weight, transition, into) {
            return Err(fault);
        }
    }
    Ok(())
}

/// Appends, as a transition from a state, a weight times a transition, where its label is not
/// empty.
fn bring_move<L: LabelSet, S: Semiring>(
    alloc: Global,
    aut: &Automaton<L, S>,
    state: u32,
    weight: S::Value,
    transition: &Transition<L, S>,
    into: &mut Vec<Transition<L, S>>,
) -> Result<(), SumFault<S>>
    requires state { state < aut.now.automaton.states }
    requires weight { IsTrue (S.set.in_range weight) }
    requires is_move { IsMove S.set aut.now.sets aut.now.automaton.states (transition_of L.parts
        transition.now) }
    ensures ok { OnOk result (IsMore S.set aut.now.sets aut.now.automaton.states (map (transition_of
        L.parts) into.old.items) (map (transition_of L.parts) into.new.items) (moves_brought S.set
        state weight (transition_of L.parts transition.now ∷ []))) }
    ensures fault { IfErr result (IsSumCause S.set (AreProducts S.set weight (transition_of L.parts
        transition.now ∷ [])) NoLimit) }
{
    if L::is_empty(&transition.label) {
        return Ok(());
    }
    let product = match S::mul(weight, transition.weight) {
        Ok(product) => product,
        Err(overflow) => return Err(SumFault::Overflow(overflow)),
    };
    let Ok(label) = L::copy(alloc, &transition.label) else {
        return Err(SumFault::Memory(AllocError));
    };
    let Ok(()) = into.push(Transition {
        from: state,
        label,
        to: transition.to,
        weight: product,
    }) else {
        return Err(SumFault::Memory(AllocError));
    };
    Ok(())
}
