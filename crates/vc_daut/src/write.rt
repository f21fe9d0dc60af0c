ghost use Rattle.std.specs.Prelude.{◌≡◌, ◌<◌, ◌++◌, ◌==◌, ℕ, IsTrue, All, false, OnOk, OnErr, IfOk, length, slice_index_or, string_bytes};
ghost use Rattle.std.specs.List.{flat_map, list_any};
ghost use Rattle.std.specs.List.Sorted.{IsNonDecreasingBy};
ghost use Rattle.vc_context.specs.Sets.{tapes_of};
ghost use Rattle.vc_daut.specs.Canonical.{after_state, fed, line_text, moves_line, initial_line, final_line, transition_lines, lone_line, is_in_lines, state_lines, automaton_text, lines_by_target};
ghost use Rattle.vc_text.specs.Growing.{IsFront};
ghost use Rattle.vc_daut.specs.Growing.{IsEntry, lent};
ghost use Rattle.vc_model.specs.Lists.{below};

use crate::append::{push_entries, push_weight};
use crate::targets::{by_target, front_to, mark_targets};
use std::alloc::{AllocError, Global};
use vc_aut::{Automaton, Transition, automata_are_valid};
use vc_context::{AnyContext, write_context};
use vc_label::LabelSet;
use vc_ring::{Semiring, Weighed};
use vc_text::{cut_back, push_number, push_text};

/// Appends the weight of a state, with a blank before it; one is not written.
#[tactic(auto, using(vc_text::specs::Fronts::front_twice))]
fn push_after_state<S: Semiring>(weight: S::Value, into: &mut String) -> Result<(), AllocError>
    requires { IsTrue (S.set.in_range weight) }
    ensures ok { OnOk result (string_bytes into.new ≡ string_bytes into.old ++ after_state S.set S.Value.eq S.canonical weight) }
    ensures front { IsFront (string_bytes into.old) (string_bytes into.new) }
{
    if weight == S::one() {
        return Ok(());
    }
    push_text(" ", into)?;
    push_weight::<S>(weight, into)
}

/// Ends the line of a state with its weight.
#[tactic(auto, using(vc_text::specs::Fronts::front_twice))]
fn push_end<S: Semiring>(weight: S::Value, into: &mut String) -> Result<(), AllocError>
    requires { IsTrue (S.set.in_range weight) }
    ensures ok { OnOk result (string_bytes into.new ≡ string_bytes into.old ++ fed (after_state S.set S.Value.eq S.canonical weight)) }
    ensures front { IsFront (string_bytes into.old) (string_bytes into.new) }
{
    push_after_state::<S>(weight, into)?;
    push_text("\n", into)
}

/// Appends the initial line of a state.
#[tactic(auto, using(vc_text::specs::Fronts::front_twice))]
fn push_initial<L: LabelSet, S: Semiring>(
    aut: &Automaton<L, S>,
    state: u32,
    into: &mut String,
) -> Result<(), AllocError>
    requires { state < aut.now.automaton.states }
    ensures ok { OnOk result (string_bytes into.new ≡ string_bytes into.old ++ flat_map (line_text S.set S.Value.eq S.canonical) (initial_line S.set S.Value.eq aut.now.automaton state)) }
    ensures front { IsFront (string_bytes into.old) (string_bytes into.new) }
{
    let weight = aut.initial_weight(state);
    if weight == S::zero() {
        return Ok(());
    }
    push_text("$ -> ", into)?;
    push_number(state, into)?;
    push_end::<S>(weight, into)
}

/// Appends the final line of a state.
#[tactic(auto, using(vc_text::specs::Fronts::front_twice))]
fn push_final<L: LabelSet, S: Semiring>(
    aut: &Automaton<L, S>,
    state: u32,
    into: &mut String,
) -> Result<(), AllocError>
    requires { state < aut.now.automaton.states }
    ensures ok { OnOk result (string_bytes into.new ≡ string_bytes into.old ++ flat_map (line_text S.set S.Value.eq S.canonical) (final_line S.set S.Value.eq aut.now.automaton state)) }
    ensures front { IsFront (string_bytes into.old) (string_bytes into.new) }
{
    let weight = aut.final_weight(state);
    if weight == S::zero() {
        return Ok(());
    }
    push_number(state, into)?;
    push_text(" -> $", into)?;
    push_end::<S>(weight, into)
}

/// Appends a line of transitions from a state to another.
#[tactic(auto, using(vc_text::specs::Fronts::front_twice))]
fn push_moves<L: LabelSet, S: Semiring>(
    tapes: usize,
    from: u32,
    to: u32,
    entries: &[&Transition<L, S>],
    into: &mut String,
) -> Result<(), AllocError>
    requires some { 0 < length entries.now }
    requires entries { All (IsEntry S.set tapes) (lent L.parts entries.now) }
    ensures ok { OnOk result (string_bytes into.new ≡ string_bytes into.old ++ line_text S.set S.Value.eq S.canonical (moves_line from to (lent L.parts entries.now))) }
    ensures front { IsFront (string_bytes into.old) (string_bytes into.new) }
{
    push_number(from, into)?;
    push_text(" -> ", into)?;
    push_number(to, into)?;
    push_text(" ", into)?;
    push_entries(tapes, entries, into)?;
    push_text("\n", into)?;
    Ok(())
}

/// Appends a line for each target of transitions from a state, which are in the order of their targets.
fn push_by_target<L: LabelSet, S: Semiring>(
    aut: &Automaton<L, S>,
    from: u32,
    entries: &[&Transition<L, S>],
    into: &mut String,
) -> Result<(), AllocError>
    requires sorted { IsNonDecreasingBy (λ b. b.now.to) entries.now }
    requires entries { All (IsEntry S.set (length aut.now.sets)) (lent L.parts entries.now) }
    requires targets { All (λ t. t.to < aut.now.automaton.states) (lent L.parts entries.now) }
    ensures ok { OnOk result (string_bytes into.new ≡ string_bytes into.old ++ flat_map (line_text S.set S.Value.eq S.canonical) (lines_by_target aut.now.automaton.states from (lent L.parts entries.now))) }
    ensures front { IsFront (string_bytes into.old) (string_bytes into.new) }
{
    let tapes = aut.labels().tapes();
    let mut rest = entries;
    while !rest.is_empty() {
        let to = rest[0].to;
        let width = front_to(to, rest);
        push_moves(tapes, from, to, &rest[..width], into)?;
        rest = &rest[width..];
    }
    Ok(())
}

/// Appends the lines at the place of a state.
#[tactic(auto, using(vc_text::specs::Fronts::front_twice))]
fn push_state<'a, L: LabelSet, S: Semiring>(
    aut: &'a Automaton<L, S>,
    state: u32,
    is_target: bool,
    order: &mut Vec<&'a Transition<L, S>>,
    into: &mut String,
) -> Result<(), AllocError>
    requires state { state < aut.now.automaton.states }
    requires target { is_target ≡ list_any (λ t. t.to == state) aut.now.automaton.transitions }
    ensures ok { OnOk result (string_bytes into.new ≡ string_bytes into.old ++ flat_map (line_text S.set S.Value.eq S.canonical) (state_lines S.set S.Value.eq aut.now.automaton state)) }
    ensures front { IsFront (string_bytes into.old) (string_bytes into.new) }
{
    push_transitions(aut, state, order, into)?;
    push_final(aut, state, into)?;
    push_alone(aut, state, is_target, into)
}

/// Appends the lines of the transitions from a state.
fn push_transitions<'a, L: LabelSet, S: Semiring>(
    aut: &'a Automaton<L, S>,
    state: u32,
    order: &mut Vec<&'a Transition<L, S>>,
    into: &mut String,
) -> Result<(), AllocError>
    requires { state < aut.now.automaton.states }
    ensures ok { OnOk result (string_bytes into.new ≡ string_bytes into.old ++ flat_map (line_text S.set S.Value.eq S.canonical) (transition_lines S.set S.Value.eq aut.now.automaton state)) }
    ensures front { IsFront (string_bytes into.old) (string_bytes into.new) }
{
    automata_are_valid(aut);
    by_target(aut.transitions_from(state), order)?;
    push_by_target(aut, state, order, into)?;
    Ok(())
}

/// Whether the state is in some other line.
fn is_in_lines<L: LabelSet, S: Semiring>(aut: &Automaton<L, S>, state: u32, is_target: bool) -> bool
    requires state { state < aut.now.automaton.states }
    requires target { is_target ≡ list_any (λ t. t.to == state) aut.now.automaton.transitions }
    ensures { result ≡ is_in_lines S.set S.Value.eq aut.now.automaton state }
{
    if is_target {
        return true;
    }
    if aut.initial_weight(state) != S::zero() {
        return true;
    }
    if aut.final_weight(state) != S::zero() {
        return true;
    }
    !aut.transitions_from(state).is_empty()
}

/// Appends the line of a state that is in no other line.
#[tactic(auto, using(vc_text::specs::Fronts::front_twice))]
fn push_alone<L: LabelSet, S: Semiring>(
    aut: &Automaton<L, S>,
    state: u32,
    is_target: bool,
    into: &mut String,
) -> Result<(), AllocError>
    requires state { state < aut.now.automaton.states }
    requires target { is_target ≡ list_any (λ t. t.to == state) aut.now.automaton.transitions }
    ensures ok { OnOk result (string_bytes into.new ≡ string_bytes into.old ++ flat_map (line_text S.set S.Value.eq S.canonical) (lone_line S.set S.Value.eq aut.now.automaton state)) }
    ensures front { IsFront (string_bytes into.old) (string_bytes into.new) }
{
    if is_in_lines(aut, state, is_target) {
        return Ok(());
    }
    push_number(state, into)?;
    push_text("\n", into)
}

/// Sets the mark of each state to which a transition leads.
fn mark_all<L: LabelSet, S: Semiring>(aut: &Automaton<L, S>, marks: &mut [bool])
    requires length { length marks.old ≡ aut.now.automaton.states }
    requires none { (q : ℕ) → q < aut.now.automaton.states → slice_index_or marks.old q false ≡ false }
    ensures length { length marks.new ≡ aut.now.automaton.states }
    ensures marks { (q : ℕ) → q < aut.now.automaton.states → slice_index_or marks.new q false ≡ list_any (λ t. t.to == q) aut.now.automaton.transitions }
{
    automata_are_valid(aut);
    for state in 0..aut.states() {
        mark_targets(aut.transitions_from(state), marks);
    }
}

/// For each state whether a transition leads to it.
fn targets<L: LabelSet, S: Semiring>(
    alloc: Global,
    aut: &Automaton<L, S>,
) -> Result<Vec<bool>, AllocError>
    ensures length { IfOk result (λ marks. length marks.items ≡ aut.now.automaton.states) }
    ensures marks { IfOk result (λ marks. (q : ℕ) → q < aut.now.automaton.states → slice_index_or marks.items q false ≡ list_any (λ t. t.to == q) aut.now.automaton.transitions) }
{
    let mut marks = vec![in alloc; false; aut.states() as usize]?;
    mark_all(aut, &mut marks);
    Ok(marks)
}

/// Appends the initial lines.
fn push_initials<L: LabelSet, S: Semiring>(
    aut: &Automaton<L, S>,
    into: &mut String,
) -> Result<(), AllocError>
    ensures ok { OnOk result (string_bytes into.new ≡ string_bytes into.old ++ flat_map (line_text S.set S.Value.eq S.canonical) (flat_map (initial_line S.set S.Value.eq aut.now.automaton) (below aut.now.automaton.states))) }
    ensures front { IsFront (string_bytes into.old) (string_bytes into.new) }
{
    for state in 0..aut.states() {
        push_initial(aut, state, into)?;
    }
    Ok(())
}

/// Appends the lines at the places of the states.
fn push_states<L: LabelSet, S: Semiring>(
    alloc: Global,
    aut: &Automaton<L, S>,
    into: &mut String,
) -> Result<(), AllocError>
    ensures ok { OnOk result (string_bytes into.new ≡ string_bytes into.old ++ flat_map (line_text S.set S.Value.eq S.canonical) (flat_map (state_lines S.set S.Value.eq aut.now.automaton) (below aut.now.automaton.states))) }
    ensures front { IsFront (string_bytes into.old) (string_bytes into.new) }
{
    let marks = targets(alloc, aut)?;
    let mut order = Vec::new(alloc);
    for state in 0..aut.states() {
        push_state(aut, state, marks[state as usize], &mut order, into)?;
    }
    Ok(())
}

/// Appends the canonical text; where there is no memory for it, a front of it.
#[tactic(auto, using(vc_text::specs::Fronts::front_twice))]
fn push_automaton<L: LabelSet, S: Semiring>(
    alloc: Global,
    context: &AnyContext,
    aut: &Automaton<L, S>,
    into: &mut String,
) -> Result<(), AllocError>
    ensures ok { OnOk result (string_bytes into.new ≡ string_bytes into.old ++ automaton_text ⟦<S as Weighed>⟧.texts (tapes_of context.now.labels) context.now.weights aut.now.automaton) }
    ensures front { IsFront (string_bytes into.old) (string_bytes into.new) }
{
    push_text("context = \"", into)?;
    write_context(context, into)?;
    push_text("\"\n", into)?;
    push_initials(aut, into)?;
    push_states(alloc, aut, into)?;
    Ok(())
}

/// Appends the canonical text of the automaton, whose context is given.
///
/// It is the context line, the initial lines by state, and then for each state its transition lines by target, its final
/// line, and the state alone where it is in none of these lines. Where memory runs out, the text is as before.
pub fn write_daut<L: LabelSet, S: Semiring>(
    alloc: Global,
    context: &AnyContext,
    aut: &Automaton<L, S>,
    into: &mut String,
) -> Result<(), AllocError>
    requires { tapes_of context.now.labels ≡ aut.now.sets }
    ensures ok { OnOk result (string_bytes into.new ≡ string_bytes into.old ++ automaton_text ⟦<S as Weighed>⟧.texts aut.now.sets context.now.weights aut.now.automaton) }
    ensures err { OnErr result (string_bytes into.new ≡ string_bytes into.old) }
{
    let length = into.len();
    let written = push_automaton(alloc, context, aut, into);
    if written.is_err() {
        cut_back(into, length);
    }
    written
}
