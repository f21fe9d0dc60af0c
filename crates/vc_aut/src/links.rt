//! States that transitions lead to, or from which they lead.
ghost use Rattle.std.specs.Prelude.{◌≡◌, ◌↔◌, ◌∷◌, ◌<◌, ◌^◌, ℕ, [], IfOk, OnOk, length, map, not, false, true};
ghost use Rattle.vc_aut.specs.Links.{AreLinks, IsFollowed, IsReached, far, linked};
ghost use Rattle.vc_aut.specs.Marks.{is_marked};
ghost use Rattle.vc_aut.specs.Stored.{transition_of};
ghost use Rattle.vc_model.specs.Lists.{In};

use crate::automaton::Automaton;
use crate::laws::automata_are_valid;
use crate::transition::Transition;
use std::alloc::{AllocError, Global};
use vc_label::LabelSet;
use vc_ring::Semiring;

/// For each state whether transitions lead to it from a state whose weight is not zero, or, where
/// they are gone along backwards, from it to such a state.
pub(crate) fn reached<L: LabelSet, S: Semiring>(
    alloc: Global,
    aut: &Automaton<L, S>,
    weights: &[S::Value],
    back: bool,
) -> Result<Vec<bool>, AllocError>
    requires { length weights.now ≡ aut.now.automaton.states }
    ensures count { IfOk result (λ v. length v.items ≡ aut.now.automaton.states) }
    ensures reached { IfOk result (λ v. (q : ℕ) → (is_marked v.items q ≡ true)
        ↔ IsReached (linked back aut.now.automaton.transitions)
        (map (λ w. not (S.Value.eq w S.set.zero)) weights.now) q) }
{
    automata_are_valid(aut);
    let mut marks = weighty::<S>(alloc, weights)?;
    let links = make_links(alloc, aut, back)?;
    reach(alloc, aut, &links, back, &mut marks)?;
    Ok(marks)
}

/// For each weight whether it is not zero.
fn weighty<S: Semiring>(alloc: Global, weights: &[S::Value]) -> Result<Vec<bool>, AllocError>
    ensures { IfOk result (λ v. v.items ≡ map (λ w. not (S.Value.eq w S.set.zero)) weights.now) }
{
    let mut marks = Vec::with_capacity(alloc, weights.len())?;
    for weight in weights {
        marks.push(*weight != S::zero())?;
    }
    Ok(marks)
}

/// The transitions to each state, as chains that begin at the last one. A link is the place behind
/// a transition, and 0 ends a chain.
#[derive(Drop)]
struct Links {
    last: Vec<usize>,
    before: Vec<usize>,
}

/// The links by which transitions are gone along backwards. Forwards none is needed, since those
/// from a state stand together.
fn make_links<L: LabelSet, S: Semiring>(
    alloc: Global,
    aut: &Automaton<L, S>,
    back: bool,
) -> Result<Links, AllocError>
    ensures { IfOk result (λ links. back ≡ true → AreLinks aut.now.automaton.transitions
        aut.now.automaton.states links.last.items links.before.items) }
{
    automata_are_valid(aut);
    if !back {
        return Ok(Links {
            last: Vec::new(alloc),
            before: Vec::new(alloc),
        });
    }
    let mut last = Vec::from_elem(alloc, 0, aut.states() as usize)?;
    let mut before = Vec::with_capacity(alloc, aut.transitions().len())?;
    for transition in aut.transitions() {
        let link = last[transition.to as usize];
        before.push(link)?;
        last[transition.to as usize] = before.len();
    }
    Ok(Links { last, before })
}

/// Marks all states to which transitions lead from marked ones, or from which they lead to those.
fn reach<L: LabelSet, S: Semiring>(
    alloc: Global,
    aut: &Automaton<L, S>,
    links: &Links,
    back: bool,
    marks: &mut [bool],
) -> Result<(), AllocError>
    requires count { length marks.old ≡ aut.now.automaton.states }
    requires links { back ≡ true → AreLinks aut.now.automaton.transitions
        aut.now.automaton.states links.now.last.items links.now.before.items }
    ensures count { OnOk result (length marks.new ≡ length marks.old) }
    ensures reached { OnOk result ((q : ℕ) → (is_marked marks.new q ≡ true)
        ↔ IsReached (linked back aut.now.automaton.transitions) marks.old q) }
{
    automata_are_valid(aut);
    let mut waiting = marked(alloc, marks)?;
    'states: while let Some(state) = waiting.pop() {
        follow(aut, links, back, state, marks, &mut waiting)?;
    }
    Ok(())
}

/// The states that are marked.
fn marked(alloc: Global, marks: &[bool]) -> Result<Vec<u32>, AllocError>
    requires { length marks.now < 2 ^ 32 }
    ensures { IfOk result (λ v. (q : ℕ) → (is_marked marks.now q ≡ true) ↔ In q v.items) }
{
    let mut states = Vec::new(alloc);
    for state in 0..marks.len() {
        if !marks[state] {
            continue;
        }
        states.push(state as u32)?;
    }
    Ok(states)
}

/// Marks the states that a state is linked with, and adds those to the waiting ones that were not
/// marked.
fn follow<L: LabelSet, S: Semiring>(
    aut: &Automaton<L, S>,
    links: &Links,
    back: bool,
    state: u32,
    marks: &mut [bool],
    waiting: &mut Vec<u32>,
) -> Result<(), AllocError>
    requires state { state < aut.now.automaton.states }
    requires count { length marks.old ≡ aut.now.automaton.states }
    requires links { back ≡ true → AreLinks aut.now.automaton.transitions
        aut.now.automaton.states links.now.last.items links.now.before.items }
    ensures { OnOk result (IsFollowed (linked back aut.now.automaton.transitions state) marks.old
        waiting.old.items marks.new waiting.new.items) }
{
    automata_are_valid(aut);
    if back {
        return follow_back(aut, links, state, marks, waiting);
    }
    follow_on(aut.transitions_from(state), marks, waiting)
}

/// Marks the states to which transitions lead, as `follow` does.
fn follow_on<L: LabelSet, S: Semiring>(
    transitions: &[Transition<L, S>],
    marks: &mut [bool],
    waiting: &mut Vec<u32>,
) -> Result<(), AllocError>
    requires { (q : ℕ) → In q (map (far false) (map (transition_of L.parts) transitions.now))
        → q < length marks.old }
    ensures { OnOk result (IsFollowed (map (far false) (map (transition_of L.parts)
        transitions.now)) marks.old waiting.old.items marks.new waiting.new.items) }
{
    for transition in transitions {
        visit(transition.to, marks, waiting)?;
    }
    Ok(())
}

/// Marks the states from which transitions lead to a state, as `follow` does.
fn follow_back<L: LabelSet, S: Semiring>(
    aut: &Automaton<L, S>,
    links: &Links,
    state: u32,
    marks: &mut [bool],
    waiting: &mut Vec<u32>,
) -> Result<(), AllocError>
    requires state { state < aut.now.automaton.states }
    requires count { length marks.old ≡ aut.now.automaton.states }
    requires links { AreLinks aut.now.automaton.transitions aut.now.automaton.states
        links.now.last.items links.now.before.items }
    ensures { OnOk result (IsFollowed (linked true aut.now.automaton.transitions state) marks.old
        waiting.old.items marks.new waiting.new.items) }
{
    automata_are_valid(aut);
    let transitions = aut.transitions();
    let mut link = links.last[state as usize];
    'chain: while link > 0 {
        let at = link - 1;
        let next = links.before[at];
        visit(transitions[at].from, marks, waiting)?;
        link = next;
    }
    Ok(())
}

/// Marks a state, and lets it wait if it was not marked.
fn visit(state: u32, marks: &mut [bool], waiting: &mut Vec<u32>) -> Result<(), AllocError>
    requires { state < length marks.old }
    ensures { OnOk result (IsFollowed (state ∷ []) marks.old waiting.old.items
        marks.new waiting.new.items) }
{
    if marks[state as usize] {
        return Ok(());
    }
    marks[state as usize] = true;
    waiting.push(state)?;
    Ok(())
}
