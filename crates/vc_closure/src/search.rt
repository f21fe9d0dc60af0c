//! The search for a circuit, depth first, which leaves an order where there is none.
ghost use Rattle.std.specs.Prelude.{◌≡◌, ◌<◌, ◌≤◌, ◌++◌, [], ◌∷◌, ℕ, IfOk, IfSome, IsNone, OnOk, length, map, slice_index_or, true, false, slice_get, Some, ◌&&◌, not};
ghost use Rattle.vc_aut.specs.Stored.{transition_of};
ghost use Rattle.vc_closure.specs.Circuits.{IsCircuitOn};
ghost use Rattle.vc_closure.specs.Searches.{ArePassed, AreTaken, AreLeft, IsOpen, IsOrder, IsSearched, IsTaken, IsWalk, is_marked, moves_from, states_of};
ghost use Rattle.vc_closure.specs.declared.search.Step.{Step};
ghost use Rattle.vc_model.specs.Automata.{Transition as Move};
ghost use Rattle.vc_model.specs.Lists.{In};
ghost use Rattle.vc_model.specs.Words.{is_empty, on};
ghost use Rattle.vc_closure.specs.Found.{IsFound};

use std::alloc::{AllocError, Global};
use vc_aut::{Automaton, Transition, automata_are_valid};
use vc_label::{LabelSet, words_are_over_sets};
use vc_ring::Semiring;

/// What a search along silent transitions finds: all states in an order in which these lead back, or
/// a circuit of them.
#[derive(Drop)]
pub(crate) enum Found<L: LabelSet, S: Semiring> {
    Order(Vec<u32>),
    Circuit(Vec<Transition<L, S>>),
}

/// A state on a path, and the place of the transition that is taken there among those from it.
#[derive(Clone, Copy)]
pub(crate) struct Step {
    state: u32,
    at: usize,
}

/// Goes along the transitions whose labels are empty on the marked tapes, depth first.
pub(crate) fn search_circuit<L: LabelSet, S: Semiring>(
    alloc: Global,
    aut: &Automaton<L, S>,
    tapes: &[bool],
) -> Result<Found<L, S>, AllocError>
    requires { length tapes.now ≡ length aut.now.sets }
    ensures { IfOk result (λ found. IsFound L.parts (length aut.now.sets) tapes.now
        aut.now.automaton found) }
{
    let states = aut.states();
    let mut seen = Vec::from_elem(alloc, false, states as usize)?;
    let mut done = Vec::from_elem(alloc, false, states as usize)?;
    let mut order = Vec::with_capacity(alloc, states as usize)?;
    for root in 0..states {
        if seen[root as usize] {
            continue;
        }
        let found = visit(alloc, aut, tapes, root, &mut seen, &mut done, &mut order)?;
        if let Some(circuit) = found {
            return Ok(Found::Circuit(circuit));
        }
    }
    Ok(Found::Order(order))
}

/// Goes from a state that was not seen to all that silent transitions lead to from there, and
/// answers a circuit where it finds one.
fn visit<L: LabelSet, S: Semiring>(
    alloc: Global,
    aut: &Automaton<L, S>,
    tapes: &[bool],
    root: u32,
    seen: &mut [bool],
    done: &mut [bool],
    order: &mut Vec<u32>,
) -> Result<Option<Vec<Transition<L, S>>>, AllocError>
    requires tapes { length tapes.now ≡ length aut.now.sets }
    requires root { root < aut.now.automaton.states }
    requires new { is_marked seen.old root ≡ false }
    requires searched { IsSearched aut.now.automaton tapes.now seen.old done.old order.old.items }
    requires left { AreLeft seen.old done.old }
    ensures circuit { IfOk result (λ found. IfSome found (λ ts. IsCircuitOn (length aut.now.sets)
        tapes.now aut.now.automaton (map (transition_of L.parts) ts.items))) }
    ensures searched { IfOk result (λ found. IsNone found → IsSearched aut.now.automaton tapes.now
        seen.new done.new order.new.items) }
    ensures left { IfOk result (λ found. IsNone found → AreLeft seen.new done.new) }
    ensures kept { (q : ℕ) → is_marked seen.old q ≡ true → is_marked seen.new q ≡ true }
    ensures root { is_marked seen.new root ≡ true }
{
    automata_are_valid(aut);
    let mut path: Vec<Step> = Vec::new(alloc);
    let mut state = root;
    let mut at = 0;
    seen[root as usize] = true;
    'walk: loop {
        let moves = aut.transitions_from(state);
        match next_open(moves, tapes, done, at) {
            Some(place) => {
                let to = moves[place].to;
                path.push(Step { state, at: place })?;
                if seen[to as usize] {
                    let back = place_of(&path, to);
                    let circuit = taken(alloc, aut, &path[back..])?;
                    return Ok(Some(circuit));
                }
                seen[to as usize] = true;
                state = to;
                at = 0;
            }
            None => {
                done[state as usize] = true;
                order.push(state)?;
                let Some(step) = path.pop() else {
                    return Ok(None);
                };
                state = step.state;
                at = step.at;
            }
        }
    }
}

/// The first place from `at` on of a silent transition to a state that is not done.
fn next_open<L: LabelSet, S: Semiring>(
    moves: &[Transition<L, S>],
    tapes: &[bool],
    done: &[bool],
    at: usize,
) -> Option<usize>
    requires labels { (t : Move S.Value) → In t (map (transition_of L.parts) moves.now) → length
        t.label ≡ length tapes.now }
    requires to { (t : Move S.Value) → In t (map (transition_of L.parts) moves.now) → t.to < length
        done.now }
    requires passed { ArePassed tapes.now done.now (map (transition_of L.parts) moves.now) at }
    ensures found { IfSome result (λ i. (t : Move S.Value) × IsOpen tapes.now done.now (map
        (transition_of L.parts) moves.now) i t) }
    ensures before { IfSome result (λ i. ArePassed tapes.now done.now (map (transition_of L.parts)
        moves.now) i) }
    ensures none { IsNone result → ArePassed tapes.now done.now (map (transition_of L.parts)
        moves.now) (length moves.now) }
{
    for place in at..moves.len() {
        if leads_on(&moves[place], tapes, done) {
            return Some(place);
        }
    }
    None
}

/// Whether a transition is silent and leads to a state that is not done.
fn leads_on<L: LabelSet, S: Semiring>(
    transition: &Transition<L, S>,
    tapes: &[bool],
    done: &[bool],
) -> bool
    requires label { length (L.parts transition.now.label) ≡ length tapes.now }
    requires to { transition.now.to < length done.now }
    ensures { result ≡ (is_empty (on tapes.now (L.parts transition.now.label)) && not (is_marked
        done.now transition.now.to)) }
{
    is_silent::<L>(&transition.label, tapes) && !done[transition.to as usize]
}

/// Whether a label is empty on the marked tapes.
fn is_silent<L: LabelSet>(label: &L::Label, tapes: &[bool]) -> bool
    requires { length (L.parts label.now) ≡ length tapes.now }
    ensures { result ≡ is_empty (on tapes.now (L.parts label.now)) }
{
    for tape in 0..tapes.len() {
        if tapes[tape] && !L::part(label, tape).is_empty() {
            return false;
        }
    }
    true
}

/// The first place of a state on a path.
fn place_of(path: &[Step], state: u32) -> usize
    requires { In state (states_of path.now) }
    ensures within { result < length path.now }
    ensures place { (d : Step) → (slice_index_or path.now result d).state ≡ state }
{
    let mut place = 0;
    while place < path.len() && path[place].state != state {
        place += 1;
    }
    place
}

/// Copies of the transitions that are taken at the steps.
fn taken<L: LabelSet, S: Semiring>(
    alloc: Global,
    aut: &Automaton<L, S>,
    steps: &[Step],
) -> Result<Vec<Transition<L, S>>, AllocError>
    requires states { (s : Step) → In s steps.now → s.state < aut.now.automaton.states }
    requires taken { (s : Step) → In s steps.now → (t : Move S.Value) × IsTaken aut.now.automaton s
        t }
    ensures { IfOk result (λ v. AreTaken aut.now.automaton steps.now (map (transition_of L.parts)
        v.items)) }
{
    let mut circuit = Vec::with_capacity(alloc, steps.len())?;
    for step in steps {
        let transition = &aut.transitions_from(step.state)[step.at];
        circuit.push(Transition {
            from: transition.from,
            label: L::copy(alloc, &transition.label)?,
            to: transition.to,
            weight: transition.weight,
        })?;
    }
    Ok(circuit)
}
