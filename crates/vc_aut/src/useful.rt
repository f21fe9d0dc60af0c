ghost use Rattle.std.specs.Prelude.{◌≡◌, ◌<◌, ◌^◌, ◌&&◌, ℕ, List, IfOk, Some, None, length, map, filter, slice_index_or, if◌then◌else◌};
ghost use Rattle.std.specs.Option.{option_map};
ghost use Rattle.vc_aut.specs.Kept.{AreKept, AreUseful, place_among};
ghost use Rattle.vc_aut.specs.Marks.{is_marked};
ghost use Rattle.vc_aut.specs.Stored.{transition_of};
ghost use Rattle.vc_model.specs.Automata.{IsSound, coefficient, future};
ghost use Rattle.vc_model.specs.Lists.{In};
ghost use Rattle.vc_model.specs.Trims.{IsTrim, is_between, placed};
ghost use Rattle.vc_model.specs.Words.{Word};

use crate::automaton::Automaton;
use crate::laws::automata_are_valid;
use crate::links::reached;
use crate::transition::Transition;
use std::alloc::{AllocError, Global};
use vc_label::{LabelSet, words_are_ordered};
use vc_model::trims_keep_series;
use vc_ring::Semiring;

/// The automaton of the useful states, in their order, with their weights and the transitions
/// between them. A state is useful where it lies on a path from a state whose initial weight is not
/// zero to a state whose final weight is not zero (Sakarovitch, Elements of Automata Theory). The
/// states that stay keep their futures, and the automaton its series. It refuses for memory alone.
pub fn trim<L: LabelSet, S: Semiring>(
    alloc: Global,
    aut: &Automaton<L, S>,
) -> Result<Automaton<L, S>, AllocError>
    ensures sets { IfOk result (λ t. t.sets ≡ aut.now.sets) }
    ensures trim { IfOk result (λ t. (kept : List ℕ)
        × IsTrim S.set aut.now.automaton t.automaton kept) }
    ensures futures { IfOk result (λ t. (kept : List ℕ)
        → IsTrim S.set aut.now.automaton t.automaton kept
        → IsSound S.set (length aut.now.sets) aut.now.automaton → (i : ℕ) (w : Word)
        → i < length kept → length w ≡ length aut.now.sets
        → future S.set t.automaton i w
        ≡ future S.set aut.now.automaton (slice_index_or kept i 0) w) }
    ensures series { IfOk result (λ t. IsSound S.set (length aut.now.sets) aut.now.automaton
        → (w : Word) → length w ≡ length aut.now.sets
        → coefficient S.set t.automaton w ≡ coefficient S.set aut.now.automaton w) }
{
    automata_are_valid(aut);
    trims_keep_series::<S::Value>();
    let trimmed = useful_part(alloc, aut)?;
    automata_are_valid(&trimmed);
    Ok(trimmed)
}

/// The automaton of the useful states.
fn useful_part<L: LabelSet, S: Semiring>(
    alloc: Global,
    aut: &Automaton<L, S>,
) -> Result<Automaton<L, S>, AllocError>
    ensures sets { IfOk result (λ t. t.sets ≡ aut.now.sets) }
    ensures trim { IfOk result (λ t. (kept : List ℕ)
        × IsTrim S.set aut.now.automaton t.automaton kept) }
{
    words_are_ordered();
    automata_are_valid(aut);
    let kept = useful(alloc, aut)?;
    if kept.states.len() == aut.states() as usize {
        return aut.copy(alloc);
    }
    let initial_weights = chosen::<S>(alloc, aut.initial_weights(), &kept.states)?;
    let final_weights = chosen::<S>(alloc, aut.final_weights(), &kept.states)?;
    let transitions = between(alloc, aut, &kept)?;
    Automaton::new(
        alloc,
        *aut.labels(),
        initial_weights,
        final_weights,
        transitions,
    )
}

/// States that are kept, and for each state its place among them.
#[derive(Drop)]
struct Kept {
    states: Vec<u32>,
    places: Vec<Option<u32>>,
}

/// The useful states.
fn useful<L: LabelSet, S: Semiring>(
    alloc: Global,
    aut: &Automaton<L, S>,
) -> Result<Kept, AllocError>
    ensures { IfOk result (λ k. AreUseful S.set aut.now.automaton k.states.items k.places.items) }
{
    automata_are_valid(aut);
    let from_initial = reached(alloc, aut, aut.initial_weights(), false)?;
    let to_final = reached(alloc, aut, aut.final_weights(), true)?;
    keep_states(alloc, &from_initial, &to_final)
}

/// The states that are marked in both lists.
fn keep_states(alloc: Global, reached: &[bool], useful: &[bool]) -> Result<Kept, AllocError>
    requires same { length useful.now ≡ length reached.now }
    requires few { length reached.now < 2 ^ 32 }
    ensures { IfOk result (λ k. AreKept reached.now useful.now (length reached.now)
        k.states.items k.places.items) }
{
    let mut states = Vec::new(alloc);
    let mut places = Vec::with_capacity(alloc, reached.len())?;
    for state in 0..reached.len() {
        if !both(reached, useful, state) {
            places.push(None)?;
            continue;
        }
        places.push(Some(states.len() as u32))?;
        states.push(state as u32)?;
    }
    Ok(Kept { states, places })
}

/// Whether a state is marked in both lists.
fn both(reached: &[bool], useful: &[bool], state: usize) -> bool
    requires reached { state < length reached.now }
    requires useful { state < length useful.now }
    ensures { result ≡ (is_marked reached.now state && is_marked useful.now state) }
{
    reached[state] && useful[state]
}

/// The weights of some states.
fn chosen<S: Semiring>(
    alloc: Global,
    weights: &[S::Value],
    states: &[u32],
) -> Result<Vec<S::Value>, AllocError>
    requires { (q : ℕ) → In q states.now → q < length weights.now }
    ensures { IfOk result (λ v. v.items
        ≡ map (λ q. slice_index_or weights.now q S.set.zero) states.now) }
{
    let mut list = Vec::with_capacity(alloc, states.len())?;
    for state in states {
        list.push(weights[*state as usize])?;
    }
    Ok(list)
}

/// The transitions between states that are kept, from place to place.
fn between<L: LabelSet, S: Semiring>(
    alloc: Global,
    aut: &Automaton<L, S>,
    kept: &Kept,
) -> Result<Vec<Transition<L, S>>, AllocError>
    requires count { length kept.now.places.items ≡ aut.now.automaton.states }
    requires places { (p : ℕ) → p < aut.now.automaton.states
        → slice_index_or kept.now.places.items p None
        ≡ place_among kept.now.states.items p }
    ensures { IfOk result (λ v. map (transition_of L.parts) v.items
        ≡ map (placed kept.now.states.items)
        (filter (is_between kept.now.states.items) aut.now.automaton.transitions)) }
{
    automata_are_valid(aut);
    let mut transitions = Vec::new(alloc);
    for transition in aut.transitions() {
        let Some(moved) = place::<L, S>(alloc, transition, kept)? else {
            continue;
        };
        transitions.push(moved)?;
    }
    Ok(transitions)
}

/// The transition between the places of its ends, where both are kept.
fn place<L: LabelSet, S: Semiring>(
    alloc: Global,
    transition: &Transition<L, S>,
    kept: &Kept,
) -> Result<Option<Transition<L, S>>, AllocError>
    requires from { transition.now.from < length kept.now.places.items }
    requires to { transition.now.to < length kept.now.places.items }
    requires from_place { slice_index_or kept.now.places.items transition.now.from None
        ≡ place_among kept.now.states.items transition.now.from }
    requires to_place { slice_index_or kept.now.places.items transition.now.to None
        ≡ place_among kept.now.states.items transition.now.to }
    ensures { IfOk result (λ o. option_map (transition_of L.parts) o
        ≡ (if is_between kept.now.states.items (transition_of L.parts transition.now)
        then Some (placed kept.now.states.items (transition_of L.parts transition.now)) else None)) }
{
    let Some(from) = kept.places[transition.from as usize] else {
        return Ok(None);
    };
    let Some(to) = kept.places[transition.to as usize] else {
        return Ok(None);
    };
    Ok(Some(Transition {
        from,
        label: L::copy(alloc, &transition.label)?,
        to,
        weight: transition.weight,
    }))
}
