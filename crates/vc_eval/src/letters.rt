//! Row steps over single letters: states whose entry is zero are left out.

ghost use Rattle.std.specs.List.Sorted.{IsNonDecreasingBy};
ghost use Rattle.std.specs.Prelude.{◌≡◌, ◌==◌, ◌<◌, ◌≤◌, ◌+◌, ◌*◌, ◌/◌, IsTrue, OnOk, All, Some, filter, length, map};
ghost use Rattle.vc_aut.specs.Stored.{transition_of};
ghost use Rattle.vc_eval.specs.Forward.{by_source, from_states};
ghost use Rattle.vc_eval.specs.LetterMoves.{AreApart, IsMoveInto, by_letter, carried};
ghost use Rattle.vc_eval.specs.Marks.{AreMarked};
ghost use Rattle.vc_eval.specs.Moves.{moved, move_steps, moved_once, once_steps};
ghost use Rattle.vc_model.specs.Letters.{HasLetters, letter_of};
ghost use Rattle.vc_model.specs.WeightSet.{InRange};
ghost use Rattle.vc_ring.specs.Steps.{outcome};

use crate::marks::{BLOCK, mark_targets, part_end};
use crate::rows::plus_product;
use vc_aut::{Automaton, Transition, automata_are_valid, transitions_are_in_order};
use vc_label::LabelSet;
use vc_ring::{Overflow, Semiring};

/// Adds to the row that begins at `at` what the transitions with a letter bring from the row that
/// begins at `before`. All labels are single letters. Blocks that are not marked are passed over.
pub(crate) fn push_row<L: LabelSet, S: Semiring>(
    aut: &Automaton<L, S>,
    letter: u8,
    before: usize,
    at: usize,
    rows: &mut [S::Value],
    marks: &mut [bool],
) -> Result<(), Overflow<S::Value>>
    requires tapes { length aut.now.sets ≡ 1 }
    requires letters { HasLetters aut.now.automaton }
    requires apart { AreApart aut.now.automaton.states before at (length rows.old) }
    requires room { length rows.old ≤ 64 * length marks.old }
    requires marked { AreMarked S.set rows.old marks.old }
    requires rows_in { InRange S.set rows.old }
    ensures steps { result ≡ outcome S.set (move_steps S.set (by_letter S.set letter before) at (by_source aut.now.automaton) rows.old) tt }
    ensures rows { OnOk result (rows.new ≡ moved S.set (by_letter S.set letter before) at (by_source aut.now.automaton) rows.old) }
    ensures marked { OnOk result (AreMarked S.set rows.new marks.new) }
    ensures rows_in { InRange S.set rows.new }
{
    let states = aut.states() as usize;
    let mut s = 0;
    while s < states {
        let next = part_end(before + s, before + states) - before;
        push_block(aut, letter, before, at, s as u32, next as u32, rows, marks)?;
        s = next;
    }
    Ok(())
}

/// Adds what the states from `first` up to `end` bring, whose cells are in one block.
fn push_block<L: LabelSet, S: Semiring>(
    aut: &Automaton<L, S>,
    letter: u8,
    before: usize,
    at: usize,
    first: u32,
    end: u32,
    rows: &mut [S::Value],
    marks: &mut [bool],
) -> Result<(), Overflow<S::Value>>
    requires tapes { length aut.now.sets ≡ 1 }
    requires letters { HasLetters aut.now.automaton }
    requires some { first < end }
    requires end { end ≤ aut.now.automaton.states }
    requires block { before + end ≤ (before + first) / 64 * 64 + 64 }
    requires apart { AreApart aut.now.automaton.states before at (length rows.old) }
    requires room { length rows.old ≤ 64 * length marks.old }
    requires marked { AreMarked S.set rows.old marks.old }
    requires rows_in { InRange S.set rows.old }
    ensures steps { result ≡ outcome S.set (move_steps S.set (by_letter S.set letter before) at (from_states aut.now.automaton.transitions first end) rows.old) tt }
    ensures rows { OnOk result (rows.new ≡ moved S.set (by_letter S.set letter before) at (from_states aut.now.automaton.transitions first end) rows.old) }
    ensures marked { OnOk result (AreMarked S.set rows.new marks.new) }
    ensures rows_in { InRange S.set rows.new }
{
    automata_are_valid(aut);
    if marks[(before + first as usize) / BLOCK] {
        return push_states(aut, letter, before, at, first, end, rows, marks);
    }
    Ok(())
}

/// Adds what the states from `first` up to `end` bring. States whose entry is zero are left out.
fn push_states<L: LabelSet, S: Semiring>(
    aut: &Automaton<L, S>,
    letter: u8,
    before: usize,
    at: usize,
    first: u32,
    end: u32,
    rows: &mut [S::Value],
    marks: &mut [bool],
) -> Result<(), Overflow<S::Value>>
    requires tapes { length aut.now.sets ≡ 1 }
    requires letters { HasLetters aut.now.automaton }
    requires end { end ≤ aut.now.automaton.states }
    requires apart { AreApart aut.now.automaton.states before at (length rows.old) }
    requires room { length rows.old ≤ 64 * length marks.old }
    requires marked { AreMarked S.set rows.old marks.old }
    requires rows_in { InRange S.set rows.old }
    ensures steps { result ≡ outcome S.set (move_steps S.set (by_letter S.set letter before) at (from_states aut.now.automaton.transitions first end) rows.old) tt }
    ensures rows { OnOk result (rows.new ≡ moved S.set (by_letter S.set letter before) at (from_states aut.now.automaton.transitions first end) rows.old) }
    ensures marked { OnOk result (AreMarked S.set rows.new marks.new) }
    ensures rows_in { InRange S.set rows.new }
{
    automata_are_valid(aut);
    transitions_are_in_order::<S::Value>();
    for s in first..end {
        let from = rows[before + s as usize];
        if from != S::zero() {
            let read = reading(aut.transitions_from(s), letter);
            push::<L, S>(from, read, at, aut.states() as usize, rows, marks)?;
        }
    }
    Ok(())
}

/// The letter that a transition reads, where its label has one letter.
fn letter_at<L: LabelSet, S: Semiring>(transition: &Transition<L, S>) -> u8
    ensures { result ≡ letter_of (transition_of L.parts transition.now) }
{
    match L::part(&transition.label, 0).first() {
        Some(letter) => return *letter,
        None => return 0,
    }
}

/// Those of the transitions from a state that read a letter. They stand together.
fn reading<L: LabelSet, S: Semiring>(
    transitions: &[Transition<L, S>],
    letter: u8,
) -> &[Transition<L, S>]
    requires { IsNonDecreasingBy (λ t. letter_of (transition_of L.parts t)) transitions.now }
    ensures { map (transition_of L.parts) result.now
        ≡ filter (λ u. letter_of u == letter) (map (transition_of L.parts) transitions.now) }
{
    let first = transitions.partition_point(|t| letter_at::<L, S>(t) < letter);
    let end = transitions.partition_point(|t| letter_at::<L, S>(t) <= letter);
    &transitions[first..end]
}

/// Adds to the row what transitions bring from a state with the entry `from`, and marks the blocks
/// of their targets.
fn push<L: LabelSet, S: Semiring>(
    from: S::Value,
    transitions: &[Transition<L, S>],
    at: usize,
    states: usize,
    rows: &mut [S::Value],
    marks: &mut [bool],
) -> Result<(), Overflow<S::Value>>
    requires targets { All (λ u. u.to < states) (map (transition_of L.parts) transitions.now) }
    requires moves { All (IsMoveInto S.set at (length rows.old))
        (map (transition_of L.parts) transitions.now) }
    requires from_in { IsTrue (S.set.in_range from) }
    requires row { at + states ≤ length rows.old }
    requires room { length rows.old ≤ 64 * length marks.old }
    requires marked { AreMarked S.set rows.old marks.old }
    requires rows_in { InRange S.set rows.old }
    ensures steps { result ≡ outcome S.set
        (move_steps S.set (carried from) at (map (transition_of L.parts) transitions.now) rows.old) tt }
    ensures rows { OnOk result (rows.new
        ≡ moved S.set (carried from) at (map (transition_of L.parts) transitions.now) rows.old) }
    ensures marked { OnOk result (AreMarked S.set rows.new marks.new) }
    ensures rows_in { InRange S.set rows.new }
{
    mark_targets::<L, S>(transitions, at, states, marks);
    push_each::<L, S>(from, transitions, at, rows)
}

/// Adds to the row what transitions bring from a state with the entry `from`.
fn push_each<L: LabelSet, S: Semiring>(
    from: S::Value,
    transitions: &[Transition<L, S>],
    at: usize,
    rows: &mut [S::Value],
) -> Result<(), Overflow<S::Value>>
    requires moves { All (IsMoveInto S.set at (length rows.old))
        (map (transition_of L.parts) transitions.now) }
    requires from_in { IsTrue (S.set.in_range from) }
    requires rows_in { InRange S.set rows.old }
    ensures steps { result ≡ outcome S.set
        (move_steps S.set (carried from) at (map (transition_of L.parts) transitions.now) rows.old) tt }
    ensures rows { OnOk result (rows.new
        ≡ moved S.set (carried from) at (map (transition_of L.parts) transitions.now) rows.old) }
    ensures rows_in { InRange S.set rows.new }
{
    for transition in transitions {
        bring::<L, S>(from, transition, at, rows)?;
    }
    Ok(())
}

/// Adds to the row what a transition brings from a state with the entry `from`.
fn bring<L: LabelSet, S: Semiring>(
    from: S::Value,
    transition: &Transition<L, S>,
    at: usize,
    rows: &mut [S::Value],
) -> Result<(), Overflow<S::Value>>
    requires into { IsMoveInto S.set at (length rows.old) (transition_of L.parts transition.now) }
    requires from_in { IsTrue (S.set.in_range from) }
    requires rows_in { InRange S.set rows.old }
    ensures steps { result ≡ outcome S.set
        (once_steps S.set at (Some from) (transition_of L.parts transition.now) rows.old) tt }
    ensures rows { OnOk result (rows.new
        ≡ moved_once S.set at (Some from) (transition_of L.parts transition.now) rows.old) }
    ensures rows_in { InRange S.set rows.new }
{
    let to = &mut rows[at + transition.to as usize];
    *to = plus_product::<S>(*to, from, transition.weight)?;
    Ok(())
}
