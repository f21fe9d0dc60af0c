//! Runs: the transitions from one state with one label, which stand together.

ghost use Rattle.std.specs.Prelude.{◌≡◌, ◌⊎◌, ◌<◌, ◌≤◌, ◌==◌, ◌++◌, ◌∷◌, [], All, IfOk, IfSome, OnOk, false, filter, length, map, slice_index_or, take};
ghost use Rattle.vc_aut.specs.Stored.{transition_of};
ghost use Rattle.vc_eval.specs.Forward.{by_source};
ghost use Rattle.vc_eval.specs.Runs.{AreRunsOver, label_run, run_moves, run_of, words_of};
ghost use Rattle.vc_label.specs.Borrowed.{word_of};

use crate::words::parts;
use std::alloc::{AllocError, Global};
use vc_aut::{Automaton, Transition, automata_are_valid};
use vc_label::{LabelSet, Word};
use vc_ring::Semiring;

/// So many labels are looked through for one. If it is not among them, it has a further number.
const MOST_LOOKS: usize = 64;

/// Transitions from one state with one label, which is known by its number.
#[derive(Drop)]
pub(crate) struct Run<'a, L: LabelSet, S: Semiring> {
    pub(crate) from: u32,
    pub(crate) number: usize,
    pub(crate) transitions: &'a [Transition<L, S>],
}

/// All transitions of an automaton, run by run, and the labels by their numbers.
#[derive(Drop)]
pub(crate) struct Runs<'a, L: LabelSet, S: Semiring> {
    pub(crate) labels: Vec<Word<'a>>,
    pub(crate) runs: Vec<Run<'a, L, S>>,
}

/// The runs of an automaton, or none where they are not wanted.
pub(crate) fn runs_unless<'a, L: LabelSet, S: Semiring>(
    alloc: Global,
    single: bool,
    aut: &'a Automaton<L, S>,
) -> Result<Runs<'a, L, S>, AllocError>
    ensures over { IfOk result (λ r. single ≡ false → AreRunsOver aut.now.automaton
        (map word_of r.labels.items) (map (run_of L.parts) r.runs.items)) }
    ensures moves { IfOk result (λ r. single ≡ false → run_moves (map (run_of L.parts) r.runs.items)
        ≡ by_source aut.now.automaton) }
{
    if single {
        return Ok(Runs {
            labels: Vec::new(alloc),
            runs: Vec::new(alloc),
        });
    }
    runs_of(alloc, aut)
}

/// The runs of an automaton.
pub(crate) fn runs_of<'a, L: LabelSet, S: Semiring>(
    alloc: Global,
    aut: &'a Automaton<L, S>,
) -> Result<Runs<'a, L, S>, AllocError>
    ensures over { IfOk result (λ r. AreRunsOver aut.now.automaton
        (map word_of r.labels.items) (map (run_of L.parts) r.runs.items)) }
    ensures moves { IfOk result (λ r. run_moves (map (run_of L.parts) r.runs.items)
        ≡ by_source aut.now.automaton) }
{
    automata_are_valid(aut);
    let mut labels = Vec::new(alloc);
    let mut runs = Vec::new(alloc);
    for s in 0..aut.states() {
        push_runs(aut, s, &mut labels, &mut runs)?;
    }
    let words = label_words::<L>(alloc, &labels, aut.labels().tapes())?;
    Ok(Runs {
        labels: words,
        runs,
    })
}

/// Labels of so many parts as words.
fn label_words<'a, L: LabelSet>(
    alloc: Global,
    labels: &[&'a L::Label],
    tapes: usize,
) -> Result<Vec<Word<'a>>, AllocError>
    requires { All (λ w. length w ≡ tapes) (words_of L.parts labels.now) }
    ensures { IfOk result (λ ws. map word_of ws.items ≡ words_of L.parts labels.now) }
{
    let mut words = Vec::new(alloc);
    for number in 0..labels.len() {
        words.push(parts::<L>(labels[number], tapes))?;
    }
    Ok(words)
}

/// Appends the runs from a state.
fn push_runs<'a, L: LabelSet, S: Semiring>(
    aut: &'a Automaton<L, S>,
    s: u32,
    labels: &mut Vec<&'a L::Label>,
    runs: &mut Vec<Run<'a, L, S>>,
) -> Result<(), AllocError>
    requires state { s < aut.now.automaton.states }
    requires over { AreRunsOver aut.now.automaton
        (words_of L.parts labels.old.items) (map (run_of L.parts) runs.old.items) }
    ensures over { OnOk result (AreRunsOver aut.now.automaton
        (words_of L.parts labels.new.items) (map (run_of L.parts) runs.new.items)) }
    ensures moves { OnOk result (run_moves (map (run_of L.parts) runs.new.items)
        ≡ run_moves (map (run_of L.parts) runs.old.items)
        ++ filter (λ u. u.from == s) aut.now.automaton.transitions) }
{
    let mut rest = aut.transitions_from(s);
    let mut next = 0;
    while !rest.is_empty() {
        let label = &rest[0].label;
        let width = front_with::<L, S>(label, rest);
        let number = number_of::<L>(label, next, labels)?;
        push_run(s, number, &rest[..width], runs)?;
        rest = &rest[width..];
        next = number + 1;
    }
    Ok(())
}

/// Appends a run.
fn push_run<'a, L: LabelSet, S: Semiring>(
    from: u32,
    number: usize,
    transitions: &'a [Transition<L, S>],
    runs: &mut Vec<Run<'a, L, S>>,
) -> Result<(), AllocError>
    ensures { OnOk result (map (run_of L.parts) runs.new.items ≡ map (run_of L.parts) runs.old.items
        ++ label_run from number (map (transition_of L.parts) transitions.now) ∷ []) }
{
    runs.push(Run {
        from,
        number,
        transitions,
    })?;
    Ok(())
}

/// How many of the transitions in front have the label of the first.
fn front_with<L: LabelSet, S: Semiring>(label: &L::Label, transitions: &[Transition<L, S>]) -> usize
    requires some { 0 < length transitions.now }
    requires first { All (λ u. u.label ≡ L.parts label.now)
        (take 1 (map (transition_of L.parts) transitions.now)) }
    ensures some { 1 ≤ result }
    ensures within { result ≤ length transitions.now }
    ensures same { All (λ u. u.label ≡ L.parts label.now)
        (take result (map (transition_of L.parts) transitions.now)) }
{
    for place in 1..transitions.len() {
        if transitions[place].label != *label {
            return place;
        }
    }
    transitions.len()
}

/// The number of a label. It is put behind the labels if it was not found among them.
fn number_of<'a, L: LabelSet>(
    label: &'a L::Label,
    first: usize,
    labels: &mut Vec<&'a L::Label>,
) -> Result<usize, AllocError>
    ensures number { IfOk result (λ k. (k < length labels.new.items)
        × (slice_index_or (words_of L.parts labels.new.items) k [] ≡ L.parts label.now)) }
    ensures labels { OnOk result ((words_of L.parts labels.new.items ≡ words_of L.parts labels.old.items)
        ⊎ (words_of L.parts labels.new.items
        ≡ words_of L.parts labels.old.items ++ L.parts label.now ∷ [])) }
{
    if let Some(number) = found::<L>(label, first, labels) {
        return Ok(number);
    }
    let number = labels.len();
    labels.push(label)?;
    Ok(number)
}

/// A number of a label, which is looked for from a number on and then from the first.
fn found<L: LabelSet>(label: &L::Label, first: usize, labels: &[&L::Label]) -> Option<usize>
    ensures { IfSome result (λ k. (k < length labels.now)
        × (slice_index_or (words_of L.parts labels.now) k [] ≡ L.parts label.now)) }
{
    let mut number = first;
    for _ in 0..MOST_LOOKS.min(labels.len()) {
        if number >= labels.len() {
            number = 0;
        }
        if *labels[number] == *label {
            return Some(number);
        }
        number += 1;
    }
    None
}
