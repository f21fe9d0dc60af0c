//! How many entries the rows have, and whether they are too many.

ghost use Rattle.std.specs.Prelude.{◌≡◌, ◌<◌, ◌≤◌, ◌*◌, ◌^◌, [], ◌∷◌, ℕ, All, IfOk, IfSome, None, Some, length, map, max, slice_index_or};
ghost use Rattle.vc_aut.specs.Stored.{transition_of};
ghost use Rattle.vc_eval.specs.Cells.{longest, refusal_of};
ghost use Rattle.vc_label.specs.Borrowed.{word_of};
ghost use Rattle.vc_model.specs.WeightSet.{InRange};
ghost use Rattle.vc_eval.specs.Positions.{place_of, positions};

use std::alloc::{AllocError, Global};
use vc_aut::{Automaton, Transition, automata_are_valid};
use vc_label::{LabelSet, Word};
use vc_ring::{Limit, MakeFault, Measure, Semiring};

/// The most entries of rows.
const MOST_CELLS: u64 = 20_000_000;

/// The refusal of more entries than the most.
pub(crate) fn past_cells<S: Semiring>() -> MakeFault<S::Value>
    ensures { (n : ℕ) → 20000000 < n → refusal_of n ≡ Some result }
{
    MakeFault::Limit(Limit {
        what: Measure::Cells,
        most: MOST_CELLS,
    })
}

/// The number of letters of the longest label of an automaton of one tape, at least 1.
pub(crate) fn longest<L: LabelSet, S: Semiring>(aut: &Automaton<L, S>) -> usize
    requires { length aut.now.sets ≡ 1 }
    ensures { result ≡ longest 1 aut.now.automaton.transitions }
{
    automata_are_valid(aut);
    let mut most = 1;
    for s in 0..aut.states() {
        most = longest_of::<L, S>(most, aut.transitions_from(s));
    }
    most
}

/// The greatest of a number and the numbers of letters of labels of one tape.
fn longest_of<L: LabelSet, S: Semiring>(least: usize, transitions: &[Transition<L, S>]) -> usize
    requires { All (λ u. length u.label ≡ 1) (map (transition_of L.parts) transitions.now) }
    ensures { result ≡ longest least (map (transition_of L.parts) transitions.now) }
{
    let mut most = least;
    for transition in transitions {
        most = most.max(L::part(&transition.label, 0).len());
    }
    most
}

/// The number of entries of a row for each position of a word; none where they are more than the most.
pub(crate) fn cells_of(states: u32, word: Word<'_>) -> Option<usize>
    requires { 1 ≤ states }
    ensures none { result ≡ None → 20000000 < states * positions (word_of word.entry) }
    ensures some { IfSome result (λ n. (n ≡ states * positions (word_of word.entry)) × (n ≤ 20000000)) }
{
    let mut cells = states as u64;
    for tape in 0..word.tapes() {
        let more = cells as u128 * (word.tape(tape).len() as u128 + 1);
        if more > MOST_CELLS as u128 {
            return None;
        }
        cells = more as u64;
    }
    if cells > MOST_CELLS {
        None
    } else {
        Some(cells as usize)
    }
}

/// How many rows are wanted at once: one more than the positions that a label leads back at most.
pub(crate) fn rows_wanted(labels: &[Word<'_>], word: Word<'_>, positions: usize) -> usize
    requires tapes { All (λ l. length l ≡ length (word_of word)) (map word_of labels.now) }
    requires some { 1 ≤ positions }
    requires few { positions ≤ 20000000 }
    ensures some { 1 ≤ result }
    ensures most { result ≤ positions }
    ensures window { (k : ℕ) → k < length labels.now
        → place_of (word_of word.entry) (slice_index_or (map word_of labels.now) k []) < positions
        → place_of (word_of word.entry) (slice_index_or (map word_of labels.now) k []) < result }
{
    let mut wanted = 1;
    for number in 0..labels.len() {
        wanted = more_rows(wanted, labels[number], word, positions);
    }
    wanted
}

/// As many rows as before, or more if one label wants them.
fn more_rows(wanted: usize, label: Word<'_>, word: Word<'_>, positions: usize) -> usize
    requires tapes { length (word_of label) ≡ length (word_of word) }
    requires wanted { wanted ≤ positions }
    requires some { 1 ≤ positions }
    requires few { positions ≤ 20000000 }
    ensures kept { wanted ≤ result }
    ensures most { result ≤ positions }
    ensures enough { place_of (word_of word.entry) (word_of label.entry) < positions
        → place_of (word_of word.entry) (word_of label.entry) < result }
{
    let mut place = 0;
    for tape in 0..word.tapes() {
        let width = word.tape(tape).len() as u128 + 1;
        let next = place as u128 * width + label.tape(tape).len() as u128;
        if next >= positions as u128 {
            return positions;
        }
        place = next as usize;
    }
    wanted.max(place + 1)
}

/// So many entries that are zero.
pub(crate) fn zeros<S: Semiring>(alloc: Global, cells: usize) -> Result<Vec<S::Value>, AllocError>
    ensures len { IfOk result (λ v. length v.items ≡ cells) }
    ensures in_range { IfOk result (λ v. InRange S.set v.items) }
{
    let mut rows = Vec::from_elem(alloc, S::zero(), cells)?;
    make_zero::<S>(&mut rows);
    Ok(rows)
}

/// Makes each entry zero.
fn make_zero<S: Semiring>(rows: &mut [S::Value])
    ensures { InRange S.set rows.new }
{
    for s in 0..rows.len() {
        rows[s] = S::zero();
    }
}
