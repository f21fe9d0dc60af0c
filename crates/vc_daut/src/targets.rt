ghost use Rattle.std.specs.Prelude.{◌≡◌, ◌<◌, ◌≤◌, ◌||◌, ◌==◌, ℕ, All, OnOk, length, map, filter, slice_index_or, false};
ghost use Rattle.std.specs.List.{list_any, prefix_len};
ghost use Rattle.std.specs.List.Sorted.{IsNonDecreasingBy, IsPermutation};
ghost use Rattle.vc_aut.specs.Stored.{transition_of};
ghost use Rattle.vc_daut.specs.Growing.{lent};

use std::alloc::AllocError;
use vc_aut::Transition;
use vc_label::LabelSet;
use vc_ring::Semiring;

/// Puts the transitions in the order of their targets; those to one target stay in their order.
pub(crate) fn by_target<'a, L: LabelSet, S: Semiring>(
    moves: &'a [Transition<L, S>],
    order: &mut Vec<&'a Transition<L, S>>,
) -> Result<(), AllocError>
    ensures sorted { OnOk result (IsNonDecreasingBy (λ b. b.now.to) order.new.items) }
    ensures same { OnOk result (IsPermutation (map (transition_of L.parts) moves.now) (lent L.parts order.new.items)) }
    ensures stable { OnOk result ((q : ℕ) → filter (λ t. t.to == q) (lent L.parts order.new.items) ≡ filter (λ t. t.to == q) (map (transition_of L.parts) moves.now)) }
{
    order.clear();
    for entry in moves {
        order.push(entry)?;
    }
    order.sort_by_key(|entry| entry.to)?;
    Ok(())
}

/// How many of the transitions in front lead to the state.
pub(crate) fn front_to<L: LabelSet, S: Semiring>(
    target: u32,
    entries: &[&Transition<L, S>],
) -> usize
    ensures value { result ≡ prefix_len (λ b. b.now.to == target) entries.now }
    ensures within { result ≤ length entries.now }
{
    for place in 0..entries.len() {
        if entries[place].to != target {
            return place;
        }
    }
    entries.len()
}

/// Sets the mark of each target.
pub(crate) fn mark_targets<L: LabelSet, S: Semiring>(moves: &[Transition<L, S>], marks: &mut [bool])
    requires { All (λ t. t.to < length marks.old) moves.now }
    ensures length { length marks.new ≡ length marks.old }
    ensures marks { (q : ℕ) → q < length marks.old → slice_index_or marks.new q false ≡ slice_index_or marks.old q false || list_any (λ t. t.to == q) (map (transition_of L.parts) moves.now) }
{
    for entry in moves {
        marks[entry.to as usize] = true;
    }
}
