//! Transitions in the order of their labels.
ghost use Rattle.std.specs.Prelude.{◌≡◌, map};
ghost use Rattle.vc_aut.specs.Stored.{transition_of};
ghost use Rattle.vc_join.specs.Runs.{from_label, run_of};

use vc_aut::Transition;
use vc_label::LabelSet;
use vc_ring::Semiring;

/// The transitions without those in front whose labels come before this one.
pub(crate) fn from_label<'t, L: LabelSet, S: Semiring>(
    label: &L::Label,
    moves: &'t [Transition<L, S>],
) -> &'t [Transition<L, S>]
    ensures { map (transition_of L.parts) result.now
        ≡ from_label (L.parts label.now) (map (transition_of L.parts) moves.now) }
{
    for place in 0..moves.len() {
        if !moves[place].label.cmp(label).is_lt() {
            return &moves[place..];
        }
    }
    &moves[moves.len()..]
}

/// The transitions in front that have this label.
pub(crate) fn run_of<'t, L: LabelSet, S: Semiring>(
    label: &L::Label,
    moves: &'t [Transition<L, S>],
) -> &'t [Transition<L, S>]
    ensures { map (transition_of L.parts) result.now
        ≡ run_of (L.parts label.now) (map (transition_of L.parts) moves.now) }
{
    for place in 0..moves.len() {
        if moves[place].label != *label {
            return &moves[..place];
        }
    }
    moves
}
