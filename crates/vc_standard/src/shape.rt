//! Transitions and positions of the standard construction.
ghost use Rattle.std.specs.Prelude.{IsTrue};

use vc_label::LabelSet;
use vc_ring::Semiring;

/// A transition to a position, which is told by its place.
#[derive(Drop)]
pub(crate) struct Move<L: LabelSet, S: Semiring> {
    pub(crate) label: L::Label,
    pub(crate) weight: S::Value,
    pub(crate) to: usize,
    ghost weight_in: { IsTrue (S.set.in_range weight) },
}

/// A state: its final weight and its transitions.
#[derive(Drop)]
pub(crate) struct Position<L: LabelSet, S: Semiring> {
    pub(crate) last: S::Value,
    pub(crate) moves: Vec<Move<L, S>>,
    ghost last_in: { IsTrue (S.set.in_range last) },
}
