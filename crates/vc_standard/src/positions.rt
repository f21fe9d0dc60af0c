//! Lists of positions, whose transitions are counted.
ghost use Rattle.std.specs.Prelude.{◌≤◌, map};
ghost use Rattle.vc_standard.specs.Counts.{moves_in};
ghost use Rattle.vc_standard.specs.Stored.{position_of};

use crate::shape::Position;
use vc_label::LabelSet;
use vc_ring::Semiring;

/// Positions in order, and at most how many transitions they have together.
#[derive(Drop)]
pub(crate) struct Positions<L: LabelSet, S: Semiring> {
    pub(crate) list: Vec<Position<L, S>>,
    pub(crate) named: usize,
    ghost named_le: { named ≤ moves_in (map (position_of L.parts) list.items) },
}
