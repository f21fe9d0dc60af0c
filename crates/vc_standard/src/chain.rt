//! Products that are being made.
ghost use Rattle.std.specs.Prelude.{IsTrue, map};
ghost use Rattle.vc_standard.specs.Closed.{are_closed};
ghost use Rattle.vc_standard.specs.Stored.{position_of};

use crate::positions::Positions;
use crate::shape::Position;
use vc_label::LabelSet;
use vc_ring::Semiring;

/// A product that is being made. The closed positions stand before the ready ones, and have the
/// final weight zero: whatever follows, they stay as they are.
#[derive(Drop)]
pub(crate) struct Chain<L: LabelSet, S: Semiring> {
    pub(crate) start: Position<L, S>,
    pub(crate) closed: Positions<L, S>,
    pub(crate) ready: Positions<L, S>,
    ghost closed_are: { IsTrue (are_closed S.set S.Value.eq (map (position_of L.parts) closed.list.items)) },
}
