use vc_label::LabelSet;
use vc_ring::Semiring;

/// A transition of an automaton: it leads from one state to another, reads a label and has a weight.
#[derive(Drop)]
pub struct Transition<L: LabelSet, S: Semiring> {
    pub from: u32,
    pub label: L::Label,
    pub to: u32,
    pub weight: S::Value,
}
