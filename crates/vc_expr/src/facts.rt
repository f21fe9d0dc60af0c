//! What a store keeps beside a node.

/// What a store keeps of an expression: its constant term, the number of its label occurrences and
/// its bound, both cut at 2^64 - 1, and whether it is basic.
#[derive(Clone, Copy, Drop)]
pub(crate) struct Facts<V> {
    pub(crate) constant: V,
    pub(crate) letters: u64,
    pub(crate) bound: u64,
    pub(crate) basic: bool,
}
