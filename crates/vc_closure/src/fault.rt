//! Why an automaton without empty labels is not made.
use std::alloc::AllocError;
use vc_aut::Transition;
use vc_label::LabelSet;
use vc_ring::{Limit, Overflow, Semiring};

/// Why an automaton without empty labels was not made.
#[derive(Drop)]
pub enum ProperFault<L: LabelSet, S: Semiring> {
    /// One does not absorb each weight, and this circuit is empty.
    Circuit(Vec<Transition<L, S>>),

    /// A step of the sums does not fit.
    Overflow(Overflow<S::Value>),

    /// More than 4,000,000 pairs of states are joined by empty labels, or the closure brings more
    /// than 4,000,000 triples.
    Limit(Limit),

    /// There was no memory.
    Memory(AllocError),
}

/// Why sums were not made: what can happen beside a circuit.
#[derive(Drop)]
pub(crate) enum SumFault<S: Semiring> {
    Overflow(Overflow<S::Value>),
    Limit(Limit),
    Memory(AllocError),
}
