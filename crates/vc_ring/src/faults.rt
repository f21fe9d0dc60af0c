ghost use Rattle.std.specs.Prelude.{◌≡◌};

use std::alloc::AllocError;

/// A step whose result no value stands for, with its operands.
///
/// `Numeral` is a number of a text that is past its range; `at` is the place of its weight in the
/// text or in its line, in bytes from 0. No call of a semiring answers it.
#[derive(Clone, Copy, Debug, PartialEq, Eq)]
pub enum Overflow<V> {
    Numeral { at: usize },
    Add { left: V, right: V },
    Mul { left: V, right: V },
    Star { of: V },
}

/// Why a star has no value: it is not defined, or no value stands for it.
#[derive(Clone, Copy, Debug, PartialEq, Eq)]
pub enum StarFault<V> {
    NoStar(V),
    Overflow(Overflow<V>),
}

/// Why a sum of weights was not made.
#[derive(Clone, Copy, Debug, PartialEq, Eq)]
pub enum SumFault<V> {
    Overflow(Overflow<V>),
    Memory(AllocError),
}

/// Why a text is no weight: it is outside the grammar, or a number in it is past its range.
#[derive(Clone, Copy, Debug, PartialEq, Eq)]
pub enum NumberFault {
    Bad,
    Overflow,
}

/// What a limit bounds.
#[derive(Clone, Copy, Debug, PartialEq, Eq)]
pub enum Measure {
    Bytes,
    Depth,
    States,
    Transitions,
    Closure,
    Cells,
    Nodes,
}

/// A limit that was passed: what it bounds, and the number that was exceeded.
#[derive(Clone, Copy, Debug, PartialEq, Eq)]
pub struct Limit {
    pub what: Measure,
    pub most: u64,
}

/// Why an automaton or an expression was not made.
#[derive(Clone, Copy, Debug, PartialEq, Eq)]
pub enum MakeFault<V> {
    Overflow(Overflow<V>),
    Limit(Limit),
    Memory(AllocError),
}

impl<V> From<AllocError> for MakeFault<V> {
    ghost use Rattle.vc_ring.specs.declared.faults.MakeFault.TheVariants.{Memory};

    ghost from_gives = { λ error fault. fault ≡ Memory error };

    fn from(error: AllocError) -> MakeFault<V> {
        MakeFault::Memory(error)
    }
}

impl<V> From<Overflow<V>> for MakeFault<V> {
    ghost use Rattle.vc_ring.specs.declared.faults.MakeFault.TheVariants.{Overflow};

    ghost from_gives = { λ step fault. fault ≡ Overflow step };

    fn from(step: Overflow<V>) -> MakeFault<V> {
        MakeFault::Overflow(step)
    }
}

impl<V> From<Limit> for MakeFault<V> {
    ghost use Rattle.vc_ring.specs.declared.faults.MakeFault.TheVariants.{Limit};

    ghost from_gives = { λ limit fault. fault ≡ Limit limit };

    fn from(limit: Limit) -> MakeFault<V> {
        MakeFault::Limit(limit)
    }
}
