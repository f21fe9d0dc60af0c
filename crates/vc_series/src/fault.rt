//! Why a coefficient was not computed.
ghost use Rattle.std.specs.Prelude.{◌≡◌};

use std::alloc::AllocError;
use vc_ring::Overflow;

/// Why a coefficient was not computed.
#[derive(Clone, Copy, Debug, PartialEq, Eq)]
pub enum SlowFault<V> {
    /// A sum, a product or a star does not fit.
    Overflow(Overflow<V>),

    /// There was no memory.
    Memory(AllocError),
}

impl<V> From<AllocError> for SlowFault<V> {
    ghost use Rattle.vc_series.specs.declared.fault.SlowFault.TheVariants.{Memory};

    ghost from_gives = { λ error fault. fault ≡ Memory error };

    fn from(error: AllocError) -> SlowFault<V> {
        SlowFault::Memory(error)
    }
}

impl<V> From<Overflow<V>> for SlowFault<V> {
    ghost use Rattle.vc_series.specs.declared.fault.SlowFault.TheVariants.{Overflow};

    ghost from_gives = { λ step fault. fault ≡ Overflow step };

    fn from(step: Overflow<V>) -> SlowFault<V> {
        SlowFault::Overflow(step)
    }
}
