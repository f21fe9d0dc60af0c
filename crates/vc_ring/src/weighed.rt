ghost use Rattle.vc_ring.specs.Texts.{WeightTexts};

use crate::semiring::Semiring;

/// A weight set with its texts, as one value that clauses pass along. Each semiring has it.
pub trait Weighed: Semiring {
    /// The weight set, the test that tells its elements apart, and their texts.
    ghost texts: { WeightTexts Self.Value };
}

impl<S: Semiring> Weighed for S {
    ghost texts = { record { set = S.set; same = S.Value.eq; spelled = S.spelled; numbers_fit = S.numbers_fit; canonical = S.canonical } };
}
