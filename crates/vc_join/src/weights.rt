//! Products and sums of weights.
ghost use Rattle.std.specs.Prelude.{◌≡◌, IfErr, IfOk, IsTrue, false};
ghost use Rattle.vc_ring.specs.Steps.{fits};
ghost use Rattle.vc_ring.specs.declared.faults.Overflow.TheVariants.{Add, Mul};

use vc_ring::{Overflow, Semiring};

/// The product of two weights, or the step that it is where it does not fit.
pub(crate) fn product<S: Semiring>(
    left: S::Value,
    right: S::Value,
) -> Result<S::Value, Overflow<S::Value>>
    requires left_in { IsTrue (S.set.in_range left) }
    requires right_in { IsTrue (S.set.in_range right) }
    ensures value { IfOk result (λ w. w ≡ S.set.times left right) }
    ensures in_range { IfOk result (λ w. IsTrue (S.set.in_range w)) }
    ensures step { IfErr result (λ o. o ≡ Mul left right) }
    ensures fails { IfErr result (λ o. fits S.set o ≡ false) }
{
    S::mul(left, right)
}

/// The sum of two weights, or the step that it is where it does not fit.
pub(crate) fn sum<S: Semiring>(
    left: S::Value,
    right: S::Value,
) -> Result<S::Value, Overflow<S::Value>>
    requires left_in { IsTrue (S.set.in_range left) }
    requires right_in { IsTrue (S.set.in_range right) }
    ensures value { IfOk result (λ w. w ≡ S.set.plus left right) }
    ensures in_range { IfOk result (λ w. IsTrue (S.set.in_range w)) }
    ensures step { IfErr result (λ o. o ≡ Add left right) }
    ensures fails { IfErr result (λ o. fits S.set o ≡ false) }
{
    S::add(left, right)
}
