//! Steps with weights.
ghost use Rattle.std.specs.Prelude.{◌≡◌, IfErr, IfOk, IsTrue};
ghost use Rattle.vc_model.specs.Words.{same_word};
ghost use Rattle.vc_ring.specs.declared.faults.Overflow.TheVariants.{Add, Mul, Star};
ghost use Rattle.vc_standard.specs.Refusals.{IsFault};

use vc_label::LabelSet;
use vc_ring::{MakeFault, Semiring, StarFault};

/// The product of two weights.
pub(crate) fn times<S: Semiring>(
    left: S::Value,
    right: S::Value,
) -> Result<S::Value, MakeFault<S::Value>>
    requires left { IsTrue (S.set.in_range left) }
    requires right { IsTrue (S.set.in_range right) }
    ensures value { IfOk result (λ v. v ≡ S.set.times left right) }
    ensures in_range { IfOk result (λ v. IsTrue (S.set.in_range v)) }
    ensures fault { IfErr result (λ f. IsFault S.set (λ o. o ≡ Mul left right) ⊥ f) }
{
    match S::mul(left, right) {
        Ok(product) => return Ok(product),
        Err(overflow) => return Err(MakeFault::Overflow(overflow)),
    }
}

/// The sum of two weights.
pub(crate) fn plus<S: Semiring>(
    left: S::Value,
    right: S::Value,
) -> Result<S::Value, MakeFault<S::Value>>
    requires left { IsTrue (S.set.in_range left) }
    requires right { IsTrue (S.set.in_range right) }
    ensures value { IfOk result (λ v. v ≡ S.set.plus left right) }
    ensures in_range { IfOk result (λ v. IsTrue (S.set.in_range v)) }
    ensures fault { IfErr result (λ f. IsFault S.set (λ o. o ≡ Add left right) ⊥ f) }
{
    match S::add(left, right) {
        Ok(sum) => return Ok(sum),
        Err(overflow) => return Err(MakeFault::Overflow(overflow)),
    }
}

/// Whether two labels have the same parts.
pub(crate) fn same_label<L: LabelSet>(left: &L::Label, right: &L::Label) -> bool
    ensures { result ≡ same_word (L.parts left.now) (L.parts right.now) }
{
    left == right
}

/// The star of a weight that has one.
pub(crate) fn star<S: Semiring>(of: S::Value) -> Result<S::Value, MakeFault<S::Value>>
    requires of_in { IsTrue (S.set.in_range of) }
    requires defined { IsTrue (S.set.has_star of) }
    ensures value { IfOk result (λ v. v ≡ S.set.star of) }
    ensures in_range { IfOk result (λ v. IsTrue (S.set.in_range v)) }
    ensures fault { IfErr result (λ f. IsFault S.set (λ o. o ≡ Star of) ⊥ f) }
{
    match S::star(of) {
        Ok(star) => return Ok(star),
        Err(StarFault::Overflow(overflow)) => return Err(MakeFault::Overflow(overflow)),
        Err(StarFault::NoStar(_)) => unreachable!(),
    }
}
