ghost use Rattle.std.specs.Prelude.{◌≡◌};
ghost use Rattle.vc_model.specs.Sums.{sum_onto};
ghost use Rattle.vc_model.specs.WeightSet.{InRange};
ghost use Rattle.vc_ring.specs.Steps.{outcome};
ghost use Rattle.vc_ring.specs.Sums.{sum_steps};

use crate::faults::Overflow;
use crate::semiring::Semiring;

/// The sum of a list, from left to right and beginning with zero. `Overflow` comes exactly where a
/// step does not fit, and names the first that does not.
pub fn sum<S: Semiring>(list: &[S::Value]) -> Result<S::Value, Overflow<S::Value>>
    requires { InRange S.set list.now }
    ensures { result ≡ outcome S.set (sum_steps S.set S.set.zero list.now) (sum_onto S.set S.set.zero list.now) }
{
    let mut total = S::zero();
    for weight in list {
        total = S::add(total, *weight)?;
    }
    Ok(total)
}
