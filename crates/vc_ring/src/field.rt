ghost use Rattle.std.specs.Prelude.{◌≡◌, ◌≢◌, IsTrue, List, OnOk, OnErr};
ghost use Rattle.vc_model.specs.WeightSet.{FieldLaws, SplitLaws, IsZeroRow, InRange};
ghost use Rattle.vc_ring.specs.Steps.{outcome};
ghost use Rattle.vc_ring.specs.Splits.{IsSplitInFront, SplitRanges};

use crate::faults::Overflow;
use crate::semiring::Semiring;

/// A weight set in which each element has a negative, and each one but zero an inverse.
pub trait Field: Semiring {
    /// The negative of an element.
    ghost negative: { Self.Value → Self.Value };

    /// The inverse of an element other than zero.
    ghost reciprocal: { Self.Value → Self.Value };

    /// The negative, which always fits.
    fn neg(of: Self::Value) -> Self::Value
        requires { IsTrue (Self.set.in_range of) }
        ensures { result ≡ negative of };

    /// The inverse, which always fits.
    fn inverse(of: Self::Value) -> Self::Value
        requires of_in { IsTrue (Self.set.in_range of) }
        requires not_zero { of ≢ Self.set.zero }
        ensures { result ≡ reciprocal of };

    /// Negatives and inverses are what their names say, and stay in range.
    ghost field_laws: { FieldLaws Self.set negative reciprocal };
}

/// A weight set whose rows split into a factor and a normal row, as determinization wants it.
pub trait Split: Semiring {
    ghost use Rattle.vc_ring.specs.declared.faults.Overflow.{Overflow};

    /// The factor of a row that is not zero.
    ghost factor: { List Self.Value → Self.Value };

    /// The normal row of a row that is not zero.
    ghost normal: { List Self.Value → List Self.Value };

    /// The steps that make the normal row.
    ghost split_steps: { List Self.Value → List (Overflow Self.Value) };

    /// Answers the factor and leaves the normal row. `Overflow` comes exactly where a step of the
    /// normal row does not fit; then the entries before its place are normal, and the others are as
    /// before.
    fn split(row: &mut [Self::Value]) -> Result<Self::Value, Overflow<Self::Value>>
        requires row_in { InRange Self.set row.old }
        requires not_zero { ¬ IsZeroRow Self.set row.old }
        ensures steps { result ≡ outcome Self.set (split_steps row.old) (factor row.old) }
        ensures row { OnOk result (row.new ≡ normal row.old) }
        ensures err { OnErr result (IsSplitInFront Self.set (split_steps row.old) (normal row.old) row.old row.new) };

    /// The factor times the normal row is the row, and a factor before a row keeps its normal row.
    ghost split_laws: { SplitLaws Self.set factor normal };

    /// The factor and the normal row are values, where the steps fit.
    ghost split_ranges: { SplitRanges Self.set factor normal split_steps };
}
