ghost use Rattle.std.specs.Prelude.{◌≡◌, ◌↔◌, ◌++◌, Bool, IsTrue, List, ℕ, Option, OnOk, OnErr, string_bytes};
ghost use Rattle.vc_model.specs.WeightSet.{WeightSet, SemiringLaws, RangeLaws, Absorbs};
ghost use Rattle.vc_ring.specs.Steps.{added, multiplied, starred};
ghost use Rattle.vc_ring.specs.Texts.{read_as, TextLaws};

use crate::faults::{NumberFault, Overflow, StarFault};
use std::alloc::AllocError;
use std::hash::Hash;

/// A set of weights: a commutative semiring with a star that is defined at some of its elements.
///
/// A contract sees a value as the element that it stands for, which has no bound on its size; the
/// values are the elements in range. Each operation answers the exact element, or names the step
/// that does not fit (Sakarovitch, Elements of Automata Theory).
pub trait Semiring: Copy {
    /// A weight.
    type Value: Copy + Eq + Hash;

    /// Whether one absorbs each weight that is added to it.
    const ABSORBS: bool;

    /// What `ABSORBS` is.
    ghost ABSORBS: { Bool };

    /// The operations on elements of any size, and which elements and steps values can hold.
    ghost set: { WeightSet Self.Value };

    /// The element that a weight text spells, none where the text is no weight text.
    ghost spelled: { List ℕ → Option Self.Value };

    /// Whether each number of a weight text is within its range.
    ghost numbers_fit: { List ℕ → Bool };

    /// The one text in which a weight is written.
    ghost canonical: { Self.Value → List ℕ };

    /// The neutral element of sums.
    fn zero() -> Self::Value
        ensures { result ≡ set.zero };

    /// The neutral element of products.
    fn one() -> Self::Value
        ensures { result ≡ set.one };

    /// The sum. `Overflow` comes exactly where it does not fit.
    fn add(left: Self::Value, right: Self::Value) -> Result<Self::Value, Overflow<Self::Value>>
        requires left_in { IsTrue (set.in_range left) }
        requires right_in { IsTrue (set.in_range right) }
        ensures { result ≡ added set left right };

    /// The product. `Overflow` comes exactly where it does not fit.
    fn mul(left: Self::Value, right: Self::Value) -> Result<Self::Value, Overflow<Self::Value>>
        requires left_in { IsTrue (set.in_range left) }
        requires right_in { IsTrue (set.in_range right) }
        ensures { result ≡ multiplied set left right };

    /// The star. `NoStar` comes exactly where it is not defined, and `Overflow` exactly where it is
    /// defined and does not fit.
    fn star(of: Self::Value) -> Result<Self::Value, StarFault<Self::Value>>
        requires { IsTrue (set.in_range of) }
        ensures { result ≡ starred set of };

    /// The weight that a text spells. `Bad` comes exactly where the text is no weight text, and
    /// `Overflow` exactly where it is one and a number in it is past its range.
    fn read(text: &[u8]) -> Result<Self::Value, NumberFault>
        ensures { result ≡ read_as (spelled text.now) (numbers_fit text.now) };

    /// Appends the canonical text. It refuses for memory alone.
    fn write(value: Self::Value, into: &mut String) -> Result<(), AllocError>
        requires { IsTrue (set.in_range value) }
        ensures ok { OnOk result (string_bytes into.new ≡ string_bytes into.old ++ canonical value) }
        ensures err { OnErr result (string_bytes into.new ≡ string_bytes into.old) };

    /// It is a commutative semiring, and the star solves `x = 1 + a·x`.
    ghost laws: { SemiringLaws set };

    /// Zero and one are values, and so is what a step that fits makes of values.
    ghost ranges: { RangeLaws set };

    /// Two values compare equal exactly where they stand for the same element.
    ghost same: { (a b : Self.Value) → IsTrue (Self.Value.eq a b) ↔ (a ≡ b) };

    /// `ABSORBS` is true exactly where one absorbs each element.
    ghost absorbs: { IsTrue ABSORBS ↔ Absorbs set };

    /// What is written is read again.
    ghost texts: { TextLaws set spelled numbers_fit canonical };
}
