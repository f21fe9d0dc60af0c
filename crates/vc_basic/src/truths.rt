ghost use Rattle.std.specs.Prelude.{true, refl, []};
ghost use Rattle.std.proofs.Common.{arith};
ghost use Rattle.vc_basic.specs.Truths.{truths, spelled_bit, bit_text};
ghost use Rattle.vc_basic.specs.Splits.{one_splits, one_split_ranges};
ghost use Rattle.vc_basic.specs.TruthLaws.{truth_laws, truth_ranges, truth_absorbs, truth_texts};

use crate::steps::{read_bit, write_bit};
use std::alloc::AllocError;
use vc_ring::{NumberFault, Overflow, Semiring, Split, StarFault};

/// The truth values: sums by or, products by and. Every step fits and every star is one. A weight's
/// text is `0` or `1`, and a row splits into one and itself.
#[derive(Clone, Copy, Debug, PartialEq, Eq)]
pub struct B;

impl Semiring for B {
    type Value = bool;

    const ABSORBS: bool = true;

    ghost ABSORBS = { true };

    ghost set = { truths };

    ghost spelled = { spelled_bit };

    ghost numbers_fit = { λ _. true };

    ghost canonical = { bit_text };

    ghost laws = { truth_laws };

    ghost ranges = { truth_ranges };

    ghost same = { λ a b. Prim.grind arith };

    ghost absorbs = { ((λ _. truth_absorbs), (λ _. refl)) };

    ghost texts = { truth_texts };

    fn zero() -> bool {
        false
    }

    fn one() -> bool {
        true
    }

    fn add(left: bool, right: bool) -> Result<bool, Overflow<bool>> {
        Ok(left | right)
    }

    fn mul(left: bool, right: bool) -> Result<bool, Overflow<bool>> {
        Ok(left & right)
    }

    fn star(_of: bool) -> Result<bool, StarFault<bool>> {
        Ok(true)
    }

    fn read(text: &[u8]) -> Result<bool, NumberFault> {
        read_bit!(text)
    }

    fn write(value: bool, into: &mut String) -> Result<(), AllocError> {
        write_bit!(value, into)
    }
}

impl Split for B {
    ghost factor = { λ _. true };

    ghost normal = { λ row. row };

    ghost split_steps = { λ _. [] };

    ghost split_laws = { one_splits truth_laws };

    ghost split_ranges = { one_split_ranges truth_ranges };

    fn split(_row: &mut [bool]) -> Result<bool, Overflow<bool>> {
        Ok(true)
    }
}
