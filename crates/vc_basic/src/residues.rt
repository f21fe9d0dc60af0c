ghost use Rattle.std.specs.Prelude.{true, false, []};
ghost use Rattle.std.proofs.Common.{arith};
ghost use Rattle.vc_basic.specs.Truths.{spelled_bit, bit_text};
ghost use Rattle.vc_basic.specs.Residues.{residues};
ghost use Rattle.vc_basic.specs.Splits.{one_splits, one_split_ranges};
ghost use Rattle.vc_basic.specs.ResidueLaws.{residue_laws, residue_ranges, residue_field, residues_absorb, residue_texts};

use crate::steps::{read_bit, star_of_zero, write_bit};
use std::alloc::AllocError;
use vc_ring::{Field, NumberFault, Overflow, Semiring, Split, StarFault};

/// The field of two elements: the numbers 0 and 1 modulo 2. Every step fits, and zero alone has a
/// star. A weight's text is `0` or `1`, and a row splits into one and itself.
#[derive(Clone, Copy, Debug, PartialEq, Eq)]
pub struct F2;

impl Semiring for F2 {
    type Value = bool;

    const ABSORBS: bool = false;

    ghost ABSORBS = { false };

    ghost set = { residues };

    ghost spelled = { spelled_bit };

    ghost numbers_fit = { λ _. true };

    ghost canonical = { bit_text };

    ghost laws = { residue_laws };

    ghost ranges = { residue_ranges };

    ghost same = { λ a b. Prim.grind arith };

    ghost absorbs = { ((λ h. absurd (Prim.cc h)), residues_absorb) };

    ghost texts = { residue_texts };

    fn zero() -> bool {
        false
    }

    fn one() -> bool {
        true
    }

    fn add(left: bool, right: bool) -> Result<bool, Overflow<bool>> {
        Ok(left ^ right)
    }

    fn mul(left: bool, right: bool) -> Result<bool, Overflow<bool>> {
        Ok(left & right)
    }

    fn star(of: bool) -> Result<bool, StarFault<bool>> {
        star_of_zero!(of, false, true)
    }

    fn read(text: &[u8]) -> Result<bool, NumberFault> {
        read_bit!(text)
    }

    fn write(value: bool, into: &mut String) -> Result<(), AllocError> {
        write_bit!(value, into)
    }
}

impl Field for F2 {
    ghost negative = { λ a. a };

    ghost reciprocal = { λ a. a };

    ghost field_laws = { residue_field };

    fn neg(of: bool) -> bool {
        of
    }

    fn inverse(of: bool) -> bool {
        of
    }
}

impl Split for F2 {
    ghost factor = { λ _. true };

    ghost normal = { λ row. row };

    ghost split_steps = { λ _. [] };

    ghost split_laws = { one_splits residue_laws };

    ghost split_ranges = { one_split_ranges residue_ranges };

    fn split(_row: &mut [bool]) -> Result<bool, Overflow<bool>> {
        Ok(true)
    }
}
