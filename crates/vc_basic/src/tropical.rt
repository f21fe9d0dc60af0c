ghost use Rattle.std.specs.Prelude.{◌≡◌, true, refl, [], map};
ghost use Rattle.std.proofs.Common.{rules};
ghost use Rattle.vc_basic.specs.Tropical.{tropical, lesser, spelled_tropical, tropical_fits, tropical_text};
ghost use Rattle.vc_basic.specs.TropicalSplits.{least_entry, without, tropical_normal, tropical_splits, tropical_split_ranges};
ghost use Rattle.vc_basic.specs.TropicalLaws.{tropical_laws, tropical_ranges, tropical_absorbs};
ghost use Rattle.vc_basic.specs.TropicalTexts.{tropical_texts};

use crate::steps::{read_number, step, write_number};
use std::alloc::AllocError;
use vc_num::read_natural;
use vc_ring::{NumberFault, Overflow, Semiring, Split, StarFault};

/// The natural numbers up to 2^128 - 1, and infinity: sums are the lesser of two, and products are
/// additions, the tropical semiring. A product past the greatest number does not fit, and every star
/// is one. A weight's text is one or more digits, or `oo` for infinity; it is written without leading
/// zeros. A row splits into its least entry and what is left of each entry without it.
#[derive(Clone, Copy, Debug, PartialEq, Eq)]
pub struct Nmin;

/// A weight of the tropical semiring.
#[derive(Clone, Copy, Debug, PartialEq, Eq, Hash)]
pub enum NminValue {
    Finite(u128),
    Infinite,
}

impl Semiring for Nmin {
    type Value = NminValue;

    const ABSORBS: bool = true;

    ghost ABSORBS = { true };

    ghost set = { tropical };

    ghost spelled = { spelled_tropical };

    ghost numbers_fit = { tropical_fits };

    ghost canonical = { tropical_text };

    ghost laws = { tropical_laws };

    ghost ranges = { tropical_ranges };

    ghost same = { λ a b. Prim.search rules };

    ghost absorbs = { ((λ _. tropical_absorbs), (λ _. refl)) };

    ghost texts = { tropical_texts };

    fn zero() -> NminValue {
        NminValue::Infinite
    }

    fn one() -> NminValue {
        NminValue::Finite(0)
    }

    fn add(left: NminValue, right: NminValue) -> Result<NminValue, Overflow<NminValue>> {
        Ok(lesser_of(left, right))
    }

    fn mul(left: NminValue, right: NminValue) -> Result<NminValue, Overflow<NminValue>> {
        match (left, right) {
            (NminValue::Finite(m), NminValue::Finite(n)) => {
                step!(Mul, m.checked_add(n).map(NminValue::Finite), left, right)
            }
            _ => Ok(NminValue::Infinite),
        }
    }

    fn star(_of: NminValue) -> Result<NminValue, StarFault<NminValue>> {
        Ok(NminValue::Finite(0))
    }

    fn read(text: &[u8]) -> Result<NminValue, NumberFault> {
        match text {
            b"oo" => Ok(NminValue::Infinite),
            _ => read_number!(read_natural(text)).map(NminValue::Finite),
        }
    }

    fn write(value: NminValue, into: &mut String) -> Result<(), AllocError> {
        match value {
            NminValue::Finite(number) => write_number!(number, into),
            NminValue::Infinite => into.push_str("oo"),
        }
    }
}

impl Split for Nmin {
    ghost factor = { least_entry };

    ghost normal = { tropical_normal };

    ghost split_steps = { λ _. [] };

    ghost split_laws = { tropical_splits };

    ghost split_ranges = { tropical_split_ranges };

    fn split(row: &mut [NminValue]) -> Result<NminValue, Overflow<NminValue>> {
        let least = least_of(row);
        subtract_each(row, least);
        Ok(least)
    }
}

fn lesser_of(left: NminValue, right: NminValue) -> NminValue
    ensures { result ≡ lesser left right }
{
    match (left, right) {
        (NminValue::Finite(m), NminValue::Finite(n)) => NminValue::Finite(m.min(n)),
        (NminValue::Infinite, _) => right,
        (_, NminValue::Infinite) => left,
    }
}

fn least_of(row: &[NminValue]) -> NminValue
    ensures { result ≡ least_entry row.now }
{
    let mut least = NminValue::Infinite;
    for entry in row {
        least = lesser_of(least, *entry);
    }
    least
}

fn subtract_each(row: &mut [NminValue], least: NminValue)
    ensures { row.new ≡ map (λ a. without a least) row.old }
{
    for entry in row.iter_mut() {
        *entry = remainder(*entry, least);
    }
}

// What is left of an entry without one that is no greater.
fn remainder(entry: NminValue, least: NminValue) -> NminValue
    ensures { result ≡ without entry least }
{
    match (entry, least) {
        (NminValue::Finite(m), NminValue::Finite(n)) => NminValue::Finite(m.saturating_sub(n)),
        _ => entry,
    }
}
