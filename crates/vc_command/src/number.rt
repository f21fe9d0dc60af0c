ghost use Rattle.std.specs.Prelude.{◌≡◌, ◌==◌, ◌<◌, IfOk, map};
ghost use Rattle.std.specs.List.{slice_split};
ghost use Rattle.vc_command.specs.Requests.{number_within, order_of, states_of};
ghost use Rattle.vc_command.specs.Views.{texts};
ghost use Rattle.std.specs.Option.{option_map};

use std::alloc::{AllocError, Global};
use vc_num::read_decimal;

/// The decimal number that a text writes, where it is in the range.
pub(crate) fn number_within(least: u32, most: u32, text: &str) -> Option<u32>
    ensures { result ≡ number_within least most text.now }
{
    match read_decimal(text.as_bytes()) {
        Ok(number) if number >= u128::from(least) && number <= u128::from(most) => {
            Some(number as u32)
        }
        _ => None,
    }
}

/// The parts of a text between its commas.
fn parts<'t>(alloc: Global, text: &'t str) -> Result<Vec<&'t str>, AllocError>
    ensures { IfOk result (λ parts. texts parts.items ≡ slice_split (λ b. b == 44) text.entry.now) }
{
    text.split(',').collect(alloc)
}

/// The order of states that a text writes, or none.
pub(crate) fn order_of(alloc: Global, text: &str) -> Result<Option<Vec<u32>>, AllocError>
    ensures { IfOk result (λ order. option_map (λ v. v.items) order ≡ order_of text.now) }
{
    let parts = parts(alloc, text)?;
    let mut order = Vec::new(alloc);
    for part in &parts {
        let Some(state) = number_within(0, u32::MAX, part) else {
            return Ok(None);
        };
        order.push(state)?;
    }
    Ok(Some(order))
}
