ghost use Rattle.std.specs.Prelude.{◌≡◌, ◌++◌, OnOk, OnErr};

use std::alloc::AllocError;

/// Appends x to a and y to b, or neither.
pub(crate) fn extend_two(
    a: &mut Vec<u8>,
    b: &mut Vec<u8>,
    x: &[u8],
    y: &[u8],
) -> Result<(), AllocError>
    ensures first { OnOk result (a.new.items ≡ a.old.items ++ x.now) }
    ensures second { OnOk result (b.new.items ≡ b.old.items ++ y.now) }
    ensures first_kept { OnErr result (a.new.items ≡ a.old.items) }
    ensures second_kept { OnErr result (b.new.items ≡ b.old.items) }
{
    a.reserve(x.len())?;
    b.extend_from_slice(y)?;
    Ok(a.extend_from_slice(x)?)
}

/// Appends x to a, y to b and z to c, or none of them.
pub(crate) fn extend_three(
    a: &mut Vec<u8>,
    b: &mut Vec<u8>,
    c: &mut Vec<u8>,
    x: &[u8],
    y: &[u8],
    z: &[u8],
) -> Result<(), AllocError>
    ensures first { OnOk result (a.new.items ≡ a.old.items ++ x.now) }
    ensures second { OnOk result (b.new.items ≡ b.old.items ++ y.now) }
    ensures third { OnOk result (c.new.items ≡ c.old.items ++ z.now) }
    ensures first_kept { OnErr result (a.new.items ≡ a.old.items) }
    ensures second_kept { OnErr result (b.new.items ≡ b.old.items) }
    ensures third_kept { OnErr result (c.new.items ≡ c.old.items) }
{
    a.reserve(x.len())?;
    extend_two(b, c, y, z)?;
    Ok(a.extend_from_slice(x)?)
}
