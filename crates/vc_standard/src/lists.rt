//! Lists that grow.
ghost use Rattle.std.specs.Prelude.{◌≡◌, ◌++◌, ◌∷◌, [], OnOk};

use std::alloc::AllocError;

/// Adds an item at the end.
pub(crate) fn append<T: Drop>(into: &mut Vec<T>, item: T) -> Result<(), AllocError>
    ensures { OnOk result (into.new.items ≡ into.old.items ++ item ∷ []) }
{
    into.push(item)?;
    Ok(())
}
