//! Lists that grow.

ghost use Rattle.std.specs.Prelude.{◌≡◌, [], ◌∷◌, ◌++◌, OnOk};

use gi_llt::Memory;

/// Adds one more.
pub(crate) fn push<T: Copy>(list: &mut Vec<T>, x: T) -> Result<(), Memory>
    ensures { OnOk result (list.new.items ≡ list.old.items ++ x ∷ []) }
{
    match list.push(x) {
        Ok(_) => Ok(()),
        Err(_) => Err(Memory),
    }
}
