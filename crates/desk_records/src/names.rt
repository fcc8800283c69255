//! Lists of names.

ghost use Rattle.std.specs.Prelude.{◌≡◌, IfOk};

use profile_set::{Name, NoMemory};
use sqlite_items::Items;
use std::alloc::Global;

/// The same names.
pub fn copy_names(alloc: Global, names: &[Name]) -> Result<Items<Name>, NoMemory>
    ensures { IfOk result (λ copy. copy ≡ names.now) }
{
    let mut copy = Items::new(alloc);
    for name in names {
        copy.push(name.copy(alloc)?)?;
    }
    Ok(copy)
}
