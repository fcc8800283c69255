//! A shelf: texts by name.
ghost use Rattle.std.specs.Prelude.{ℕ, ◌≡◌, ◌+◌, ◌≤◌, List, length, take, Option, IfOk, IfSome, IsErrOf};
ghost use Rattle.desk_ports.specs.Faults.{HasCause};
ghost use Rattle.desk_ports.specs.Shelves.{ShelfView, Misses};
ghost use Rattle.desk_ports.specs.declared.shelves.ShelfError.TheVariants.{Memory};

mod files;
mod memory;
#[cfg(test)]
mod tests;

pub use files::FileShelf;
pub use memory::MemShelf;
use std::alloc::AllocError;

/// Why a shelf gave no text.
#[derive(Clone, Copy, Debug, PartialEq, Eq)]
pub enum ShelfError {
    /// The shelf's count of faults rose in this call.
    Failed,
    /// No memory was left.
    Memory,
}

impl From<AllocError> for ShelfError {
    ghost from_gives = { λ _ e. e ≡ Memory };

    fn from(_: AllocError) -> ShelfError {
        ShelfError::Memory
    }
}

/// Texts by name, which no call changes.
pub trait Shelf {
    /// The texts that it tells, the name that it missed last, and how often it failed.
    ghost seen: { Self → ShelfView };

    /// The first `most + 1` bytes of the text, or all where it is shorter. So a text that is longer
    /// than `most` bytes shows by one byte too many, whatever its length.
    fn fetch(&mut self, name: &str, most: u32) -> Result<Vec<u8>, ShelfError>
        ensures text { IfOk result (λ bytes. IfSome ((seen self.old).told name.now)
            (λ all. bytes.items ≡ take (most + 1) all)) }
        ensures bound { IfOk result (λ bytes. length bytes.items ≤ most + 1) }
        ensures told { (any : List ℕ) → (seen self.new).told any ≡ (seen self.old).told any }
        ensures missed { Misses (seen self.old).missed (seen self.new).missed name.now
            (IsErrOf result ShelfError.Failed) }
        ensures cause { HasCause (seen self.old).faults (seen self.new).faults
            (IsErrOf result ShelfError.Failed) };
}
