//! A shelf of the files of the system.
ghost use Rattle.std.specs.Prelude.{ℕ, ◌≡◌, ◌+◌, ◌≤◌, [], List, length, take, Option, None, IfOk, IfSome, string_bytes};

use super::{Shelf, ShelfError};
use std::alloc::{AllocError, Global};
use std::fs;
use std::io::Read;
use std::rt::Files;

/// How many bytes one read asks for at most.
const PIECE: usize = 4096;

/// The files of the system by their paths. It tells nothing of what they hold.
#[derive(Drop)]
pub struct FileShelf<R: Files + Drop> {
    rt: R,
    alloc: Global,
    missed: String,
    faults: u64,
}

impl<R: Files + Drop> FileShelf<R> {
    /// A shelf that hasn't failed yet.
    pub fn new(rt: R, alloc: Global) -> FileShelf<R>
        ensures missed { (⟦<FileShelf<R> as Shelf>⟧.seen result).missed ≡ [] }
        ensures faults { (⟦<FileShelf<R> as Shelf>⟧.seen result).faults ≡ 0 }
    {
        FileShelf {
            rt,
            alloc,
            missed: String::new(alloc),
            faults: 0,
        }
    }
}

/// The first `most + 1` bytes, read in pieces, or `Failed` at the first error of the reader.
fn read_front<F: Read>(alloc: Global, file: &mut F, most: u32) -> Result<Vec<u8>, ShelfError>
    ensures text { IfOk result (λ bytes. IfSome (F.remaining file.old)
        (λ all. bytes.items ≡ take (most + 1) all)) }
    ensures bound { IfOk result (λ bytes. length bytes.items ≤ most + 1) }
{
    let wanted = most as usize + 1;
    let mut bytes = Vec::new(alloc);
    let mut piece = [0u8; PIECE];
    while bytes.len() < wanted {
        let room = (wanted - bytes.len()).min(PIECE);
        match file.read(&mut piece[..room]) {
            Ok(0) => return Ok(bytes),
            Ok(count) => bytes.extend_from_slice(&piece[..count])?,
            Err(_) => return Err(ShelfError::Failed),
        }
    }
    Ok(bytes)
}

impl<R: Files + Drop> Shelf for FileShelf<R> {
    ghost seen = { λ s. record {
      told = λ _. None;
      missed = string_bytes s.missed;
      faults = s.faults;
    } };

    /// A path that can't be opened, a folder and an error while reading are faults.
    fn fetch(&mut self, name: &str, most: u32) -> Result<Vec<u8>, ShelfError> {
        let missed = String::from_str(self.alloc, name)?;
        let result = match fs::open(&self.rt, name) {
            Ok(mut file) => read_front(self.alloc, &mut file, most),
            Err(_) => Err(ShelfError::Failed),
        };
        if let Err(ShelfError::Failed) = result {
            self.missed = missed;
            self.faults = self.faults.saturating_add(1);
        }
        result
    }
}
