//! Shelves in memory and of files, call by call.
use super::{FileShelf, MemShelf, Shelf, ShelfError};
use std::alloc::{AllocError, Global};
use std::fs;
use std::process::Abort;
use std::test::Fail;

/// A call of `fetch`: the name, `most`, and the bytes that it gives, or the error.
type Row = (&'static str, u32, Result<&'static [u8], ShelfError>);

/// Over three texts, two of them of one name, where the calls 3 and 5 are to fail.
const IN_MEMORY: [Row; 8] = [
    ("a.toml", 100, Ok(b"first")),
    ("a.toml", 4, Ok(b"first")),
    ("b.toml", 3, Err(ShelfError::Failed)),
    ("a.toml", 3, Ok(b"firs")),
    ("c.toml", 3, Err(ShelfError::Failed)),
    ("b.toml", 0, Ok(b"o")),
    ("b.toml", 100, Ok(b"other")),
    ("c.toml", 100, Ok(b"")),
];

/// Over the files that the test writes: `text`, `large` of 10,000 bytes, and the folder `folder`.
const OF_FILES: [Row; 6] = [
    ("text", 100, Ok(b"0123456789")),
    ("text", 9, Ok(b"0123456789")),
    ("text", 3, Ok(b"0123")),
    ("missing", 100, Err(ShelfError::Failed)),
    ("folder", 100, Err(ShelfError::Failed)),
    ("text", 0, Ok(b"0")),
];

fn file(alloc: Global, name: &str, text: &[u8]) -> Result<(String, Vec<u8>), AllocError> {
    Ok((
        String::from_str(alloc, name)?,
        Vec::from_slice(alloc, text)?,
    ))
}

fn assert_fetches<S: Shelf>(rt: &impl Abort, shelf: &mut S, rows: &[Row]) {
    for (name, most, want) in rows {
        match (shelf.fetch(name, *most), want) {
            (Ok(bytes), Ok(text)) => assert_eq!(rt; bytes.as_slice(), *text, "at {name} {most}"),
            (Err(error), Err(cause)) => assert_eq!(rt; error, *cause, "at {name} {most}"),
            _ => assert!(rt; false, "at {name} {most}"),
        }
    }
}

#[test]
fn a_shelf_in_memory_gives_its_texts_and_fails_by_its_list(rt: HostRuntime) -> Result<(), Fail> {
    let alloc = rt.alloc();
    let files = vec![in alloc;
        file(alloc, "a.toml", b"first")?,
        file(alloc, "b.toml", b"other")?,
        file(alloc, "a.toml", b"second")?,
    ]?;
    let mut shelf = MemShelf::new(alloc, files, vec![in alloc; 3, 5]?);
    assert_fetches(&rt, &mut shelf, &IN_MEMORY);
    Ok(())
}

#[test]
fn a_shelf_of_files_gives_what_the_files_hold(rt: HostRuntime) -> Result<(), Fail> {
    let alloc = rt.alloc();
    fs::write(&rt, "text", "0123456789")?;
    fs::create_dir(&rt, "folder")?;
    let mut large = Vec::new(alloc);
    for place in 0..10_000u32 {
        large.push((place % 251) as u8)?;
    }
    fs::write(&rt, "large", large.as_slice())?;
    let mut shelf = FileShelf::new(rt.clone()?, alloc);
    assert_fetches(&rt, &mut shelf, &OF_FILES);
    for (most, count) in [(4_095, 4_096), (8_200, 8_201), (10_000, 10_000)] {
        let bytes = shelf.fetch("large", most)?;
        assert!(rt;
            bytes.len() == count && large.starts_with(&bytes),
            "at {most}"
        );
    }
    Ok(())
}
