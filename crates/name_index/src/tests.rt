//! Names that come, are found, and go again.
use crate::{Name, NameIndex};
use std::alloc::{AllocError, Global};
use std::test::Fail;

/// Names in the order of coming, some of them twice, and the place of each in the end.
const COMING: [(&str, u32); 6] = [
    ("sam", 0),
    ("bob", 1),
    ("sam", 0),
    ("bo", 2),
    ("Sam", 3),
    ("bob", 1),
];

/// Names, and their places once only two are left.
const LEFT: [(&str, Option<u32>); 5] = [
    ("sam", Some(0)),
    ("bob", Some(1)),
    ("bo", None),
    ("Sam", None),
    ("zoe", None),
];

fn named(alloc: Global, text: &str) -> Result<Name, Fail> {
    Ok(Name::new(alloc, text)?.ok_or("no name")?)
}

/// Adds the name where it isn't there, and answers its place.
fn enrol(index: &mut NameIndex, name: Name) -> Result<u32, AllocError> {
    if let Some(place) = index.place_of(&name) {
        return Ok(place);
    }
    let place = index.len();
    if place < 1_000 {
        index.add(name)?;
    }
    Ok(place)
}

#[test]
fn names_keep_their_places_and_are_given_up(rt: HostRuntime) -> Result<(), Fail> {
    let alloc = rt.alloc();
    let mut index = NameIndex::new(alloc);
    for (text, place) in COMING {
        assert_eq!(rt; enrol(&mut index, named(alloc, text)?)?, place, "{text}");
    }
    assert_eq!(rt; index.len(), 4);
    index.truncate(9);
    assert_eq!(rt; index.len(), 4);
    index.truncate(2);
    for (text, place) in LEFT {
        assert_eq!(rt; index.place_of(&named(alloc, text)?), place, "{text}");
    }
    assert_eq!(rt; enrol(&mut index, named(alloc, "zoe")?)?, 2);
    assert_eq!(rt; index.names().len(), 3);
    Ok(())
}
