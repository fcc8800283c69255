//! Words and what they say.

use crate::{Words, number_in, read_words};
use std::alloc::{AllocError, Global};
use std::process::Abort;
use std::test::Fail;

/// Words with what they say: the files, and the numbers of `limit`, `workers`, `connections` and `port`; `-` for none.
const ROWS: [(&str, &str); 38] = [
    ("", " - - - -"),
    ("q", "q - - - -"),
    ("q c", "q c - - - -"),
    ("q --limit 1", "q 1 - - -"),
    ("q --limit=1", "q 1 - - -"),
    ("--limit 1 q", "q 1 - - -"),
    ("--limit=1 -- q", "q 1 - - -"),
    ("q --limit 01", "q 1 - - -"),
    ("q --limit 0000001", "q 1 - - -"),
    ("q --limit 00000001", "none"),
    ("q --limit 9999999", "q 9999999 - - -"),
    ("q --limit 0", "q 0 - - -"),
    ("q --limit 1 --limit 1", "none"),
    ("q --limit=1 --limit 2", "none"),
    ("q --limit", "none"),
    ("q --limit=", "none"),
    ("q --limit -- 5", "none"),
    ("q --limit -5", "none"),
    ("q --limit +5", "none"),
    ("q --limit 5x", "none"),
    ("q --limit --workers 2", "none"),
    ("q --limit 3 --workers 2", "q 3 2 - -"),
    ("--workers=2 q --limit=3", "q 3 2 - -"),
    ("--connections 7 --port 80", " - - 7 80"),
    (
        "--port=80 --connections=7 --limit=2 --workers=1",
        " 2 1 7 80",
    ),
    ("-- q", "q - - - -"),
    ("-- q --limit", "none"),
    ("-- -q", "none"),
    ("-- q --", "none"),
    ("--", " - - - -"),
    ("-", "none"),
    ("-q", "none"),
    ("--lim 1", "none"),
    ("--help", "none"),
    ("--version", "none"),
    ("-h", "none"),
    ("help", "help - - - -"),
    ("q=1 =", "q=1 = - - - -"),
];

fn words_of(alloc: Global, text: &str) -> Result<Vec<String>, AllocError> {
    let mut words = Vec::new(alloc);
    for word in text.split(' ') {
        if !word.is_empty() {
            words.push(String::from_str(alloc, word)?)?;
        }
    }
    Ok(words)
}

fn put_number(alloc: Global, text: &mut String, number: Option<u32>) -> Result<(), AllocError> {
    match number {
        Some(number) => text.push_str(format!(in alloc; " {number}")?.as_str()),
        None => text.push_str(" -"),
    }
}

fn told(alloc: Global, read: &Words) -> Result<String, AllocError> {
    let mut text = String::new(alloc);
    for (place, file) in read.files.iter().enumerate() {
        if 0 < place {
            text.push_str(" ")?;
        }
        text.push_str(file)?;
    }
    for number in [read.limit, read.workers, read.connections, read.port] {
        put_number(alloc, &mut text, number)?;
    }
    Ok(text)
}

#[test]
fn each_row_says_this(rt: HostRuntime) -> Result<(), Fail> {
    let alloc = rt.alloc();
    for (words, wanted) in ROWS {
        let words_list = words_of(alloc, words)?;
        match read_words(alloc, &words_list)? {
            Some(read) => assert_eq!(&rt; told(alloc, &read)?.as_str(), wanted, "{words}"),
            None => assert_eq!(&rt; "none", wanted, "{words}"),
        }
    }
    let empty = vec![in alloc; String::new(alloc)]?;
    assert!(rt; read_words(alloc, &empty)?.is_none());
    Ok(())
}

#[test]
fn numbers_have_one_to_seven_digits(rt: HostRuntime) -> Result<(), Fail> {
    for (text, number) in [
        ("", None),
        ("7", Some(7)),
        ("007", Some(7)),
        ("1234567", Some(1_234_567)),
        ("12345678", None),
        ("1 ", None),
        ("٣", None),
    ] {
        assert_eq!(rt; number_in(text), number, "{text}");
    }
    Ok(())
}
