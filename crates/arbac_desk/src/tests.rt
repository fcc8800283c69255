//! The top call over a shelf and a sink in memory: run texts, other words, and calls that fail.

mod asked;
mod judged;
mod rows;

use crate::{MOST_RUN_BYTES, Status, arbac_desk};
use desk_ports::{MemShelf, MemSink};
use rows::{ACTS, CLIMBS, FAULTS, HEAD, LADDER, WHOLE};
use std::alloc::{AllocError, Global};
use std::process::Abort;
use std::test::Fail;

/// What the call is given, and what it must do.
struct Row {
    words: &'static str,
    acts: &'static str,
    shelf_fails: u64,
    sink_fails: u64,
    status: Status,
    output: &'static str,
}

const USAGE: &str =
    "usage: ask QUESTION | check QUESTION CERT | replay RUN | load QUESTION | import MEMBERS | report KIND | serve --connections N | make N\n";

const ROWS: [Row; 14] = [
    Row {
        words: "",
        acts: "end\n",
        shelf_fails: 0,
        sink_fails: 0,
        status: 2,
        output: USAGE,
    },
    Row {
        words: "serve r.txt",
        acts: "end\n",
        shelf_fails: 0,
        sink_fails: 1,
        status: 5,
        output: "",
    },
    Row {
        words: "replay -r",
        acts: "goal c\nend\n",
        shelf_fails: 0,
        sink_fails: 0,
        status: 2,
        output: USAGE,
    },
    Row {
        words: "replay ''",
        acts: "goal c\nend\n",
        shelf_fails: 0,
        sink_fails: 0,
        status: 2,
        output: USAGE,
    },
    Row {
        words: "replay r.txt r.txt",
        acts: "goal c\nend\n",
        shelf_fails: 0,
        sink_fails: 0,
        status: 2,
        output: USAGE,
    },
    Row {
        words: "check r.txt",
        acts: "goal c\nend\n",
        shelf_fails: 0,
        sink_fails: 0,
        status: 2,
        output: USAGE,
    },
    Row {
        words: "check r.txt -c",
        acts: "goal c\nend\n",
        shelf_fails: 0,
        sink_fails: 0,
        status: 2,
        output: USAGE,
    },
    Row {
        words: "replay r",
        acts: "goal c\nend\n",
        shelf_fails: 1,
        sink_fails: 0,
        status: 4,
        output: "read fault: r\n",
    },
    Row {
        words: "replay r",
        acts: "goal c\nend\n",
        shelf_fails: 1,
        sink_fails: 1,
        status: 5,
        output: "",
    },
    Row {
        words: "replay empty",
        acts: "goal c\nend\n",
        shelf_fails: 0,
        sink_fails: 0,
        status: 3,
        output: "malformed empty: NoRoles\n",
    },
    Row {
        words: "replay r.txt",
        acts: "goal c\n",
        shelf_fails: 0,
        sink_fails: 1,
        status: 5,
        output: "",
    },
    Row {
        words: "replay r.txt",
        acts: "goal adm\nend\n",
        shelf_fails: 0,
        sink_fails: 1,
        status: 5,
        output: "",
    },
    Row {
        words: "replay r.txt",
        acts: "goal c\nend\n",
        shelf_fails: 0,
        sink_fails: 1,
        status: 5,
        output: "",
    },
    Row {
        words: "replay r.txt",
        acts: "act weak 5 0 adm\ngoal c\nend\n",
        shelf_fails: 0,
        sink_fails: 1,
        status: 5,
        output: "",
    },
];

fn text_of(alloc: Global, begun: &str, rest: &[u8]) -> Result<Vec<u8>, AllocError> {
    let mut text = Vec::from_slice(alloc, begun.as_bytes())?;
    text.extend_from_slice(rest)?;
    Ok(text)
}

/// The words of a line, none of an empty one; a word `''` is the empty one.
fn words_of(alloc: Global, line: &str) -> Result<Vec<String>, AllocError> {
    let mut owned = Vec::new(alloc);
    if line.is_empty() {
        return Ok(owned);
    }
    for word in line.split(' ') {
        let word = if word == "''" { "" } else { word };
        owned.push(String::from_str(alloc, word)?)?;
    }
    Ok(owned)
}

fn assert_row(rt: &impl Abort, alloc: Global, row: &Row) -> Result<(), AllocError> {
    let text = text_of(alloc, HEAD, row.acts.as_bytes())?;
    let files = vec![in alloc; (String::from_str(alloc, "r.txt")?, text)]?;
    let mut shelf = MemShelf::new(alloc, files, vec![in alloc; row.shelf_fails]?);
    let mut sink = MemSink::new(alloc, vec![in alloc; row.sink_fails]?);
    let status = arbac_desk(alloc, &words_of(alloc, row.words)?, &mut shelf, &mut sink);
    assert_eq!(rt; status, row.status, "at {}", row.acts);
    assert_eq!(rt; sink.taken(), row.output.as_bytes(), "at {}", row.acts);
    Ok(())
}

#[test]
fn each_row_has_its_status_and_its_output(rt: HostRuntime) -> Result<(), Fail> {
    for row in &ROWS {
        assert_row(&rt, rt.alloc(), row)?;
    }
    Ok(())
}

/// The status of `replay` over the text, and behind a line feed what is written.
fn answer_to(alloc: Global, text: Vec<u8>) -> Result<Vec<u8>, AllocError> {
    let files = vec![in alloc; (String::from_str(alloc, "r.txt")?, text)]?;
    let mut shelf = MemShelf::new(alloc, files, Vec::new(alloc));
    let mut sink = MemSink::new(alloc, Vec::new(alloc));
    let words = words_of(alloc, "replay r.txt")?;
    let status = arbac_desk(alloc, &words, &mut shelf, &mut sink);
    let mut answer = Vec::from_slice(alloc, format!(in alloc; "{status}\n")?.as_bytes())?;
    answer.extend_from_slice(sink.taken())?;
    Ok(answer)
}

/// Behind the beginning, each row's text has its answer.
fn each_answered(rt: &impl Abort, alloc: Global, begun: &str, rows: &str) -> Result<(), Fail> {
    for row in rows.split(";\n") {
        let (rest, told) = row.split_once(" => ").ok_or("a row has no answer")?;
        let answer = answer_to(alloc, text_of(alloc, begun, rest.as_bytes())?)?;
        assert_eq!(rt; answer.as_slice(), told.as_bytes(), "{rest}");
    }
    Ok(())
}

#[test]
fn each_run_text_has_its_answer(rt: HostRuntime) -> Result<(), Fail> {
    let alloc = rt.alloc();
    for (begun, rows) in [(HEAD, ACTS), (LADDER, CLIMBS), (HEAD, FAULTS), ("", WHOLE)] {
        each_answered(&rt, alloc, begun, rows)?;
    }
    let not_utf8 = text_of(alloc, HEAD, b"goal c or \xff\nend\n")?;
    assert_eq!(&rt;
        answer_to(alloc, not_utf8)?.as_slice(),
        "3\nmalformed r.txt: BadLine 8\n".as_bytes()
    );
    Ok(())
}

/// As the goal behind `HEAD`, a piece so many times and then an end, with the answer.
const LONG_GOALS: [(&str, usize, &str, &str); 6] = [
    (
        "c or ",
        63,
        "adm",
        "0\ndone\nuser 0 adm\nuser 1 adm\ngoal 0 0\nend\n",
    ),
    (
        "c or ",
        64,
        "adm",
        "3\nmalformed r.txt: Cond 8 TooDeep 320\n",
    ),
    (
        "c or ",
        64,
        "not d",
        "3\nmalformed r.txt: Cond 8 TooDeep 320\n",
    ),
    (
        "c or ",
        64,
        "n123456789_123456789_123456789_123456789_123456789_123456789_1234",
        "3\nmalformed r.txt: Cond 8 TooDeep 320\n",
    ),
    ("(", 64, "c", "3\nmalformed r.txt: Cond 8 Unexpected 65\n"),
    ("(", 65, "c", "3\nmalformed r.txt: Cond 8 TooDeep 64\n"),
];

fn long_goal(alloc: Global, piece: &str, times: usize, end: &str) -> Result<Vec<u8>, AllocError> {
    let mut text = text_of(alloc, HEAD, b"goal ")?;
    for _ in 0..times {
        text.extend_from_slice(piece.as_bytes())?;
    }
    text.extend_from_slice(end.as_bytes())?;
    text.extend_from_slice(b"\nend\n")?;
    Ok(text)
}

#[test]
fn a_condition_ends_at_its_limits(rt: HostRuntime) -> Result<(), Fail> {
    let alloc = rt.alloc();
    for (piece, times, end, told) in LONG_GOALS {
        let answer = answer_to(alloc, long_goal(alloc, piece, times, end)?)?;
        assert_eq!(rt; answer.as_slice(), told.as_bytes(), "at {end}");
    }
    Ok(())
}

/// A run text of so many bytes, most of them spaces in its goal.
fn spaced(alloc: Global, count: usize) -> Result<Vec<u8>, AllocError> {
    let mut text = text_of(alloc, HEAD, b"goal adm")?;
    let end = b"\nend\n";
    let spaces = count.saturating_sub(text.len()).saturating_sub(end.len());
    let blank = vec![in alloc; b' '; spaces]?;
    text.extend_from_slice(&blank)?;
    text.extend_from_slice(end)?;
    Ok(text)
}

#[test]
fn a_file_that_is_too_long_is_malformed(rt: HostRuntime) -> Result<(), Fail> {
    let alloc = rt.alloc();
    for (count, told) in [
        (
            MOST_RUN_BYTES,
            "0\ndone\nuser 0 adm\nuser 1 adm\ngoal 0 0\nend\n",
        ),
        (MOST_RUN_BYTES + 1, "3\nmalformed r.txt: TooLong\n"),
    ] {
        let text = spaced(alloc, count)?;
        assert_eq!(&rt; text.len(), count);
        assert_eq!(&rt; answer_to(alloc, text)?.as_slice(), told.as_bytes());
    }
    Ok(())
}
