//! The conjuncts of conditions, and the limit on their number.

ghost use Rattle.std.specs.Prelude.{◌<◌};

use crate::{Conjunct, WideError, conjuncts, parse_cond};
use role_order::{Order, RoleSet};
use std::alloc::{AllocError, Global};
use std::process::Abort;
use std::test::Fail;

/// Texts of conditions, and the conjuncts: each its hits, then its lacks. Role a is above b and c.
const LISTS: [(&'static str, &'static str); 5] = [
    ("any", "-[];"),
    ("b", "[ab]-[];"),
    ("not b or c", "-[ab];[ac]-[];"),
    ("b and (a or not c)", "[ab][a]-[];[ab]-[ac];"),
    ("not b and not c and any", "-[abc];"),
];

/// A piece so many times, the end, and how many conjuncts that has or that they are too many.
const WIDTHS: [(&'static str, usize, &'static str, &'static str); 4] = [
    ("(a or b) and ", 10, "any", "1024"),
    ("(a or b) and ", 10, "(a or b)", "TooWide 2048"),
    ("(a or b) and ", 31, "(a or b)", "TooWide 4294967296"),
    (
        "(a or b or c) and ",
        20,
        "(a or b or c)",
        "TooWide 10460353203",
    ),
];

fn order_of(rt: &impl Abort, alloc: Global) -> Result<Order, Fail> {
    let mut names = Vec::new(alloc);
    for name in ["a", "b", "c"] {
        names.push(String::from_str(alloc, name)?)?;
    }
    assert!(rt; names.len() == 3);
    let mut edges = Vec::new(alloc);
    edges.push((0, 1))?;
    edges.push((0, 2))?;
    Ok(Order::new(alloc, names, edges)?)
}

/// Four roles, none above another.
fn flat_order(rt: &impl Abort, alloc: Global) -> Result<Order, Fail> {
    let mut names = Vec::new(alloc);
    for name in ["a", "b", "c", "d"] {
        names.push(String::from_str(alloc, name)?)?;
    }
    assert!(rt; names.len() == 4);
    Ok(Order::new(alloc, names, Vec::new(alloc))?)
}

fn write_set(order: &Order, set: &RoleSet, out: &mut String) -> Result<(), AllocError> {
    out.push_str("[")?;
    for role in 0..order.count() {
        if set.has(role) {
            out.push_str(order.name(role))?;
        }
    }
    out.push_str("]")
}

fn write_list(order: &Order, list: &[Conjunct], out: &mut String) -> Result<(), AllocError> {
    for one in list {
        for hit in &one.hits {
            write_set(order, hit, out)?;
        }
        out.push_str("-")?;
        write_set(order, &one.lacks, out)?;
        out.push_str(";")?;
    }
    Ok(())
}

/// The conjuncts of the condition in the text.
fn listed(
    rt: &impl Abort,
    alloc: Global,
    order: &Order,
    text: &str,
) -> Result<Result<Vec<Conjunct>, WideError>, Fail> {
    assert!(rt; text.len() < 1_000_000);
    let cond = parse_cond(alloc, order, text)?;
    Ok(conjuncts(alloc, order, &cond))
}

#[test]
fn conjuncts_are_listed(rt: HostRuntime) -> Result<(), Fail> {
    let alloc = rt.alloc();
    let order = order_of(&rt, alloc)?;
    for (text, answer) in LISTS {
        let mut out = String::new(alloc);
        if let Ok(list) = listed(&rt, alloc, &order, text)? {
            write_list(&order, &list, &mut out)?;
        }
        assert_eq!(rt; out.as_str(), answer, "at {text}");
    }
    for (piece, times, end, answer) in WIDTHS {
        let mut text = String::new(alloc);
        for _ in 0..times {
            text.push_str(piece)?;
        }
        text.push_str(end)?;
        let out = match listed(&rt, alloc, &order, text.as_str())? {
            Ok(list) => format!(in alloc; "{}", list.len())?,
            Err(WideError::TooWide { count }) => format!(in alloc; "TooWide {count}")?,
            Err(WideError::Memory) => String::from_str(alloc, "Memory")?,
        };
        assert_eq!(rt; out.as_str(), answer, "at {times}");
    }
    Ok(())
}

#[test]
fn the_left_conjuncts_are_the_slowest(rt: HostRuntime) -> Result<(), Fail> {
    let alloc = rt.alloc();
    let order = flat_order(&rt, alloc)?;
    let mut out = String::new(alloc);
    if let Ok(list) = listed(&rt, alloc, &order, "(a or b) and (c or d)")? {
        write_list(&order, &list, &mut out)?;
    }
    assert_eq!(rt; out.as_str(), "[a][c]-[];[a][d]-[];[b][c]-[];[b][d]-[];");
    Ok(())
}
