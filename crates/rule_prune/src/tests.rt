//! The ceilings, barriers and slices of small policies, and of an engineering department.

ghost use Rattle.std.specs.Prelude.{◌≤◌, ◌<◌, length, IfOk};
ghost use Rattle.list_words.specs.Lists.{Each};
ghost use Rattle.arbac_policy.specs.Truth.{term_of, IsKnown};
ghost use Rattle.cond_text.specs.Grammar.{term_count};

use crate::{SliceError, barriers, ceiling, slice};
use arbac_policy::{CanAssign, CanRevoke, Cond, Policy, Profile};
use arbac_rules::{MOST_TERMS, parse_cond};
use req_core::Req;
use req_pre::Prepared;
use role_order::{Order, Range, RoleSet};
use std::alloc::{AllocError, Global};
use std::process::Abort;
use std::test::Fail;

/// A policy with profiles and a goal, roles by number, and what comes of it.
struct Case {
    names: &'static [&'static str],
    edges: &'static [(u16, u16)],
    pairs: &'static [(u16, u16)],
    /// Administrative role, condition, and the ends of the range, both in it.
    assign: &'static [(u16, &'static str, u16, u16)],
    /// Administrative role, the ends of the range, and whether the high one isn't in it.
    revoke: &'static [(u16, u16, u16, bool)],
    profiles: &'static [(&'static [u16], Option<u32>)],
    goal: &'static str,
    want: &'static str,
}

const CASES: [Case; 7] = [
    // Members of adm give c to those without adm, and take adm.
    Case {
        names: &["adm", "c"],
        edges: &[],
        pairs: &[],
        assign: &[(0, "not adm", 1, 1)],
        revoke: &[(0, 0, 0, false)],
        profiles: &[(&[0], Some(1))],
        goal: "c",
        want: "ceiling adm c\nassign 0\nrevoke 0\n",
    },
    // Nobody is there to give.
    Case {
        names: &["adm", "a"],
        edges: &[],
        pairs: &[],
        assign: &[(0, "any", 1, 1)],
        revoke: &[],
        profiles: &[],
        goal: "a",
        want: "ceiling\nbarrier user hit adm a\nassign 0\nrevoke\n",
    },
    Case {
        names: &["a"],
        edges: &[],
        pairs: &[],
        assign: &[],
        revoke: &[],
        profiles: &[(&[0], Some(0))],
        goal: "any",
        want: "ceiling\nbarrier user hit a\nassign\nrevoke\n",
    },
    // c is given by x, and d to x alone; nobody has x.
    Case {
        names: &["adm", "x", "c", "d", "e"],
        edges: &[],
        pairs: &[],
        assign: &[
            (1, "any", 2, 2),
            (0, "x and adm", 3, 3),
            (0, "x or not x and adm", 4, 4),
        ],
        revoke: &[(1, 4, 4, false)],
        profiles: &[(&[0], None)],
        goal: "c or d",
        want: "ceiling adm e\nbarrier user hit x c d\nassign 0 1\nrevoke\n",
    },
    // Who is to get c must lack d.
    Case {
        names: &["adm", "c", "d"],
        edges: &[],
        pairs: &[(2, 1)],
        assign: &[(0, "any", 2, 2), (0, "any", 1, 1)],
        revoke: &[(0, 1, 1, false), (0, 2, 2, false)],
        profiles: &[(&[0], None)],
        goal: "c",
        want: "ceiling adm c d\nassign 1\nrevoke 1\n",
    },
    Case {
        names: &["a", "b"],
        edges: &[],
        pairs: &[],
        assign: &[],
        revoke: &[],
        profiles: &[(&[0], None), (&[1], Some(3))],
        goal: "(a or b or any) and (a or b or any) and (a or b or any) and (a or b or any) and (a or b or any) and (a or b or any) and (a or b or any)",
        want: "ceiling a b\ntoo wide 2187\n",
    },
    Case {
        names: &[
            "E", "ED", "E1", "PE1", "QE1", "PL1", "E2", "PE2", "QE2", "PL2", "DIR", "SSO", "DSO",
            "PSO1", "PSO2",
        ],
        edges: &[
            (10, 5),
            (10, 9),
            (5, 3),
            (5, 4),
            (3, 2),
            (4, 2),
            (9, 7),
            (9, 8),
            (7, 6),
            (8, 6),
            (2, 1),
            (6, 1),
            (1, 0),
            (11, 12),
            (12, 13),
            (12, 14),
        ],
        pairs: &[],
        assign: &[
            (11, "E", 1, 1),
            (13, "ED", 2, 2),
            (13, "E1 and not QE1", 3, 3),
            (13, "E1 and not PE1", 4, 4),
            (13, "PE1 and QE1", 5, 5),
            (14, "ED", 6, 6),
            (14, "E2 and not QE2", 7, 7),
            (14, "E2 and not PE2", 8, 8),
            (14, "PE2 and QE2", 9, 9),
        ],
        revoke: &[(13, 2, 5, true), (14, 6, 9, true)],
        profiles: &[(&[0], None), (&[11], Some(1))],
        goal: "PL1",
        want: "ceiling E ED E1 PE1 QE1 PL1 E2 PE2 QE2 PL2 SSO\nbarrier user hit DIR DSO PSO1 PSO2\nassign 0 1 2 3 4 5 6 7 8\nrevoke 0 1\n",
    },
];

fn order_of(rt: &impl Abort, alloc: Global, case: &Case) -> Result<Order, Fail> {
    let mut names = Vec::new(alloc);
    for name in case.names {
        names.push(String::from_str(alloc, name)?)?;
    }
    let edges = case.edges.to_vec(alloc)?;
    assert!(rt; names.len() < 1_000 && edges.len() < 1_000);
    Ok(Order::new(alloc, names, edges)?)
}

fn cond_of(rt: &impl Abort, alloc: Global, order: &Order, text: &str) -> Result<Cond, Fail>
    ensures terms { IfOk result (λ cond. term_count (term_of cond) ≤ MOST_TERMS) }
    ensures known { IfOk result (λ cond. IsKnown (length order.now.names) (term_of cond)) }
{
    assert!(rt; text.len() < 1_000_000);
    Ok(parse_cond(alloc, order, text)?)
}

fn assign_of(
    rt: &impl Abort,
    alloc: Global,
    order: &Order,
    rows: &[(u16, &str, u16, u16)],
) -> Result<Vec<CanAssign>, Fail>
    ensures { IfOk result (λ rules. Each (λ rule. term_count (term_of rule.cond) ≤ MOST_TERMS) rules.items) }
{
    let mut rules = Vec::new(alloc);
    for (admin, text, low, high) in rows {
        rules.push(CanAssign {
            admin: *admin,
            cond: cond_of(rt, alloc, order, text)?,
            range: Range {
                low: *low,
                high: *high,
                low_open: false,
                high_open: false,
            },
        })?;
    }
    Ok(rules)
}

fn revoke_of(alloc: Global, rows: &[(u16, u16, u16, bool)]) -> Result<Vec<CanRevoke>, Fail> {
    let mut rules = Vec::new(alloc);
    for (admin, low, high, high_open) in rows {
        rules.push(CanRevoke {
            admin: *admin,
            range: Range {
                low: *low,
                high: *high,
                low_open: false,
                high_open: *high_open,
            },
        })?;
    }
    Ok(rules)
}

fn prepared_of(rt: &impl Abort, alloc: Global, case: &Case) -> Result<Prepared, Fail> {
    let order = order_of(rt, alloc, case)?;
    let assign = assign_of(rt, alloc, &order, case.assign)?;
    let revoke = revoke_of(alloc, case.revoke)?;
    let pairs = case.pairs.to_vec(alloc)?;
    assert!(rt; assign.len() < 1_000 && revoke.len() < 1_000 && pairs.len() < 1_000);
    let none = Vec::new(alloc);
    let policy = Policy::new(order, assign, revoke, none, Vec::new(alloc), pairs);
    Ok(Prepared::new(alloc, policy.ok_or("no policy")?)?)
}

fn set_of(rt: &impl Abort, roles: &[u16]) -> RoleSet {
    let mut set = RoleSet::empty();
    for role in roles {
        assert!(rt; *role < 250);
        set = set.with(*role);
    }
    set
}

fn profiles_of(rt: &impl Abort, alloc: Global, case: &Case) -> Result<Vec<Profile>, AllocError> {
    let mut profiles = Vec::new(alloc);
    for (roles, most) in case.profiles {
        profiles.push(Profile {
            set: set_of(rt, roles),
            most: *most,
        })?;
    }
    Ok(profiles)
}

fn put_set(text: &mut String, order: &Order, set: &RoleSet) -> Result<(), AllocError> {
    for role in 0..order.count() {
        if set.has(role) {
            text.push_str(" ")?;
            text.push_str(order.name(role))?;
        }
    }
    Ok(())
}

fn put_barrier(text: &mut String, order: &Order, req: &Req) -> Result<(), AllocError> {
    text.push_str("barrier")?;
    for user in req.users() {
        text.push_str(" user")?;
        for hit in user.hits() {
            text.push_str(" hit")?;
            put_set(text, order, hit)?;
        }
        if !user.lacks().is_empty() {
            text.push_str(" lack")?;
        }
    }
    text.push_str("\n")
}

fn put_places(
    alloc: Global,
    text: &mut String,
    word: &str,
    places: &[u32],
) -> Result<(), AllocError> {
    text.push_str(word)?;
    for place in places {
        text.push_str(format!(in alloc; " {place}")?.as_str())?;
    }
    text.push_str("\n")
}

/// The ceiling and the barriers.
fn put_outside(
    alloc: Global,
    text: &mut String,
    prepared: &Prepared,
    profiles: &[Profile],
) -> Result<(), AllocError> {
    let order = prepared.policy().order();
    text.push_str("ceiling")?;
    put_set(text, order, &ceiling(prepared, profiles))?;
    text.push_str("\n")?;
    for req in &barriers(alloc, prepared, profiles)? {
        put_barrier(text, order, req)?;
    }
    Ok(())
}

/// The places of the slice, or that the goal is too wide.
fn put_slice(
    alloc: Global,
    text: &mut String,
    prepared: &Prepared,
    goal: &[Cond],
) -> Result<(), AllocError>
    requires terms { Each (λ cond. term_count (term_of cond) ≤ MOST_TERMS) goal.now }
    requires known { Each (λ cond. IsKnown (length prepared.now.order.names) (term_of cond)) goal.now }
{
    match slice(alloc, prepared, goal) {
        Ok(slice) => {
            put_places(alloc, text, "assign", &slice.assign)?;
            put_places(alloc, text, "revoke", &slice.revoke)
        }
        Err(SliceError::TooWide { count }) => {
            text.push_str(format!(in alloc; "too wide {count}\n")?.as_str())
        }
        Err(SliceError::Memory) => Err(AllocError),
    }
}

fn text_of(rt: &impl Abort, alloc: Global, case: &Case) -> Result<String, Fail> {
    let prepared = prepared_of(rt, alloc, case)?;
    let profiles = profiles_of(rt, alloc, case)?;
    let mut text = String::new(alloc);
    put_outside(alloc, &mut text, &prepared, &profiles)?;
    let goal = cond_of(rt, alloc, prepared.policy().order(), case.goal)?;
    put_slice(alloc, &mut text, &prepared, &[goal])?;
    Ok(text)
}

#[test]
fn what_is_out_of_reach_and_what_can_matter(rt: HostRuntime) -> Result<(), Fail> {
    let alloc = rt.alloc();
    for (at, case) in CASES.iter().enumerate() {
        assert_eq!(&rt; text_of(&rt, alloc, case)?.as_str(), case.want, "at {at}");
    }
    Ok(())
}
