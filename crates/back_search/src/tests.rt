//! Searches of small questions, and of an engineering department.

ghost use Rattle.std.specs.Prelude.{◌≤◌, ◌<◌, length, IfOk};
ghost use Rattle.list_words.specs.Lists.{Each};
ghost use Rattle.arbac_policy.specs.Truth.{term_of, IsKnown};
ghost use Rattle.cond_text.specs.Grammar.{term_count};

use crate::{Entry, NoGate, Origin, Outcome, round, search};
use arbac_policy::{Act, ActKind, CanAssign, CanRevoke, Cond, Policy, Profile};
use arbac_rules::{MOST_TERMS, parse_cond};
use req_core::{RawUser, Req, normal};
use req_pre::{Obligation, Pick, Prepared};
use role_order::{Order, Range, RoleSet};
use std::alloc::{AllocError, Global};
use std::process::Abort;
use std::test::Fail;

/// A question, roles by number, and how its search ends.
#[derive(Clone, Copy)]
struct Case {
    names: &'static [&'static str],
    edges: &'static [(u16, u16)],
    pairs: &'static [(u16, u16)],
    /// Administrative role, condition, and the ends of the range, both in it.
    assign: &'static [(u16, &'static str, u16, u16)],
    /// Administrative role, the ends of the range, and whether the high one isn't in it.
    revoke: &'static [(u16, u16, u16, bool)],
    profiles: &'static [(&'static [u16], Option<u32>)],
    goal: &'static [&'static str],
    /// The roles of the barrier, where there is one.
    barrier: &'static [u16],
    limit: u32,
    want: &'static str,
}

/// Members of adm give c to those without adm, and take adm.
const MIX: Case = Case {
    names: &["adm", "c"],
    edges: &[],
    pairs: &[],
    assign: &[(0, "not adm", 1, 1)],
    revoke: &[(0, 0, 0, false)],
    profiles: &[(&[0], Some(1))],
    goal: &["c"],
    barrier: &[],
    limit: 4096,
    want: "closed 3 user hit c; user lack adm user hit adm; user user hit adm;",
};

/// Members of adm give a.
const GIFT: Case = Case {
    names: &["adm", "a"],
    edges: &[],
    pairs: &[],
    assign: &[(0, "any", 1, 1)],
    revoke: &[],
    profiles: &[],
    goal: &["a"],
    barrier: &[0, 1],
    limit: 4096,
    want: "closed 0 user hit adm a;",
};

/// Whoever has a role has it from the start.
const STILL: Case = Case {
    names: &["a", "b"],
    edges: &[],
    pairs: &[],
    assign: &[],
    revoke: &[],
    profiles: &[(&[0], None)],
    goal: &["a"],
    barrier: &[],
    limit: 4096,
    want: "found 0 start 0",
};

/// An engineering department.
const ENG: Case = Case {
    names: &[
        "E", "ED", "E1", "PE1", "QE1", "PL1", "E2", "PE2", "QE2", "PL2", "DIR", "SSO", "DSO",
        "PSO1", "PSO2",
    ],
    edges: &[
        (10, 5),
        (10, 9),
        (5, 3),
        (5, 4),
        (3, 2),
        (4, 2),
        (9, 7),
        (9, 8),
        (7, 6),
        (8, 6),
        (2, 1),
        (6, 1),
        (1, 0),
        (11, 12),
        (12, 13),
        (12, 14),
    ],
    pairs: &[],
    assign: &[
        (11, "E", 1, 1),
        (13, "ED", 2, 2),
        (13, "E1 and not QE1", 3, 3),
        (13, "E1 and not PE1", 4, 4),
        (13, "PE1 and QE1", 5, 5),
        (14, "ED", 6, 6),
        (14, "E2 and not QE2", 7, 7),
        (14, "E2 and not PE2", 8, 8),
        (14, "PE2 and QE2", 9, 9),
    ],
    revoke: &[(13, 2, 5, true), (14, 6, 9, true)],
    profiles: &[(&[0], None), (&[11], Some(1))],
    goal: &["PL1"],
    barrier: &[10, 12, 13, 14],
    limit: 4096,
    want: "closed 3 user hit DIR DSO PSO1 PSO2; user hit PL1 DIR; user hit PE1 PL1 DIR hit QE1 PL1 DIR hit SSO DSO PSO1; user hit PE1 PL1 DIR hit QE1 PL1 DIR user hit SSO DSO PSO1;",
};

/// Members of adm give a and b, of which nobody may come to have both.
const APART: Case = Case {
    names: &["adm", "a", "b"],
    edges: &[],
    pairs: &[(1, 2)],
    assign: &[(0, "any", 1, 1), (0, "any", 2, 2)],
    revoke: &[],
    profiles: &[(&[0], Some(1))],
    goal: &["a and b"],
    barrier: &[],
    limit: 4096,
    want: "closed 1 user hit a hit b;",
};

/// The rules of the department, but that who is in quality may come into production too.
const BOTH: &[(u16, &'static str, u16, u16)] = &[
    (11, "E", 1, 1),
    (13, "ED", 2, 2),
    (13, "E1 and not QE1", 3, 3),
    (13, "E1", 4, 4),
    (13, "PE1 and QE1", 5, 5),
    (14, "ED", 6, 6),
    (14, "E2 and not QE2", 7, 7),
    (14, "E2 and not PE2", 8, 8),
    (14, "PE2 and QE2", 9, 9),
];

const CASES: [Case; 14] = [
    MIX,
    Case {
        profiles: &[(&[0], Some(2))],
        want: "found 2 start 0 0 weak 1 0 adm assign 1 0 c",
        ..MIX
    },
    Case {
        profiles: &[(&[0], Some(2))],
        limit: 1,
        want: "limit goal 0 user hit c; pre 0 assign 0 0 c 0 new user lack adm user hit adm;",
        ..MIX
    },
    GIFT,
    Case {
        barrier: &[],
        want: "closed 2 user hit a; user hit adm;",
        ..GIFT
    },
    Case {
        profiles: &[(&[0], Some(1))],
        barrier: &[],
        want: "found 1 start 0 assign 0 0 a",
        ..GIFT
    },
    STILL,
    Case {
        profiles: &[(&[0], Some(0))],
        goal: &["any"],
        want: "closed 1 user;",
        ..STILL
    },
    Case {
        profiles: &[(&[0], Some(1))],
        goal: &["a", "a"],
        want: "closed 1 user hit a user hit a;",
        ..STILL
    },
    Case {
        profiles: &[(&[0, 1], Some(1)), (&[0], Some(2))],
        goal: &["a", "a", "b"],
        want: "found 0 start 1 1 0",
        ..STILL
    },
    ENG,
    Case {
        assign: BOTH,
        want: "found 13 start 0 1 assign 1 0 ED assign 1 0 E1 assign 1 0 PE1 assign 1 0 QE1 assign 1 0 PL1",
        ..ENG
    },
    APART,
    Case {
        pairs: &[],
        want: "found 5 start 0 assign 0 0 a assign 0 0 b",
        ..APART
    },
];

fn order_of(rt: &impl Abort, alloc: Global, case: &Case) -> Result<Order, Fail> {
    let mut names = Vec::new(alloc);
    for name in case.names {
        names.push(String::from_str(alloc, name)?)?;
    }
    let edges = case.edges.to_vec(alloc)?;
    assert!(rt; names.len() < 1_000 && edges.len() < 1_000);
    Ok(Order::new(alloc, names, edges)?)
}

fn cond_of(rt: &impl Abort, alloc: Global, order: &Order, text: &str) -> Result<Cond, Fail>
    ensures terms { IfOk result (λ cond. term_count (term_of cond) ≤ MOST_TERMS) }
    ensures known { IfOk result (λ cond. IsKnown (length order.now.names) (term_of cond)) }
{
    assert!(rt; text.len() < 1_000_000);
    Ok(parse_cond(alloc, order, text)?)
}

fn assign_of(
    rt: &impl Abort,
    alloc: Global,
    order: &Order,
    rows: &[(u16, &str, u16, u16)],
) -> Result<Vec<CanAssign>, Fail>
    ensures { IfOk result (λ rules. Each (λ rule. term_count (term_of rule.cond) ≤ MOST_TERMS) rules.items) }
{
    let mut rules = Vec::new(alloc);
    for (admin, text, low, high) in rows {
        rules.push(CanAssign {
            admin: *admin,
            cond: cond_of(rt, alloc, order, text)?,
            range: Range {
                low: *low,
                high: *high,
                low_open: false,
                high_open: false,
            },
        })?;
    }
    Ok(rules)
}

fn revoke_of(alloc: Global, rows: &[(u16, u16, u16, bool)]) -> Result<Vec<CanRevoke>, Fail> {
    let mut rules = Vec::new(alloc);
    for (admin, low, high, high_open) in rows {
        rules.push(CanRevoke {
            admin: *admin,
            range: Range {
                low: *low,
                high: *high,
                low_open: false,
                high_open: *high_open,
            },
        })?;
    }
    Ok(rules)
}

fn prepared_of(rt: &impl Abort, alloc: Global, case: &Case) -> Result<Prepared, Fail> {
    let order = order_of(rt, alloc, case)?;
    let assign = assign_of(rt, alloc, &order, case.assign)?;
    let revoke = revoke_of(alloc, case.revoke)?;
    let pairs = case.pairs.to_vec(alloc)?;
    assert!(rt; assign.len() < 1_000 && revoke.len() < 1_000 && pairs.len() < 1_000);
    let none = Vec::new(alloc);
    let policy = Policy::new(order, assign, revoke, none, Vec::new(alloc), pairs);
    Ok(Prepared::new(alloc, policy.ok_or("no policy")?)?)
}

fn set_of(rt: &impl Abort, roles: &[u16]) -> RoleSet {
    let mut set = RoleSet::empty();
    for role in roles {
        assert!(rt; *role < 250);
        set = set.with(*role);
    }
    set
}

fn profiles_of(rt: &impl Abort, alloc: Global, case: &Case) -> Result<Vec<Profile>, AllocError> {
    let mut profiles = Vec::new(alloc);
    for (roles, most) in case.profiles {
        profiles.push(Profile {
            set: set_of(rt, roles),
            most: *most,
        })?;
    }
    Ok(profiles)
}

fn put_set(text: &mut String, order: &Order, set: &RoleSet) -> Result<(), AllocError> {
    for role in 0..order.count() {
        if set.has(role) {
            text.push_str(" ")?;
            text.push_str(order.name(role))?;
        }
    }
    Ok(())
}

/// What is wanted of each user.
fn put_req(text: &mut String, order: &Order, req: &Req) -> Result<(), AllocError> {
    for user in req.users() {
        text.push_str(" user")?;
        for hit in user.hits() {
            text.push_str(" hit")?;
            put_set(text, order, hit)?;
        }
        if !user.lacks().is_empty() {
            text.push_str(" lack")?;
            put_set(text, order, user.lacks())?;
        }
    }
    text.push_str(";")
}

fn role_name<'a>(order: &'a Order, role: u16) -> &'a str {
    if role < order.count() {
        order.name(role)
    } else {
        "?"
    }
}

fn put_pick(alloc: Global, text: &mut String, pick: Pick) -> Result<(), AllocError> {
    match pick {
        Pick::Itself => text.push_str(" self"),
        Pick::Other(place) => text.push_str(format!(in alloc; " {place}")?.as_str()),
        Pick::Fresh => text.push_str(" new"),
    }
}

fn put_origin(
    alloc: Global,
    text: &mut String,
    order: &Order,
    origin: Origin,
) -> Result<(), AllocError> {
    match origin {
        Origin::Goal(number) => text.push_str(format!(in alloc; " goal {number}")?.as_str()),
        Origin::Pre {
            parent,
            ob: Obligation::Assign {
                rule,
                conjunct,
                role,
                target,
                admin,
            },
        } => {
            let name = role_name(order, role);
            text.push_str(format!(in alloc;
                " pre {parent} assign {rule} {conjunct} {name} {target}"
            )?.as_str())?;
            put_pick(alloc, text, admin)
        }
        Origin::Pre {
            parent,
            ob: Obligation::Weak {
                rule,
                role,
                target,
                admin,
            },
        } => {
            let name = role_name(order, role);
            text.push_str(format!(in alloc;
                " pre {parent} weak {rule} {name} {target}"
            )?.as_str())?;
            put_pick(alloc, text, admin)
        }
    }
}

fn put_entry(
    alloc: Global,
    text: &mut String,
    order: &Order,
    entry: &Entry,
) -> Result<(), AllocError> {
    put_origin(alloc, text, order, entry.origin)?;
    put_req(text, order, &entry.req)
}

fn put_plan(
    alloc: Global,
    text: &mut String,
    order: &Order,
    choice: &[u32],
    acts: &[Act],
) -> Result<(), AllocError> {
    text.push_str(" start")?;
    for place in choice {
        text.push_str(format!(in alloc; " {place}")?.as_str())?;
    }
    for act in acts {
        let kind = match act.kind {
            ActKind::Assign => "assign",
            ActKind::Weak => "weak",
            ActKind::Strong => "strong",
        };
        let name = role_name(order, act.role);
        let (admin, target) = (act.admin, act.target);
        text.push_str(format!(in alloc; " {kind} {admin} {target} {name}")?.as_str())?;
    }
    Ok(())
}

fn put_outcome(
    alloc: Global,
    text: &mut String,
    order: &Order,
    outcome: &Outcome,
) -> Result<(), AllocError> {
    match outcome {
        Outcome::Found {
            choice,
            acts,
            recorded,
        } => {
            text.push_str(format!(in alloc; "found {recorded}")?.as_str())?;
            put_plan(alloc, text, order, choice, acts)
        }
        Outcome::Closed { needs, recorded } => {
            text.push_str(format!(in alloc; "closed {recorded}")?.as_str())?;
            for req in needs {
                put_req(text, order, req)?;
            }
            Ok(())
        }
        Outcome::Limit { recorded, next } => {
            text.push_str("limit")?;
            for entry in recorded {
                put_entry(alloc, text, order, entry)?;
            }
            put_entry(alloc, text, order, next)
        }
    }
}

/// The barrier of one user who wants one of the roles.
fn barriers_of(rt: &impl Abort, alloc: Global, roles: &[u16]) -> Result<Vec<Req>, AllocError> {
    let mut list = Vec::new(alloc);
    let hit = set_of(rt, roles);
    let mut hits = Vec::new(alloc);
    hits.push(hit)?;
    let mut raw = Vec::new(alloc);
    raw.push(RawUser {
        hits,
        lacks: RoleSet::empty(),
    })?;
    if let Some(form) = normal(alloc, &raw)? {
        list.push(form.req)?;
    }
    Ok(list)
}

fn goal_of(rt: &impl Abort, alloc: Global, order: &Order, texts: &[&str]) -> Result<Vec<Cond>, Fail>
    ensures terms { IfOk result (λ goal. Each (λ cond. term_count (term_of cond) ≤ MOST_TERMS) goal.items) }
    ensures known { IfOk result (λ goal. Each (λ cond. IsKnown (length order.now.names) (term_of cond)) goal.items) }
{
    let mut goal = Vec::new(alloc);
    for text in texts {
        goal.push(cond_of(rt, alloc, order, text)?)?;
    }
    Ok(goal)
}

fn text_of(rt: &impl Abort, alloc: Global, case: &Case) -> Result<String, Fail> {
    let prepared = prepared_of(rt, alloc, case)?;
    let profiles = profiles_of(rt, alloc, case)?;
    let barriers = barriers_of(rt, alloc, case.barrier)?;
    let order = prepared.policy().order();
    let goal = goal_of(rt, alloc, order, case.goal)?;
    let outcome = search(
        alloc, &prepared, &profiles, &goal, &barriers, case.limit, 4, &NoGate,
    )?;
    let mut text = String::new(alloc);
    put_outcome(alloc, &mut text, order, &outcome)?;
    Ok(text)
}

#[test]
fn small_questions_end_as_they_should(rt: HostRuntime) -> Result<(), Fail> {
    let alloc = rt.alloc();
    for (at, case) in CASES.iter().enumerate() {
        assert_eq!(&rt; text_of(&rt, alloc, case)?.as_str(), case.want, "at {at}");
    }
    Ok(())
}

/// The second round of the first question, by so many workers.
fn round_text(rt: &impl Abort, alloc: Global, workers: u32) -> Result<String, Fail> {
    let prepared = prepared_of(rt, alloc, &MIX)?;
    let order = prepared.policy().order();
    let goal = goal_of(rt, alloc, order, MIX.goal)?;
    let mut text = String::new(alloc);
    let outcome = search(alloc, &prepared, &[], &goal, &[], 1, 1, &NoGate)?;
    if let Outcome::Limit { recorded, .. } = &outcome {
        if !recorded.is_empty() {
            let made = round(alloc, &prepared, recorded, 0, &[], workers, &NoGate)?;
            for entry in &made.unbeaten {
                put_entry(alloc, &mut text, order, entry)?;
            }
        }
    }
    Ok(text)
}

#[test]
fn a_round_by_itself(rt: HostRuntime) -> Result<(), Fail> {
    for workers in [1, 16] {
        let text = round_text(&rt, rt.alloc(), workers)?;
        assert_eq!(&rt;
            text.as_str(),
            " pre 0 assign 0 0 c 0 new user lack adm user hit adm;"
        );
    }
    Ok(())
}
