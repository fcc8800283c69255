//! Goal requirements, obligations and pre-images of small policies.

ghost use Rattle.std.specs.Prelude.{◌≤◌, length, IfOk};
ghost use Rattle.arbac_policy.specs.Truth.{term_of, IsKnown};
ghost use Rattle.cond_text.specs.Grammar.{term_count};

use crate::{
    Obligation, Pick, PrepareError, Prepared, WideError, before_given, before_taken, goals,
    obligations, pre,
};
use arbac_policy::{CanAssign, CanRevoke, Cond, Policy};
use arbac_rules::{MOST_TERMS, parse_cond};
use req_core::{Normal, Req, UserReq};
use role_order::{Order, Range, RoleSet};
use std::alloc::{AllocError, Global};
use std::process::Abort;
use std::test::Fail;

/// The roles adm, c and d, where d is above c.
const NAMES: [&str; 3] = ["adm", "c", "d"];

/// Two conditions; their goal requirements by number, each by its users and where they went.
const GOALS: [(&str, &str, &str); 5] = [
    ("c", "any", "user / user hit c d / at 1 0\n"),
    ("c and not c", "any", "impossible\n"),
    (
        "adm or not d",
        "any",
        "user / user hit adm / at 1 0\nuser / user lack d / at 1 0\n",
    ),
    (
        "adm or d",
        "c or any",
        "user hit adm / user hit c d / at 0 1\nuser / user hit adm / at 1 0\nuser hit c d / user hit d / at 1 0\nuser / user hit d / at 1 0\n",
    ),
    (
        WIDE,
        "any and (adm or c) and (adm or c) and (adm or c) and (adm or c) and (adm or c) and (adm or c)",
        "too wide 1728\n",
    ),
];

/// Conditions with 27 and with 2,187 conjuncts.
const WIDE: &str = "(adm or c or any) and (adm or c or any) and (adm or c or any)";

const WIDER: &str =
    "(adm or c or any) and (adm or c or any) and (adm or c or any) and (adm or c or any) and (adm or c or any) and (adm or c or any) and (adm or c or any)";

/// The first goal requirement of a goal, and its obligations with their pre-images.
const OWED: [(&str, &str); 4] = [
    (
        "c",
        "assign 0 0 c 0 itself: impossible\nassign 0 0 c 0 new: user lack adm / user hit adm / at 0 1\n",
    ),
    (
        "not adm",
        "weak 0 adm 0 itself: user hit adm / at 0\nweak 0 adm 0 new: user / user hit adm / at 0 1\n",
    ),
    ("adm", ""),
    (
        "c and not adm",
        "assign 0 0 c 0 itself: impossible\nassign 0 0 c 0 new: user lack adm / user hit adm / at 0 1\nweak 0 adm 0 itself: user hit adm hit c d / at 0\nweak 0 adm 0 new: user hit adm / user hit c d / at 1 0\n",
    ),
];

/// Those of `not adm` and `adm`, which two users are to meet.
const OWED_BY_TWO: &str =
    "weak 0 adm 0 itself: user hit adm / user hit adm / at 0 1\nweak 0 adm 0 other 1: user / user hit adm / at 0 1\nweak 0 adm 0 new: user / user hit adm / user hit adm / at 0 1 2\n";

/// The same under the pairs of c with adm and of c with d, where anybody may be given c and d.
const PAIRED: [(&str, &str); 2] = [
    (
        "c",
        "assign 0 0 c 0 itself: impossible\nassign 0 0 c 0 new: user lack adm d / user hit adm / at 0 1\nassign 0 0 d 0 itself: impossible\nassign 0 0 d 0 new: impossible\n",
    ),
    (
        "d",
        "assign 0 0 d 0 itself: impossible\nassign 0 0 d 0 new: impossible\n",
    ),
];

/// A user requirement, by a condition; a role; and what the user must meet before it is given the role by a rule for members
/// of adm. 3 is no role.
const GIVEN: [(&str, u16, &str); 7] = [
    // The hits with the role go, and the rule's come.
    ("c", 1, "user hit adm / "),
    ("c", 2, "user hit adm / "),
    ("d and not adm", 1, "impossible"),
    ("d", 1, "user hit adm hit d / "),
    ("c", 0, "user hit adm hit c d / "),
    // A role that it is to lack can't be given.
    ("not c", 2, "impossible"),
    ("c", 3, "user hit adm hit c d / "),
];

/// The same by a rule for everybody, under the pairs of c with adm and of c with d.
const GIVEN_IN_PAIRS: [(&str, u16, &str); 7] = [
    ("any", 1, "user lack adm d / "),
    ("c", 1, "user lack adm d / "),
    ("d", 1, "impossible"),
    // d is above both roles of a pair.
    ("any", 2, "impossible"),
    ("any", 0, "user lack c d / "),
    ("c and not adm", 0, "impossible"),
    ("c and not adm", 3, "user hit c d lack adm / "),
];

/// The same before the role is taken from it.
const TAKEN: [(&str, u16, &str); 7] = [
    ("not adm", 0, "user / "),
    ("adm", 0, "impossible"),
    ("c", 1, "user hit d / "),
    ("c", 2, "user hit c / "),
    ("c and d", 2, "impossible"),
    ("adm and not c", 1, "user hit adm lack d / "),
    ("adm and not c", 3, "user hit adm lack c d / "),
];

fn range(low: u16, high: u16) -> Range {
    Range {
        low,
        high,
        low_open: false,
        high_open: false,
    }
}

fn order_of(rt: &impl Abort, alloc: Global) -> Result<Order, Fail> {
    let mut names = Vec::new(alloc);
    for name in NAMES {
        names.push(String::from_str(alloc, name)?)?;
    }
    assert!(rt; names.len() == 3);
    Ok(Order::new(alloc, names, vec![in alloc; (2, 1)]?)?)
}

fn prepared_of(
    rt: &impl Abort,
    alloc: Global,
    cond: Cond,
    given: Range,
    pairs: Vec<(u16, u16)>,
) -> Result<Prepared, Fail>
    requires { term_count (term_of cond) ≤ MOST_TERMS }
{
    assert!(rt; pairs.len() < 10);
    let policy = Policy::new(
        order_of(rt, alloc)?,
        vec![in alloc;
            CanAssign {
                admin: 0,
                cond,
                range: given
            },
        ]?,
        vec![in alloc;
            CanRevoke {
                admin: 0,
                range: range(0, 0)
            },
        ]?,
        Vec::new(alloc),
        Vec::new(alloc),
        pairs,
    );
    Ok(Prepared::new(alloc, policy.ok_or("no policy")?)?)
}

fn put_set(alloc: Global, text: &mut String, word: &str, set: &RoleSet) -> Result<(), AllocError> {
    text.push_str(word)?;
    for (role, name) in NAMES.iter().enumerate() {
        if set.has(role as u16) {
            text.push_str(format!(in alloc; " {name}")?.as_str())?;
        }
    }
    Ok(())
}

fn put_user(alloc: Global, text: &mut String, user: &UserReq) -> Result<(), AllocError> {
    text.push_str("user")?;
    for hit in user.hits() {
        put_set(alloc, text, " hit", hit)?;
    }
    if !user.lacks().within(&RoleSet::empty()) {
        put_set(alloc, text, " lack", user.lacks())?;
    }
    text.push_str(" / ")
}

fn put_req(alloc: Global, text: &mut String, req: &Req) -> Result<(), AllocError> {
    for user in req.users() {
        put_user(alloc, text, user)?;
    }
    Ok(())
}

/// The users, and where they went.
fn put_form(alloc: Global, text: &mut String, form: &Option<Normal>) -> Result<(), AllocError> {
    match form {
        Some(normal) => {
            put_req(alloc, text, &normal.req)?;
            text.push_str("at")?;
            for place in &normal.places {
                text.push_str(format!(in alloc; " {place}")?.as_str())?;
            }
        }
        None => text.push_str("impossible")?,
    }
    text.push_str("\n")
}

fn put_pick(alloc: Global, text: &mut String, pick: Pick) -> Result<(), AllocError> {
    match pick {
        Pick::Itself => text.push_str(" itself: "),
        Pick::Other(place) => text.push_str(format!(in alloc; " other {place}: ")?.as_str()),
        Pick::Fresh => text.push_str(" new: "),
    }
}

fn put_owed(alloc: Global, text: &mut String, ob: &Obligation) -> Result<(), AllocError> {
    match *ob {
        Obligation::Assign {
            rule,
            conjunct,
            role,
            target,
            admin,
        } => {
            let name = NAMES[(role as usize).min(2)];
            text.push_str(format!(in alloc; "assign {rule} {conjunct} {name} {target}")?.as_str())?;
            put_pick(alloc, text, admin)
        }
        Obligation::Weak {
            rule,
            role,
            target,
            admin,
        } => {
            let name = NAMES[(role as usize).min(2)];
            text.push_str(format!(in alloc; "weak {rule} {name} {target}")?.as_str())?;
            put_pick(alloc, text, admin)
        }
    }
}

fn cond_of(rt: &impl Abort, alloc: Global, prepared: &Prepared, text: &str) -> Result<Cond, Fail>
    ensures terms { IfOk result (λ cond. term_count (term_of cond) ≤ MOST_TERMS) }
    ensures known { IfOk result (λ cond. IsKnown (length prepared.now.order.names) (term_of cond)) }
{
    assert!(rt; text.len() < 1_000_000);
    Ok(parse_cond(alloc, prepared.policy().order(), text)?)
}

/// The goal requirements, or that they are too many.
fn goal_text(
    alloc: Global,
    list: Result<Vec<Option<Normal>>, WideError>,
) -> Result<String, AllocError> {
    let mut text = String::new(alloc);
    match list {
        Ok(forms) => {
            for form in &forms {
                put_form(alloc, &mut text, form)?;
            }
        }
        Err(WideError::TooWide { count }) => {
            text.push_str(format!(in alloc; "too wide {count}\n")?.as_str())?
        }
        Err(WideError::Memory) => text.push_str("memory\n")?,
    }
    Ok(text)
}

#[test]
fn goals_have_their_requirements_by_number(rt: HostRuntime) -> Result<(), Fail> {
    let alloc = rt.alloc();
    let prepared = prepared_of(&rt, alloc, Cond::Lacks(0), range(1, 1), Vec::new(alloc))?;
    for (first, second, want) in GOALS {
        let first = cond_of(&rt, alloc, &prepared, first)?;
        let second = cond_of(&rt, alloc, &prepared, second)?;
        let text = goal_text(alloc, goals(alloc, &prepared, &[first, second]))?;
        assert_eq!(&rt; text.as_str(), want);
    }
    Ok(())
}

/// The obligations of the requirement, each with its pre-image.
fn put_all(
    alloc: Global,
    text: &mut String,
    prepared: &Prepared,
    req: &Req,
) -> Result<(), AllocError> {
    let list = obligations(alloc, prepared, req)?;
    for ob in &list {
        put_owed(alloc, text, ob)?;
        put_form(alloc, text, &pre(alloc, prepared, req, ob)?)?;
    }
    Ok(())
}

/// The same of the first goal requirement.
fn owed_text(
    alloc: Global,
    prepared: &Prepared,
    forms: &[Option<Normal>],
) -> Result<String, AllocError> {
    let mut text = String::new(alloc);
    if let [Some(normal), ..] = forms {
        put_all(alloc, &mut text, prepared, &normal.req)?;
    }
    Ok(text)
}

fn assert_owed(
    rt: &impl Abort,
    alloc: Global,
    prepared: &Prepared,
    rows: &[(&str, &str)],
) -> Result<(), Fail> {
    for (goal, want) in rows {
        let goal = cond_of(rt, alloc, prepared, goal)?;
        let forms = goals(alloc, prepared, &[goal])?;
        assert_eq!(rt; owed_text(alloc, prepared, &forms)?.as_str(), *want);
    }
    Ok(())
}

#[test]
fn obligations_have_their_pre_images(rt: HostRuntime) -> Result<(), Fail> {
    let alloc = rt.alloc();
    let prepared = prepared_of(&rt, alloc, Cond::Lacks(0), range(1, 1), Vec::new(alloc))?;
    assert_owed(&rt, alloc, &prepared, &OWED)?;
    let both = [
        cond_of(&rt, alloc, &prepared, "not adm")?,
        cond_of(&rt, alloc, &prepared, "adm")?,
    ];
    let forms = goals(alloc, &prepared, &both)?;
    assert_eq!(&rt; owed_text(alloc, &prepared, &forms)?.as_str(), OWED_BY_TWO);
    if let [Some(normal), ..] = forms.as_slice() {
        let absent = Obligation::Weak {
            rule: 0,
            role: 0,
            target: 0,
            admin: Pick::Other(2),
        };
        assert!(&rt; pre(alloc, &prepared, &normal.req, &absent)?.is_none());
    }
    let pairs = vec![in alloc; (1, 0), (1, 2)]?;
    let paired = prepared_of(&rt, alloc, Cond::Any, range(1, 2), pairs)?;
    assert_owed(&rt, alloc, &paired, &PAIRED)
}

/// The user of the condition's first requirement.
fn user_of(
    rt: &impl Abort,
    alloc: Global,
    prepared: &Prepared,
    text: &str,
) -> Result<UserReq, Fail> {
    let goal = cond_of(rt, alloc, prepared, text)?;
    let forms = goals(alloc, prepared, &[goal])?;
    match forms.as_slice() {
        [Some(normal), ..] => {
            let user = normal.req.users().first().ok_or("no user")?;
            Ok(user.copy(alloc)?)
        }
        _ => Err("impossible")?,
    }
}

fn before_text(alloc: Global, before: &Option<UserReq>) -> Result<String, AllocError> {
    let mut text = String::new(alloc);
    match before {
        Some(user) => put_user(alloc, &mut text, user)?,
        None => text.push_str("impossible")?,
    }
    Ok(text)
}

/// Gives the roles by the first conjunct of the policy's rule.
fn assert_given(
    rt: &impl Abort,
    alloc: Global,
    prepared: &Prepared,
    rows: &[(&str, u16, &str)],
) -> Result<(), Fail> {
    let conjuncts = prepared.conjuncts_at(0).ok_or("no rule")?;
    let conjunct = conjuncts.first().ok_or("no conjunct")?;
    for (at, (cond, role, want)) in rows.iter().enumerate() {
        let user = user_of(rt, alloc, prepared, cond)?;
        let before = before_given(alloc, prepared, conjunct, *role, &user)?;
        assert_eq!(rt; before_text(alloc, &before)?.as_str(), *want, "at {at}");
    }
    Ok(())
}

#[test]
fn a_target_must_meet_this_before_an_act(rt: HostRuntime) -> Result<(), Fail> {
    let alloc = rt.alloc();
    let prepared = prepared_of(&rt, alloc, Cond::Has(0), range(1, 1), Vec::new(alloc))?;
    assert_given(&rt, alloc, &prepared, &GIVEN)?;
    for (at, (cond, role, want)) in TAKEN.iter().enumerate() {
        let user = user_of(&rt, alloc, &prepared, cond)?;
        let before = before_taken(alloc, *role, &user)?;
        assert_eq!(&rt; before_text(alloc, &before)?.as_str(), *want, "at {at}");
    }
    let pairs = vec![in alloc; (1, 0), (1, 2)]?;
    let paired = prepared_of(&rt, alloc, Cond::Any, range(1, 2), pairs)?;
    assert_given(&rt, alloc, &paired, &GIVEN_IN_PAIRS)
}

/// A rule that gives c to whoever satisfies the condition.
fn rule_of(rt: &impl Abort, alloc: Global, order: &Order, text: &str) -> Result<CanAssign, Fail>
    ensures { IfOk result (λ rule. term_count (term_of rule.cond) ≤ MOST_TERMS) }
{
    assert!(rt; text.len() < 1_000_000);
    Ok(CanAssign {
        admin: 0,
        cond: parse_cond(alloc, order, text)?,
        range: range(1, 1),
    })
}

#[test]
fn a_rule_that_is_too_wide_is_told(rt: HostRuntime) -> Result<(), Fail> {
    let alloc = rt.alloc();
    let order = order_of(&rt, alloc)?;
    let rules = vec![in alloc;
        rule_of(&rt, alloc, &order, "any")?,
        rule_of(&rt, alloc, &order, WIDER)?,
        rule_of(&rt, alloc, &order, WIDER)?,
    ]?;
    let policy = Policy::new(
        order,
        rules,
        Vec::new(alloc),
        Vec::new(alloc),
        Vec::new(alloc),
        Vec::new(alloc),
    );
    let error = Prepared::new(alloc, policy.ok_or("no policy")?).err();
    let want = PrepareError::TooWide {
        rule: 1,
        count: 2187,
    };
    assert_eq!(&rt; error, Some(want));
    Ok(())
}
