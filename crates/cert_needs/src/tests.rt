//! What is wanted of users before acts, over seven roles.

use crate::{
    Exclusions, NeedUser, Wanted, add_fresh, as_wanted, before_assign, before_weak, drop_admin,
    put_admin, wanted_of,
};
use arbac_policy::Policy;
use role_order::{Order, RoleSet};
use std::alloc::{AllocError, Global};
use std::process::Abort;
use std::test::Fail;

/// The roles. X and Y exclude each other; `OVER_X` is above X, `OVER_Y` above Y, and `OVER_BOTH` above both.
const NAMES: [&str; 7] = ["adm", "c", "x", "y", "over_x", "over_y", "over_both"];

const ADM: u16 = 0;

const C: u16 = 1;

const X: u16 = 2;

const Y: u16 = 3;

const OVER_X: u16 = 4;

const OVER_Y: u16 = 5;

const OVER_BOTH: u16 = 6;

/// What is wanted of a user: hits, each by its roles, and lacks.
type User = (&'static [&'static [u16]], &'static [u16]);

/// Nothing is wanted.
const ANYBODY: User = (&[], &[]);

/// A role that is given, the conjunct by which it is, what is wanted of the user, and what is wanted before.
type AssignRow = (u16, User, User, &'static str);

const ASSIGNED: [AssignRow; 7] = [
    // The role meets the hit.
    (C, (&[], &[ADM]), (&[&[C]], &[]), "user lack adm\n"),
    // Other hits stay, in front of those of the conjunct.
    (
        C,
        (&[&[ADM]], &[Y]),
        (&[&[X], &[ADM, C], &[OVER_X]], &[OVER_Y]),
        "user hit x hit over_x hit adm lack y over_y\n",
    ),
    // The role may not be had.
    (C, ANYBODY, (&[&[C]], &[C]), "none\n"),
    // What is above one role of the pair bars all that is above the other.
    (
        OVER_X,
        ANYBODY,
        (&[&[OVER_X]], &[]),
        "user lack y over_y over_both\n",
    ),
    (
        Y,
        ANYBODY,
        (&[&[Y]], &[ADM]),
        "user lack adm x over_x over_both\n",
    ),
    // What is above both can't be given.
    (OVER_BOTH, ANYBODY, (&[&[OVER_BOTH]], &[]), "none\n"),
    (ADM, ANYBODY, ANYBODY, "user\n"),
];

/// A role that is taken away, what is wanted of the user, and what is wanted before.
type RevokeRow = (u16, User, &'static str);

const REVOKED: [RevokeRow; 5] = [
    (ADM, (&[], &[ADM]), "user\n"),
    // The role leaves hits and lacks.
    (
        C,
        (&[&[C, X], &[ADM]], &[C, Y]),
        "user hit x hit adm lack y\n",
    ),
    // A hit has no other role, or none at all.
    (C, (&[&[ADM], &[C]], &[C]), "none\n"),
    (C, (&[&[]], &[C]), "none\n"),
    // What is above the role stays.
    (
        X,
        (&[&[OVER_X]], &[X, OVER_X]),
        "user hit over_x lack over_x\n",
    ),
];

/// Two users, of whom the first is the target of an act.
const USERS: [User; 2] = [(&[&[C]], &[]), (&[], &[ADM])];

/// The administrator's place, if it isn't a new user, and what is wanted with its hit.
type AdminRow = (Option<usize>, &'static str);

const ADMINISTERED: [AdminRow; 3] = [
    (Some(0), "user hit adm hit c\nuser lack adm\n"),
    (Some(1), "user hit c\nuser hit adm lack adm\n"),
    (None, "user hit c\nuser lack adm\nuser hit adm\n"),
];

fn policy_of(rt: &impl Abort, alloc: Global) -> Result<Policy, Fail> {
    let mut names = Vec::new(alloc);
    for name in NAMES {
        names.push(String::from_str(alloc, name)?)?;
    }
    let edges = vec![in alloc; (OVER_X, X), (OVER_Y, Y), (OVER_BOTH, X), (OVER_BOTH, Y)]?;
    assert!(rt; names.len() == 7);
    let order = Order::new(alloc, names, edges)?;
    let pairs = vec![in alloc; (X, Y)]?;
    let policy = Policy::new(
        order,
        Vec::new(alloc),
        Vec::new(alloc),
        Vec::new(alloc),
        Vec::new(alloc),
        pairs,
    );
    Ok(policy.ok_or("no policy")?)
}

fn set_of(rt: &impl Abort, roles: &[u16]) -> RoleSet {
    let mut set = RoleSet::empty();
    for role in roles {
        assert!(rt; *role < 7);
        set = set.with(*role);
    }
    set
}

fn user_of(rt: &impl Abort, alloc: Global, user: &User) -> Result<NeedUser, AllocError> {
    let mut hits = Vec::new(alloc);
    for roles in user.0 {
        hits.push(set_of(rt, roles))?;
    }
    Ok(NeedUser {
        hits,
        lacks: set_of(rt, user.1),
    })
}

fn put_set(alloc: Global, text: &mut String, word: &str, set: &RoleSet) -> Result<(), AllocError> {
    text.push_str(word)?;
    for (role, name) in NAMES.iter().enumerate() {
        if set.has(role as u16) {
            text.push_str(format!(in alloc; " {name}")?.as_str())?;
        }
    }
    Ok(())
}

/// A line for the user.
fn put_user(alloc: Global, text: &mut String, user: &Wanted) -> Result<(), AllocError> {
    text.push_str("user")?;
    if let Some(hit) = &user.admin {
        put_set(alloc, text, " hit", hit)?;
    }
    for hit in user.hits {
        put_set(alloc, text, " hit", hit)?;
    }
    if !user.lacks.is_empty() {
        put_set(alloc, text, " lack", &user.lacks)?;
    }
    text.push_str("\n")
}

fn users_text(alloc: Global, users: &[Wanted]) -> Result<String, AllocError> {
    let mut text = String::new(alloc);
    for user in users {
        put_user(alloc, &mut text, user)?;
    }
    Ok(text)
}

fn before_text(alloc: Global, before: &Option<NeedUser>) -> Result<String, AllocError> {
    let mut text = String::new(alloc);
    match before {
        Some(user) => put_user(alloc, &mut text, &wanted_of(user))?,
        None => text.push_str("none\n")?,
    }
    Ok(text)
}

fn assert_assigned(rt: &impl Abort, alloc: Global, exclusions: &Exclusions) -> Result<(), Fail> {
    for (at, (role, conjunct, user, want)) in ASSIGNED.iter().enumerate() {
        let conjunct = user_of(rt, alloc, conjunct)?;
        let user = user_of(rt, alloc, user)?;
        assert!(rt; *role < exclusions.policy().order().count());
        let before = before_assign(alloc, exclusions, &conjunct, *role, &user)?;
        assert_eq!(rt; before_text(alloc, &before)?.as_str(), *want, "at {at}");
    }
    Ok(())
}

fn assert_revoked(rt: &impl Abort, alloc: Global) -> Result<(), Fail> {
    for (at, (role, user, want)) in REVOKED.iter().enumerate() {
        let user = user_of(rt, alloc, user)?;
        let before = before_weak(alloc, *role, &user)?;
        assert_eq!(rt; before_text(alloc, &before)?.as_str(), *want, "at {at}");
    }
    Ok(())
}

/// With the administrator's hit so much is wanted, and without it as much as before.
fn assert_administered(
    rt: &impl Abort,
    alloc: Global,
    users: &[NeedUser],
    admin: Option<usize>,
    want: &str,
) -> Result<(), Fail> {
    let mut users = as_wanted(alloc, users)?;
    let before = users_text(alloc, &users)?;
    let hit = RoleSet::empty().with(ADM);
    match admin {
        Some(place) => {
            assert!(rt; place < users.len());
            put_admin(&mut users, place, hit);
            assert_eq!(rt; users_text(alloc, &users)?.as_str(), want);
            drop_admin(&mut users, place);
        }
        None => {
            add_fresh(&mut users, hit)?;
            assert_eq!(rt; users_text(alloc, &users)?.as_str(), want);
            let _admin = users.pop();
        }
    }
    assert_eq!(rt; users_text(alloc, &users)?.as_str(), before.as_str());
    Ok(())
}

#[test]
fn so_much_is_wanted_before_an_act(rt: HostRuntime) -> Result<(), Fail> {
    let alloc = rt.alloc();
    let policy = policy_of(&rt, alloc)?;
    let exclusions = Exclusions::new(alloc, &policy)?;
    assert_assigned(&rt, alloc, &exclusions)?;
    assert_revoked(&rt, alloc)?;
    let mut users = Vec::new(alloc);
    for user in &USERS {
        users.push(user_of(&rt, alloc, user)?)?;
    }
    for (admin, want) in ADMINISTERED {
        assert_administered(&rt, alloc, &users, admin, want)?;
    }
    Ok(())
}
