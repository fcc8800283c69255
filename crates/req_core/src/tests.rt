//! Requirements over four roles: their normal forms, cover, and which profiles serve them.

use crate::{
    Met, RawUser, Req, UserReq, covers, covers_user, meets, met, normal, normal_user, with_hit,
};
use arbac_policy::Profile;
use role_order::RoleSet;
use std::alloc::{AllocError, Global};
use std::process::Abort;
use std::test::Fail;

/// What is wanted of a user: hits, each by its roles, and lacks.
type User = (&'static [&'static [u16]], &'static [u16]);

/// A requirement, its normal form by lines, and where its users went; `impossible` has no places.
type NormalRow = (&'static [User], &'static str, &'static [u32]);

const NORMAL: [NormalRow; 11] = [
    (&[], "", &[]),
    (&[(&[&[0]], &[0])], "impossible", &[]),
    (
        &[(&[&[1]], &[]), (&[&[0, 2], &[]], &[3])],
        "impossible",
        &[],
    ),
    // Lacks are taken out of hits.
    (&[(&[&[0, 1]], &[1, 3])], "user hit 0 lack 1 3\n", &[0]),
    // Hits that contain a different one go, also one that came to contain it.
    (
        &[(&[&[0, 1], &[2], &[1], &[1, 2]], &[])],
        "user hit 1 hit 2\n",
        &[0],
    ),
    (&[(&[&[0, 1], &[0, 2]], &[2])], "user hit 0 lack 2\n", &[0]),
    // Hits are sorted, and equal ones stand once.
    (
        &[(&[&[3], &[1, 2], &[0], &[3]], &[])],
        "user hit 0 hit 1 2 hit 3\n",
        &[0],
    ),
    // Users are sorted by their hits, a front first, and then by their lacks.
    (
        &[(&[&[1]], &[]), (&[&[0]], &[]), (&[], &[2])],
        "user lack 2\nuser hit 0\nuser hit 1\n",
        &[2, 1, 0],
    ),
    (
        &[(&[&[0], &[1]], &[]), (&[&[0]], &[3]), (&[&[0]], &[2])],
        "user hit 0 lack 2\nuser hit 0 lack 3\nuser hit 0 hit 1\n",
        &[2, 1, 0],
    ),
    // Someone of whom nothing is wanted stays, and equal users keep their order.
    (&[(&[&[0]], &[]), (&[], &[])], "user\nuser hit 0\n", &[1, 0]),
    (
        &[
            (&[&[1]], &[]),
            (&[&[1], &[1, 2]], &[]),
            (&[&[0]], &[]),
            (&[&[1]], &[]),
        ],
        "user hit 0\nuser hit 1\nuser hit 1\nuser hit 1\n",
        &[1, 2, 0, 3],
    ),
];

/// Two requirements, and where users of the first go in the second.
type CoverRow = (&'static [User], &'static [User], Option<&'static [u32]>);

const COVER: [CoverRow; 10] = [
    (&[], &[], Some(&[])),
    (&[], &[(&[&[0]], &[])], Some(&[])),
    // Two users aren't one.
    (&[(&[], &[]), (&[&[0]], &[])], &[(&[&[1]], &[])], None),
    (&[(&[], &[]), (&[], &[])], &[(&[], &[])], None),
    (
        &[(&[], &[]), (&[&[0]], &[])],
        &[(&[&[0]], &[]), (&[&[0]], &[])],
        Some(&[0, 1]),
    ),
    // A wider hit covers, and fewer lacks do.
    (&[(&[&[0, 1]], &[2])], &[(&[&[0]], &[2, 3])], Some(&[0])),
    (&[(&[&[0]], &[])], &[(&[&[0, 1]], &[])], None),
    (&[(&[], &[2, 3])], &[(&[], &[2])], None),
    // Each hit contains some hit; users may be exchanged.
    (&[(&[&[0, 1], &[0, 2]], &[])], &[(&[&[0]], &[])], Some(&[0])),
    (
        &[(&[&[0, 2]], &[]), (&[&[1]], &[])],
        &[(&[&[1]], &[]), (&[&[2]], &[])],
        Some(&[1, 0]),
    ),
];

/// A user requirement, a set, and whether the set meets it.
const MEETS: [(User, &[u16], bool); 6] = [
    ((&[], &[]), &[], true),
    ((&[&[0, 1], &[2]], &[3]), &[1, 2], true),
    ((&[&[0, 1], &[2]], &[3]), &[0, 1], false),
    ((&[&[0, 1], &[2]], &[3]), &[1, 2, 3], false),
    ((&[], &[0]), &[1], true),
    ((&[], &[0]), &[0], false),
];

/// A requirement, profiles with their counts, whether they serve it, and the choice or the users apart.
type MetRow = (
    &'static [User],
    &'static [(&'static [u16], Option<u32>)],
    bool,
    &'static [u32],
);

const MET: [MetRow; 9] = [
    (&[], &[], true, &[]),
    (&[(&[&[0]], &[])], &[(&[0], None)], true, &[0]),
    (&[(&[], &[])], &[(&[0], Some(0))], false, &[0]),
    (
        &[(&[&[0]], &[]), (&[&[0]], &[])],
        &[(&[0], Some(1))],
        false,
        &[0, 1],
    ),
    (
        &[(&[&[0]], &[]), (&[&[0]], &[]), (&[&[1]], &[])],
        &[(&[0, 1], Some(1)), (&[0], Some(2))],
        true,
        &[1, 1, 0],
    ),
    // The least choice, and unlimited users.
    (
        &[(&[], &[]), (&[], &[])],
        &[(&[], Some(1)), (&[1], None)],
        true,
        &[0, 1],
    ),
    (
        &[(&[], &[]), (&[], &[])],
        &[(&[], None), (&[1], None)],
        true,
        &[0, 0],
    ),
    // Lacks keep a profile away.
    (&[(&[], &[1])], &[(&[0, 1], None)], false, &[0]),
    (
        &[(&[], &[]), (&[&[0]], &[]), (&[&[1]], &[])],
        &[(&[0, 1], Some(1)), (&[2], None)],
        false,
        &[1, 2],
    ),
];

/// A user requirement, a hit that is wanted too, and what is wanted then.
const MORE: [(User, &[u16], &str); 7] = [
    ((&[], &[]), &[1, 0], "user hit 0 1\n"),
    // It may lie within an earlier hit, contain one, or be one.
    ((&[&[0, 1], &[3]], &[]), &[1], "user hit 1 hit 3\n"),
    ((&[&[1]], &[]), &[1, 2], "user hit 1\n"),
    ((&[&[1]], &[]), &[1], "user hit 1\n"),
    // Lacks are taken out of it.
    ((&[&[1]], &[2]), &[0, 2], "user hit 0 hit 1 lack 2\n"),
    ((&[&[1]], &[2]), &[2], "impossible"),
    ((&[], &[]), &[], "impossible"),
];

/// Two user requirements; whether the first covers the second, comes before it, and is the same.
const COMPARED: [(User, User, &str); 9] = [
    ((&[], &[]), (&[], &[]), " covers same"),
    ((&[], &[]), (&[&[0]], &[]), " covers before"),
    ((&[&[0]], &[]), (&[], &[]), ""),
    ((&[&[0, 1]], &[]), (&[&[0]], &[]), " covers"),
    ((&[&[0]], &[]), (&[&[0, 1]], &[]), " before"),
    ((&[&[0]], &[2]), (&[&[0]], &[3]), " before"),
    ((&[&[0]], &[2]), (&[&[0]], &[2, 3]), " covers before"),
    // The other's lacks are taken out.
    ((&[&[0, 3]], &[]), (&[&[0], &[1]], &[3]), " covers"),
    // Order and repetition are left out of the normal form.
    (
        (&[&[1], &[0]], &[]),
        (&[&[0], &[1], &[0]], &[]),
        " covers same",
    ),
];

fn set_of(rt: &impl Abort, roles: &[u16]) -> RoleSet {
    let mut set = RoleSet::empty();
    for role in roles {
        assert!(rt; *role < 4);
        set = set.with(*role);
    }
    set
}

fn raw_user(rt: &impl Abort, alloc: Global, user: &User) -> Result<RawUser, AllocError> {
    let mut hits = Vec::new(alloc);
    for roles in user.0 {
        hits.push(set_of(rt, roles))?;
    }
    Ok(RawUser {
        hits,
        lacks: set_of(rt, user.1),
    })
}

fn raw_of(rt: &impl Abort, alloc: Global, users: &[User]) -> Result<Vec<RawUser>, AllocError> {
    let mut raw = Vec::new(alloc);
    for user in users {
        raw.push(raw_user(rt, alloc, user)?)?;
    }
    Ok(raw)
}

fn put_set(alloc: Global, text: &mut String, word: &str, set: &RoleSet) -> Result<(), AllocError> {
    text.push_str(word)?;
    for role in 0..4 {
        if set.has(role) {
            text.push_str(format!(in alloc; " {role}")?.as_str())?;
        }
    }
    Ok(())
}

/// A line for each user.
fn text_of(alloc: Global, req: &Req) -> Result<String, AllocError> {
    let mut text = String::new(alloc);
    for user in req.users() {
        text.push_str("user")?;
        for hit in user.hits() {
            put_set(alloc, &mut text, " hit", hit)?;
        }
        if !user.lacks().within(&RoleSet::empty()) {
            put_set(alloc, &mut text, " lack", user.lacks())?;
        }
        text.push_str("\n")?;
    }
    Ok(text)
}

#[test]
fn a_requirement_has_its_normal_form_or_is_impossible(rt: HostRuntime) -> Result<(), Fail> {
    let alloc = rt.alloc();
    for (at, (users, text, places)) in NORMAL.iter().enumerate() {
        match normal(alloc, &raw_of(&rt, alloc, users)?)? {
            Some(form) => {
                assert_eq!(&rt; text_of(alloc, &form.req)?.as_str(), *text, "at {at}");
                assert_eq!(&rt; form.places.as_slice(), *places, "at {at}");
            }
            None => assert_eq!(&rt; "impossible", *text, "at {at}"),
        }
    }
    Ok(())
}

fn req_of(rt: &impl Abort, alloc: Global, users: &[User]) -> Result<Req, Fail> {
    let form = normal(alloc, &raw_of(rt, alloc, users)?)?;
    Ok(form.ok_or("impossible")?.req)
}

#[test]
fn a_requirement_covers_another_or_does_not(rt: HostRuntime) -> Result<(), Fail> {
    let alloc = rt.alloc();
    for (at, (a, b, map)) in COVER.iter().enumerate() {
        let found = covers(alloc, &req_of(&rt, alloc, a)?, &req_of(&rt, alloc, b)?)?;
        let found = found.as_ref().map(|places| places.as_slice());
        assert_eq!(&rt; found, *map, "at {at}");
    }
    Ok(())
}

#[test]
fn a_set_meets_a_user_requirement_or_does_not(rt: HostRuntime) -> Result<(), Fail> {
    let alloc = rt.alloc();
    for (at, (user, roles, want)) in MEETS.iter().enumerate() {
        let req = req_of(&rt, alloc, &[*user])?;
        for user in req.users() {
            assert_eq!(&rt; meets(user, &set_of(&rt, roles)), *want, "at {at}");
        }
    }
    Ok(())
}

#[test]
fn profiles_serve_a_requirement_or_users_are_apart(rt: HostRuntime) -> Result<(), Fail> {
    let alloc = rt.alloc();
    for (at, (users, rows, served, list)) in MET.iter().enumerate() {
        let mut profiles = Vec::new(alloc);
        for (roles, most) in *rows {
            profiles.push(Profile {
                set: set_of(&rt, roles),
                most: *most,
            })?;
        }
        match met(alloc, &req_of(&rt, alloc, users)?, &profiles)? {
            Met::Choice(choice) => assert!(&rt; *served && choice.as_slice() == *list, "at {at}"),
            Met::Apart(apart) => assert!(&rt; !*served && apart.as_slice() == *list, "at {at}"),
        }
    }
    Ok(())
}

fn user_of(rt: &impl Abort, alloc: Global, user: &User) -> Result<UserReq, Fail> {
    let user = normal_user(alloc, &raw_user(rt, alloc, user)?)?;
    Ok(user.ok_or("impossible")?)
}

/// The requirement of one user.
fn alone(alloc: Global, user: UserReq) -> Result<Req, AllocError> {
    // It is in normal form.
    user.hits();
    Ok(Req::of(vec![in alloc; user]?))
}

fn user_text(alloc: Global, user: Option<UserReq>) -> Result<String, AllocError> {
    match user {
        Some(user) => text_of(alloc, &alone(alloc, user)?),
        None => String::from_str(alloc, "impossible"),
    }
}

fn compared(alloc: Global, a: &UserReq, b: &UserReq) -> Result<String, AllocError> {
    let mut text = String::new(alloc);
    for (is, word) in [
        (covers_user(a, b), " covers"),
        (a.precedes(b), " before"),
        (a.is_same(b), " same"),
    ] {
        if is {
            text.push_str(word)?;
        }
    }
    Ok(text)
}

#[test]
fn a_user_requirement_gains_a_hit_and_is_compared(rt: HostRuntime) -> Result<(), Fail> {
    let alloc = rt.alloc();
    for (at, (user, roles, text)) in MORE.iter().enumerate() {
        let user = user_of(&rt, alloc, user)?;
        let more = with_hit(alloc, &user, &set_of(&rt, roles))?;
        assert_eq!(&rt; user_text(alloc, more)?.as_str(), *text, "at {at}");
    }
    for (at, (a, b, words)) in COMPARED.iter().enumerate() {
        let a = user_of(&rt, alloc, a)?;
        let b = user_of(&rt, alloc, b)?;
        assert_eq!(&rt; compared(alloc, &a, &b)?.as_str(), *words, "at {at}");
        let copy = a.copy(alloc)?;
        assert!(&rt; copy.is_same(&a), "at {at}");
    }
    Ok(())
}
