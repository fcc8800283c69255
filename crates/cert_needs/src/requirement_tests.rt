//! Requirements over four roles: cover, normal forms, and profiles that serve them.

use crate::{NeedUser, Wanted, covers, has_form, is_possible, serving};
use arbac_policy::Profile;
use role_order::RoleSet;
use std::alloc::{AllocError, Global};
use std::process::Abort;
use std::test::Fail;

/// What is wanted of a user: hits, each by its roles, and lacks.
type User = (&'static [&'static [u16]], &'static [u16]);

/// The same, and before it the administrator's hit, where the user administers.
type Raw = (Option<&'static [u16]>, User);

/// Users, what is wanted of others, and whether the users cover it.
type CoverRow = (&'static [User], &'static [Raw], bool);

/// Who has role 0.
const HAS_0: User = (&[&[0]], &[]);
/// Who has role 1.
const HAS_1: User = (&[&[1]], &[]);

const COVER: [CoverRow; 11] = [
    (&[], &[], true),
    // Two users aren't one, be it that of one of them nothing is wanted.
    (&[(&[], &[]), HAS_0], &[(None, HAS_0)], false),
    (&[(&[], &[]), HAS_0], &[(None, HAS_0), (None, HAS_0)], true),
    // The first takes the partner that the third needs, and is given another.
    (
        &[(&[&[0, 1]], &[]), HAS_0, HAS_0],
        &[
            (None, HAS_0),
            (None, HAS_1),
            (None, HAS_0),
            (None, (&[], &[])),
        ],
        true,
    ),
    // Three have two partners together.
    (
        &[HAS_0, HAS_0, HAS_0],
        &[(None, HAS_0), (None, HAS_1), (None, HAS_0), (None, HAS_1)],
        false,
    ),
    // A wider hit covers, and a lesser one doesn't.
    (&[(&[&[0, 1]], &[])], &[(None, HAS_0)], true),
    (&[HAS_0], &[(None, (&[&[0, 1]], &[]))], false),
    // The other's lacks leave its hits.
    (&[HAS_0], &[(None, (&[&[0, 1]], &[1]))], true),
    // Fewer lacks cover.
    (&[(&[], &[2])], &[(None, (&[], &[2, 3]))], true),
    (&[(&[], &[2, 3])], &[(None, (&[], &[2]))], false),
    // The administrator's hit is one of the hits.
    (&[(&[&[0], &[1]], &[])], &[(Some(&[1]), HAS_0)], true),
];

/// What is wanted, whether it is possible, users, and whether these are its normal form.
type FormRow = (&'static [Raw], bool, &'static [User], bool);

const FORM: [FormRow; 8] = [
    (&[], true, &[], true),
    // A hit within its lacks is impossible, the administrator's too.
    (
        &[(None, (&[&[0]], &[0, 1]))],
        false,
        &[(&[], &[0, 1])],
        false,
    ),
    (
        &[(Some(&[1]), (&[&[0]], &[1]))],
        false,
        &[(&[&[0]], &[1])],
        false,
    ),
    // Lacks are taken out of hits, hits that contain another go, and equal ones stand once, in order.
    (
        &[(Some(&[3]), (&[&[1, 2], &[0], &[0, 3], &[3]], &[2]))],
        true,
        &[(&[&[0], &[1], &[3]], &[2])],
        true,
    ),
    (
        &[(None, (&[&[1], &[0]], &[]))],
        true,
        &[(&[&[1], &[0]], &[])],
        false,
    ),
    // Users are sorted by their hits and then by their lacks, and equal ones stay.
    (
        &[
            (None, HAS_1),
            (None, (&[&[0]], &[3])),
            (None, HAS_0),
            (None, HAS_1),
        ],
        true,
        &[HAS_0, (&[&[0]], &[3]), HAS_1, HAS_1],
        true,
    ),
    (
        &[(None, HAS_0), (None, HAS_1)],
        true,
        &[HAS_1, HAS_0],
        false,
    ),
    (&[(None, HAS_0), (None, HAS_0)], true, &[HAS_0], false),
];

/// Users, profiles with their counts, and the least choice that serves the users.
type ServingRow = (
    &'static [User],
    &'static [(&'static [u16], Option<u32>)],
    Option<&'static [u32]>,
);

const SERVING: [ServingRow; 7] = [
    (&[], &[], Some(&[])),
    (
        &[HAS_0, HAS_0, HAS_1],
        &[(&[0, 1], Some(1)), (&[0], Some(2))],
        Some(&[1, 1, 0]),
    ),
    (
        &[HAS_0, HAS_0],
        &[(&[1], None), (&[0], None)],
        Some(&[1, 1]),
    ),
    // No user is drawn of a profile with the count 0.
    (&[HAS_0], &[(&[0], Some(0))], None),
    (&[HAS_0], &[(&[0], Some(0)), (&[0, 1], Some(1))], Some(&[1])),
    // One user doesn't serve two.
    (&[HAS_0, HAS_0], &[(&[0], Some(1)), (&[1], None)], None),
    // Lacks keep a profile away.
    (&[(&[], &[1])], &[(&[0, 1], None)], None),
];

fn set_of(rt: &impl Abort, roles: &[u16]) -> RoleSet {
    let mut set = RoleSet::empty();
    for role in roles {
        assert!(rt; *role < 4);
        set = set.with(*role);
    }
    set
}

fn user_of(rt: &impl Abort, alloc: Global, user: &User) -> Result<NeedUser, AllocError> {
    let mut hits = Vec::new(alloc);
    for roles in user.0 {
        hits.push(set_of(rt, roles))?;
    }
    Ok(NeedUser {
        hits,
        lacks: set_of(rt, user.1),
    })
}

fn users_of(rt: &impl Abort, alloc: Global, rows: &[User]) -> Result<Vec<NeedUser>, AllocError> {
    let mut users = Vec::new(alloc);
    for row in rows {
        users.push(user_of(rt, alloc, row)?)?;
    }
    Ok(users)
}

/// The users without those who administer.
fn bare_of(rt: &impl Abort, alloc: Global, rows: &[Raw]) -> Result<Vec<NeedUser>, AllocError> {
    let mut users = Vec::new(alloc);
    for row in rows {
        users.push(user_of(rt, alloc, &row.1)?)?;
    }
    Ok(users)
}

/// What is wanted of the users, some of whom administer.
fn wanted_of<'a>(
    rt: &impl Abort,
    alloc: Global,
    users: &'a [NeedUser],
    rows: &[Raw],
) -> Result<Vec<Wanted<'a>>, AllocError> {
    let mut wanted = Vec::new(alloc);
    for (at, user) in users.iter().enumerate() {
        let admin = match rows.get(at) {
            Some((Some(roles), _)) => Some(set_of(rt, roles)),
            _ => None,
        };
        let user = Wanted {
            hits: &user.hits,
            admin,
            lacks: user.lacks,
        };
        wanted.extend_from_slice(&[user])?;
    }
    Ok(wanted)
}

fn profiles_of(
    rt: &impl Abort,
    alloc: Global,
    rows: &[(&'static [u16], Option<u32>)],
) -> Result<Vec<Profile>, AllocError> {
    let mut profiles = Vec::new(alloc);
    for (roles, most) in rows {
        profiles.push(Profile {
            set: set_of(rt, roles),
            most: *most,
        })?;
    }
    Ok(profiles)
}

fn check_cover(rt: &impl Abort, alloc: Global) -> Result<(), Fail> {
    for (at, (users, others, covered)) in COVER.iter().enumerate() {
        let bare = bare_of(rt, alloc, others)?;
        let wanted = wanted_of(rt, alloc, &bare, others)?;
        let found = covers(alloc, &users_of(rt, alloc, users)?, &wanted)?;
        assert_eq!(rt; found, *covered, "cover {at}");
    }
    Ok(())
}

fn check_forms(rt: &impl Abort, alloc: Global) -> Result<(), Fail> {
    for (at, (raw, possible, form, same)) in FORM.iter().enumerate() {
        let bare = bare_of(rt, alloc, raw)?;
        let wanted = wanted_of(rt, alloc, &bare, raw)?;
        assert_eq!(rt; is_possible(&wanted), *possible, "possible {at}");
        let found = has_form(alloc, &wanted, &users_of(rt, alloc, form)?)?;
        assert_eq!(rt; found, *same, "form {at}");
    }
    Ok(())
}

fn check_serving(rt: &impl Abort, alloc: Global) -> Result<(), Fail> {
    for (at, (users, profiles, choice)) in SERVING.iter().enumerate() {
        let profiles = profiles_of(rt, alloc, profiles)?;
        let found = serving(alloc, &users_of(rt, alloc, users)?, &profiles)?;
        let found = found.as_ref().map(|choice| choice.as_slice());
        assert_eq!(rt; found, *choice, "serving {at}");
    }
    Ok(())
}

#[test]
fn worked_requirements(rt: HostRuntime) -> Result<(), Fail> {
    check_cover(&rt, rt.alloc())?;
    check_forms(&rt, rt.alloc())?;
    check_serving(&rt, rt.alloc())
}
