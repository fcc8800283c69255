//! Marks of requirements, and which of them a query finds.

use crate::{NeedMark, NeedQuery, UserMark};
use mark_bag::Query;
use role_order::{Order, RoleSet};
use std::alloc::{AllocError, Global};
use std::process::Abort;
use std::test::Fail;

/// What is wanted of a user: hits and lacks.
type User = (&'static [&'static [u16]], &'static [u16]);

/// Role 0 above role 1; roles 2 and 3 alone.
fn order_of(rt: &impl Abort, alloc: Global) -> Result<Order, Fail> {
    let mut names = Vec::new(alloc);
    for name in ["a", "b", "c", "d"] {
        names.push(String::from_str(alloc, name)?)?;
    }
    let mut edges = Vec::new(alloc);
    edges.push((0u16, 1u16))?;
    assert!(rt; names.len() == 4);
    let order = Order::new(alloc, names, edges);
    assert!(rt; order.is_ok());
    match order {
        Ok(order) => Ok(order),
        Err(_) => Err(AllocError.into()),
    }
}

fn set_of(rt: &impl Abort, roles: &[u16]) -> RoleSet {
    let mut set = RoleSet::empty();
    for role in roles {
        assert!(rt; *role < 4);
        set = set.with(*role);
    }
    set
}

fn mark_of(
    rt: &impl Abort,
    alloc: Global,
    order: &Order,
    user: &User,
) -> Result<UserMark, AllocError> {
    let mut hits = Vec::new(alloc);
    for hit in user.0 {
        hits.push(set_of(rt, hit))?;
    }
    Ok(UserMark::of(order, &hits, &set_of(rt, user.1)))
}

fn marks_of(
    rt: &impl Abort,
    alloc: Global,
    order: &Order,
    users: &[User],
) -> Result<Vec<UserMark>, AllocError> {
    let mut marks = Vec::new(alloc);
    for user in users {
        marks.push(mark_of(rt, alloc, order, user)?)?;
    }
    Ok(marks)
}

/// Users, and the roles that the first aims at.
const AIMS: [(User, &[u16]); 6] = [
    ((&[&[0, 1]], &[]), &[1]),
    ((&[&[0]], &[]), &[0, 1]),
    ((&[&[2, 3]], &[]), &[]),
    ((&[&[0, 2]], &[2]), &[0, 1]),
    ((&[&[0, 1], &[3]], &[2]), &[1, 3]),
    ((&[&[2]], &[2]), &[0, 1, 2, 3]),
];

/// Two requirements, and whether the mark of the first fits the query for what covers the second.
const FITS: [(&[User], &[User], bool); 7] = [
    (&[], &[], true),
    (&[(&[&[0, 1]], &[])], &[(&[&[0]], &[])], true),
    (&[(&[&[0]], &[])], &[(&[&[0, 1]], &[])], false),
    (&[(&[], &[]), (&[], &[])], &[(&[], &[])], false),
    (&[(&[], &[2])], &[(&[], &[2, 3])], true),
    (&[(&[], &[2])], &[(&[&[2]], &[3])], false),
    // Each feature is there, but no user has both.
    (&[(&[&[2]], &[3])], &[(&[&[2]], &[]), (&[], &[3])], false),
];

#[test]
fn marks_tell_what_may_cover(rt: HostRuntime) -> Result<(), Fail> {
    let alloc = rt.alloc();
    let order = order_of(&rt, alloc)?;
    for (user, aims) in &AIMS {
        let mark = mark_of(&rt, alloc, &order, user)?;
        assert!(&rt; mark.aims == set_of(&rt, aims));
        let more = mark.and_hit(&order, &set_of(&rt, &[3]));
        assert!(&rt; more.aims == mark.aims.join(&set_of(&rt, &[3])));
    }
    for (users, others, fits) in &FITS {
        let marks = marks_of(&rt, alloc, &order, users)?;
        assert!(&rt; marks.len() <= 2);
        let others = marks_of(&rt, alloc, &order, others)?;
        assert!(&rt; NeedQuery::of(&others).may_fit(&NeedMark::of(&marks)) == *fits);
    }
    Ok(())
}
