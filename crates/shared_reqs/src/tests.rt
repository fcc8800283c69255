//! Tests on small requirements over four roles.

use crate::{MarkedUser, Pool, Seen, SharedReq};
use req_core::{RawUser, Req, UserReq, normal, normal_user};
use role_order::{Order, RoleSet};
use std::alloc::{AllocError, Global};
use std::process::Abort;
use std::sync::Arc;
use std::test::Fail;

/// What is wanted of a user: hits, each by its roles, and lacks.
type User = (&'static [&'static [u16]], &'static [u16]);

/// What is exchanged besides the target.
#[derive(Clone, Copy)]
enum Other {
    None,
    At(usize, User),
    Fresh(User),
}

/// A requirement, the target's place and what is wanted of it, what else is exchanged, and what comes of it.
type ExchangeRow = (&'static [User], usize, User, Other, &'static str);

const TWO: &[User] = &[(&[&[0]], &[]), (&[&[1]], &[])];

const EXCHANGED: [ExchangeRow; 8] = [
    // The users are sorted again, and one of whom nothing is wanted stays.
    (
        TWO,
        0,
        (&[&[2]], &[]),
        Other::None,
        "user hit 1\nuser hit 2\n",
    ),
    (
        TWO,
        1,
        (&[], &[2]),
        Other::None,
        "user lack 2\nuser hit 0\n",
    ),
    (TWO, 1, (&[], &[]), Other::None, "user\nuser hit 0\n"),
    // Equal users both stay.
    (
        TWO,
        1,
        (&[&[0]], &[]),
        Other::None,
        "user hit 0\nuser hit 0\n",
    ),
    (
        TWO,
        0,
        (&[&[3]], &[]),
        Other::At(1, (&[&[1], &[2]], &[])),
        "user hit 1 hit 2\nuser hit 3\n",
    ),
    // The administrator goes in after the target.
    (
        TWO,
        1,
        (&[&[3]], &[]),
        Other::At(1, (&[&[2]], &[])),
        "user hit 0\nuser hit 2\n",
    ),
    (
        TWO,
        1,
        (&[&[0]], &[3]),
        Other::Fresh((&[&[0]], &[2])),
        "user hit 0\nuser hit 0 lack 2\nuser hit 0 lack 3\n",
    ),
    (
        TWO,
        0,
        (&[&[2]], &[]),
        Other::Fresh((&[], &[])),
        "user\nuser hit 1\nuser hit 2\n",
    ),
];

/// Role 0 above role 1; roles 2 and 3 alone.
fn order_of(rt: &impl Abort, alloc: Global) -> Result<Order, Fail> {
    let mut names = Vec::new(alloc);
    for name in ["a", "b", "c", "d"] {
        names.push(String::from_str(alloc, name)?)?;
    }
    let mut edges = Vec::new(alloc);
    edges.push((0u16, 1u16))?;
    assert!(rt; names.len() == 4);
    let order = Order::new(alloc, names, edges);
    assert!(rt; order.is_ok());
    match order {
        Ok(order) => Ok(order),
        Err(_) => Err(AllocError.into()),
    }
}

fn set_of(rt: &impl Abort, roles: &[u16]) -> RoleSet {
    let mut set = RoleSet::empty();
    for role in roles {
        assert!(rt; *role < 4);
        set = set.with(*role);
    }
    set
}

fn raw_user(rt: &impl Abort, alloc: Global, user: &User) -> Result<RawUser, AllocError> {
    let mut hits = Vec::new(alloc);
    for roles in user.0 {
        hits.push(set_of(rt, roles))?;
    }
    Ok(RawUser {
        hits,
        lacks: set_of(rt, user.1),
    })
}

fn user_of(rt: &impl Abort, alloc: Global, user: &User) -> Result<UserReq, Fail> {
    let user = normal_user(alloc, &raw_user(rt, alloc, user)?)?;
    Ok(user.ok_or("impossible")?)
}

fn marked_of(
    rt: &impl Abort,
    alloc: Global,
    order: &Order,
    user: &User,
) -> Result<Arc<MarkedUser>, Fail> {
    let user = user_of(rt, alloc, user)?;
    Ok(Arc::new(alloc, MarkedUser::new(order, user))?)
}

fn shared_of(
    rt: &impl Abort,
    alloc: Global,
    order: &Order,
    users: &[User],
) -> Result<SharedReq, Fail> {
    let mut raw = Vec::new(alloc);
    for user in users {
        raw.push(raw_user(rt, alloc, user)?)?;
    }
    let form = normal(alloc, &raw)?.ok_or("impossible")?;
    Ok(SharedReq::of(alloc, order, &form.req)?)
}

fn put_set(alloc: Global, text: &mut String, word: &str, set: &RoleSet) -> Result<(), AllocError> {
    text.push_str(word)?;
    for role in set.roles() {
        text.push_str(format!(in alloc; " {role}")?.as_str())?;
    }
    Ok(())
}

/// A line for each user.
fn text_of(alloc: Global, req: &Req) -> Result<String, AllocError> {
    let mut text = String::new(alloc);
    for user in req.users() {
        text.push_str("user")?;
        for hit in user.hits() {
            put_set(alloc, &mut text, " hit", hit)?;
        }
        if !user.lacks().is_empty() {
            put_set(alloc, &mut text, " lack", user.lacks())?;
        }
        text.push_str("\n")?;
    }
    Ok(text)
}

fn exchanged(
    rt: &impl Abort,
    alloc: Global,
    order: &Order,
    row: &ExchangeRow,
) -> Result<SharedReq, Fail> {
    let (users, target, before, other, _) = row;
    let shared = shared_of(rt, alloc, order, users)?;
    let before = marked_of(rt, alloc, order, before)?;
    assert!(rt; *target < shared.users().len());
    match other {
        Other::None => Ok(shared.exchanged(alloc, *target, &before)?),
        Other::At(place, admin) => {
            let admin = marked_of(rt, alloc, order, admin)?;
            assert!(rt; *place < shared.users().len());
            Ok(shared.exchanged_both(alloc, *target, &before, *place, &admin)?)
        }
        Other::Fresh(fresh) => {
            let fresh = marked_of(rt, alloc, order, fresh)?;
            Ok(shared.exchanged_and(alloc, *target, &before, &fresh)?)
        }
    }
}

#[test]
fn a_requirement_has_users_exchanged(rt: HostRuntime) -> Result<(), Fail> {
    let alloc = rt.alloc();
    let order = order_of(&rt, alloc)?;
    for (at, row) in EXCHANGED.iter().enumerate() {
        let made = exchanged(&rt, alloc, &order, row)?;
        let text = text_of(alloc, &made.to_req(alloc)?)?;
        assert_eq!(&rt; text.as_str(), row.4, "at {at}");
    }
    Ok(())
}

/// Two requirements in order, of which the second comes after the first.
const ORDERED: [(&[User], &[User]); 4] = [
    (&[], &[(&[], &[])]),
    (&[(&[&[3]], &[])], TWO),
    (&[(&[&[0]], &[]), (&[&[0]], &[2])], TWO),
    (TWO, &[(&[&[0]], &[]), (&[&[1]], &[2])]),
];

#[test]
fn requirements_are_the_same_or_one_comes_first(rt: HostRuntime) -> Result<(), Fail> {
    let alloc = rt.alloc();
    let order = order_of(&rt, alloc)?;
    for (at, (first, second)) in ORDERED.iter().enumerate() {
        let first = shared_of(&rt, alloc, &order, first)?;
        let second = shared_of(&rt, alloc, &order, second)?;
        assert!(&rt; first.is_same(&first) && !first.is_same(&second), "at {at}");
        assert!(&rt;
            first.precedes(&second) && !second.precedes(&first),
            "at {at}"
        );
        assert!(&rt; !first.precedes(&first), "at {at}");
    }
    Ok(())
}

#[test]
fn users_are_marked(rt: HostRuntime) -> Result<(), Fail> {
    let alloc = rt.alloc();
    let order = order_of(&rt, alloc)?;
    let shared = shared_of(&rt, alloc, &order, &[(&[&[0, 1]], &[2])])?;
    let marks = shared.marks(alloc)?;
    assert_eq!(&rt; marks.len(), 1);
    assert!(&rt; marks[0].aims == set_of(&rt, &[1]) && marks[0].lacks == set_of(&rt, &[2]));
    Ok(())
}

#[test]
fn a_pool_shares_what_is_wanted_again(rt: HostRuntime) -> Result<(), Fail> {
    let alloc = rt.alloc();
    let order = order_of(&rt, alloc)?;
    let mut pool = Pool::new(alloc);
    let first = pool.share(alloc, &order, user_of(&rt, alloc, &(&[&[0], &[2]], &[]))?)?;
    let other = pool.share(alloc, &order, user_of(&rt, alloc, &(&[&[0], &[2]], &[1]))?)?;
    let again = pool.share(alloc, &order, user_of(&rt, alloc, &(&[&[2], &[0]], &[]))?)?;
    // The pool's own counts too.
    assert_eq!(&rt; Arc::strong_count(&first), 3);
    assert_eq!(&rt; Arc::strong_count(&again), 3);
    assert_eq!(&rt; Arc::strong_count(&other), 2);
    Ok(())
}

#[test]
fn a_requirement_was_seen_or_not(rt: HostRuntime) -> Result<(), Fail> {
    let alloc = rt.alloc();
    let order = order_of(&rt, alloc)?;
    let mut seen = Seen::new(alloc);
    for (at, row) in EXCHANGED.iter().enumerate() {
        let made = exchanged(&rt, alloc, &order, row)?;
        assert!(&rt; !seen.has(&made), "at {at}");
        seen.add(Arc::new(alloc, made)?)?;
        assert!(&rt; seen.has(&exchanged(&rt, alloc, &order, row)?), "at {at}");
    }
    Ok(())
}
