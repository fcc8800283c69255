//! Tests of the index on small requirements.

ghost use Rattle.std.specs.Prelude.{◌≡◌, ◌∷◌, [], IfOk};
ghost use Rattle.shared_reqs.specs.Shared.{AreOwnMarks, needs_marked};

use crate::{Index, NoMemory, SharedReq};
use req_core::{RawUser, Req, normal};
use role_order::{Order, RoleSet};
use std::alloc::{AllocError, Global};
use std::process::Abort;
use std::sync::Arc;
use std::test::Fail;

/// What is wanted of a user: hits, each by its roles, and lacks.
type User = (&'static [&'static [u16]], &'static [u16]);

/// A user with one hit.
const HAS_0: User = (&[&[0]], &[]);

const HAS_1: User = (&[&[1]], &[]);

const HAS_2: User = (&[&[2]], &[]);

const HAS_0_OR_1: User = (&[&[0, 1]], &[]);

/// The users of a requirement, and how often they are repeated.
type Users = (&'static [User], usize);

/// More than a row has bits.
const MANY: usize = 129;

/// Three requirements of an index, and which of them are beaten.
type BeatenRow = ([Users; 3], [bool; 3]);

const BEATEN: [BeatenRow; 5] = [
    (
        [(&[HAS_0], 1), (&[HAS_0_OR_1], 1), (&[HAS_2], 1)],
        [true, false, false],
    ),
    // Of two that are the same the later one is.
    (
        [(&[HAS_0], MANY), (&[HAS_2], 1), (&[HAS_0], MANY)],
        [false, false, true],
    ),
    // Two users cover neither one nor two of whom both cover the same one.
    (
        [(&[HAS_0_OR_1], 2), (&[HAS_1], 1), (&[HAS_0, HAS_2], 1)],
        [false, false, false],
    ),
    (
        [
            (&[HAS_0_OR_1], 2),
            (&[HAS_1, HAS_2], 1),
            (&[HAS_0, HAS_1], 1),
        ],
        [false, false, true],
    ),
    (
        [(&[HAS_0], MANY), (&[HAS_2], MANY), (&[HAS_2], 2)],
        [false, true, false],
    ),
];

/// The requirements of an index.
const MEMBERS: [Users; 3] = [(&[HAS_0], 2), (&[HAS_0_OR_1], 2), (&[HAS_2], 1)];

/// A requirement, and whether the index covers it.
const COVERED: [(Users, bool); 8] = [
    ((&[], 1), false),
    ((&[HAS_0], 1), false),
    ((&[HAS_0, HAS_1], 1), true),
    ((&[HAS_0, HAS_2], 1), true),
    ((&[(&[&[0], &[2]], &[3])], 1), true),
    ((&[(&[&[0]], &[3]), (&[], &[])], 1), false),
    ((&[HAS_1], MANY), true),
    ((&[(&[&[3]], &[])], MANY), false),
];

/// Role 0 above role 3; roles 1 and 2 alone.
fn order_of(rt: &impl Abort, alloc: Global) -> Result<Order, Fail> {
    let mut names = Vec::new(alloc);
    for name in ["a", "b", "c", "d"] {
        names.push(String::from_str(alloc, name)?)?;
    }
    let mut edges = Vec::new(alloc);
    edges.push((0u16, 3u16))?;
    assert!(rt; names.len() == 4);
    let order = Order::new(alloc, names, edges);
    Ok(order.ok().ok_or("no order")?)
}

fn set_of(rt: &impl Abort, roles: &[u16]) -> RoleSet {
    let mut set = RoleSet::empty();
    for role in roles {
        assert!(rt; *role < 4);
        set = set.with(*role);
    }
    set
}

fn raw_user(rt: &impl Abort, alloc: Global, user: &User) -> Result<RawUser, AllocError> {
    let mut hits = Vec::new(alloc);
    for roles in user.0 {
        hits.push(set_of(rt, roles))?;
    }
    Ok(RawUser {
        hits,
        lacks: set_of(rt, user.1),
    })
}

fn put_users(
    rt: &impl Abort,
    alloc: Global,
    raw: &mut Vec<RawUser>,
    users: &[User],
) -> Result<(), AllocError> {
    for user in users {
        raw.push(raw_user(rt, alloc, user)?)?;
    }
    Ok(())
}

fn raw_of(rt: &impl Abort, alloc: Global, users: &Users) -> Result<Vec<RawUser>, AllocError> {
    let mut raw = Vec::new(alloc);
    for _ in 0..users.1 {
        put_users(rt, alloc, &mut raw, users.0)?;
    }
    Ok(raw)
}

/// The requirement in normal form.
fn req_of(rt: &impl Abort, alloc: Global, users: &Users) -> Result<Req, Fail> {
    let raw = raw_of(rt, alloc, users)?;
    let form = normal(alloc, &raw)?;
    Ok(form.ok_or("impossible")?.req)
}

fn shared(
    rt: &impl Abort,
    alloc: Global,
    order: &Order,
    users: &Users,
) -> Result<Arc<SharedReq>, Fail>
    ensures { IfOk result (λ req. AreOwnMarks order.now req.value) }
{
    let req = req_of(rt, alloc, users)?;
    let req = SharedReq::of(alloc, order, &req)?;
    Ok(Arc::new(alloc, req)?)
}

/// The index of three requirements.
fn index_of<'a>(
    alloc: Global,
    order: &'a Order,
    a: &Arc<SharedReq>,
    b: &Arc<SharedReq>,
    c: &Arc<SharedReq>,
) -> Result<Index<'a>, NoMemory>
    requires a { AreOwnMarks order.now a.now.value }
    requires b { AreOwnMarks order.now b.now.value }
    requires c { AreOwnMarks order.now c.now.value }
    ensures order { IfOk result (λ index. index.order ≡ order.now) }
    ensures members { IfOk result (λ index. index.members ≡ needs_marked a.now.value ∷ needs_marked b.now.value ∷ needs_marked c.now.value ∷ []) }
{
    let mut index = Index::new(alloc, order);
    index.add(alloc, a.clone()?)?;
    index.add(alloc, b.clone()?)?;
    index.add(alloc, c.clone()?)?;
    Ok(index)
}

/// Which of three requirements of an index are beaten.
fn are_beaten(
    alloc: Global,
    order: &Order,
    a: &Arc<SharedReq>,
    b: &Arc<SharedReq>,
    c: &Arc<SharedReq>,
) -> Result<[bool; 3], NoMemory>
    requires a { AreOwnMarks order.now a.now.value }
    requires b { AreOwnMarks order.now b.now.value }
    requires c { AreOwnMarks order.now c.now.value }
{
    let index = index_of(alloc, order, a, b, c)?;
    Ok([
        index.is_beaten(alloc, 0, a)?,
        index.is_beaten(alloc, 1, b)?,
        index.is_beaten(alloc, 2, c)?,
    ])
}

fn beaten_of(
    rt: &impl Abort,
    alloc: Global,
    order: &Order,
    members: &[Users; 3],
) -> Result<[bool; 3], Fail> {
    let a = shared(rt, alloc, order, &members[0])?;
    let b = shared(rt, alloc, order, &members[1])?;
    let c = shared(rt, alloc, order, &members[2])?;
    Ok(are_beaten(alloc, order, &a, &b, &c)?)
}

#[test]
fn members_of_an_index_are_beaten_or_not(rt: HostRuntime) -> Result<(), Fail> {
    let alloc = rt.alloc();
    let order = order_of(&rt, alloc)?;
    for (row, (members, beaten)) in BEATEN.iter().enumerate() {
        assert!(&rt;
            beaten_of(&rt, alloc, &order, members)? == *beaten,
            "at {row}"
        );
    }
    Ok(())
}

fn add(rt: &impl Abort, alloc: Global, index: &mut Index, users: &Users) -> Result<(), Fail> {
    let req = shared(rt, alloc, index.order(), users)?;
    Ok(index.add(alloc, req)?)
}

fn members<'a>(rt: &impl Abort, alloc: Global, order: &'a Order) -> Result<Index<'a>, Fail> {
    let mut index = Index::new(alloc, order);
    for users in &MEMBERS {
        add(rt, alloc, &mut index, users)?;
    }
    Ok(index)
}

fn is_covered(rt: &impl Abort, alloc: Global, index: &Index, users: &Users) -> Result<bool, Fail> {
    let req = shared(rt, alloc, index.order(), users)?;
    Ok(index.is_covered(alloc, &req)?)
}

#[test]
fn an_index_covers_a_requirement_or_not(rt: HostRuntime) -> Result<(), Fail> {
    let alloc = rt.alloc();
    let order = order_of(&rt, alloc)?;
    let index = members(&rt, alloc, &order)?;
    for (row, (users, covered)) in COVERED.iter().enumerate() {
        assert!(&rt;
            is_covered(&rt, alloc, &index, users)? == *covered,
            "at {row}"
        );
    }
    Ok(())
}
