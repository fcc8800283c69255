//! Policies, and the truth of conditions.
ghost use Rattle.std.specs.Prelude.{◌≡◌, IfOk, length};
ghost use Rattle.arbac_policy.specs.Truth.{term_of, IsKnown, both, either};

use crate::{CanAssign, CanRevoke, Cond, On, Policy, holds, holds_perm, is_member, is_true};
use role_order::{Order, Range, RoleSet};
use sqlite_items::Boxed;
use std::alloc::{AllocError, Global};
use std::process::Abort;
use std::test::Fail;

/// How many numbers stand in the parts of the policies that the test makes.
const NUMBERS: usize = 18;

/// A set, two roles x and y, and whether `x`, `not y`, `x and not y` and `x or not y` are true of it.
type Row = (&'static [u16], u16, u16, [bool; 4], [bool; 4]);

/// For a user and for a permission; 0 is above 1 and 2, these are above 3, and 4 stands alone.
const TRUTHS: [Row; 7] = [
    (
        &[],
        4,
        4,
        [false, true, false, true],
        [false, true, false, true],
    ),
    (
        &[0],
        3,
        1,
        [true, false, false, true],
        [false, true, false, true],
    ),
    (
        &[1],
        3,
        2,
        [true, true, true, true],
        [false, true, false, true],
    ),
    (
        &[3],
        0,
        3,
        [false, false, false, false],
        [true, false, false, true],
    ),
    (
        &[3],
        1,
        2,
        [false, true, false, true],
        [true, false, false, true],
    ),
    (
        &[1, 2],
        4,
        0,
        [false, true, false, true],
        [false, false, false, false],
    ),
    (
        &[2, 4],
        4,
        1,
        [true, true, true, true],
        [true, true, true, true],
    ),
];

/// The order of five roles that the table speaks of.
fn diamond(rt: &impl Abort, alloc: Global) -> Result<Order, Fail> {
    let mut names = Vec::new(alloc);
    for role in 0..5u16 {
        names.push(format!(in alloc; "r{role}")?)?;
    }
    let edges = vec![in alloc; (0, 1), (0, 2), (1, 3), (2, 3)]?;
    assert!(rt; names.len() < 1_000 && edges.len() < 1_000);
    Ok(Order::new(alloc, names, edges)?)
}

fn range(low: u16, high: u16) -> Range {
    Range {
        low,
        high,
        low_open: false,
        high_open: true,
    }
}

/// The condition `has and (any or not lacks)`.
fn condition(alloc: Global, has: u16, lacks: u16) -> Result<Cond, AllocError> {
    let other = Cond::Or(
        Boxed::new(alloc, Cond::Any)?,
        Boxed::new(alloc, Cond::Lacks(lacks))?,
    );
    Ok(Cond::And(
        Boxed::new(alloc, Cond::Has(has))?,
        Boxed::new(alloc, other)?,
    ))
}

#[test]
fn a_policy_names_roles_alone(rt: HostRuntime) -> Result<(), Fail> {
    let alloc = rt.alloc();
    for place in 0..=NUMBERS {
        let mut roles = [4; NUMBERS];
        if place < NUMBERS {
            roles[place] = 5;
        }
        let assign = CanAssign {
            admin: roles[0],
            cond: condition(alloc, roles[1], roles[2])?,
            range: range(roles[3], roles[4]),
        };
        let revoke = CanRevoke {
            admin: roles[5],
            range: range(roles[6], roles[7]),
        };
        let assignp = CanAssign {
            admin: roles[8],
            cond: condition(alloc, roles[9], roles[10])?,
            range: range(roles[11], roles[12]),
        };
        let revokep = CanRevoke {
            admin: roles[13],
            range: range(roles[14], roles[15]),
        };
        let policy = Policy::new(
            diamond(&rt, alloc)?,
            vec![in alloc; assign]?,
            vec![in alloc; revoke]?,
            vec![in alloc; assignp]?,
            vec![in alloc; revokep]?,
            vec![in alloc; (roles[16], roles[17])]?,
        );
        assert_eq!(rt; policy.is_some(), place == NUMBERS, "at {place}");
    }
    Ok(())
}

#[test]
fn a_policy_keeps_its_parts(rt: HostRuntime) -> Result<(), Fail> {
    let alloc = rt.alloc();
    let assign = CanAssign {
        admin: 1,
        cond: Cond::Any,
        range: range(3, 0),
    };
    let revokep = CanRevoke {
        admin: 2,
        range: range(4, 4),
    };
    let policy = Policy::new(
        diamond(&rt, alloc)?,
        vec![in alloc; assign]?,
        Vec::new(alloc),
        Vec::new(alloc),
        vec![in alloc; revokep]?,
        vec![in alloc; (1, 4)]?,
    );
    let policy = policy.ok_or("no policy")?;
    assert_eq!(rt; policy.order().count(), 5);
    assert!(rt; policy.assign().iter().all(|rule| rule.admin == 1) && policy.assign().len() == 1);
    assert!(rt; policy.revoke().is_empty() && policy.assignp().is_empty());
    assert_eq!(rt; policy.revokep(), [revokep].as_slice());
    assert_eq!(rt; policy.exclusive(), [(1, 4)].as_slice());
    Ok(())
}

fn and_of(alloc: Global, left: Cond, right: Cond) -> Result<Cond, AllocError>
    ensures { IfOk result (λ cond. term_of cond ≡ both (term_of left) (term_of right)) }
{
    Ok(Cond::And(Boxed::new(alloc, left)?, Boxed::new(alloc, right)?))
}

fn or_of(alloc: Global, left: Cond, right: Cond) -> Result<Cond, AllocError>
    ensures { IfOk result (λ cond. term_of cond ≡ either (term_of left) (term_of right)) }
{
    Ok(Cond::Or(Boxed::new(alloc, left)?, Boxed::new(alloc, right)?))
}

/// Asserts what a condition is of a user and of a permission with the set.
fn assert_truths(
    rt: &impl Abort,
    order: &Order,
    set: &RoleSet,
    cond: &Cond,
    wanted: (bool, bool),
    at: usize,
)
    requires { IsKnown (length order.now.names) (term_of cond.now) }
{
    let of_user = holds(order, cond, set);
    let of_permission = holds_perm(order, cond, set);
    assert_eq!(rt; (of_user, of_permission), wanted, "at {at}");
    assert_eq!(rt; is_true(On::User, order, cond, set), of_user);
    assert_eq!(rt; is_true(On::Permission, order, cond, set), of_permission);
}

fn assert_row(
    rt: &impl Abort,
    alloc: Global,
    order: &Order,
    row: &Row,
    at: usize,
) -> Result<(), AllocError> {
    let (roles, x, y, user, permission) = row;
    let mut set = RoleSet::empty();
    for role in *roles {
        assert!(rt; *role < 5);
        set = set.with(*role);
    }
    let (x, y) = (*x, *y);
    assert!(rt; x < order.count() && y < order.count());
    assert_eq!(rt; is_member(order, &set, x), user[0]);
    assert_truths(rt, order, &set, &Cond::Has(x), (user[0], permission[0]), at);
    assert_truths(
        rt,
        order,
        &set,
        &Cond::Lacks(y),
        (user[1], permission[1]),
        at,
    );
    let cond = and_of(alloc, Cond::Has(x), Cond::Lacks(y))?;
    assert_truths(rt, order, &set, &cond, (user[2], permission[2]), at);
    let cond = or_of(alloc, Cond::Has(x), Cond::Lacks(y))?;
    assert_truths(rt, order, &set, &cond, (user[3], permission[3]), at);
    assert_truths(rt, order, &set, &Cond::Any, (true, true), at);
    Ok(())
}

#[test]
fn a_condition_is_true_by_membership(rt: HostRuntime) -> Result<(), Fail> {
    let alloc = rt.alloc();
    let order = diamond(&rt, alloc)?;
    for (at, row) in TRUTHS.iter().enumerate() {
        assert_row(&rt, alloc, &order, row, at)?;
    }
    Ok(())
}
