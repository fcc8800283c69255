//! Verdicts on acts on users.
use crate::{Part, Side, Verdict, decide};
use arbac_policy::ActKind::{Assign, Strong, Weak};
use arbac_policy::{Act, ActKind, CanAssign, CanRevoke, Cond, Policy};
use role_order::{Order, Range, RoleSet};
use std::alloc::{AllocError, Global};
use std::process::Abort;
use std::test::Fail;

/// An act's kind, administrator, target and role, and the target's new set.
type Granted = (ActKind, u32, u32, u16, &'static [u16]);

/// The same of an act, and the part that fails.
type Denied = (ActKind, u32, u32, u16, Part);

const NAMES: [&str; 7] = ["DSO", "PSO1", "PL1", "PE1", "QE1", "E1", "ED"];

const EDGES: [(u16, u16); 6] = [(0, 1), (2, 3), (2, 4), (3, 5), (4, 5), (5, 6)];

/// E1 up to below PL1.
const ENGINEERS: Range = Range {
    low: 5,
    high: 2,
    low_open: false,
    high_open: true,
};

/// PSO1 up to DSO.
const OFFICERS: Range = Range {
    low: 1,
    high: 0,
    low_open: false,
    high_open: false,
};

const USERS: [&[u16]; 9] = [
    &[0],
    &[1],
    &[6],
    &[3],
    &[2, 5],
    &[3, 5],
    &[3, 4],
    &[],
    &[0, 1],
];

const GRANTED: [Granted; 7] = [
    (Assign, 0, 2, 5, &[5, 6]),
    (Assign, 1, 6, 4, &[3, 4]),
    (Assign, 0, 4, 2, &[2, 5]),
    (Weak, 1, 5, 5, &[3]),
    (Weak, 0, 2, 5, &[6]),
    (Strong, 1, 5, 5, &[]),
    (Strong, 0, 8, 1, &[]),
];

const NO_ADMIN: Part = Part::NoUser {
    side: Side::Admin,
    place: 9,
};

const NO_TARGET: Part = Part::NoUser {
    side: Side::Target,
    place: 9,
};

const DENIED: [Denied; 15] = [
    (Assign, 1, 7, 5, Part::NoCondition { role: 5, rule: 0 }),
    (Assign, 0, 2, 2, Part::NoCondition { role: 2, rule: 1 }),
    (Assign, 1, 3, 4, Part::Exclusive { role: 4, pair: 0 }),
    (Assign, 0, 3, 2, Part::Exclusive { role: 2, pair: 0 }),
    (Assign, 2, 7, 5, Part::NoAdmin { role: 5, rule: 0 }),
    (Assign, 1, 3, 2, Part::NoAdmin { role: 2, rule: 1 }),
    (Assign, 1, 7, 6, Part::NoRange { role: 6 }),
    (Assign, 1, 7, 7, Part::NoRole { role: 7 }),
    (Assign, 9, 9, 5, NO_ADMIN),
    (Assign, 1, 9, 5, NO_TARGET),
    (Weak, 2, 5, 5, Part::NoAdmin { role: 5, rule: 0 }),
    (Weak, 0, 4, 2, Part::NoRange { role: 2 }),
    (Strong, 1, 4, 5, Part::NoRange { role: 2 }),
    (Strong, 8, 8, 1, Part::NoAdmin { role: 1, rule: 1 }),
    (Strong, 1, 7, 7, Part::NoRole { role: 7 }),
];

const SEVERAL_USERS: [&[u16]; 11] = [
    &[0],
    &[1],
    &[],
    &[6],
    &[4],
    &[1, 4],
    &[1, 6],
    &[0, 1],
    &[0, 5],
    &[3, 5],
    &[1, 3, 4],
];

/// Where several rules or pairs fit.
const SEVERAL_GRANTED: [Granted; 11] = [
    (Assign, 1, 4, 5, &[4, 5]),
    (Assign, 0, 3, 5, &[5, 6]),
    (Assign, 0, 10, 3, &[1, 3, 4]),
    (Weak, 1, 9, 5, &[3]),
    // Who revokes from himself is judged by what he holds before each weak revocation.
    (Weak, 1, 1, 1, &[]),
    (Strong, 1, 1, 1, &[]),
    (Strong, 7, 7, 0, &[1]),
    (Strong, 7, 7, 1, &[]),
    (Strong, 8, 8, 5, &[0]),
    // Who revokes from another user keeps what he holds.
    (Strong, 0, 7, 1, &[]),
    (Strong, 7, 0, 1, &[]),
];

const SEVERAL_DENIED: [Denied; 14] = [
    // Three rules' ranges have the role, or two.
    (Assign, 2, 2, 5, Part::NoAdmin { role: 5, rule: 0 }),
    (Assign, 2, 2, 3, Part::NoAdmin { role: 3, rule: 0 }),
    // The administrator fits the last two, or all of them.
    (Assign, 1, 3, 5, Part::NoCondition { role: 5, rule: 1 }),
    (Assign, 1, 3, 3, Part::NoCondition { role: 3, rule: 2 }),
    (Assign, 0, 2, 5, Part::NoCondition { role: 5, rule: 0 }),
    (Assign, 0, 2, 3, Part::NoCondition { role: 3, rule: 0 }),
    // Two pairs block, or the last alone; the first never does.
    (Assign, 0, 5, 3, Part::Exclusive { role: 3, pair: 1 }),
    (Assign, 0, 6, 3, Part::Exclusive { role: 3, pair: 2 }),
    (Weak, 2, 9, 5, Part::NoAdmin { role: 5, rule: 0 }),
    (Weak, 1, 9, 3, Part::NoAdmin { role: 3, rule: 0 }),
    (Weak, 2, 1, 1, Part::NoAdmin { role: 1, rule: 2 }),
    // The second weak revocation is refused, for what he has lost by the first.
    (Strong, 0, 0, 1, Part::NoAdmin { role: 1, rule: 2 }),
    (Strong, 8, 8, 1, Part::NoAdmin { role: 1, rule: 2 }),
    // Both weak revocations are refused: the lesser number is told.
    (Strong, 2, 9, 5, Part::NoAdmin { role: 3, rule: 0 }),
];

/// Under 120 roles without edges and no rule.
const UNRULED_DENIED: [Denied; 12] = [
    (Assign, 0, 1, 120, Part::NoRole { role: 120 }),
    (Weak, 0, 1, 120, Part::NoRole { role: 120 }),
    (Strong, 0, 1, 120, Part::NoRole { role: 120 }),
    (Assign, 0, 1, 119, Part::NoRange { role: 119 }),
    (Weak, 0, 1, 119, Part::NoRange { role: 119 }),
    (Strong, 0, 1, 119, Part::NoRange { role: 119 }),
    (Assign, 9, 1, 120, NO_ADMIN),
    (Weak, 9, 1, 120, NO_ADMIN),
    (Strong, 9, 1, 120, NO_ADMIN),
    (Assign, 0, 9, 120, NO_TARGET),
    (Weak, 0, 9, 120, NO_TARGET),
    (Strong, 0, 9, 120, NO_TARGET),
];

const PAIRED_USERS: [&[u16]; 3] = [&[0, 1, 2], &[0], &[0, 1]];

/// Who holds a role keeps it under the pair, and may be given it again.
const PAIRED_GRANTED: [Granted; 2] = [(Assign, 0, 0, 2, &[0, 1, 2]), (Assign, 1, 1, 1, &[0, 1])];

const PAIRED_DENIED: [Denied; 1] = [(Assign, 2, 2, 2, Part::Exclusive { role: 2, pair: 0 })];

fn order_of(
    rt: &impl Abort,
    alloc: Global,
    names: &[&str],
    edges: &[(u16, u16)],
) -> Result<Order, Fail> {
    let mut texts = Vec::new(alloc);
    for name in names {
        texts.push(String::from_str(alloc, name)?)?;
    }
    let edges = Vec::from_slice(alloc, edges)?;
    assert!(rt; texts.len() < 1_000 && edges.len() < 1_000);
    Ok(Order::new(alloc, texts, edges)?)
}

fn gives(admin: u16, cond: Cond, range: Range) -> CanAssign {
    CanAssign { admin, cond, range }
}

fn takes(admin: u16, range: Range) -> CanRevoke {
    CanRevoke { admin, range }
}

/// The role alone.
fn only(role: u16) -> Range {
    Range {
        low: role,
        high: role,
        low_open: false,
        high_open: false,
    }
}

/// A policy without rules on permissions.
fn policy_of(
    rt: &impl Abort,
    alloc: Global,
    order: Order,
    assign: Vec<CanAssign>,
    revoke: Vec<CanRevoke>,
    exclusive: &[(u16, u16)],
) -> Result<Policy, Fail> {
    let pairs = Vec::from_slice(alloc, exclusive)?;
    assert!(rt; assign.len() < 1_000 && revoke.len() < 1_000 && pairs.len() < 1_000);
    let policy = Policy::new(
        order,
        assign,
        revoke,
        Vec::new(alloc),
        Vec::new(alloc),
        pairs,
    );
    Ok(policy.ok_or("no policy")?)
}

/// PSO1 gives and takes E1 up to below PL1, DSO gives PL1 and takes PSO1 and DSO; PE1 excludes QE1.
fn policy_of_two(rt: &impl Abort, alloc: Global) -> Result<Policy, Fail> {
    let order = order_of(rt, alloc, &NAMES, &EDGES)?;
    let engineer = gives(1, Cond::Has(6), ENGINEERS);
    let lead = gives(0, Cond::Has(5), only(2));
    let assign = vec![in alloc; engineer, lead]?;
    let revoke = vec![in alloc; takes(1, ENGINEERS), takes(0, OFFICERS)]?;
    policy_of(rt, alloc, order, assign, revoke, &[(3, 4)])
}

/// Three rules give E1, and two of them all below PL1; two take E1; QE1 and PSO1 both exclude PE1.
fn policy_of_several(rt: &impl Abort, alloc: Global) -> Result<Policy, Fail> {
    let order = order_of(rt, alloc, &NAMES, &EDGES)?;
    let first = gives(0, Cond::Has(6), ENGINEERS);
    let second = gives(1, Cond::Has(3), only(5));
    let third = gives(1, Cond::Has(4), ENGINEERS);
    let assign = vec![in alloc; first, second, third]?;
    let revoke = vec![in alloc; takes(0, ENGINEERS), takes(1, only(5)), takes(1, OFFICERS)]?;
    policy_of(rt, alloc, order, assign, revoke, &[(0, 5), (3, 4), (1, 3)])
}

/// 120 roles without edges, and no rule.
fn policy_of_120(rt: &impl Abort, alloc: Global) -> Result<Policy, Fail> {
    let mut names = Vec::new(alloc);
    for role in 0..120 {
        names.push(format!(in alloc; "r{role}")?)?;
    }
    assert!(rt; names.len() < 1_000);
    let order = Order::new(alloc, names, Vec::new(alloc))?;
    policy_of(rt, alloc, order, Vec::new(alloc), Vec::new(alloc), &[])
}

/// `adm` gives `a` and `b`, which exclude one another, to anyone.
fn policy_with_a_pair(rt: &impl Abort, alloc: Global) -> Result<Policy, Fail> {
    let order = order_of(rt, alloc, &["adm", "a", "b"], &[])?;
    let assign = vec![in alloc; gives(0, Cond::Any, only(1)), gives(0, Cond::Any, only(2))]?;
    policy_of(rt, alloc, order, assign, Vec::new(alloc), &[(1, 2)])
}

fn set_of(rt: &impl Abort, roles: &[u16]) -> RoleSet {
    let mut set = RoleSet::empty();
    for role in roles {
        assert!(rt; *role < 7);
        set = set.with(*role);
    }
    set
}

fn sets_of(rt: &impl Abort, alloc: Global, rows: &[&[u16]]) -> Result<Vec<RoleSet>, AllocError> {
    let mut users = Vec::new(alloc);
    for roles in rows {
        users.push(set_of(rt, roles))?;
    }
    Ok(users)
}

fn act_of(kind: ActKind, admin: u32, target: u32, role: u16) -> Act {
    Act {
        kind,
        admin,
        target,
        role,
    }
}

fn are_equal(set: &RoleSet, other: &RoleSet) -> bool {
    set.within(other) && other.within(set)
}

fn assert_granted(rt: &impl Abort, policy: &Policy, users: &[RoleSet], rows: &[Granted]) {
    for &(kind, admin, target, role, roles) in rows {
        let act = act_of(kind, admin, target, role);
        match decide(policy, users, &act) {
            Verdict::Granted(set) => {
                assert!(rt; are_equal(&set, &set_of(rt, roles)), "another set: {act:?}");
            }
            Verdict::Denied(part) => panic!(rt; "{act:?} is denied: {part:?}"),
        }
    }
}

fn assert_denied(rt: &impl Abort, policy: &Policy, users: &[RoleSet], rows: &[Denied]) {
    for &(kind, admin, target, role, fails) in rows {
        let act = act_of(kind, admin, target, role);
        match decide(policy, users, &act) {
            Verdict::Granted(_) => panic!(rt; "{act:?} is granted"),
            Verdict::Denied(part) => assert_eq!(rt; part, fails, "{act:?}"),
        }
    }
}

#[test]
fn acts_on_users_are_judged_by_the_first_part_that_fails(rt: HostRuntime) -> Result<(), Fail> {
    let alloc = rt.alloc();
    let policy = policy_of_two(&rt, alloc)?;
    let users = sets_of(&rt, alloc, &USERS)?;
    assert_granted(&rt, &policy, &users, &GRANTED);
    assert_denied(&rt, &policy, &users, &DENIED);
    Ok(())
}

#[test]
fn of_several_rules_or_pairs_the_first_is_told(rt: HostRuntime) -> Result<(), Fail> {
    let alloc = rt.alloc();
    let policy = policy_of_several(&rt, alloc)?;
    let users = sets_of(&rt, alloc, &SEVERAL_USERS)?;
    assert_granted(&rt, &policy, &users, &SEVERAL_GRANTED);
    assert_denied(&rt, &policy, &users, &SEVERAL_DENIED);
    Ok(())
}

#[test]
fn places_and_numbers_that_are_not_there_are_told(rt: HostRuntime) -> Result<(), Fail> {
    let policy = policy_of_120(&rt, rt.alloc())?;
    assert_denied(&rt, &policy, &[RoleSet::empty(); 2], &UNRULED_DENIED);
    Ok(())
}

#[test]
fn a_pair_keeps_a_role_from_whom_it_would_join(rt: HostRuntime) -> Result<(), Fail> {
    let alloc = rt.alloc();
    let policy = policy_with_a_pair(&rt, alloc)?;
    let users = sets_of(&rt, alloc, &PAIRED_USERS)?;
    assert_granted(&rt, &policy, &users, &PAIRED_GRANTED);
    assert_denied(&rt, &policy, &users, &PAIRED_DENIED);
    Ok(())
}
