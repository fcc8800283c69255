//! Verdicts on acts on permissions: where they differ from those on users.
use crate::decide_perm;
use arbac_policy::ActKind::{Assign, Strong, Weak};
use arbac_policy::{Act, ActKind, CanAssign, CanRevoke, Cond, Policy};
use role_order::{Order, Range, RoleSet};
use std::alloc::{AllocError, Global};
use std::process::Abort;
use std::test::Fail;
use ura_core::{Part, Side, Verdict};

/// An act's kind, administrator, target and role, and the target's new set.
type Granted = (ActKind, u32, u32, u16, &'static [u16]);

/// The same of an act, and the part that fails.
type Denied = (ActKind, u32, u32, u16, Part);

const NAMES: [&str; 5] = ["PSO1", "PL1", "PE1", "E1", "ED"];

const EDGES: [(u16, u16); 3] = [(1, 2), (2, 3), (3, 4)];

const USERS: [&[u16]; 3] = [&[0], &[1], &[]];

const PERMISSIONS: [&[u16]; 7] = [&[], &[1, 2, 3], &[3], &[4], &[1], &[3, 4], &[0, 2, 3]];

const GRANTED: [Granted; 9] = [
    // A role satisfies the roles above it, and none below it.
    (Assign, 1, 3, 2, &[2, 4]),
    (Assign, 1, 4, 3, &[1, 3]),
    // For a user both pairs would block the role.
    (Assign, 0, 5, 2, &[2, 3, 4]),
    (Weak, 1, 5, 3, &[4]),
    (Strong, 1, 2, 1, &[]),
    (Strong, 1, 1, 2, &[1]),
    (Strong, 0, 5, 3, &[]),
    // A permission at the administrator's own place loses his administrative role, and he keeps it.
    (Strong, 1, 1, 1, &[]),
    (Strong, 0, 6, 2, &[0]),
];

/// A place of a permission that no user has.
const NO_ADMIN: Part = Part::NoUser {
    side: Side::Admin,
    place: 3,
};

const NO_TARGET: Part = Part::NoUser {
    side: Side::Target,
    place: 7,
};

const DENIED: [Denied; 8] = [
    (Assign, 3, 3, 2, NO_ADMIN),
    (Assign, 0, 7, 2, NO_TARGET),
    // The administrator fits the last two rules, the last, or the first.
    (Assign, 1, 2, 2, Part::NoCondition { role: 2, rule: 1 }),
    (Assign, 1, 3, 3, Part::NoCondition { role: 3, rule: 2 }),
    (Assign, 0, 0, 3, Part::NoCondition { role: 3, rule: 0 }),
    (Assign, 0, 4, 2, Part::NoCondition { role: 2, rule: 0 }),
    // The lesser number is taken away, and the greater one refused; or both are refused.
    (Strong, 1, 5, 3, Part::NoAdmin { role: 4, rule: 0 }),
    (Strong, 2, 5, 3, Part::NoAdmin { role: 3, rule: 0 }),
];

fn department(rt: &impl Abort, alloc: Global) -> Result<Order, Fail> {
    let mut names = Vec::new(alloc);
    for name in NAMES {
        names.push(String::from_str(alloc, name)?)?;
    }
    let edges = Vec::from_slice(alloc, &EDGES)?;
    assert!(rt; names.len() < 1_000 && edges.len() < 1_000);
    Ok(Order::new(alloc, names, edges)?)
}

/// From the first role up to the second, or to below it.
fn range(low: u16, high: u16, high_open: bool) -> Range {
    Range {
        low,
        high,
        low_open: false,
        high_open,
    }
}

fn gives(admin: u16, cond: Cond, range: Range) -> CanAssign {
    CanAssign { admin, cond, range }
}

fn takes(admin: u16, range: Range) -> CanRevoke {
    CanRevoke { admin, range }
}

/// Three rules give PE1, and two of them E1; two take E1; E1 excludes PE1 and ED.
fn policy(rt: &impl Abort, alloc: Global) -> Result<Policy, Fail> {
    let given = range(3, 1, true);
    let policy = Policy::new(
        department(rt, alloc)?,
        Vec::new(alloc),
        Vec::new(alloc),
        vec![in alloc;
            gives(0, Cond::Has(2), given),
            gives(1, Cond::Has(4), range(2, 2, false)),
            gives(1, Cond::Lacks(3), given),
        ]?,
        vec![in alloc; takes(0, range(4, 1, true)), takes(1, range(3, 1, false))]?,
        vec![in alloc; (2, 3), (3, 4)]?,
    );
    Ok(policy.ok_or("no policy")?)
}

fn set_of(rt: &impl Abort, roles: &[u16]) -> RoleSet {
    let mut set = RoleSet::empty();
    for role in roles {
        assert!(rt; *role < 5);
        set = set.with(*role);
    }
    set
}

fn sets_of(rt: &impl Abort, alloc: Global, rows: &[&[u16]]) -> Result<Vec<RoleSet>, AllocError> {
    let mut sets = Vec::new(alloc);
    for roles in rows {
        sets.push(set_of(rt, roles))?;
    }
    Ok(sets)
}

fn act_of(kind: ActKind, admin: u32, target: u32, role: u16) -> Act {
    Act {
        kind,
        admin,
        target,
        role,
    }
}

fn are_equal(set: &RoleSet, other: &RoleSet) -> bool {
    set.within(other) && other.within(set)
}

#[test]
fn acts_on_permissions_are_judged_by_the_dual_of_those_on_users(
    rt: HostRuntime,
) -> Result<(), Fail> {
    let alloc = rt.alloc();
    let policy = policy(&rt, alloc)?;
    let users = sets_of(&rt, alloc, &USERS)?;
    let permissions = sets_of(&rt, alloc, &PERMISSIONS)?;
    for (kind, admin, target, role, roles) in GRANTED {
        let act = act_of(kind, admin, target, role);
        match decide_perm(&policy, &users, &permissions, &act) {
            Verdict::Granted(set) => {
                assert!(rt;
                    are_equal(&set, &set_of(&rt, roles)),
                    "another set: {act:?}"
                );
            }
            Verdict::Denied(part) => panic!(rt; "{act:?} is denied: {part:?}"),
        }
    }
    for (kind, admin, target, role, fails) in DENIED {
        let act = act_of(kind, admin, target, role);
        match decide_perm(&policy, &users, &permissions, &act) {
            Verdict::Granted(_) => panic!(rt; "{act:?} is granted"),
            Verdict::Denied(part) => assert_eq!(rt; part, fails, "{act:?}"),
        }
    }
    Ok(())
}
