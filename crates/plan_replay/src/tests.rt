//! A short plan and the same acts exchanged, and the goals that the sets meet.

ghost use Rattle.std.specs.Prelude.{◌≡◌, ◌<◌, ◌^◌, IfOk, length};
ghost use Rattle.list_words.specs.Lists.{Each};
ghost use Rattle.arbac_policy.specs.Truth.{term_of, IsKnown};

use super::*;
use arbac_policy::{Act, ActKind, CanAssign, CanRevoke, Cond, Part, Policy};
use role_order::{Order, Range, RoleSet};
use std::alloc::{AllocError, Global};
use std::process::Abort;
use std::test::Fail;

const ADM: u16 = 0;

const C: u16 = 1;

/// User 0 takes `adm` from user 1.
const TAKE: Act = Act {
    kind: ActKind::Weak,
    admin: 0,
    target: 1,
    role: ADM,
};

/// User 0 gives `c` to user 1.
const GIVE: Act = Act {
    kind: ActKind::Assign,
    admin: 0,
    target: 1,
    role: C,
};

fn only(role: u16) -> Range {
    Range {
        low: role,
        high: role,
        low_open: false,
        high_open: false,
    }
}

/// Administrators give `c` to whoever is none of them, and take `adm`.
fn small_policy(alloc: Global) -> Result<Policy, Fail> {
    let mut names = Vec::new(alloc);
    names.push(String::from_str(alloc, "adm")?)?;
    names.push(String::from_str(alloc, "c")?)?;
    let order = Order::new(alloc, names, Vec::new(alloc))?;
    let assign = CanAssign {
        admin: ADM,
        cond: Cond::Lacks(ADM),
        range: only(C),
    };
    let revoke = CanRevoke {
        admin: ADM,
        range: only(ADM),
    };
    let policy = Policy::new(
        order,
        vec![in alloc; assign]?,
        vec![in alloc; revoke]?,
        Vec::new(alloc),
        Vec::new(alloc),
        Vec::new(alloc),
    );
    Ok(policy.ok_or("no policy")?)
}

fn is_just(set: &RoleSet, role: u16) -> bool {
    role < 2
        && {
            let just = RoleSet::empty().with(role);
            set.within(&just) && just.within(set)
        }
}

#[test]
fn acts_are_judged_in_their_order(rt: HostRuntime) -> Result<(), Fail> {
    let alloc = rt.alloc();
    let policy = small_policy(alloc)?;
    let start = [RoleSet::empty().with(ADM); 2];
    match replay(alloc, &policy, &start, &[TAKE, GIVE])? {
        Replayed::Ended(sets) => {
            assert_eq!(rt; sets.len(), 2);
            assert!(rt; is_just(&sets[0], ADM) && is_just(&sets[1], C));
        }
        Replayed::Stopped { place, .. } => assert!(rt; false, "stopped at {place}"),
    }
    match replay(alloc, &policy, &start, &[GIVE, TAKE])? {
        Replayed::Ended(_) => assert!(rt; false, "ended"),
        Replayed::Stopped { place, part } => {
            assert_eq!(rt; place, 0);
            assert_eq!(rt; part, Part::NoCondition { role: C, rule: 0 });
        }
    }
    Ok(())
}

/// Asserts who meets the goal.
fn assert_met(
    rt: &impl Abort,
    alloc: Global,
    policy: &Policy,
    sets: &[RoleSet],
    goal: &[Cond],
    wanted: Option<&[u32]>,
) -> Result<(), Fail>
    requires known { Each (λ cond. IsKnown (length policy.now.order.names) (term_of cond)) goal.now }
    requires users { length sets.now < 2 ^ 32 }
    requires conditions { length goal.now < 2 ^ 32 }
{
    let met = goal_met(alloc, policy, sets, goal)?;
    match (met, wanted) {
        (Some(users), Some(wanted)) => assert!(rt; users.as_slice() == wanted),
        (None, None) => {}
        _ => assert!(rt; false, "met by others"),
    }
    Ok(())
}

#[test]
fn goals_are_met_by_the_least_list(rt: HostRuntime) -> Result<(), Fail> {
    let alloc = rt.alloc();
    let policy = small_policy(alloc)?;
    assert!(rt; policy.order().count() == 2);
    let adm = RoleSet::empty().with(ADM);
    let c = RoleSet::empty().with(C);
    let has_c = [Cond::Has(C)];
    assert_met(&rt, alloc, &policy, &[adm, c], &has_c, Some(&[1]))?;
    assert_met(&rt, alloc, &policy, &[adm, adm], &has_c, None)?;
    let has_adm = [Cond::Has(ADM), Cond::Has(ADM)];
    assert_met(&rt, alloc, &policy, &[adm, adm], &has_adm, Some(&[0, 1]))?;
    Ok(())
}

/// A condition that one user has to meet.
#[derive(Clone, Copy)]
enum Want {
    Anyone,
    Adm,
    NoAdm,
    C,
    NoC,
}

/// Users' sets, and what is wanted of different users, at most four and three.
const GOALS: [(&[&[u16]], &[Want]); 16] = [
    (&[], &[]),
    (&[], &[Want::Anyone]),
    (&[&[ADM], &[C]], &[]),
    // One user meets both conditions.
    (&[&[ADM, C]], &[Want::Adm, Want::C]),
    (&[&[ADM, C], &[]], &[Want::Adm, Want::C]),
    // The later condition needs the earlier user.
    (&[&[ADM, C], &[C]], &[Want::C, Want::Adm]),
    (&[&[ADM, C], &[ADM]], &[Want::Adm, Want::C]),
    (&[&[ADM], &[], &[C]], &[Want::Anyone, Want::NoC, Want::Adm]),
    // Several lists.
    (&[&[C], &[C], &[C], &[C]], &[Want::C, Want::C]),
    (&[&[], &[], &[]], &[Want::NoC, Want::Anyone, Want::NoAdm]),
    (
        &[&[C], &[ADM, C], &[C], &[ADM]],
        &[Want::C, Want::NoAdm, Want::Adm],
    ),
    (
        &[&[], &[ADM], &[C], &[ADM, C]],
        &[Want::NoC, Want::C, Want::Adm],
    ),
    // More conditions than users.
    (&[&[ADM], &[C]], &[Want::Anyone, Want::Anyone, Want::Anyone]),
    (&[&[C]], &[Want::C, Want::C]),
    // No user meets a condition.
    (&[&[ADM], &[ADM, C]], &[Want::Adm, Want::NoAdm]),
    (&[&[C], &[ADM, C], &[C]], &[Want::C, Want::C, Want::NoC]),
];

fn cond_of(want: Want) -> Cond
    ensures { IsKnown 2 (term_of result) }
{
    match want {
        Want::Anyone => Cond::Any,
        Want::Adm => Cond::Has(ADM),
        Want::NoAdm => Cond::Lacks(ADM),
        Want::C => Cond::Has(C),
        Want::NoC => Cond::Lacks(C),
    }
}

fn meets(set: &RoleSet, want: Want) -> bool {
    match want {
        Want::Anyone => true,
        Want::Adm => set.has(ADM),
        Want::NoAdm => !set.has(ADM),
        Want::C => set.has(C),
        Want::NoC => !set.has(C),
    }
}

fn set_of(roles: &[u16]) -> RoleSet {
    let mut set = RoleSet::empty();
    for role in roles {
        if *role < 2 {
            set = set.with(*role);
        }
    }
    set
}

fn sets_of(alloc: Global, rows: &[&[u16]]) -> Result<Vec<RoleSet>, AllocError> {
    let mut sets = Vec::new(alloc);
    for roles in rows {
        sets.push(set_of(roles))?;
    }
    Ok(sets)
}

fn are_different(users: &[u32]) -> bool {
    for at in 0..users.len() {
        if users[..at].contains(&users[at]) {
            return false;
        }
    }
    true
}

fn meet_all(sets: &[RoleSet], wants: &[Want], users: &[u32]) -> bool {
    for (user, want) in users.iter().zip(wants) {
        match sets.get(*user as usize) {
            Some(set) => if !meets(set, *want) {
                return false;
            },
            None => return false,
        }
    }
    true
}

/// The least list, out of every list of three places below four.
fn least_of_all(sets: &[RoleSet], wants: &[Want]) -> Option<[u32; 3]> {
    let count = wants.len().min(3);
    for code in 0..64u32 {
        let users = [code / 16, code / 4 % 4, code % 4];
        if are_different(&users[..count]) && meet_all(sets, wants, &users[..count]) {
            return Some(users);
        }
    }
    None
}

/// Asserts that the goal is met by the least of all lists, or by none.
fn assert_least(
    rt: &impl Abort,
    alloc: Global,
    sets: &[RoleSet],
    wants: &[Want],
    goal: &[Cond],
) -> Result<(), Fail>
    requires known { Each (λ cond. IsKnown 2 (term_of cond)) goal.now }
    requires conditions { length goal.now < 2 ^ 32 }
{
    let policy = small_policy(alloc)?;
    assert!(rt; policy.order().count() == 2 && sets.len() <= 4 && wants.len() <= 3);
    let least = least_of_all(sets, wants);
    let wanted = least.as_ref().map(|users| &users[..wants.len()]);
    assert_met(rt, alloc, &policy, sets, goal, wanted)
}

#[test]
fn the_least_of_all_lists_meets_the_goal(rt: HostRuntime) -> Result<(), Fail> {
    let alloc = rt.alloc();
    for (rows, wants) in GOALS {
        let sets = sets_of(alloc, rows)?;
        match wants {
            [] => assert_least(&rt, alloc, &sets, wants, &[])?,
            [a] => assert_least(&rt, alloc, &sets, wants, &[cond_of(*a)])?,
            [a, b] => {
                let goal = [cond_of(*a), cond_of(*b)];
                assert_least(&rt, alloc, &sets, wants, &goal)?
            }
            [a, b, c] => {
                let goal = [cond_of(*a), cond_of(*b), cond_of(*c)];
                assert_least(&rt, alloc, &sets, wants, &goal)?
            }
            _ => assert!(rt; false, "too many conditions"),
        }
    }
    Ok(())
}
