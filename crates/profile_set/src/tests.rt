//! Names, groups, choices and lists of members, call by call.
use crate::{MemberRow, MembersError, Name, On, group, read_members, undrawn};
use arbac_policy::Profile;
use role_order::{MOST_ROLES, Order, RoleSet};
use std::alloc::{AllocError, Global};
use std::cmp::Ordering;
use std::process::Abort;
use std::test::Fail;

const LETTERS_64: &str = "abcdefghijklmnopqrstuvwxyzABCDEFGHIJKLMNOPQRSTUVWXYZ0123456789_.";

const LETTERS_65: &str = "abcdefghijklmnopqrstuvwxyzABCDEFGHIJKLMNOPQRSTUVWXYZ0123456789_.-";

/// Texts, and whether they are names.
const TEXTS: [(&str, bool); 7] = [
    ("", false),
    ("any", true),
    ("-.9Z", true),
    ("a b", false),
    ("é", false),
    (LETTERS_64, true),
    (LETTERS_65, false),
];

/// Pairs of names, and their order: that of their bytes.
const PAIRS: [(&str, &str, Ordering); 6] = [
    ("bob", "bob", Ordering::Equal),
    ("bob", "bobby", Ordering::Less),
    ("b", "ann", Ordering::Greater),
    ("Z", "a", Ordering::Less),
    ("-", ".", Ordering::Less),
    ("_", "9", Ordering::Greater),
];

/// Choices of profiles with the counts 2, 0 and none, and the first place that isn't drawn.
const CHOICES: [(&[u32], Option<u32>); 7] = [
    (&[], None),
    (&[0, 2, 0, 2, 2], None),
    (&[0, 2, 0, 2, 0], Some(4)),
    (&[0, 0, 0, 3], Some(2)),
    (&[2, 3, 1], Some(1)),
    (&[1], Some(0)),
    (&[2, 4_294_967_295], Some(1)),
];

/// Choices of 1,026 profiles that each stand once, and the first place that isn't drawn. Uses are counted
/// for 1,024 profiles at a time.
const LONG_CHOICES: [(&[u32], Option<u32>); 9] = [
    (&[0, 1_023, 1_024, 1_025], None),
    (&[0, 1_023, 1_024, 1_023], Some(3)),
    (&[0, 1_024, 1_025, 1_024], Some(3)),
    (&[1_025, 1_024, 1_025], Some(2)),
    (&[1_025, 1_026], Some(1)),
    // Of two faults the first is told, wherever their profiles are.
    (&[0, 0, 1_024, 1_024], Some(1)),
    (&[1_024, 1_024, 0, 0], Some(1)),
    (&[1_024, 0, 1_026, 0, 1_024], Some(2)),
    (&[1_024, 0, 1_024, 0, 1_026], Some(2)),
];

/// The order of two texts as names; none where one of them is no name.
fn order_of_names(alloc: Global, left: &str, right: &str) -> Result<Option<Ordering>, AllocError> {
    match (Name::new(alloc, left)?, Name::new(alloc, right)?) {
        (Some(left), Some(right)) => Ok(Some(left.cmp(&right))),
        _ => Ok(None),
    }
}

#[test]
fn names_and_choices(rt: HostRuntime) -> Result<(), Fail> {
    let alloc = rt.alloc();
    for (text, is_name) in TEXTS {
        let name = Name::new(alloc, text)?;
        assert_eq!(rt; name.is_some(), is_name, "{text}");
        if let Some(name) = name {
            let copy = name.copy(alloc)?;
            assert_eq!(rt; copy.as_str(), text);
            assert!(rt; copy == name, "{text}");
        }
    }
    for (left, right, order) in PAIRS {
        assert_eq!(rt;
            order_of_names(alloc, left, right)?,
            Some(order),
            "{left} {right}"
        );
    }
    let set = RoleSet::empty();
    let profiles = [Some(2), Some(0), None].map(|most| Profile { set, most });
    for (choice, place) in CHOICES {
        assert_eq!(rt; undrawn(&profiles, choice), place);
    }
    let profiles = [Profile { set, most: Some(1) }; 1_026];
    for (choice, place) in LONG_CHOICES {
        assert_eq!(rt; undrawn(&profiles, choice), place, "{choice:?}");
    }
    Ok(())
}

/// The roles that the lists of members speak of.
const ROLES: [&str; 4] = ["SSO", "PE1", "PL1", "E1"];

/// Lists of members, and their rows.
const LISTS: [(&[u8], &[(On, &str, Option<u16>)]); 12] = [
    (
        b"kind,name,role\nuser,sam,SSO\nuser,bob,PE1\nuser,bob,PL1\nuser,ann,E1\nuser,ann,PL1\npermission,specs,E1\npermission,specs,PE1\n",
        &[
            (On::User, "sam", Some(0)),
            (On::User, "bob", Some(1)),
            (On::User, "bob", Some(2)),
            (On::User, "ann", Some(3)),
            (On::User, "ann", Some(2)),
            (On::Permission, "specs", Some(3)),
            (On::Permission, "specs", Some(1)),
        ],
    ),
    (b"kind,name,role", &[]),
    (b"\n\r\nkind,name,role\r", &[]),
    (
        b"\xef\xbb\xbfkind,name,role\nuser,bob,PE1\n",
        &[(On::User, "bob", Some(1))],
    ),
    (
        b"\"kind\",\"name\",\"role\"\nuser,\"bob\",\"PE1\"\n",
        &[(On::User, "bob", Some(1))],
    ),
    // A quote that is left open ends with the text.
    (
        b"kind,name,role\nuser,bob,\"PE1",
        &[(On::User, "bob", Some(1))],
    ),
    (
        b"kind,name,role\r\nuser,bob,PE1\r\r\nuser,ann,E1\ruser,sam,SSO\n\n\npermission,specs,E1",
        &[
            (On::User, "bob", Some(1)),
            (On::User, "ann", Some(3)),
            (On::User, "sam", Some(0)),
            (On::Permission, "specs", Some(3)),
        ],
    ),
    // No role.
    (
        b"kind,name,role\nuser,bob,\npermission,specs,\"\"\n",
        &[(On::User, "bob", None), (On::Permission, "specs", None)],
    ),
    // A row twice, and a word that no role may be named.
    (
        b"kind,name,role\nuser,any,E1\nuser,any,E1\n",
        &[(On::User, "any", Some(3)), (On::User, "any", Some(3))],
    ),
    (
        b"kind,name,role\nuser,abcdefghijklmnopqrstuvwxyzABCDEFGHIJKLMNOPQRSTUVWXYZ0123456789_.,\n",
        &[(On::User, LETTERS_64, None)],
    ),
    (b"kind,name,role\nuser,-,E1", &[(On::User, "-", Some(3))]),
    (b"kind,name,role\nuser,E1,E1", &[(On::User, "E1", Some(3))]),
];

/// Texts that are no lists of members, and their first fault.
const FAULTS: [(&[u8], MembersError); 41] = [
    (b"", MembersError::BadRow { number: 1 }),
    (b"\n\r\n\r", MembersError::BadRow { number: 1 }),
    (b"\xef\xbb\xbf", MembersError::BadRow { number: 1 }),
    // The mark is passed over once.
    (
        b"\xef\xbb\xbf\xef\xbb\xbfkind,name,role\n",
        MembersError::BadRow { number: 1 },
    ),
    (b"Kind,name,role\n", MembersError::BadRow { number: 1 }),
    (
        b"kind,Name,role\nuser\n",
        MembersError::BadRow { number: 1 },
    ),
    (b"kind,name,roles\n", MembersError::BadRow { number: 1 }),
    (b"name,kind,role\n", MembersError::BadRow { number: 1 }),
    (b" kind,name,role\n", MembersError::BadRow { number: 1 }),
    (b"kind;name;role\n", MembersError::BadRow { number: 1 }),
    (b"kind,name\n", MembersError::BadRow { number: 1 }),
    (b"kind,name,role,\n", MembersError::BadRow { number: 1 }),
    (b"kind,name,\xff\n", MembersError::BadRow { number: 1 }),
    (b"user,bob,PE1\n", MembersError::BadRow { number: 1 }),
    // The number of fields.
    (
        b"kind,name,role\nuser\n",
        MembersError::BadRow { number: 2 },
    ),
    (
        b"kind,name,role\nuser,bob\n",
        MembersError::BadRow { number: 2 },
    ),
    (
        b"kind,name,role\nuser,bob,PE1,\n",
        MembersError::BadRow { number: 2 },
    ),
    (
        b"kind,name,role\nuser,\"bob,PE1\"\n",
        MembersError::BadRow { number: 2 },
    ),
    (
        b"kind,name,role\n\"\"\n",
        MembersError::BadRow { number: 2 },
    ),
    // The kind.
    (
        b"kind,name,role\n,bob,PE1\n",
        MembersError::BadRow { number: 2 },
    ),
    (
        b"kind,name,role\nUser,bob,PE1\n",
        MembersError::BadRow { number: 2 },
    ),
    (
        b"kind,name,role\nkind,name,role\n",
        MembersError::BadRow { number: 2 },
    ),
    (
        b"kind,name,role\n\"us\"\"er\",bob,PE1\n",
        MembersError::BadRow { number: 2 },
    ),
    // The name.
    (
        b"kind,name,role\nuser,,PE1\n",
        MembersError::BadRow { number: 2 },
    ),
    (
        b"kind,name,role\nuser, bob,PE1\n",
        MembersError::BadRow { number: 2 },
    ),
    (
        b"kind,name,role\nuser,\"b\nb\",PE1\n",
        MembersError::BadRow { number: 2 },
    ),
    (
        b"kind,name,role\nuser,b\xc3\xa9,PE1\n",
        MembersError::BadRow { number: 2 },
    ),
    (
        b"kind,name,role\nuser,abcdefghijklmnopqrstuvwxyzABCDEFGHIJKLMNOPQRSTUVWXYZ0123456789_.-,PE1\n",
        MembersError::BadRow { number: 2 },
    ),
    // Bytes that are no UTF-8.
    (
        b"kind,name,role\n\xff,bob,PE1\n",
        MembersError::BadRow { number: 2 },
    ),
    (
        b"kind,name,role\nuser,\xc3,PE1\n",
        MembersError::BadRow { number: 2 },
    ),
    (
        b"kind,name,role\nuser,bob,PE1\nuser,bob,\x80\n",
        MembersError::BadRow { number: 3 },
    ),
    // The role.
    (
        b"kind,name,role\nuser,bob,NONE\n",
        MembersError::UnknownRole { number: 2 },
    ),
    (
        b"kind,name,role\nuser,bob,pe1\n",
        MembersError::UnknownRole { number: 2 },
    ),
    (
        b"kind,name,role\nuser,bob,any\n",
        MembersError::UnknownRole { number: 2 },
    ),
    (
        b"kind,name,role\nuser,bob, \n",
        MembersError::UnknownRole { number: 2 },
    ),
    (
        b"kind,name,role\nuser,bob,\xc3\xa9\n",
        MembersError::UnknownRole { number: 2 },
    ),
    (
        b"kind,name,role\nuser,bob,abcdefghijklmnopqrstuvwxyzABCDEFGHIJKLMNOPQRSTUVWXYZ0123456789_.-\n",
        MembersError::UnknownRole { number: 2 },
    ),
    // Both in one record, and two records at fault.
    (
        b"kind,name,role\nuser,b b,NONE\n",
        MembersError::BadRow { number: 2 },
    ),
    (
        b"kind,name,role\nuser,bob,NONE,\n",
        MembersError::BadRow { number: 2 },
    ),
    (
        b"kind,name,role\n\n\nuser,bob,PE1\nuser,ann,NONE\nuser\n",
        MembersError::UnknownRole { number: 3 },
    ),
    (
        b"kind,name,role\nuser,bob,PE1\nuser\nuser,ann,NONE\n",
        MembersError::BadRow { number: 3 },
    ),
];

fn order_of(rt: &impl Abort, alloc: Global) -> Result<Order, Fail> {
    let mut names = Vec::new(alloc);
    for name in ROLES {
        names.push(String::from_str(alloc, name)?)?;
    }
    assert!(rt; names.len() == 4);
    Ok(Order::new(alloc, names, Vec::new(alloc))?)
}

#[test]
fn lists_of_members(rt: HostRuntime) -> Result<(), Fail> {
    let alloc = rt.alloc();
    let order = order_of(&rt, alloc)?;
    for (text, wanted) in LISTS {
        let rows = read_members(alloc, &order, text)?;
        assert_eq!(rt; rows.len(), wanted.len(), "{text:?}");
        for (row, (on, name, role)) in rows.iter().zip(wanted) {
            assert_eq!(rt; row.on, *on, "{text:?}");
            assert_eq!(rt; row.name.as_str(), *name, "{text:?}");
            assert_eq!(rt; row.role, *role, "{text:?}");
        }
    }
    for (text, fault) in FAULTS {
        let read = read_members(alloc, &order, text);
        assert_eq!(rt; read.err(), Some(fault), "{text:?}");
    }
    Ok(())
}

/// Members, and the sets and counts of their profiles.
const GROUPS: [(&[&[u16]], &[(&[u16], u32)]); 4] = [
    (&[], &[]),
    (&[&[1], &[0], &[1]], &[(&[0], 1), (&[1], 2)]),
    (
        &[&[2], &[0, 249], &[], &[0], &[2], &[0, 1], &[], &[2]],
        &[(&[], 2), (&[0], 1), (&[0, 1], 1), (&[0, 249], 1), (&[2], 3)],
    ),
    (&[&[7], &[7], &[7]], &[(&[7], 3)]),
];

fn set_of(rt: &impl Abort, roles: &[u16]) -> RoleSet {
    let mut set = RoleSet::empty();
    for role in roles {
        assert!(rt; (*role as usize) < MOST_ROLES);
        set = set.with(*role);
    }
    set
}

#[test]
fn members_are_grouped(rt: HostRuntime) -> Result<(), Fail> {
    let alloc = rt.alloc();
    for (members, wanted) in GROUPS {
        let mut sets = Vec::new(alloc);
        for roles in members {
            sets.push(set_of(&rt, roles))?;
        }
        assert!(rt; sets.len() < 1_000);
        let profiles = group(alloc, &sets)?;
        assert_eq!(rt; profiles.len(), wanted.len());
        for (profile, (roles, count)) in profiles.iter().zip(wanted) {
            let set = set_of(&rt, roles);
            assert!(rt;
                profile.set.within(&set) && set.within(&profile.set),
                "{roles:?}"
            );
            assert_eq!(rt; profile.most, Some(*count), "{roles:?}");
        }
    }
    Ok(())
}
