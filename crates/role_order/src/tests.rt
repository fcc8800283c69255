//! Role orders and role sets, call by call.
use crate::{Order, OrderError, Range, RoleSet, is_name, is_name_byte};
use std::alloc::{AllocError, Global};
use std::fmt::Write;
use std::mem::size_of;
use std::process::Abort;
use std::test::Fail;

/// Names, edges, and the refusal of both, if there is one.
type Row = (
    &'static [&'static str],
    &'static [(u16, u16)],
    Option<OrderError>,
);

const LETTERS_64: &str = "abcdefghijklmnopqrstuvwxyzABCDEFGHIJKLMNOPQRSTUVWXYZ0123456789_.";

const LETTERS_65: &str = "abcdefghijklmnopqrstuvwxyzABCDEFGHIJKLMNOPQRSTUVWXYZ0123456789_.-";

/// Each refusal, where those after it have their reasons too.
const MADE: [Row; 19] = [
    (
        &["a", "b", "c"],
        &[(0, 1), (1, 2), (2, 0)],
        Some(OrderError::Cycle { place: 2 }),
    ),
    (&["a", "b", "c"], &[(0, 1), (1, 2), (0, 2)], None),
    (&["a", "b", "c"], &[(0, 1), (0, 1), (2, 1)], None),
    (
        &["a", "b", "c", "d"],
        &[(0, 1), (0, 2), (1, 3), (2, 3)],
        None,
    ),
    (
        &["a", "b", "c", "d"],
        &[(0, 1), (2, 3), (1, 2), (3, 0), (3, 3)],
        Some(OrderError::Cycle { place: 3 }),
    ),
    (
        &["a", "b"],
        &[(0, 1), (1, 1)],
        Some(OrderError::Cycle { place: 1 }),
    ),
    (
        &["a", "b"],
        &[(0, 0), (0, 2), (2, 0)],
        Some(OrderError::EdgeOutOfRange { place: 1 }),
    ),
    (
        &["a", "b"],
        &[(0, 1), (2, 0)],
        Some(OrderError::EdgeOutOfRange { place: 1 }),
    ),
    (
        &["a", "a"],
        &[(0, 5)],
        Some(OrderError::SameName {
            first: 0,
            second: 1,
        }),
    ),
    (
        &["a", "b", "c", "b", "a"],
        &[],
        Some(OrderError::SameName {
            first: 1,
            second: 3,
        }),
    ),
    (
        &["a", "A", "a!", "a"],
        &[(0, 5)],
        Some(OrderError::BadName { place: 2 }),
    ),
    (&["any"], &[], Some(OrderError::BadName { place: 0 })),
    (&["an", "not"], &[], Some(OrderError::BadName { place: 1 })),
    (&["and"], &[], Some(OrderError::BadName { place: 0 })),
    (&["or"], &[], Some(OrderError::BadName { place: 0 })),
    (&["", ""], &[], Some(OrderError::BadName { place: 0 })),
    (&[LETTERS_64, "-", "Any", "nota"], &[], None),
    (
        &[LETTERS_64, LETTERS_65],
        &[],
        Some(OrderError::BadName { place: 1 }),
    ),
    (&[], &[(0, 1)], Some(OrderError::NoRoles)),
];

const DEPARTMENT: [&str; 15] = [
    "E", "ED", "E1", "PE1", "QE1", "PL1", "E2", "PE2", "QE2", "PL2", "DIR", "SSO", "DSO", "PSO1",
    "PSO2",
];

const DEPARTMENT_EDGES: [(u16, u16); 16] = [
    (10, 5),
    (10, 9),
    (5, 3),
    (5, 4),
    (3, 2),
    (4, 2),
    (9, 7),
    (9, 8),
    (7, 6),
    (8, 6),
    (2, 1),
    (6, 1),
    (1, 0),
    (11, 12),
    (12, 13),
    (12, 14),
];

/// Of the department: low and high end, whether each is open, and the roles in the range.
const RANGES: [(&str, &str, bool, bool, &[&str]); 6] = [
    ("E1", "PL1", false, true, &["E1", "PE1", "QE1"]),
    ("E1", "PL1", false, false, &["E1", "PE1", "QE1", "PL1"]),
    ("E1", "PL1", true, false, &["PE1", "QE1", "PL1"]),
    (
        "ED",
        "DIR",
        true,
        true,
        &["E1", "PE1", "QE1", "PL1", "E2", "PE2", "QE2", "PL2"],
    ),
    ("E1", "E1", false, true, &[]),
    ("E2", "PL1", false, false, &[]),
];

/// Texts, and whether they are names.
const TEXTS: [(&str, bool); 7] = [
    ("", false),
    ("any", true),
    ("-.9Z", true),
    ("a b", false),
    ("é", false),
    (LETTERS_64, true),
    (LETTERS_65, false),
];

fn names_of(alloc: Global, texts: &[&str]) -> Result<Vec<String>, AllocError> {
    let mut names = Vec::new(alloc);
    for text in texts {
        names.push(String::from_str(alloc, text)?)?;
    }
    Ok(names)
}

fn order_of(
    rt: &impl Abort,
    alloc: Global,
    names: Vec<String>,
    edges: &[(u16, u16)],
) -> Result<Result<Order, OrderError>, AllocError> {
    let edges = Vec::from_slice(alloc, edges)?;
    assert!(rt; names.len() < 1_000 && edges.len() < 1_000);
    Ok(Order::new(alloc, names, edges))
}

#[test]
fn an_order_is_made_or_refused(rt: HostRuntime) -> Result<(), Fail> {
    let alloc = rt.alloc();
    for (at, (texts, edges, want)) in MADE.iter().enumerate() {
        let made = order_of(&rt, alloc, names_of(alloc, texts)?, edges)?;
        assert_eq!(rt; made.err(), *want, "at {at}");
    }
    Ok(())
}

#[test]
fn the_most_roles_are_250_in_one_chain(rt: HostRuntime) -> Result<(), Fail> {
    let alloc = rt.alloc();
    for (count, last, want) in [
        (249u16, "z", None),
        (250, "z", None),
        (250, "or", Some(OrderError::BadName { place: 249 })),
        (251, "or", Some(OrderError::TooManyRoles { count: 251 })),
    ] {
        let mut names = Vec::new(alloc);
        let mut edges = Vec::new(alloc);
        for role in 1..count {
            names.push(format!(in alloc; "r{role}")?)?;
            edges.push((role - 1, role))?;
        }
        names.push(String::from_str(alloc, last)?)?;
        match order_of(&rt, alloc, names, &edges)? {
            Ok(order) => {
                assert!(rt; want.is_none() && order.count() == count && 249 <= count);
                assert!(rt;
                    order.geq(0, count - 1) && !order.geq(count - 1, 0),
                    "of {count}"
                );
                let middle = order.seniors(100).less(&order.juniors(100));
                assert!(rt; middle.has(99) && !middle.has(100), "of {count}");
                assert_eq!(rt; order.role_named("z"), Some(count - 1));
                assert_eq!(rt; order.role_named("r0"), None);
                for role in 0..count {
                    assert_eq!(rt; order.role_named(order.name(role)), Some(role));
                }
            }
            Err(error) => assert_eq!(rt; Some(error), want, "of {count}"),
        }
    }
    Ok(())
}

#[test]
fn a_range_of_the_department_has_its_roles(rt: HostRuntime) -> Result<(), Fail> {
    let alloc = rt.alloc();
    let names = names_of(alloc, &DEPARTMENT)?;
    let order = order_of(&rt, alloc, names, &DEPARTMENT_EDGES)?
        .ok()
        .ok_or("no order")?;
    for (at, text) in DEPARTMENT.iter().enumerate() {
        assert_eq!(rt; order.role_named(text), Some(at as u16), "{text}");
        assert_eq!(rt;
            order.role_of_bytes(text.as_bytes()),
            Some(at as u16),
            "{text}"
        );
    }
    for text in ["", "PL", "PL22", "pl2"] {
        assert_eq!(rt; order.role_named(text), None, "{text}");
    }
    for (low, high, low_open, high_open, texts) in &RANGES {
        let range = Range {
            low: order.role_named(low).ok_or("no role")?,
            high: order.role_named(high).ok_or("no role")?,
            low_open: *low_open,
            high_open: *high_open,
        };
        let roles = order.roles_of(&range);
        for role in 0..order.count() {
            let name = order.name(role);
            let want = texts.iter().any(|text| *text == name);
            assert_eq!(rt;
                order.in_range(&range, role),
                want,
                "{name} of {low} {high}"
            );
            assert_eq!(rt; roles.has(role), want, "{name} of {low} {high}");
        }
    }
    Ok(())
}

#[test]
fn a_reversed_order_turns_each_edge(rt: HostRuntime) -> Result<(), Fail> {
    let alloc = rt.alloc();
    let order = order_of(&rt, alloc, names_of(alloc, &["a", "b"])?, &[(0, 1)])?;
    let back = order.ok().ok_or("no order")?.reversed(alloc)?;
    assert_eq!(rt; back.count(), 2);
    assert!(rt; back.geq(1, 0) && !back.geq(0, 1));
    assert_eq!(rt; back.edges(), [(1, 0)].as_slice());
    assert_eq!(rt; back.name(1), "b");
    assert_eq!(rt; back.role_named("b"), Some(1));
    assert!(rt; back.seniors(0) == back.juniors(1) && back.juniors(0).len() == 1);
    Ok(())
}

#[test]
fn a_set_has_the_roles_that_it_was_given(rt: HostRuntime) {
    let ends = RoleSet::empty().with(249).with(0);
    let first = ends.without(249).without(250);
    for (role, in_ends, in_first) in [
        (0, true, true),
        (1, false, false),
        (249, true, false),
        (250, false, false),
        (65_535, false, false),
    ] {
        assert_eq!(rt; ends.has(role), in_ends, "at {role}");
        assert_eq!(rt; first.has(role), in_first, "at {role}");
        assert_eq!(rt; first.join(&ends).has(role), in_ends, "at {role}");
        assert_eq!(rt; first.common(&ends).has(role), in_first, "at {role}");
        assert_eq!(rt;
            ends.less(&first).has(role),
            in_ends && !in_first,
            "at {role}"
        );
    }
    assert!(rt; first.within(&ends) && !ends.within(&first));
    assert!(rt; first.meets(&ends) && !first.meets(&ends.less(&first)));
    let low = RoleSet::empty().with(1).with(0);
    for (role, joined, common, less) in [
        (0, true, true, false),
        (1, true, false, false),
        (2, false, false, false),
        (249, true, false, true),
    ] {
        assert_eq!(rt; ends.join(&low).has(role), joined, "at {role}");
        assert_eq!(rt; ends.common(&low).has(role), common, "at {role}");
        assert_eq!(rt; ends.less(&low).has(role), less, "at {role}");
    }
    assert!(rt; ends.meets(&low) && !ends.within(&low) && !low.within(&ends));
}

/// The first and the last role of each mask.
const ENDS: [u16; 4] = [0, 127, 128, 249];

/// The sets of these roles, each by its places among them, as bits, in the order of rising lists.
const IN_ORDER: [u8; 16] = [0, 1, 3, 7, 15, 11, 5, 13, 9, 2, 6, 14, 10, 4, 12, 8];

/// A set by its places among the ends, a number, and the set's least role that isn't below it.
const NEXT: [(u8, u16, Option<u16>); 15] = [
    (15, 0, Some(0)),
    (15, 1, Some(127)),
    (15, 127, Some(127)),
    (15, 128, Some(128)),
    (15, 129, Some(249)),
    (15, 249, Some(249)),
    (15, 250, None),
    (15, 65_535, None),
    (8, 0, Some(249)),
    (12, 5, Some(128)),
    (3, 128, None),
    (2, 127, Some(127)),
    (2, 128, None),
    (1, 1, None),
    (0, 0, None),
];

/// A set by its places among the ends, and its roles.
const ROLES: [(u8, &str); 6] = [
    (15, " 0 127 128 249"),
    (10, " 127 249"),
    (6, " 127 128"),
    (8, " 249"),
    (1, " 0"),
    (0, ""),
];

fn set_of(rt: &impl Abort, places: u8) -> RoleSet {
    let mut set = RoleSet::empty();
    for (place, role) in ENDS.iter().enumerate() {
        assert!(rt; place < 4 && *role < 250);
        if places >> place & 1 == 1 {
            set = set.with(*role);
        }
    }
    set
}

#[test]
fn a_set_takes_32_bytes(rt: HostRuntime) {
    assert_eq!(rt; size_of::<RoleSet>(), 32);
}

#[test]
fn sets_of_both_masks_are_worked_on_as_wholes(rt: HostRuntime) {
    for (at, places) in IN_ORDER.iter().enumerate() {
        let set = set_of(&rt, *places);
        assert_eq!(rt; set.len() as u32, places.count_ones(), "{places}");
        assert_eq!(rt; set.is_empty(), *places == 0, "{places}");
        for (behind, others) in IN_ORDER.iter().enumerate() {
            let other = set_of(&rt, *others);
            let join = set.join(&other) == set_of(&rt, *places | *others);
            let common = set.common(&other) == set_of(&rt, *places & *others);
            let less = set.less(&other) == set_of(&rt, *places & !*others);
            assert!(rt; join && common && less, "{places} and {others}");
            let within = set.within(&other) == (*places & !*others == 0);
            let meets = set.meets(&other) == (*places & *others != 0);
            let same = (set == other) == (*places == *others);
            assert!(rt; within && meets && same, "{places} and {others}");
            assert_eq!(rt; set.before(&other), at < behind, "{places} and {others}");
        }
    }
}

#[test]
fn roles_go_in_and_out_at_both_ends_of_each_mask(rt: HostRuntime) {
    let all = set_of(&rt, 15);
    for role in ENDS {
        assert!(rt; role < 250);
        let alone = RoleSet::empty().with(role);
        let rest = all.without(role);
        for other in ENDS {
            assert_eq!(rt; alone.has(other), other == role, "{role} and {other}");
            assert_eq!(rt; rest.has(other), other != role, "{role} and {other}");
        }
        assert!(rt;
            rest.with(role) == all && alone.without(role).is_empty(),
            "{role}"
        );
        assert!(rt; all.without(role + 2) == all, "{role}");
    }
}

#[test]
fn the_next_role_is_the_least_from_a_number_on(rt: HostRuntime) {
    for (places, from, want) in NEXT {
        let set = set_of(&rt, places);
        assert_eq!(rt; set.next_from(from), want, "{places} from {from}");
        assert_eq!(rt; set.least(), set.next_from(0), "{places}");
    }
}

#[test]
fn the_roles_of_a_set_come_rising(rt: HostRuntime) -> Result<(), Fail> {
    let alloc = rt.alloc();
    for (places, want) in ROLES {
        let mut text = String::new(alloc);
        for role in set_of(&rt, places).roles() {
            write!(text, " {role}")?;
        }
        assert_eq!(rt; text.as_str(), want, "{places}");
    }
    Ok(())
}

#[test]
fn sets_are_ordered_as_rising_lists(rt: HostRuntime) {
    let none = RoleSet::empty();
    let first = none.with(0);
    let ordered = [
        none,
        first,
        first.with(1),
        first.with(1).with(249),
        first.with(249),
        none.with(1),
        none.with(249),
    ];
    for (at, set) in ordered.iter().enumerate() {
        for (place, other) in ordered.iter().enumerate() {
            assert_eq!(rt; set.before(other), at < place, "{at} and {place}");
        }
    }
}

#[test]
fn a_name_has_1_to_64_name_bytes(rt: HostRuntime) {
    for (text, want) in TEXTS {
        assert_eq!(rt; is_name(text), want, "{text}");
    }
    assert!(rt; is_name_byte(b'_') && !is_name_byte(b'@'));
}
