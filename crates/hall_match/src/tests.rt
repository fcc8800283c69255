//! Known answers, and all small cases against every list in turn.

ghost use Rattle.std.specs.Prelude.{◌≡◌, true, Contains};
ghost use Rattle.hall_match.specs.Matchings.{ArePairsWithin};

use super::*;
use std::alloc::{AllocError, Global};
use std::test::Fail;

struct Case {
    left: u32,
    capacities: &'static [Option<u32>],
    edges: &'static [(u32, u32)],
    matched: bool,
    list: &'static [u32],
}

const CASES: [Case; 11] = [
    Case {
        left: 0,
        capacities: &[],
        edges: &[],
        matched: true,
        list: &[],
    },
    Case {
        left: 2,
        capacities: &[Some(1)],
        edges: &[(0, 0), (1, 0)],
        matched: false,
        list: &[0, 1],
    },
    Case {
        left: 3,
        capacities: &[Some(1), Some(2)],
        edges: &[(0, 0), (0, 1), (1, 0), (1, 1), (2, 0)],
        matched: true,
        list: &[1, 1, 0],
    },
    // No edge, and no capacity.
    Case {
        left: 1,
        capacities: &[Some(1)],
        edges: &[],
        matched: false,
        list: &[0],
    },
    Case {
        left: 1,
        capacities: &[Some(0)],
        edges: &[(0, 0)],
        matched: false,
        list: &[0],
    },
    // An unlimited capacity, and a large one.
    Case {
        left: 3,
        capacities: &[None],
        edges: &[(2, 0), (1, 0), (0, 0)],
        matched: true,
        list: &[0, 0, 0],
    },
    Case {
        left: 2,
        capacities: &[Some(0), Some(1_000_000)],
        edges: &[(0, 1), (1, 1)],
        matched: true,
        list: &[1, 1],
    },
    // Doubled edges.
    Case {
        left: 2,
        capacities: &[Some(1), Some(1)],
        edges: &[(1, 0), (0, 1), (0, 0), (1, 0), (0, 1)],
        matched: true,
        list: &[1, 0],
    },
    // Two moves make room.
    Case {
        left: 3,
        capacities: &[Some(1), Some(1), Some(1)],
        edges: &[(0, 0), (0, 1), (1, 1), (1, 2), (2, 0)],
        matched: true,
        list: &[1, 2, 0],
    },
    // What has room of its own isn't blamed.
    Case {
        left: 4,
        capacities: &[Some(1), None, Some(1)],
        edges: &[(0, 2), (1, 0), (2, 1), (2, 0), (3, 0)],
        matched: false,
        list: &[1, 3],
    },
    // The least list isn't the one of the least sum.
    Case {
        left: 2,
        capacities: &[Some(1), Some(1), Some(1)],
        edges: &[(0, 1), (0, 0), (1, 0), (1, 2)],
        matched: true,
        list: &[0, 2],
    },
];

// Every list of three places below two, the least first.
const LISTS: [[u32; 3]; 8] = [
    [0, 0, 0],
    [0, 0, 1],
    [0, 1, 0],
    [0, 1, 1],
    [1, 0, 0],
    [1, 0, 1],
    [1, 1, 0],
    [1, 1, 1],
];

fn are_edges(left: u32, capacities: &[Option<u32>], edges: &[(u32, u32)]) -> bool
    ensures { result ≡ true → ArePairsWithin left capacities.now edges.now }
{
    for (item, place) in edges {
        if *item >= left || *place as usize >= capacities.len() {
            return false;
        }
    }
    true
}

fn is_answer(answer: &Matching, matched: bool, list: &[u32]) -> bool {
    match answer {
        Matching::Matched(places) => matched && places.as_slice() == list,
        Matching::Deficient(items) => !matched && items.as_slice() == list,
    }
}

#[test]
fn known_answers(rt: HostRuntime) -> Result<(), Fail> {
    for (row, case) in CASES.iter().enumerate() {
        assert!(rt;
            are_edges(case.left, case.capacities, case.edges),
            "at row {row}"
        );
        let answer = match_all(rt.alloc(), case.left, case.capacities, case.edges)?;
        assert!(rt; is_answer(&answer, case.matched, case.list), "at row {row}");
    }
    Ok(())
}

/// The edges of a list.
#[derive(Clone, Copy)]
struct Listed<'a> {
    edges: &'a [(u32, u32)],
}

impl<'a> Edges for Listed<'a> {
    ghost joins = { λ s item place. Contains s.edges.now (item, place) };

    fn has(&self, item: u32, place: u32) -> bool {
        self.edges.contains(&(item, place))
    }
}

/// How many items and places, the edges, and the least list of different places.
type DistinctRow = (usize, usize, &'static [(u32, u32)], Option<&'static [u32]>);

const DISTINCT: [DistinctRow; 5] = [
    (0, 0, &[], Some(&[])),
    (2, 2, &[(0, 0), (0, 1), (1, 0)], Some(&[1, 0])),
    (2, 3, &[(0, 2), (0, 1), (1, 2), (1, 1)], Some(&[1, 2])),
    (2, 1, &[(0, 0), (1, 0)], None),
    // A place past the number is none.
    (1, 1, &[(0, 1)], None),
];

#[test]
fn edges_that_a_test_tells(rt: HostRuntime) -> Result<(), Fail> {
    for (row, case) in CASES.iter().enumerate() {
        let edges = Listed { edges: case.edges };
        let answer = match_by(rt.alloc(), case.left as usize, case.capacities, &edges)?;
        assert!(rt; is_answer(&answer, case.matched, case.list), "at row {row}");
    }
    for (row, (items, places, edges, list)) in DISTINCT.iter().enumerate() {
        let found = least_transversal(rt.alloc(), *items, *places, &Listed { edges: *edges })?;
        assert_eq!(&rt;
            found.as_ref().map(|places| places.as_slice()),
            *list,
            "at row {row}"
        );
    }
    Ok(())
}

// The edges that the mask has, of three items and two places.
fn edges_of(alloc: Global, mask: u32) -> Result<Vec<(u32, u32)>, AllocError> {
    let mut edges = Vec::new(alloc);
    for bit in 0..6u32 {
        if (mask >> bit) & 1 == 1 {
            edges.push((bit / 2, bit % 2))?;
        }
    }
    Ok(edges)
}

fn is_within(capacity: Option<u32>, place: u32, list: &[u32]) -> bool {
    match capacity {
        Some(most) => list.iter().filter(|given| **given == place).count() <= most as usize,
        None => true,
    }
}

fn is_matching(capacities: &[Option<u32>; 2], edges: &[(u32, u32)], list: &[u32; 3]) -> bool {
    let [first, second, third] = list;
    edges.contains(&(0, *first))
        && edges.contains(&(1, *second))
        && edges.contains(&(2, *third))
        && is_within(capacities[0], 0, list)
        && is_within(capacities[1], 1, list)
}

fn least_list(capacities: &[Option<u32>; 2], edges: &[(u32, u32)]) -> Option<&'static [u32; 3]> {
    LISTS
        .iter()
        .find(|list| is_matching(capacities, edges, list))
}

// Whether the items have together less capacity among their neighbours than they are.
fn are_short(capacities: &[Option<u32>; 2], edges: &[(u32, u32)], items: &[u32]) -> bool {
    let mut total: u64 = 0;
    for (place, capacity) in [(0u32, capacities[0]), (1u32, capacities[1])] {
        if items.iter().any(|item| edges.contains(&(*item, place))) {
            match capacity {
                Some(most) => total = total.saturating_add(u64::from(most)),
                None => return false,
            }
        }
    }
    total < items.len() as u64
}

fn is_right(answer: &Matching, capacities: &[Option<u32>; 2], edges: &[(u32, u32)]) -> bool {
    match answer {
        Matching::Matched(places) => match least_list(capacities, edges) {
            Some(list) => places.as_slice() == list.as_slice(),
            None => false,
        },
        Matching::Deficient(items) => least_list(capacities, edges).is_none()
            && are_short(capacities, edges, items.as_slice()),
    }
}

#[test]
fn all_small_cases(rt: HostRuntime) -> Result<(), Fail> {
    let kinds = [None, Some(0), Some(1), Some(2)];
    for mask in 0..64u32 {
        let edges = edges_of(rt.alloc(), mask)?;
        for first in kinds {
            for second in kinds {
                let capacities = [first, second];
                assert!(rt; are_edges(3, &capacities, &edges));
                let answer = match_all(rt.alloc(), 3, &capacities, &edges)?;
                assert!(rt; is_right(&answer, &capacities, &edges), "at mask {mask}");
            }
        }
    }
    Ok(())
}
