//! Known answers, and all small cases against a plain search.

use super::*;
use std::test::Fail;

/// The rows, and whether they can be placed.
type Row = (&'static [u128], bool);

const ROWS: [Row; 9] = [
    (&[], true),
    (&[0], false),
    (&[1, 1], false),
    // The first item must move.
    (&[0b11, 0b01], true),
    // Three items between them have two places.
    (&[0b11, 0b11, 0b11], false),
    (&[0b1000, 0b11, 0b11, 0b11], false),
    (&[0b011, 0b110, 0b101], true),
    // The last place is one.
    (&[1 << 127 | 1, 1 << 127], true),
    (&[1 << 127, 1 << 127], false),
];

/// Each item goes with the place of its number and the next one, and the last with the first place alone: all must move for it.
fn chain() -> [u128; MOST_PLACES] {
    let mut rows = [1; MOST_PLACES];
    for item in 0..MOST_PLACES - 1 {
        rows[item] = 3 << item;
    }
    rows
}

#[test]
fn known_answers(rt: HostRuntime) -> Result<(), Fail> {
    for (row, (rows, placed)) in ROWS.iter().enumerate() {
        assert!(rt; all_placed(rows) == *placed, "at row {row}");
    }
    let mut rows = chain();
    assert!(rt; all_placed(&rows), "a chain");
    rows[MOST_PLACES - 2] = 1 << (MOST_PLACES - 2);
    assert!(rt; !all_placed(&rows), "a chain without its last place");
    assert!(rt;
        !all_placed(&[u128::MAX; MOST_PLACES + 1]),
        "more items than places"
    );
    Ok(())
}

/// The masks of three places.
const MASKS: [u128; 3] = [1, 2, 4];

/// Whether the places that the number tells, one for each row, are different, and each row has its own.
fn are_placed(rows: &[u128], code: usize) -> bool {
    let places = [MASKS[code % 3], MASKS[code / 3 % 3], MASKS[code / 9 % 3]];
    let mut taken = 0;
    for (row, place) in rows.iter().zip(places.iter()) {
        if *row & *place == 0 || taken & *place != 0 {
            return false;
        }
        taken = taken | *place;
    }
    true
}

/// Tries all lists of places.
fn can_be_placed(rows: &[u128]) -> bool {
    for code in 0..27usize {
        if are_placed(rows, code) {
            return true;
        }
    }
    false
}

#[test]
fn all_small_cases(rt: HostRuntime) -> Result<(), Fail> {
    for code in 0..512usize {
        let rows = [
            (code % 8) as u128,
            (code / 8 % 8) as u128,
            (code / 64) as u128,
        ];
        for items in 0..4usize {
            let some = &rows[..items];
            assert!(rt;
                all_placed(some) == can_be_placed(some),
                "at {code}, {items} items"
            );
        }
    }
    Ok(())
}
