//! Numbers and acts with what their texts write.

use crate::{act_of, number_of};
use arbac_policy::ActKind;
use std::test::Fail;

/// Each text with the number that it writes.
const NUMBERS: [(&[u8], Option<u32>); 17] = [
    (b"0", Some(0)),
    (b"7", Some(7)),
    (b"10", Some(10)),
    (b"4294967295", Some(4_294_967_295)),
    (b"", None),
    (b"00", None),
    (b"01", None),
    (b"4294967296", None),
    (b"18446744073709551616", None),
    (b"+1", None),
    (b"-1", None),
    (b"-0", None),
    (b" 1", None),
    (b"1 ", None),
    (b"1a", None),
    (b"1_0", None),
    (b"\xc2\xb2", None),
];

/// Each text with the act that it writes: kind, administrator, target and role.
const ACTS: [(&[u8], (ActKind, u32, u32, &str)); 4] = [
    (b"assign 0 1 a", (ActKind::Assign, 0, 1, "a")),
    (b"weak 10 0 end", (ActKind::Weak, 10, 0, "end")),
    (
        b"strong 4294967295 7 -._",
        (ActKind::Strong, 4_294_967_295, 7, "-._"),
    ),
    (b"assign 5 5 assign", (ActKind::Assign, 5, 5, "assign")),
];

/// Texts that write no act.
const NO_ACTS: [&[u8]; 17] = [
    b"",
    b"weak",
    b"weak 0",
    b"weak 0 0",
    b"weak 0 0 ",
    b"weak 0 0  a",
    b"weak 0 0 a ",
    b"weak 0 0 a b",
    b" weak 0 0 a",
    b"weak  0 0 a",
    b"Weak 0 0 a",
    b"weaker 0 0 a",
    b"wea 0 0 a",
    b"weak 00 0 a",
    b"weak 0 +1 a",
    b"weak 4294967296 0 a",
    b"weak 0 0 \xff",
];

#[test]
fn numbers_are_read(rt: HostRuntime) -> Result<(), Fail> {
    for (text, number) in &NUMBERS {
        assert_eq!(rt; number_of(text), *number, "{text:?}");
    }
    Ok(())
}

#[test]
fn acts_are_read(rt: HostRuntime) -> Result<(), Fail> {
    for (text, act) in &ACTS {
        let read = act_of(text).map(|act| (act.kind, act.admin, act.target, act.role));
        assert_eq!(rt; read, Some(*act), "{text:?}");
    }
    for text in &NO_ACTS {
        assert!(rt; act_of(text).is_none(), "{text:?}");
    }
    Ok(())
}
