//! The pieces, one after another.
use crate::{put, put_count, put_number, put_wide_number};
use std::test::Fail;

#[test]
fn pieces_stand_behind_one_another(rt: HostRuntime) -> Result<(), Fail> {
    let alloc = rt.alloc();
    let mut text = Vec::new(alloc);
    put(&mut text, "act ")?;
    put_number(alloc, &mut text, u64::MAX)?;
    put_count(alloc, &mut text, " user ", 0)?;
    put(&mut text, "\n")?;
    put_wide_number(alloc, &mut text, u128::MAX)?;
    assert_eq!(&rt;
        text.as_slice(),
        "act 18446744073709551615 user 0\n340282366920938463463374607431768211455".as_bytes()
    );
    Ok(())
}
