//! Samples, written as documents.

use crate::sample;
use question_writer::write_question;
use std::process::Abort;
use std::test::Fail;

const ROWS: [(u32, &str); 3] = [
    (
        1,
        r#"version = 1
separate = false
roles = ["a", "k0", "x0"]
admin_roles = []
edges = []
goal = ["k0"]
[[can_assign]]
admin = "a"
condition = "x0"
range = "[k0,k0]"
[[can_assign]]
admin = "a"
condition = "not k0"
range = "[x0,x0]"
[[profile]]
roles = ["a"]
most = "any"
"#,
    ),
    (
        2,
        r#"version = 1
separate = false
roles = ["a", "k0", "x0", "k1", "x1"]
admin_roles = []
edges = []
goal = ["k0 and k1"]
[[can_assign]]
admin = "a"
condition = "x0"
range = "[k0,k0]"
[[can_assign]]
admin = "a"
condition = "not k1"
range = "[x0,x0]"
[[can_assign]]
admin = "a"
condition = "x1"
range = "[k1,k1]"
[[can_assign]]
admin = "a"
condition = "not k0"
range = "[x1,x1]"
[[profile]]
roles = ["a"]
most = "any"
"#,
    ),
    (3, "k0 and k1 and k2"),
];

#[test]
fn samples_are_these_documents(rt: HostRuntime) -> Result<(), Fail> {
    let alloc = rt.alloc();
    for (size, wanted) in ROWS {
        let text = write_question(alloc, &sample(alloc, size)?)?;
        let text = str::from_utf8(&text)?;
        assert!(&rt; text.contains(wanted), "size {size}: {text}");
    }
    assert_eq!(rt;
        sample(alloc, crate::MOST_SIZE)?.policy.order().count(),
        117
    );
    Ok(())
}
