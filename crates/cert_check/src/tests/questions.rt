//! Questions on which certificates are judged.

/// Administrators give `c` to whoever is none of them, and take `adm`. The profile's greatest number is left out.
pub const MIX: &str = r#"version = 1
separate = false
roles = ["adm", "c"]
goal = ["c"]
[[can_assign]]
admin = "adm"
condition = "not adm"
range = "[c,c]"
[[can_revoke]]
admin = "adm"
range = "[adm,adm]"
[[profile]]
roles = ["adm"]
"#;

/// Administrators give `a` to everybody. The profile's greatest number is left out.
pub const GIVERS: &str = r#"version = 1
separate = false
roles = ["adm", "a"]
goal = ["a"]
[[can_assign]]
admin = "adm"
condition = "any"
range = "[a,a]"
[[profile]]
roles = ["adm"]
"#;

/// Administrators give `a` to whoever has it.
pub const SELF: &str = r#"version = 1
separate = false
roles = ["adm", "a"]
goal = ["a"]
[[can_assign]]
admin = "adm"
condition = "a"
range = "[a,a]"
[[profile]]
roles = ["adm"]
"#;

/// Users of two profiles, who are wanted apart.
pub const TWO: &str = r#"version = 1
separate = false
roles = ["a", "b"]
goal = ["a", "a", "b"]
[[profile]]
roles = ["a", "b"]
most = 1
[[profile]]
roles = ["a"]
most = 2
"#;

/// As many users with the role as are wanted.
pub const ONE: &str = r#"version = 1
separate = false
roles = ["a"]
goal = ["a"]
[[profile]]
roles = ["a"]
"#;

/// Two users with one role. The profile's greatest number is left out.
pub const MANY: &str = r#"version = 1
separate = false
roles = ["a"]
goal = ["a", "a"]
[[profile]]
roles = ["a"]
"#;

/// A goal of two conjuncts and an impossible one.
pub const ORS: &str = r#"version = 1
separate = false
roles = ["a", "b"]
goal = ["a or (b and not b) or b"]
"#;

/// A senior role and a junior one.
pub const HEIRS: &str = r#"version = 1
separate = false
roles = ["a", "b"]
edges = [["b", "a"]]
goal = ["a"]
"#;

/// A rule gives `a` to whoever has `b`, which a pair bars, and another one gives `b`.
pub const BARRED: &str = r#"version = 2
separate = false
roles = ["adm", "a", "b"]
exclusive = [["a", "b"]]
goal = ["a"]
[[can_assign]]
admin = "adm"
condition = "b"
range = "[a,a]"
[[can_assign]]
admin = "adm"
condition = "any"
range = "[b,b]"
[[profile]]
roles = ["adm"]
"#;

/// An engineering department with two projects; its security officers are the administrators.
pub const ENG: &str = r#"version = 1
separate = true
roles = ["E", "ED", "E1", "PE1", "QE1", "PL1", "E2", "PE2", "QE2", "PL2", "DIR", "SSO", "DSO", "PSO1", "PSO2"]
admin_roles = ["SSO", "DSO", "PSO1", "PSO2"]
edges = [["DIR", "PL1"], ["DIR", "PL2"], ["PL1", "PE1"], ["PL1", "QE1"], ["PE1", "E1"], ["QE1", "E1"], ["PL2", "PE2"], ["PL2", "QE2"], ["PE2", "E2"], ["QE2", "E2"], ["E1", "ED"], ["E2", "ED"], ["ED", "E"], ["SSO", "DSO"], ["DSO", "PSO1"], ["DSO", "PSO2"]]
goal = ["PL1"]
can_assign = [
    { admin = "SSO", condition = "E", range = "[ED,ED]" },
    { admin = "PSO1", condition = "ED", range = "[E1,E1]" },
    { admin = "PSO1", condition = "E1 and not QE1", range = "[PE1,PE1]" },
    { admin = "PSO1", condition = "E1 and not PE1", range = "[QE1,QE1]" },
    { admin = "PSO1", condition = "PE1 and QE1", range = "[PL1,PL1]" },
    { admin = "PSO2", condition = "ED", range = "[E2,E2]" },
    { admin = "PSO2", condition = "E2 and not QE2", range = "[PE2,PE2]" },
    { admin = "PSO2", condition = "E2 and not PE2", range = "[QE2,QE2]" },
    { admin = "PSO2", condition = "PE2 and QE2", range = "[PL2,PL2]" },
]
can_revoke = [
    { admin = "PSO1", range = "[E1,PL1)" },
    { admin = "PSO2", range = "[E2,PL2)" },
]
can_assignp = [{ admin = "PSO1", condition = "E1", range = "[PE1,PL1]" }]
can_revokep = [{ admin = "PSO1", range = "[E1,PL1]" }]
profile = [
    { roles = ["E"], most = "any" },
    { roles = ["SSO"], most = 1 },
]
"#;
