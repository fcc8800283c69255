//! Questions, each with the words and the answer to them.
//!
//! A row is a question document, a line `=> WORDS`, the status, and the lines that are written; a line `;` stands between rows. A row
//! without a document is on that of the row before it, and `check` is of the certificate written last. The rows are one text, since
//! the check reads a list of rows entry by entry.

/// Small policies of administrators and others; exclusive roles.
pub const QUESTIONS: &str = r#"version = 1
separate = false
roles = ["adm", "c"]
goal = ["c"]
[[can_assign]]
admin = "adm"
condition = "not adm"
range = "[c,c]"
[[can_revoke]]
admin = "adm"
range = "[adm,adm]"
[[profile]]
roles = ["adm"]
most = 1
=> ask q
20
arbac certificate 1
unreachable
need
user hit c
need
user lack adm
user hit adm
need
user
user hit adm
end
;
version = 1
separate = false
roles = ["adm", "c"]
goal = ["c"]
[[can_assign]]
admin = "adm"
condition = "not adm"
range = "[c,c]"
[[can_revoke]]
admin = "adm"
range = "[adm,adm]"
[[profile]]
roles = ["adm"]
most = 2
=> ask q --workers 16
10
arbac certificate 1
reachable
start 0
start 0
act weak 1 0 adm
act assign 1 0 c
end
;
=> ask q --limit 1
30
arbac certificate 1
undecided 1
need goal 0
user hit c
next pre 0 assign 0 0 c 0 new
user lack adm
user hit adm
end
;
=> ask --limit=1 -- q
30
arbac certificate 1
undecided 1
need goal 0
user hit c
next pre 0 assign 0 0 c 0 new
user lack adm
user hit adm
end
;
=> ask q --limit 01
30
arbac certificate 1
undecided 1
need goal 0
user hit c
next pre 0 assign 0 0 c 0 new
user lack adm
user hit adm
end
;
version = 1
separate = false
roles = ["adm", "a"]
goal = ["a"]
[[can_assign]]
admin = "adm"
condition = "any"
range = "[a,a]"
=> ask q
20
arbac certificate 1
unreachable
need
user hit adm,a
end
;
version = 1
separate = false
roles = ["adm", "a"]
goal = ["a"]
[[can_assign]]
admin = "adm"
condition = "any"
range = "[a,a]"
[[profile]]
roles = ["adm"]
most = 1
=> ask q
10
arbac certificate 1
reachable
start 0
act assign 0 0 a
end
;
version = 1
separate = false
roles = ["a"]
goal = ["any"]
[[profile]]
roles = ["a"]
most = 0
=> ask q
20
arbac certificate 1
unreachable
need
user hit a
need
user
end
;
version = 1
separate = false
roles = ["a"]
goal = ["a"]
[[profile]]
roles = ["a"]
=> ask q
10
arbac certificate 1
reachable
start 0
end
;
version = 1
separate = false
roles = ["a"]
goal = ["a", "a"]
[[profile]]
roles = ["a"]
most = 1
=> ask q --workers 1
20
arbac certificate 1
unreachable
need
user hit a
user hit a
end
;
version = 1
separate = false
roles = ["a", "b"]
goal = ["a", "a", "b"]
[[profile]]
roles = ["a", "b"]
most = 1
[[profile]]
roles = ["a"]
most = 2
=> ask q
10
arbac certificate 1
reachable
start 1
start 1
start 0
end
;
version = 1
separate = false
roles = ["adm", "a", "b"]
goal = ["a and b"]
[[can_assign]]
admin = "adm"
condition = "any"
range = "[a,a]"
[[can_assign]]
admin = "adm"
condition = "any"
range = "[b,b]"
[[profile]]
roles = ["adm"]
most = 1
=> ask q
10
arbac certificate 1
reachable
start 0
act assign 0 0 a
act assign 0 0 b
end
;
version = 2
separate = false
roles = ["adm", "a", "b"]
exclusive = [["a", "b"]]
goal = ["a and b"]
[[can_assign]]
admin = "adm"
condition = "any"
range = "[a,a]"
[[can_assign]]
admin = "adm"
condition = "any"
range = "[b,b]"
[[profile]]
roles = ["adm"]
most = 1
=> check q c
21
refused StepRefused act 1 Exclusive b pair 0
;
=> ask q
20
arbac certificate 1
unreachable
need
user hit a hit b
end
"#;

/// An engineering department of two projects, and whether a user can come to lead the first.
pub const DEPARTMENT: &str = r#"version = 1
separate = true
roles = ["E", "ED", "E1", "PE1", "QE1", "PL1", "E2", "PE2", "QE2", "PL2", "DIR", "SSO", "DSO", "PSO1", "PSO2"]
admin_roles = ["SSO", "DSO", "PSO1", "PSO2"]
edges = [["DIR", "PL1"], ["DIR", "PL2"], ["PL1", "PE1"], ["PL1", "QE1"], ["PE1", "E1"], ["QE1", "E1"], ["PL2", "PE2"], ["PL2", "QE2"], ["PE2", "E2"], ["QE2", "E2"], ["E1", "ED"], ["E2", "ED"], ["ED", "E"], ["SSO", "DSO"], ["DSO", "PSO1"], ["DSO", "PSO2"]]
goal = ["PL1"]
[[can_assign]]
admin = "SSO"
condition = "E"
range = "[ED,ED]"
[[can_assign]]
admin = "PSO1"
condition = "ED"
range = "[E1,E1]"
[[can_assign]]
admin = "PSO1"
condition = "E1 and not QE1"
range = "[PE1,PE1]"
[[can_assign]]
admin = "PSO1"
condition = "E1 and not PE1"
range = "[QE1,QE1]"
[[can_assign]]
admin = "PSO1"
condition = "PE1 and QE1"
range = "[PL1,PL1]"
[[can_assign]]
admin = "PSO2"
condition = "ED"
range = "[E2,E2]"
[[can_assign]]
admin = "PSO2"
condition = "E2 and not QE2"
range = "[PE2,PE2]"
[[can_assign]]
admin = "PSO2"
condition = "E2 and not PE2"
range = "[QE2,QE2]"
[[can_assign]]
admin = "PSO2"
condition = "PE2 and QE2"
range = "[PL2,PL2]"
[[can_revoke]]
admin = "PSO1"
range = "[E1,PL1)"
[[can_revoke]]
admin = "PSO2"
range = "[E2,PL2)"
[[can_assignp]]
admin = "PSO1"
condition = "E1"
range = "[PE1,PL1]"
[[can_revokep]]
admin = "PSO1"
range = "[E1,PL1]"
[[profile]]
roles = ["E"]
most = "any"
[[profile]]
roles = ["SSO"]
most = 1
"#;

/// Nobody can: two roles that a lead needs keep each other out.
pub const NO_LEAD: &str = r#"20
arbac certificate 1
unreachable
need
user hit DIR,DSO,PSO1,PSO2
need
user hit PL1,DIR
need
user hit PE1,PL1,DIR hit QE1,PL1,DIR hit SSO,DSO,PSO1
need
user hit PE1,PL1,DIR hit QE1,PL1,DIR
user hit SSO,DSO,PSO1
end
"#;

/// Where a role is given without regard to the other, a user can.
pub const LEAD: &str = r#"10
arbac certificate 1
reachable
start 0
start 1
act assign 1 0 ED
act assign 1 0 E1
act assign 1 0 PE1
act assign 1 0 QE1
act assign 1 0 PL1
end
"#;
