//! Documents, or what follows the beginning of one, each with its answer where no goal is needed.
//!
//! A row is `TEXT => ANSWER`, and `;` with the end of the line stands between rows; each list is one text, since the check
//! reads a list of rows entry by entry.

/// What documents of the first version begin with here.
pub const BEGUN: &str = "version = 1\nseparate = false\nroles = [\"a\", \"b\"]\n";

/// What documents of the second version begin with here.
pub const BEGUN_2: &str = "version = 2\nseparate = false\nroles = [\"a\", \"b\"]\n";

/// What documents begin with here that keep the administrative role `a` apart.
pub const BEGUN_APART: &str =
    "version = 1\nseparate = true\nroles = [\"a\", \"b\"]\nadmin_roles = [\"a\"]\n";

/// A rule's condition with two times two to the ninth conjuncts.
pub const WIDE: &str =
    "(a or b) and (a or b) and (a or b) and (a or b) and (a or b) and (a or b) and (a or b) and (a or b) and (a or b) and (a or b)";

/// Whole documents: the text.
pub const TEXTS: &str = r#"= => NotToml;
version = 1
version = 1
 => NotToml;
version = 01
 => NotToml;
version = 9223372036854775808
 => NotToml;
alpha = 1
alpha => NotToml"#;

/// Whole documents: their first keys.
pub const KEYS: &str = r#"zeta = 1
alpha = 1
 => UnknownKey alpha;
Version = 1
 => UnknownKey Version;
"a b.c" = 1
 => UnknownKey a b.c;
alpha = 1
version = 3
 => UnknownKey alpha;
 => Missing version;
separate = 1
 => Missing version;
version = 0
 => WrongKind version;
version = 3
separate = 3
 => WrongKind version;
version = -1
 => WrongKind version;
version = 1.0
 => WrongKind version;
version = "1"
 => WrongKind version;
version = 0x2
 => Missing separate;
version = 1
roles = 1
 => Missing separate;
version = 1
separate = 1
 => WrongKind separate;
version = 1
separate = "true"
roles = 1
 => WrongKind separate;
version = 1
separate = true
 => Missing roles;
version = 1
separate = true
roles = "a"
 => WrongKind roles;
version = 1
separate = true
roles = ["a", 1, "any"]
 => WrongKind roles.1;
version = 1
separate = true
roles = ["any", 1]
 => WrongKind roles.1;
version = 1
separate = true
roles = []
 => NoRoles;
version = 1
separate = true
roles = ["a", "any", "a"]
 => BadName 1;
version = 1
separate = true
roles = ["a b"]
 => BadName 0;
version = 1
separate = true
roles = [""]
 => BadName 0;
version = 1
separate = true
roles = ["a", "b", "a"]
 => SameName 0 2"#;

/// Whole documents: their administrative roles.
pub const ADMINS: &str = r#"version = 1
separate = true
roles = ["a"]
edges = 1
 => Missing admin_roles;
version = 1
separate = true
roles = ["a"]
admin_roles = "a"
 => WrongKind admin_roles;
version = 1
separate = true
roles = ["a"]
admin_roles = ["a", "z", 1]
 => UnknownRole admin_roles.1;
version = 1
separate = true
roles = ["a"]
admin_roles = ["a", 1, "z"]
 => WrongKind admin_roles.1;
version = 1
separate = true
roles = ["a", "b"]
admin_roles = ["a", "a"]
 => read;
version = 2
separate = true
roles = ["a", "b"]
admin_roles = ["b"]
exclusive = [["a", "b"]]
can_assign = 1
 => MixedRole exclusive.0;
version = 2
separate = true
roles = ["a", "b"]
admin_roles = ["a"]
exclusive = [["a", "b"], ["b"]]
 => WrongKind exclusive.1"#;

/// Behind the beginning of the first version: edges and pairs.
pub const LISTS_OF_ROLES: &str = r#" => read;
admin_roles = ["z"] => UnknownRole admin_roles.0;
admin_roles = ["a"]
edges = [["a", "b"]] => read;
edges = {} => WrongKind edges;
edges = [["a", "b"], "a"] => WrongKind edges.1;
edges = [["a"]] => WrongKind edges.0;
edges = [["a", "b", "a"]] => WrongKind edges.0;
edges = [["a", 1]] => WrongKind edges.0;
edges = [["z", 1]] => WrongKind edges.0;
edges = [["a", "z"], ["a"]] => UnknownRole edges.0;
edges = [["a"], ["a", "z"]] => WrongKind edges.0;
edges = [["a", "any"]] => UnknownRole edges.0;
edges = [["a", "b"], ["b", "a"]] => Cycle 1;
edges = [["a", "a"]]
can_assign = 1 => Cycle 0;
edges = [["a", "a"], ["z", "a"]] => UnknownRole edges.1;
edges = [["a", "a"]]
exclusive = [] => Cycle 0;
exclusive = []
can_assign = 1 => WrongKind exclusive;
exclusive = [["a", "b"]] => WrongKind exclusive"#;

/// Behind the beginning of the first version: administrative rules.
pub const RULES: &str = r#"can_assign = {} => WrongKind can_assign;
can_assign = [1] => WrongKind can_assign.0;
can_assign = [{}] => Missing can_assign.0.admin;
can_assign = [{ y = 1, x = 1 }] => UnknownKey can_assign.0.x;
can_assign = [{ admin = 1 }] => WrongKind can_assign.0.admin;
can_assign = [{ admin = "z", condition = "(" }] => UnknownRole can_assign.0.admin;
can_assign = [{ admin = "a", range = 1 }] => Missing can_assign.0.condition;
can_assign = [{ admin = "a", condition = [] }] => WrongKind can_assign.0.condition;
can_assign = [{ admin = "a", condition = "a and" }] => Cond can_assign.0.condition Unexpected 5;
can_assign = [{ admin = "a", condition = "" }] => Cond can_assign.0.condition Unexpected 0;
can_assign = [{ admin = "a", condition = "a or z", range = 1 }] => Cond can_assign.0.condition UnknownRole 5;
can_assign = [{ admin = "a", condition = "any" }] => Missing can_assign.0.range;
can_assign = [{ admin = "a", condition = "any", range = 1 }] => WrongKind can_assign.0.range;
can_assign = [{ admin = "a", condition = "any", range = "[a,b" }] => WrongKind can_assign.0.range;
can_assign = [{ admin = "a", condition = "any", range = "[a, b]" }] => WrongKind can_assign.0.range;
can_assign = [{ admin = "a", condition = "any", range = "[z,\u00e9]" }] => WrongKind can_assign.0.range;
can_assign = [{ admin = "a", condition = "any", range = "[a,any]" }] => UnknownRole can_assign.0.range;
can_assign = [{ admin = "a", condition = "any", range = "(z,y)" }] => UnknownRole can_assign.0.range;
can_assign = [{ admin = "a", condition = "any", range = "(b,a)" }, { admin = "" }] => UnknownRole can_assign.1.admin;
can_assign = [1]
can_revoke = [1] => WrongKind can_assign.0;
can_revoke = [1]
can_assignp = [1] => WrongKind can_revoke.0;
can_assignp = [1]
can_revokep = [1] => WrongKind can_assignp.0;
can_revokep = [1]
profile = [1] => WrongKind can_revokep.0;
profile = [1]
goal = [1] => WrongKind profile.0;
can_revoke = [{ admin = "a", condition = "any", range = "[a,a]" }] => UnknownKey can_revoke.0.condition;
can_revoke = [{}] => Missing can_revoke.0.admin;
can_revoke = [{ admin = "b" }] => Missing can_revoke.0.range;
can_revoke = [{ admin = "b", range = "a" }] => WrongKind can_revoke.0.range;
can_revoke = [{ admin = "a", range = "(a,a]" }] => read;
can_revoke = [{ admin = "a", range = "[,a]" }] => WrongKind can_revoke.0.range;
can_assignp = [{ admin = "b", condition = "not any" }] => Cond can_assignp.0.condition Unexpected 4;
can_revokep = 1 => WrongKind can_revokep"#;

/// Behind the beginning of the first version: profiles.
pub const PROFILES: &str = r#"profile = {} => WrongKind profile;
profile = [[]] => WrongKind profile.0;
profile = [{}] => Missing profile.0.roles;
profile = [{ most = -1 }] => Missing profile.0.roles;
profile = [{ name = 1 }] => UnknownKey profile.0.name;
profile = [{ roles = "a" }] => WrongKind profile.0.roles;
profile = [{ roles = ["a"] }, { roles = ["a", "z"], most = -1 }] => UnknownRole profile.1.roles.1;
profile = [{ roles = [1], most = -1 }] => WrongKind profile.0.roles.0;
profile = [{ roles = [], most = -1 }] => WrongKind profile.0.most;
profile = [{ roles = [], most = 1000001 }] => WrongKind profile.0.most;
profile = [{ roles = [], most = 1.0 }] => WrongKind profile.0.most;
profile = [{ roles = [], most = "all" }] => WrongKind profile.0.most;
profile = [{ roles = [], most = "Any" }] => WrongKind profile.0.most;
profile = [{ roles = ["b", "b"], most = 0 }, { roles = [], most = 1000000 }, { roles = [], most = "any" }] => read"#;

/// Behind the beginning of the first version: the goal, which is read though none is needed.
pub const GOALS: &str = r#"goal = [] => WrongKind goal;
goal = "a" => WrongKind goal;
goal = ["a", 1, "("] => WrongKind goal.1;
goal = ["a", "(", 1] => Cond goal.1 Unexpected 1;
goal = ["a", "b", "z"] => Cond goal.2 UnknownRole 0;
goal = ["a", "a"] => read;
goal = ["not not"] => Cond goal.0 Unexpected 4;
goal = ["", "a", "a", "a", "a", "a", "a", "a", "a"] => TooMany goal 9;
goal = ["a or b or a or b", "(a or b) and (a or b) and (a or b) and (a or b)", "(a or b) and (a or b) and (a or b) and (a or b)"] => read;
goal = ["a or b or a or b", "(a or b) and (a or b) and (a or b) and (a or b)", "(a or b) and (a or b) and (a or b) and (a or b)", "any", "a or b", "a or b"] => TooWide goal 2048;
goal = ["a or b or a or b or a", "(a or b) and (a or b) and (a or b) and (a or b)", "(a or b) and (a or b) and (a or b) and (a or b)", "("] => Cond goal.3 Unexpected 1;
goal = ["a or b or a or b or a", "(a or b) and (a or b) and (a or b) and (a or b)", "(a or b) and (a or b) and (a or b) and (a or b)"] => TooWide goal 1280"#;

/// Behind the beginning of the first version: lists of tables as TOML writes them.
pub const TABLES: &str = r#"[[can_assign]]
admin = "a"
condition = "b"
range = "[a,b]"
[[can_assign]]
admin = "a"
 => Missing can_assign.1.condition;
[can_assign]
admin = "a"
 => WrongKind can_assign;
[[profile]]
roles = []
[[profile]]
most = 1
 => Missing profile.1.roles;
[[roles]]
 => NotToml;
[alpha]
admin = "a"
 => UnknownKey alpha;
edges = []
profile = []
can_assign = []
can_revokep = [] => read;
separate = false => NotToml;
goal = [1979-05-27] => WrongKind goal.0;
goal = ["a"] # b => read"#;

/// Behind the beginning of the second version.
pub const PAIRS: &str = r#" => read;
exclusive = [] => read;
exclusive = [["a", "b"], ["b", "a"]] => read;
exclusive = "a" => WrongKind exclusive;
exclusive = [["a", "b"], ["a", "a"]] => WrongKind exclusive.1;
exclusive = [["c", "c"]] => WrongKind exclusive.0;
exclusive = [["a"]] => WrongKind exclusive.0;
exclusive = [["c", "a"], []] => UnknownRole exclusive.0;
exclusive = [["a", "c"]] => UnknownRole exclusive.0;
admin_roles = ["a"]
exclusive = [["a", "b"]] => read;
edges = [["b", "b"]]
exclusive = 1 => Cycle 0"#;

/// Behind the beginning of a document that keeps administrative roles apart.
pub const APART: &str = r#"edges = [["b", "b"], ["b", "a"]] => MixedRole edges.1;
edges = [["a", "b"], ["b"]] => WrongKind edges.1;
can_assign = [{ admin = "b", condition = "any", range = "[b,b]" }] => MixedRole can_assign.0;
can_assignp = [{ admin = "a", condition = "b or not a", range = "[b,b]" }] => MixedRole can_assignp.0;
can_revoke = [{ admin = "a", range = "[b,b]" }, { admin = "a", range = "[b,a]" }] => MixedRole can_revoke.1;
can_revokep = [{ admin = "a", range = "[a,b)" }]
profile = 1 => MixedRole can_revokep.0;
can_assign = [{ admin = "b", condition = "(a or b) and (a or b) and (a or b) and (a or b) and (a or b) and (a or b) and (a or b) and (a or b) and (a or b) and (a or b) and (a or b)", range = "[b,b]" }] => TooWide can_assign.0 2048;
can_assign = [{ admin = "a", condition = "b", range = "[b,b]" }]
profile = [{ roles = ["a", "b"] }]
goal = ["a and b"] => read;
edges = [["a", "b"], ["b", "a"]] => MixedRole edges.0;
can_revoke = [{ admin = "b", range = "[b,b]" }] => MixedRole can_revoke.0;
can_assign = [{ admin = "a", condition = "b", range = "[b,a]" }] => MixedRole can_assign.0;
can_assign = [{ admin = "a", condition = "a and b", range = "[b,b]" }] => MixedRole can_assign.0;
can_assign = [{ admin = "b", condition = "any", range = "[b,b]" }, 1] => MixedRole can_assign.0"#;
