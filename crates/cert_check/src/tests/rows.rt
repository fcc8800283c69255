//! Certificates without their first and last lines, each with its judgement.
//!
//! A row is `LINES => JUDGEMENT`, and `;` with the end of the line stands between rows; each list is one text, since the check
//! reads a list of rows entry by entry.

/// A line of a user.
pub const LACKS: &str = "user lack adm\n";

/// What needs begin with.
pub const BEGUN: &str = "unreachable\nneed\n";

/// Needs that are closed where administrators give `c` and take `adm`.
pub const CLOSED: &str =
    "unreachable\nneed\nuser hit c\nneed\nuser lack adm\nuser hit adm\nneed\nuser\nuser hit adm\n";

/// Plans with two administrators.
pub const PLANS_OF_MIX_2: &str = r#"reachable
start 0
start 0
act weak 1 0 adm
act assign 1 0 c
 => accepted;
reachable
start 0
start 0
act weak 0 0 adm
act assign 1 0 c
 => accepted;
reachable
start 0
start 0
act weak 1 0 adm
 => GoalNotMet;
reachable
 => GoalNotMet;
reachable
start 0
start 0
act assign 1 0 c
act weak 1 0 adm
 => StepRefused 0 NoCondition { role: 1, rule: 0 };
reachable
start 0
start 0
act weak 1 0 adm
act assign 0 0 c
 => StepRefused 1 NoAdmin { role: 1, rule: 0 };
reachable
start 0
start 0
act weak 1 0 c
act assign 1 0 c
 => StepRefused 0 NoRange { role: 1 };
reachable
start 0
start 0
act weak 1 2 adm
 => StepRefused 0 NoUser { side: Target, place: 2 };
reachable
start 0
start 0
start 0
act weak 1 2 c
 => NotDrawn 2;
reachable
start 1
start 0
 => NotDrawn 0"#;

/// Plans where who has the role is given it.
pub const OF_SELF: &str = r#"reachable
start 0
act assign 0 0 a
 => StepRefused 0 NoCondition { role: 1, rule: 0 };
reachable
start 0
 => GoalNotMet"#;

/// Certificates on a goal that is met at the start.
pub const OF_ONE: &str = r#"reachable
start 0
 => accepted;
reachable
start 1
 => NotDrawn 0;
unreachable
need
user hit a
 => StartsMet 0 [0]"#;

/// Plans and needs for users of two profiles.
pub const OF_TWO: &str = r#"reachable
start 1
start 1
start 0
 => accepted;
reachable
start 1
start 0
 => GoalNotMet;
reachable
start 1
start 1
start 1
 => NotDrawn 2;
unreachable
need
user hit a
user hit a
user hit b
 => StartsMet 0 [1, 1, 0];
unreachable
need
user hit a
user hit b
user hit b
 => GoalUncovered 0"#;

/// Certificates with one administrator.
pub const OF_MIX_1: &str = r#"unreachable
need
 => StartsMet 0 [];
reachable
start 0
start 0
act weak 1 0 adm
act assign 1 0 c
 => NotDrawn 1;
unreachable
need
user hit c
need
user lack adm
user hit adm
need
user
user hit adm
 => accepted;
unreachable
need
user lack adm
user hit adm
need
user
user hit adm
 => GoalUncovered 0;
unreachable
need
user lack adm
user hit adm
 => GoalUncovered 0;
unreachable
need
user hit c
need
user lack adm
user hit adm
 => Open 1 0;
unreachable
need
user hit c
need
user
user hit adm
 => accepted;
unreachable
need
user hit c
need
user lack adm
user hit adm
need
user hit adm
user hit adm
 => Open 1 1;
unreachable
need
user hit c
need
user lack adm
user hit adm
need
user
user hit c
 => Open 1 0;
unreachable
need
user lack c
need
user hit c
 => Open 1 1;
unreachable
need
user hit c
need
user lack adm
user hit adm
need
user hit adm
 => StartsMet 2 [0]"#;

/// Needs for two users with one role, which one user has.
pub const OF_MANY: &str = r#"unreachable
need
user hit a
user hit a
 => accepted;
unreachable
need
user hit a
 => StartsMet 0 [0];
unreachable
need
user hit a
user hit a
user hit a
 => GoalUncovered 0;
reachable
start 0
 => GoalNotMet"#;

/// Certificates with one administrator who gives the role to himself.
pub const OF_GIVERS: &str = r#"unreachable
need
user hit a
need
user
user hit adm
 => Open 0 0;
unreachable
need
user hit a
need
user hit adm
 => StartsMet 1 [0];
reachable
start 0
act assign 0 0 a
 => accepted"#;

/// Needs for a goal of two conjuncts.
pub const OF_ORS: &str = r#"unreachable
need
user hit a
 => GoalUncovered 2;
unreachable
need
user hit b
 => GoalUncovered 0;
unreachable
need
user hit b
need
user hit a
 => accepted;
unreachable
 => GoalUncovered 0"#;

/// Needs for a role that a senior role has too.
pub const OF_HEIRS: &str = r#"unreachable
need
user hit a
 => GoalUncovered 0;
unreachable
need
user hit a,b
 => accepted"#;

/// Needs for a role that can't be given.
pub const OF_BARRED: &str = r#"unreachable
need
user hit a
 => accepted;
unreachable
need
user hit b
need
user hit a
 => Open 0 0"#;

/// Needs for the lead of the first project.
pub const OF_ENG: &str = r#"unreachable
need
user hit DIR,DSO,PSO1,PSO2
need
user hit PL1,DIR
need
user hit PE1,PL1,DIR hit QE1,PL1,DIR hit SSO,DSO,PSO1
need
user hit PE1,PL1,DIR hit QE1,PL1,DIR
user hit SSO,DSO,PSO1
 => accepted;
unreachable
need
user hit PL1,DIR
need
user hit PE1,PL1,DIR hit QE1,PL1,DIR
user hit SSO,DSO,PSO1
 => Open 0 0"#;

/// Steps with two administrators.
pub const OF_MIX_2: &str = r#"undecided 1
need goal 0
user hit c
next pre 0 assign 0 0 c 0 new
user lack adm
user hit adm
 => accepted;
undecided 2
need goal 0
user hit c
next pre 0 assign 0 0 c 0 new
user lack adm
user hit adm
 => WrongCount 1;
undecided 1
need goal 0
user hit adm
next pre 0 assign 0 0 c 0 new
user lack adm
user hit adm
 => NotDerived 0;
undecided 1
need goal 1
user hit c
next pre 0 assign 0 0 c 0 new
user lack adm
user hit adm
 => NotDerived 0;
undecided 1
need goal 0
user hit c
next goal 0
user hit c
 => Repeated 1 0;
undecided 1
need goal 0
user hit c
next pre 1 assign 0 0 c 0 new
user lack adm
user hit adm
 => NotDerived 1;
undecided 1
need goal 0
user hit c
next pre 0 assign 1 0 c 0 new
user lack adm
user hit adm
 => NotDerived 1;
undecided 1
need goal 0
user hit c
next pre 0 assign 0 1 c 0 new
user lack adm
user hit adm
 => NotDerived 1;
undecided 1
need goal 0
user hit c
next pre 0 assign 0 0 adm 0 new
user lack adm
user hit adm
 => NotDerived 1;
undecided 1
need goal 0
user hit c
next pre 0 assign 0 0 c 1 new
user lack adm
user hit adm
 => NotDerived 1;
undecided 1
need goal 0
user hit c
next pre 0 assign 0 0 c 0 self
user lack adm
user hit adm
 => NotDerived 1;
undecided 1
need goal 0
user hit c
next pre 0 assign 0 0 c 0 new
user hit adm
user lack adm
 => NotDerived 1;
undecided 2
need goal 0
user hit c
need pre 0 assign 0 0 c 0 new
user lack adm
user hit adm
next pre 1 weak 0 adm 0 1
user
user hit adm
 => StartsMet 2 [0, 0];
undecided 2
need goal 0
user hit c
need pre 0 assign 0 0 c 0 new
user lack adm
user hit adm
next pre 1 weak 0 adm 0 self
user hit adm
user hit adm
 => StartsMet 2 [0, 0];
undecided 2
need goal 0
user hit c
need pre 0 assign 0 0 c 0 new
user lack adm
user hit adm
next pre 1 weak 0 adm 0 new
user
user hit adm
user hit adm
 => accepted;
undecided 2
need goal 0
user hit c
need pre 0 assign 0 0 c 0 new
user lack adm
user hit adm
next pre 1 weak 0 adm 0 0
user hit adm
user hit adm
 => NotDerived 2;
undecided 2
need goal 0
user hit c
need pre 0 assign 0 0 c 0 new
user lack adm
user hit adm
next pre 1 weak 0 adm 1 0
user
user hit adm
 => NotDerived 2;
undecided 2
need goal 0
user hit c
need pre 0 assign 0 0 c 0 new
user lack adm
user hit adm
next pre 0 assign 0 0 c 0 new
user lack adm
user hit adm
 => Repeated 2 1"#;

/// Steps without a user at the start, the last of which an earlier one covers.
pub const STEPS_OF_GIVERS: &str = r#"undecided 2
need goal 0
user hit a
need pre 0 assign 0 0 a 0 self
user hit adm
next pre 0 assign 0 0 a 0 new
user
user hit adm
 => Repeated 2 1;
undecided 2
need goal 0
user hit a
need pre 0 assign 0 0 a 0 new
user
user hit adm
next pre 0 assign 0 0 a 0 self
user hit adm
 => accepted"#;
