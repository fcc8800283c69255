//! Each fault and each line, as it is written.
use crate::{
    Fault, TooLong, kind_word, malformed, put_goal_lines, put_part, put_user_lines, put_why,
    read_fault, usage,
};
use arbac_policy::{Part, Side};
use cert_check::Why;
use cert_text::{Cert, CertError, Need, Step, StepFrom};
use cond_text::CondError;
use policy_text::RunError;
use profile_set::MembersError;
use question_text::QuestionError;
use role_order::{Order, OrderError, RoleSet};
use std::alloc::{AllocError, Global};
use std::test::Fail;
use text_pieces::put;

const OF_RUNS: [RunError; 12] = [
    RunError::BadLine { line: 1 },
    RunError::UnknownRole { line: 20 },
    RunError::Order(OrderError::NoRoles),
    RunError::Order(OrderError::TooManyRoles { count: 251 }),
    RunError::Order(OrderError::BadName { place: 3 }),
    RunError::Order(OrderError::SameName {
        first: 4,
        second: 1,
    }),
    RunError::Order(OrderError::Cycle { place: 0 }),
    RunError::Cond {
        line: 7,
        error: CondError::Unexpected { place: 0 },
    },
    RunError::Cond {
        line: 7,
        error: CondError::UnknownRole { place: 4 },
    },
    RunError::Cond {
        line: 7,
        error: CondError::TooDeep { place: 9 },
    },
    RunError::TooMany {
        line: 4_294_967_295,
    },
    RunError::Unended,
];

const RUN_LINES: &str = "malformed r: BadLine 1
malformed r: UnknownRole 20
malformed r: NoRoles
malformed r: TooManyRoles 251
malformed r: BadName 3
malformed r: SameName 4 1
malformed r: Cycle 0
malformed r: Cond 7 Unexpected 0
malformed r: Cond 7 UnknownRole 4
malformed r: Cond 7 TooDeep 9
malformed r: TooMany 4294967295
malformed r: Unended
malformed r: TooLong
";

const OF_MEMBERS: [MembersError; 2] = [
    MembersError::BadRow { number: 1 },
    MembersError::UnknownRole { number: 12 },
];

const MEMBERS_LINES: &str = "malformed m: BadRow 1
malformed m: UnknownRole 12
";

const OF_CERTIFICATES: [CertError; 3] = [
    CertError::BadLine {
        line: 4_294_967_295,
    },
    CertError::UnknownRole { line: 3 },
    CertError::Unended,
];

const CERTIFICATE_LINES: &str = "malformed c: BadLine 4294967295
malformed c: UnknownRole 3
malformed c: Unended
";

const QUESTION_LINES: &str = "malformed q: NotToml
malformed q: Missing separate
malformed q: WrongKind can_assign.3.range
malformed q: UnknownRole edges.0
malformed q: NoRoles
malformed q: Cond goal.1 Unexpected 2
malformed q: MixedRole exclusive.0
malformed q: TooMany exclusive 1001
malformed q: TooWide goal 340282366920938463463374607431768211455
malformed q: UnknownKey extra
";

const REASON_LINES: &str = "NotDrawn user 2
StepRefused act 3 NoAdmin PE1 rule 0
GoalNotMet
GoalUncovered goal 1023
Open need 7 obligation 340282366920938463463374607431768211455
StartsMet need 0 choice -
StartsMet need 1 choice 4
StartsMet need 2 choice 0,0,12
NotDerived need 65536
Repeated need 5 by 4
WrongCount 0
reachable
unreachable
undecided
";

const OF_PARTS: [Part; 7] = [
    Part::NoUser {
        side: Side::Admin,
        place: 5,
    },
    Part::NoUser {
        side: Side::Target,
        place: 5,
    },
    Part::NoRole { role: 120 },
    Part::NoRange { role: 1 },
    Part::NoAdmin { role: 1, rule: 0 },
    Part::NoCondition { role: 0, rule: 2 },
    Part::Exclusive { role: 0, pair: 0 },
];

const PART_LINES: &str = "NoUser admin 5
NoUser target 5
NoRole 120
NoRange PE1
NoAdmin PE1 rule 0
NoCondition E rule 2
Exclusive E pair 0
";

fn add_line<F: Fault>(
    alloc: Global,
    lines: &mut Vec<u8>,
    name: &str,
    fault: &F,
) -> Result<(), AllocError> {
    lines.extend_from_slice(&malformed(alloc, name, fault)?)?;
    Ok(())
}

fn question_faults(alloc: Global) -> Result<Vec<QuestionError>, AllocError> {
    let mut faults = Vec::new(alloc);
    faults.push(QuestionError::NotToml)?;
    let key = String::from_str(alloc, "separate")?;
    faults.push(QuestionError::Missing { key })?;
    let key = String::from_str(alloc, "can_assign.3.range")?;
    faults.push(QuestionError::WrongKind { key })?;
    let key = String::from_str(alloc, "edges.0")?;
    faults.push(QuestionError::UnknownRole { key })?;
    faults.push(QuestionError::Order(OrderError::NoRoles))?;
    let key = String::from_str(alloc, "goal.1")?;
    let error = CondError::Unexpected { place: 2 };
    faults.push(QuestionError::Cond { key, error })?;
    let key = String::from_str(alloc, "exclusive.0")?;
    faults.push(QuestionError::MixedRole { key })?;
    let key = String::from_str(alloc, "exclusive")?;
    faults.push(QuestionError::TooMany { key, count: 1001 })?;
    let key = String::from_str(alloc, "goal")?;
    let count = u128::MAX;
    faults.push(QuestionError::TooWide { key, count })?;
    let key = String::from_str(alloc, "extra")?;
    faults.push(QuestionError::UnknownKey { key })?;
    Ok(faults)
}

#[test]
fn each_fault_has_its_line(rt: HostRuntime) -> Result<(), Fail> {
    let alloc = rt.alloc();
    let mut lines = Vec::new(alloc);
    for fault in &OF_RUNS {
        add_line(alloc, &mut lines, "r", fault)?;
    }
    add_line(alloc, &mut lines, "r", &TooLong)?;
    for fault in &OF_MEMBERS {
        add_line(alloc, &mut lines, "m", fault)?;
    }
    for fault in &OF_CERTIFICATES {
        add_line(alloc, &mut lines, "c", fault)?;
    }
    for fault in &question_faults(alloc)? {
        add_line(alloc, &mut lines, "q", fault)?;
    }
    let mut wanted = Vec::new(alloc);
    put(&mut wanted, RUN_LINES)?;
    put(&mut wanted, MEMBERS_LINES)?;
    put(&mut wanted, CERTIFICATE_LINES)?;
    put(&mut wanted, QUESTION_LINES)?;
    assert_eq!(&rt; lines.as_slice(), wanted.as_slice());
    assert_eq!(&rt;
        read_fault(alloc, "r")?.as_slice(),
        b"read fault: r\n".as_slice()
    );
    assert!(&rt; usage().starts_with("usage: ask QUESTION | "));
    Ok(())
}

fn two_roles(alloc: Global) -> Result<Order, Fail> {
    let mut names = Vec::new(alloc);
    names.push(String::from_str(alloc, "E")?)?;
    names.push(String::from_str(alloc, "PE1")?)?;
    Ok(Order::new(alloc, names, Vec::new(alloc))?)
}

#[test]
fn each_part_and_each_user_has_a_line(rt: HostRuntime) -> Result<(), Fail> {
    let alloc = rt.alloc();
    let order = two_roles(alloc)?;
    let mut lines = Vec::new(alloc);
    for part in &OF_PARTS {
        put_part(alloc, &mut lines, &order, *part)?;
        put(&mut lines, "\n")?;
    }
    assert_eq!(&rt; lines.as_slice(), PART_LINES.as_bytes());
    let sets = [
        RoleSet::empty(),
        RoleSet::empty().with(1),
        RoleSet::empty().with(1).with(0),
    ];
    let mut lines = Vec::new(alloc);
    put_user_lines(alloc, &mut lines, &order, &sets)?;
    put_goal_lines(alloc, &mut lines, &[2, 0])?;
    assert_eq!(&rt;
        lines.as_slice(),
        "user 0\nuser 1 PE1\nuser 2 E PE1\ngoal 0 2\ngoal 1 0\n".as_bytes()
    );
    Ok(())
}

fn reasons(alloc: Global) -> Result<Vec<Why>, AllocError> {
    let mut reasons = Vec::new(alloc);
    reasons.push(Why::NotDrawn { user: 2 })?;
    reasons.push(Why::StepRefused {
        place: 3,
        part: Part::NoAdmin { role: 1, rule: 0 },
    })?;
    reasons.push(Why::GoalNotMet)?;
    reasons.push(Why::GoalUncovered { goal: 1023 })?;
    let obligation = u128::MAX;
    reasons.push(Why::Open {
        need: 7,
        obligation,
    })?;
    for (need, chosen) in [[].as_slice(), &[4], &[0, 0, 12]].iter().enumerate() {
        let mut choice = Vec::new(alloc);
        choice.extend_from_slice(*chosen)?;
        reasons.push(Why::StartsMet {
            need: need as u32,
            choice,
        })?;
    }
    reasons.push(Why::NotDerived { place: 65_536 })?;
    reasons.push(Why::Repeated {
        place: 5,
        earlier: 4,
    })?;
    reasons.push(Why::WrongCount { count: 0 })?;
    Ok(reasons)
}

/// A certificate of each kind.
fn certificates(alloc: Global) -> Result<Vec<Cert>, AllocError> {
    let mut certs = Vec::new(alloc);
    certs.push(Cert::Reachable {
        start: Vec::new(alloc),
        acts: Vec::new(alloc),
    })?;
    certs.push(Cert::Unreachable {
        needs: Vec::new(alloc),
    })?;
    let users = Vec::new(alloc);
    certs.push(Cert::Undecided {
        limit: 1,
        recorded: Vec::new(alloc),
        next: Step {
            origin: StepFrom::Goal { place: 0 },
            need: Need { users },
        },
    })?;
    Ok(certs)
}

#[test]
fn each_kind_and_each_reason_has_its_words(rt: HostRuntime) -> Result<(), Fail> {
    let alloc = rt.alloc();
    let order = two_roles(alloc)?;
    let mut lines = Vec::new(alloc);
    for why in &reasons(alloc)? {
        put_why(alloc, &mut lines, &order, why)?;
        put(&mut lines, "\n")?;
    }
    for cert in &certificates(alloc)? {
        put(&mut lines, kind_word(cert))?;
        put(&mut lines, "\n")?;
    }
    assert_eq!(&rt; lines.as_slice(), REASON_LINES.as_bytes());
    Ok(())
}
