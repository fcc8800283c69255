//! Outcomes as certificates.

ghost use Rattle.std.specs.Prelude.{◌≡◌, map, IfOk};
ghost use Rattle.arbac_laws.specs.Views.{need_of};
ghost use Rattle.cert_text.specs.Certificates.{plain_of, origin_of, entry_of, users_of, pick_of};
ghost use Rattle.back_search.specs.Answers.{entry_in, entries_in};
ghost use Rattle.req_pre.specs.Views as obligations;
ghost use Rattle.search_rounds.specs.Views as searched;
ghost use Rattle.question_answer.specs.Outcomes.{certificate_of, IsKind};

use crate::NoMemory;
use back_search::{Entry, Origin, Outcome};
use cert_text::{Cert, Need, NeedUser, Step, StepFrom, Who};
use req_core::{Req, UserReq};
use req_pre::{Obligation, Pick};
use std::alloc::Global;

/// What a certificate says of its question.
#[derive(Clone, Copy, Debug, PartialEq, Eq)]
pub enum Kind {
    Reachable,
    Unreachable,
    Undecided,
}

/// What the certificate says.
pub fn kind_of(cert: &Cert) -> Kind
    ensures { IsKind (plain_of cert.now) result }
{
    match cert {
        Cert::Reachable { .. } => Kind::Reachable,
        Cert::Unreachable { .. } => Kind::Unreachable,
        Cert::Undecided { .. } => Kind::Undecided,
    }
}

/// The user requirement.
fn need_user(alloc: Global, user: &UserReq) -> Result<NeedUser, NoMemory>
    ensures { IfOk result (λ made. need_of made ≡ user.now) }
{
    let mut hits = Vec::with_capacity(alloc, user.hits().len())?;
    hits.extend_from_slice(user.hits())?;
    let lacks = *user.lacks();
    Ok(NeedUser { hits, lacks })
}

/// The requirement.
fn need(alloc: Global, req: &Req) -> Result<Need, NoMemory>
    ensures { IfOk result (λ made. users_of made ≡ req.now) }
{
    let users = req.users();
    let mut made = Vec::with_capacity(alloc, users.len())?;
    for user in users {
        made.push(need_user(alloc, user)?)?;
    }
    Ok(Need { users: made })
}

/// The requirements, which are given up one by one.
fn needs(alloc: Global, list: Vec<Req>) -> Result<Vec<Need>, NoMemory>
    ensures { IfOk result (λ made. map users_of made.items ≡ list.items) }
{
    let mut made = Vec::with_capacity(alloc, list.len())?;
    for req in list {
        made.push(need(alloc, &req)?)?;
    }
    Ok(made)
}

fn who(pick: Pick) -> Who
    ensures { pick_of result ≡ obligations.pick_of pick }
{
    match pick {
        Pick::Itself => Who::Itself,
        Pick::Other(place) => Who::Other(place),
        Pick::Fresh => Who::Fresh,
    }
}

/// Where a requirement comes from.
fn step_from(origin: &Origin) -> StepFrom
    ensures { origin_of result ≡ searched.origin_of origin.now }
{
    match *origin {
        Origin::Goal(place) => StepFrom::Goal { place },
        Origin::Pre {
            parent,
            ob: Obligation::Assign {
                rule,
                conjunct,
                role,
                target,
                admin,
            },
        } => StepFrom::Assign {
            parent,
            rule,
            conjunct,
            role,
            target,
            admin: who(admin),
        },
        Origin::Pre {
            parent,
            ob: Obligation::Weak {
                rule,
                role,
                target,
                admin,
            },
        } => StepFrom::Weak {
            parent,
            rule,
            role,
            target,
            admin: who(admin),
        },
    }
}

/// The recorded requirement with its origin.
fn step(alloc: Global, entry: &Entry) -> Result<Step, NoMemory>
    ensures { IfOk result (λ made. entry_of made ≡ entry_in entry.now) }
{
    Ok(Step {
        origin: step_from(&entry.origin),
        need: need(alloc, &entry.req)?,
    })
}

/// The recorded requirements, which are given up one by one.
fn steps(alloc: Global, list: Vec<Entry>) -> Result<Vec<Step>, NoMemory>
    ensures { IfOk result (λ made. map entry_of made.items ≡ entries_in list.items) }
{
    let mut made = Vec::with_capacity(alloc, list.len())?;
    for entry in list {
        made.push(step(alloc, &entry)?)?;
    }
    Ok(made)
}

/// The certificate of the outcome of a search with this limit.
pub fn certificate(alloc: Global, outcome: Outcome, limit: u32) -> Result<Cert, NoMemory>
    ensures { IfOk result (λ cert. plain_of cert ≡ certificate_of limit outcome) }
{
    match outcome {
        Outcome::Found {
            choice: start,
            acts,
            recorded: _,
        } => Ok(Cert::Reachable { start, acts }),
        Outcome::Closed {
            needs: list,
            recorded: _,
        } => {
            let needs = needs(alloc, list)?;
            Ok(Cert::Unreachable { needs })
        }
        Outcome::Limit { recorded, next } => {
            let next = step(alloc, &next)?;
            let recorded = steps(alloc, recorded)?;
            Ok(Cert::Undecided {
                limit,
                recorded,
                next,
            })
        }
    }
}
