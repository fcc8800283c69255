//! Checking certificates.

ghost use Rattle.std.specs.Prelude.{◌≡◌, length, IfOk};
ghost use Rattle.question_text.specs.Values as questions;
ghost use Rattle.question_text.specs.Rules.{KeepsRules};
ghost use Rattle.cert_text.specs.Certificates.{plain_of, IsCertificate};
ghost use Rattle.cert_check.specs.declared.judgement.Judgement.TheVariants.{Accepted};
ghost use Rattle.cert_check.specs.Asked.{Reason, HasProperty, FailsFirst};
ghost use Rattle.cert_check.specs.Judgements.{asked_by, IfAccepted, IfRefused, IsRefusal};

use crate::NoMemory;
use crate::closed::judge_needs;
use crate::judgement::Judgement;
use crate::plan::judge_plan;
use crate::recorded::judge_steps;
use cert_text::Cert;
use question_text::Question;
use std::alloc::Global;

/// Judges the certificate by what it says.
fn judge(alloc: Global, question: &Question, cert: &Cert) -> Result<Judgement, NoMemory>
    requires { KeepsRules (questions.plain_of question.now) }
    ensures accepted { IfOk result (λ judgement. IfAccepted judgement (HasProperty (asked_by question.now) (plain_of cert.now))) }
    ensures refused { IfOk result (λ judgement. IfRefused judgement (FailsFirst (asked_by question.now) (plain_of cert.now))) }
{
    match cert {
        Cert::Reachable { start, acts } => judge_plan(alloc, question, start, acts),
        Cert::Unreachable { needs } => judge_needs(alloc, question, needs),
        Cert::Undecided {
            limit,
            recorded,
            next,
        } => judge_steps(alloc, question, *limit, recorded, next),
    }
}

/// Whether the certificate shows what it says of the question, or the first condition that fails. This project's own.
pub fn check(alloc: Global, question: &Question, cert: &Cert) -> Result<Judgement, NoMemory>
    requires question { KeepsRules (questions.plain_of question.now) }
    requires roles { IsCertificate (length question.now.policy.order.names) (plain_of cert.now) }
    // It is accepted exactly where it has its property.
    ensures accepted { IfOk result (λ judgement. IfAccepted judgement (HasProperty (asked_by question.now) (plain_of cert.now))) }
    ensures has { IfOk result (λ judgement. HasProperty (asked_by question.now) (plain_of cert.now) → judgement ≡ Accepted) }
    // It is refused with the first reason, and with it alone.
    ensures refused { IfOk result (λ judgement. IfRefused judgement (FailsFirst (asked_by question.now) (plain_of cert.now))) }
    ensures fails { IfOk result (λ judgement. (reason : Reason) → FailsFirst (asked_by question.now) (plain_of cert.now) reason →
        IsRefusal judgement reason) }
{
    let judgement = judge(alloc, question, cert)?;
    Ok(judgement)
}
