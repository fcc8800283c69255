//! Reading certificate texts.

ghost use Rattle.std.specs.Prelude.{ℕ, ◌≡◌, ◌<◌, ◌+◌, ◌^◌, ◌∷◌, List, codes, length, IfOk, IfErr, OnOk};
ghost use Rattle.text_lines.specs.Lines.{split};
ghost use Rattle.cert_text.specs.declared.TheConstants.{MOST_LIMIT};
ghost use Rattle.cert_text.specs.declared.cert_error.CertError.{CertError};
ghost use Rattle.cert_text.specs.Certificates.{Certificate, plain_of, IsCertificate, Reads};
ghost use Rattle.cert_text.specs.Drafts.{nothing, IsReadTo, StandsFor};
ghost use Rattle.cert_text.specs.Faults.{IsLineFault, IsFirstFault, IsRefused, Tells};
ghost use Rattle.cert_text.specs.Steps.{AddsLine, IsReadUpTo, IsReadAs};

use crate::cert::Cert;
use crate::cert_error::CertError;
use crate::line::read_line;
use crate::sections::{Kind, Needs, Plan, Section, Steps, kind_of};
use cond_text::cut;
use role_order::Order;
use std::alloc::Global;
use text_lines::is;

/// Adds what a line says that isn't `end`.
fn add_line<S: Section>(
    alloc: Global,
    order: &Order,
    section: &mut S,
    line: &[u8],
    number: u32,
) -> Result<(), CertError>
    requires { ¬ (line.now ≡ codes "end") }
    ensures added { OnOk result (AddsLine order.now.names (S.draft section.old) line.now (S.draft section.new)) }
    ensures fault { IfErr result (IsLineFault order.now.names (S.draft section.old) line.now number) }
{
    let Some(form) = read_line(alloc, order, line)? else {
        return Err(CertError::BadLine { line: number });
    };
    section.add(alloc, form, number)
}

/// The certificate at the line `end`, which has the number, if it is whole and nothing stands behind it.
fn end_at<S: Section>(section: S, after: &[u8], number: u32) -> Result<Cert, CertError>
    requires { number + 1 < 2 ^ 32 }
    ensures { (names : List (List ℕ)) (bytes : List ℕ) →
        IsReadTo names bytes (S.draft section) number (codes "end" ∷ (split after.now).0) (split after.now).1 →
        IsReadAs names bytes result }
{
    let Some(cert) = section.finish() else {
        return Err(CertError::BadLine { line: number });
    };
    if !after.is_empty() {
        return Err(CertError::BadLine { line: number + 1 });
    }
    Ok(cert)
}

/// Reads the lines behind that of the kind, of which the first has the number.
fn read_lines<S: Section>(
    alloc: Global,
    order: &Order,
    mut section: S,
    text: &[u8],
    first: u32,
) -> Result<Cert, CertError>
    requires { length text.now + first + 1 < 2 ^ 32 }
    ensures { (bytes : List ℕ) → IsReadUpTo order.now.names bytes (S.draft section) first text.now → IsReadAs order.now.names bytes result }
{
    let mut rest = text;
    let mut number = first;
    while let Some((line, after)) = cut(rest, b'\n') {
        if is(line, "end") {
            return end_at(section, after, number);
        }
        add_line(alloc, order, &mut section, line, number)?;
        rest = after;
        number += 1;
    }
    Err(CertError::Unended)
}

/// Reads the lines behind the first one.
fn read_kind(alloc: Global, order: &Order, text: &[u8]) -> Result<Cert, CertError>
    requires { length text.now + 4 < 2 ^ 32 }
    ensures { (bytes : List ℕ) → IsReadUpTo order.now.names bytes nothing 2 text.now → IsReadAs order.now.names bytes result }
{
    let Some((line, rest)) = cut(text, b'\n') else {
        return Err(CertError::Unended);
    };
    match kind_of(read_line(alloc, order, line)?) {
        Some(Kind::Reachable) => read_lines(alloc, order, Plan::new(alloc), rest, 3),
        Some(Kind::Unreachable) => read_lines(alloc, order, Needs::new(alloc), rest, 3),
        Some(Kind::Undecided(limit)) => read_lines(alloc, order, Steps::new(alloc, limit), rest, 3),
        None => Err(CertError::BadLine { line: 2 }),
    }
}

/// The certificate of a text whose lines can be counted in 32 bits.
fn read_short(alloc: Global, order: &Order, bytes: &[u8]) -> Result<Cert, CertError>
    requires { length bytes.now < 2 ^ 32 }
    ensures { IsReadAs order.now.names bytes.now result }
{
    let Some((line, rest)) = cut(bytes, b'\n') else {
        return Err(CertError::Unended);
    };
    if !is(line, "arbac certificate 1") {
        return Err(CertError::BadLine { line: 1 });
    }
    read_kind(alloc, order, rest)
}

fn read(alloc: Global, order: &Order, bytes: &[u8]) -> Result<Cert, CertError>
    ensures { IsReadAs order.now.names bytes.now result }
{
    // Lines are counted in 32 bits.
    if bytes.len() > u32::MAX as usize {
        return Err(CertError::Memory);
    }
    read_short(alloc, order, bytes)
}

/// The certificate that the text stands for under the names of the order's roles, or its first fault.
///
/// Lines end in LF and stand in this order: `arbac certificate 1`; `reachable`, then `start PROFILE` for each user, then
/// `act KIND ADMIN TARGET ROLE`; or `unreachable`, then `need` for each requirement, each with its `user` lines; or
/// `undecided LIMIT`, then `need ORIGIN` for each recorded step and `next ORIGIN`, each with its `user` lines; and `end`.
/// A user line is `user`, then ` hit LIST` for each hit, then ` lack LIST` where a role is lacked; LIST is role names with
/// commas between them, in any order. ORIGIN is `goal PLACE`, `pre PARENT assign RULE CONJUNCT ROLE TARGET ADMIN` or
/// `pre PARENT weak RULE ROLE TARGET ADMIN`, and ADMIN `self`, `new` or a user's place. The form is this project's own.
/// A text of 2^32 bytes or more is `Memory`, since lines are counted in 32 bits.
pub fn read_cert(alloc: Global, order: &Order, bytes: &[u8]) -> Result<Cert, CertError>
    // What is read is what the text stands for.
    ensures found { IfOk result (λ cert. StandsFor order.now.names bytes.now (plain_of cert)) }
    // It can be written: its roles are known, its hits have roles, its limit may be told.
    ensures known { IfOk result (λ cert. IsCertificate (length order.now.names) (plain_of cert)) }
    // A text that stands for a certificate is read as that certificate.
    ensures only { (cert : Certificate) → StandsFor order.now.names bytes.now cert → Reads result cert }
    // An error is the first fault.
    ensures first { IfErr result (IsRefused order.now.names bytes.now) }
    // A text that has a first fault is refused with it.
    ensures told { (fault : CertError) → IsFirstFault order.now.names bytes.now fault → Tells result fault }
    // A text stands for one certificate at most.
    ensures one { (left right : Certificate) → StandsFor order.now.names bytes.now left → StandsFor order.now.names bytes.now right → left ≡ right }
    // The greatest limit by number.
    ensures limit { MOST_LIMIT ≡ 65536 }
{
    read(alloc, order, bytes)
}
