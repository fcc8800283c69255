//! Writing certificate texts.

ghost use Rattle.std.specs.Prelude.{ℕ, ◌≡◌, ◌<◌, ◌≤◌, ◌^◌, ◌++◌, ◌∷◌, length, map, codes, OnOk, IfOk};
ghost use Rattle.list_words.specs.Lists.{Each};
ghost use Rattle.arbac_policy.specs.declared.act.Act.{Act};
ghost use Rattle.arbac_laws.specs.Views.{need_of, needs_of};
ghost use Rattle.arbac_laws.specs.Obligations.{flat};
ghost use Rattle.cert_text.specs.Certificates.{reachable, unreachable, undecided, origin_of, users_of, entry_of, plain_of};
ghost use Rattle.cert_text.specs.Certificates.{IsWritten, IsKnownOrigin, IsWrittenEntry, IsCertificate};
ghost use Rattle.cert_text.specs.LineForms.{a_start, an_act, a_next, spell_origin};
ghost use Rattle.cert_text.specs.Drafts.{StandsFor};
ghost use Rattle.cert_text.specs.Texts.{written_act, written_origin, user_form, need_lines, step_lines, certificate_lines};
ghost use Rattle.cert_text.specs.Texts.{line_text, certificate_text};
ghost use Rattle.cert_text.specs.Sizes.{IsSizedAct, IsSizedOrigin, HasSets, IsSizedEntry, IsSized};

use crate::NoMemory;
use crate::cert::{Cert, Need, NeedUser, Step, StepFrom};
use crate::pieces::{put_act, put_count, put_origin, put_user};
use arbac_policy::Act;
use role_order::Order;
use std::alloc::{AllocError, Global};
use text_pieces::put;

#[tactic(auto, unfolding(crate::specs::LineForms::spell))]
fn put_start(text: &mut Vec<u8>, profile: u32) -> Result<(), AllocError>
    ensures text { OnOk result (text.new.items ≡ text.old.items ++ line_text (a_start profile)) }
    ensures size { profile < 2 ^ 32 }
{
    put_count(text, "start ", profile)?;
    put(text, "\n")?;
    Ok(())
}

fn put_starts(text: &mut Vec<u8>, start: &[u32]) -> Result<(), AllocError>
    ensures text { OnOk result (text.new.items ≡ text.old.items ++ flat line_text (map a_start start.now)) }
    ensures sized { OnOk result (Each (λ profile. profile < 2 ^ 32) start.now) }
{
    for profile in start {
        put_start(text, *profile)?;
    }
    Ok(())
}

#[tactic(auto, unfolding(crate::specs::LineForms::spell))]
fn put_act_line(text: &mut Vec<u8>, order: &Order, act: Act) -> Result<(), AllocError>
    requires { act.role < length order.now.names }
    ensures text { OnOk result (text.new.items ≡ text.old.items ++ line_text (an_act (written_act order.now.names act))) }
    ensures sized { OnOk result (IsSizedAct act) }
{
    put(text, "act ")?;
    put_act(text, order, act)?;
    put(text, "\n")?;
    Ok(())
}

fn put_acts(text: &mut Vec<u8>, order: &Order, acts: &[Act]) -> Result<(), AllocError>
    requires { Each (λ (act : Act). act.role < length order.now.names) acts.now }
    ensures text { OnOk result (text.new.items ≡ text.old.items
        ++ flat line_text (map (λ (act : Act). an_act (written_act order.now.names act)) acts.now)) }
    ensures sized { OnOk result (Each IsSizedAct acts.now) }
{
    for act in acts {
        put_act_line(text, order, *act)?;
    }
    Ok(())
}

#[tactic(auto, unfolding(crate::specs::LineForms::spell))]
fn put_user_line(text: &mut Vec<u8>, order: &Order, user: &NeedUser) -> Result<(), AllocError>
    requires { IsWritten (length order.now.names) (need_of user.now) }
    ensures text { OnOk result (text.new.items ≡ text.old.items ++ line_text (user_form order.now.names (need_of user.now))) }
    ensures sets { OnOk result (HasSets (need_of user.now)) }
{
    put(text, "user")?;
    put_user(text, order, user)?;
    put(text, "\n")?;
    Ok(())
}

fn put_users(text: &mut Vec<u8>, order: &Order, users: &[NeedUser]) -> Result<(), AllocError>
    requires { Each (IsWritten (length order.now.names)) (needs_of users.now) }
    ensures text { OnOk result (text.new.items ≡ text.old.items ++ flat line_text (map (user_form order.now.names) (needs_of users.now))) }
    ensures sets { OnOk result (Each HasSets (needs_of users.now)) }
{
    for user in users {
        put_user_line(text, order, user)?;
    }
    Ok(())
}

#[tactic(auto, unfolding(crate::specs::LineForms::spell))]
fn put_need(text: &mut Vec<u8>, order: &Order, need: &Need) -> Result<(), AllocError>
    requires { Each (IsWritten (length order.now.names)) (users_of need.now) }
    ensures text { OnOk result (text.new.items ≡ text.old.items ++ flat line_text (need_lines order.now.names (users_of need.now))) }
    ensures sets { OnOk result (Each HasSets (users_of need.now)) }
{
    put(text, "need\n")?;
    put_users(text, order, &need.users)?;
    Ok(())
}

fn put_needs(text: &mut Vec<u8>, order: &Order, needs: &[Need]) -> Result<(), AllocError>
    requires { Each (Each (IsWritten (length order.now.names))) (map users_of needs.now) }
    ensures text { OnOk result (text.new.items ≡ text.old.items ++ flat line_text (flat (need_lines order.now.names) (map users_of needs.now))) }
    ensures sets { OnOk result (Each (Each HasSets) (map users_of needs.now)) }
{
    for need in needs {
        put_need(text, order, need)?;
    }
    Ok(())
}

/// Puts a line of this first word, a space behind it, and the origin.
fn put_origin_line(
    text: &mut Vec<u8>,
    order: &Order,
    word: &str,
    origin: StepFrom,
) -> Result<(), AllocError>
    requires { IsKnownOrigin (length order.now.names) (origin_of origin) }
    ensures text { OnOk result (text.new.items ≡ text.old.items
        ++ (word.now ++ spell_origin (written_origin order.now.names (origin_of origin))) ++ codes "\n") }
    ensures sized { OnOk result (IsSizedOrigin (origin_of origin)) }
{
    put(text, word)?;
    put_origin(text, order, origin)?;
    put(text, "\n")?;
    Ok(())
}

#[tactic(auto, unfolding(crate::specs::LineForms::spell))]
fn put_step(text: &mut Vec<u8>, order: &Order, step: &Step) -> Result<(), AllocError>
    requires { IsWrittenEntry (length order.now.names) (entry_of step.now) }
    ensures text { OnOk result (text.new.items ≡ text.old.items ++ flat line_text (step_lines order.now.names (entry_of step.now))) }
    ensures sized { OnOk result (IsSizedEntry (entry_of step.now)) }
{
    put_origin_line(text, order, "need ", step.origin)?;
    put_users(text, order, &step.need.users)?;
    Ok(())
}

fn put_steps(text: &mut Vec<u8>, order: &Order, steps: &[Step]) -> Result<(), AllocError>
    requires { Each (IsWrittenEntry (length order.now.names)) (map entry_of steps.now) }
    ensures text { OnOk result (text.new.items ≡ text.old.items ++ flat line_text (flat (step_lines order.now.names) (map entry_of steps.now))) }
    ensures sized { OnOk result (Each IsSizedEntry (map entry_of steps.now)) }
{
    for step in steps {
        put_step(text, order, step)?;
    }
    Ok(())
}

#[tactic(auto, unfolding(crate::specs::LineForms::spell))]
fn put_next(text: &mut Vec<u8>, order: &Order, step: &Step) -> Result<(), AllocError>
    requires { IsWrittenEntry (length order.now.names) (entry_of step.now) }
    ensures text { OnOk result (text.new.items ≡ text.old.items ++ flat line_text
        (a_next (written_origin order.now.names (entry_of step.now).origin) ∷ map (user_form order.now.names) (entry_of step.now).needs)) }
    ensures sized { OnOk result (IsSizedEntry (entry_of step.now)) }
{
    put_origin_line(text, order, "next ", step.origin)?;
    put_users(text, order, &step.need.users)?;
    Ok(())
}

#[tactic(auto, unfolding(crate::specs::LineForms::spell))]
fn put_reachable(
    text: &mut Vec<u8>,
    order: &Order,
    start: &[u32],
    acts: &[Act],
) -> Result<(), AllocError>
    requires { IsCertificate (length order.now.names) (reachable start.now acts.now) }
    ensures text { OnOk result (text.new.items ≡ text.old.items
        ++ flat line_text (certificate_lines order.now.names (reachable start.now acts.now))) }
    ensures sized { OnOk result (IsSized (reachable start.now acts.now)) }
{
    put(text, "reachable\n")?;
    put_starts(text, start)?;
    put_acts(text, order, acts)?;
    Ok(())
}

#[tactic(auto, unfolding(crate::specs::LineForms::spell))]
fn put_unreachable(text: &mut Vec<u8>, order: &Order, needs: &[Need]) -> Result<(), AllocError>
    requires { IsCertificate (length order.now.names) (unreachable (map users_of needs.now)) }
    ensures text { OnOk result (text.new.items ≡ text.old.items
        ++ flat line_text (certificate_lines order.now.names (unreachable (map users_of needs.now)))) }
    ensures sized { OnOk result (IsSized (unreachable (map users_of needs.now))) }
{
    put(text, "unreachable\n")?;
    put_needs(text, order, needs)?;
    Ok(())
}

#[tactic(auto, unfolding(crate::specs::LineForms::spell))]
fn put_undecided(
    text: &mut Vec<u8>,
    order: &Order,
    limit: u32,
    recorded: &[Step],
    next: &Step,
) -> Result<(), AllocError>
    requires { IsCertificate (length order.now.names) (undecided limit (map entry_of recorded.now) (entry_of next.now)) }
    ensures text { OnOk result (text.new.items ≡ text.old.items
        ++ flat line_text (certificate_lines order.now.names (undecided limit (map entry_of recorded.now) (entry_of next.now)))) }
    ensures sized { OnOk result (IsSized (undecided limit (map entry_of recorded.now) (entry_of next.now))) }
{
    put_count(text, "undecided ", limit)?;
    put(text, "\n")?;
    put_steps(text, order, recorded)?;
    put_next(text, order, next)?;
    Ok(())
}

/// Puts the lines between the first and the last behind the text.
fn put_lines(text: &mut Vec<u8>, order: &Order, cert: &Cert) -> Result<(), AllocError>
    requires { IsCertificate (length order.now.names) (plain_of cert.now) }
    ensures text { OnOk result (text.new.items ≡ text.old.items ++ flat line_text (certificate_lines order.now.names (plain_of cert.now))) }
    ensures sized { OnOk result (IsSized (plain_of cert.now)) }
{
    match cert {
        Cert::Reachable { start, acts } => {
            put_reachable(text, order, start, acts)?;
            Ok(())
        }
        Cert::Unreachable { needs } => {
            put_unreachable(text, order, needs)?;
            Ok(())
        }
        Cert::Undecided {
            limit,
            recorded,
            next,
        } => {
            put_undecided(text, order, *limit, recorded, next)?;
            Ok(())
        }
    }
}

/// The text of the certificate; `read_cert` gives the certificate back. Roles of a list stand by rising number.
pub fn write_cert(alloc: Global, order: &Order, cert: &Cert) -> Result<Vec<u8>, NoMemory>
    requires { IsCertificate (length order.now.names) (plain_of cert.now) }
    ensures text { IfOk result (λ text. text.items ≡ certificate_text order.now.names (plain_of cert.now)) }
    ensures back { IfOk result (λ text. StandsFor order.now.names text.items (plain_of cert.now)) }
{
    order.is_order();
    let mut text = Vec::new(alloc);
    put(&mut text, "arbac certificate 1\n")?;
    put_lines(&mut text, order, cert)?;
    put(&mut text, "end\n")?;
    Ok(text)
}
