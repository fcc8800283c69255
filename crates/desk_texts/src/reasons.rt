//! Kinds of certificates, and reasons for which the checker refuses one.

ghost use Rattle.std.specs.Prelude.{◌≡◌, ◌++◌, codes, OnOk};
ghost use Rattle.std.specs.Fmt.{decimal};
ghost use Rattle.std.specs.List.{flat_map};
ghost use Rattle.cert_text.specs.Certificates.{plain_of};
ghost use Rattle.cert_check.specs.Asked.{reason_of};
ghost use Rattle.desk_texts.specs.Parts.{part_text};
ghost use Rattle.desk_texts.specs.Reasons as reasons;

use crate::parts::put_part;
use arbac_policy::Part;
use cert_check::Why;
use cert_text::Cert;
use role_order::Order;
use std::alloc::{AllocError, Global};
use text_pieces::{put, put_count, put_number, put_wide_number};

/// What the certificate says of the question: `reachable`, `unreachable` or `undecided`.
pub fn kind_word(cert: &Cert) -> &'static str
    ensures { result.now ≡ reasons.kind_word (plain_of cert.now) }
{
    match cert {
        Cert::Reachable { .. } => "reachable",
        Cert::Unreachable { .. } => "unreachable",
        Cert::Undecided { .. } => "undecided",
    }
}

/// Puts each profile behind the text, after a comma.
fn put_next_profiles(alloc: Global, text: &mut Vec<u8>, profiles: &[u32]) -> Result<(), AllocError>
    ensures { OnOk result (text.new.items ≡ text.old.items ++ flat_map reasons.next_profile profiles.now) }
{
    for profile in profiles {
        put_count(alloc, text, ",", *profile as u64)?;
    }
    Ok(())
}

/// Puts the profiles behind the text, joined by commas, and `-` for none.
fn put_choice(alloc: Global, text: &mut Vec<u8>, choice: &[u32]) -> Result<(), AllocError>
    ensures { OnOk result (text.new.items ≡ text.old.items ++ reasons.choice_text choice.now) }
{
    match choice {
        [] => put(text, "-")?,
        [first, others @ ..] => {
            put_number(alloc, text, *first as u64)?;
            put_next_profiles(alloc, text, others)?;
        }
    }
    Ok(())
}

fn put_step_refused(
    alloc: Global,
    text: &mut Vec<u8>,
    order: &Order,
    place: u32,
    part: Part,
) -> Result<(), AllocError>
    ensures { OnOk result (text.new.items ≡ text.old.items
        ++ (codes "StepRefused act " ++ decimal place ++ codes " " ++ part_text order.now.names part)) }
{
    put_count(alloc, text, "StepRefused act ", place as u64)?;
    put(text, " ")?;
    put_part(alloc, text, order, part)?;
    Ok(())
}

fn put_open(
    alloc: Global,
    text: &mut Vec<u8>,
    need: u32,
    obligation: u128,
) -> Result<(), AllocError>
    ensures { OnOk result (text.new.items ≡ text.old.items
        ++ (codes "Open need " ++ decimal need ++ codes " obligation " ++ decimal obligation)) }
{
    put_count(alloc, text, "Open need ", need as u64)?;
    put(text, " obligation ")?;
    put_wide_number(alloc, text, obligation)?;
    Ok(())
}

fn put_starts_met(
    alloc: Global,
    text: &mut Vec<u8>,
    need: u32,
    choice: &[u32],
) -> Result<(), AllocError>
    ensures { OnOk result (text.new.items ≡ text.old.items
        ++ (codes "StartsMet need " ++ decimal need ++ codes " choice " ++ reasons.choice_text choice.now)) }
{
    put_count(alloc, text, "StartsMet need ", need as u64)?;
    put(text, " choice ")?;
    put_choice(alloc, text, choice)?;
    Ok(())
}

fn put_repeated(
    alloc: Global,
    text: &mut Vec<u8>,
    need: u32,
    earlier: u32,
) -> Result<(), AllocError>
    ensures { OnOk result (text.new.items ≡ text.old.items
        ++ (codes "Repeated need " ++ decimal need ++ codes " by " ++ decimal earlier)) }
{
    put_count(alloc, text, "Repeated need ", need as u64)?;
    put_count(alloc, text, " by ", earlier as u64)?;
    Ok(())
}

/// Puts the reason for which a certificate is refused behind the text, with names of the order. Places and numbers count from 0.
#[tactic(auto, unfolding(crate::specs::Reasons::reason_text))]
pub fn put_why(
    alloc: Global,
    text: &mut Vec<u8>,
    order: &Order,
    why: &Why,
) -> Result<(), AllocError>
    ensures { OnOk result (text.new.items ≡ text.old.items ++ reasons.reason_text order.now.names (reason_of why.now)) }
{
    match why {
        Why::NotDrawn { user } => put_count(alloc, text, "NotDrawn user ", *user as u64)?,
        Why::StepRefused { place, part } => put_step_refused(alloc, text, order, *place, *part)?,
        Why::GoalNotMet => put(text, "GoalNotMet")?,
        Why::GoalUncovered { goal } => {
            put_count(alloc, text, "GoalUncovered goal ", *goal as u64)?
        }
        Why::Open { need, obligation } => put_open(alloc, text, *need, *obligation)?,
        Why::StartsMet { need, choice } => put_starts_met(alloc, text, *need, choice)?,
        Why::NotDerived { place } => put_count(alloc, text, "NotDerived need ", *place as u64)?,
        Why::Repeated { place, earlier } => put_repeated(alloc, text, *place, *earlier)?,
        Why::WrongCount { count } => put_count(alloc, text, "WrongCount ", *count as u64)?,
    }
    Ok(())
}
