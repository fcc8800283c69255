//! Where a step comes from, as a line writes it.

ghost use Rattle.std.specs.Prelude.{◌≡◌};
ghost use Rattle.std.specs.Option.{option_map};
ghost use Rattle.cert_text.specs.Certificates.{pick_of};
ghost use Rattle.cert_text.specs.Spelling.{number_before, name_before, pick_in, goal_in, assign_in, weak_in, pre_in, origin_in};
ghost use Rattle.cert_text.specs.Told.{origin_view};
ghost use Rattle.cert_text.specs.Views.{TellsOrigin};

use crate::cert::{StepFrom, Who};
use cond_text::{cut, name_of};
use role_order::Order;
use text_lines::{is, number_of};

/// Where a step comes from, its role by its name.
#[derive(Clone, Copy)]
pub enum WrittenFrom<'a> {
    Goal {
        place: u32,
    },
    Assign {
        parent: u32,
        rule: u32,
        conjunct: u32,
        role: &'a str,
        target: u32,
        admin: Who,
    },
    Weak {
        parent: u32,
        rule: u32,
        role: &'a str,
        target: u32,
        admin: Who,
    },
}

/// The number that the first word is, and what stands behind its space.
#[tactic(auto, unfolding(crate::specs::Spelling::number_before))]
fn leading_number(text: &[u8]) -> Option<(u32, &[u8])>
    ensures { option_map (λ p. (p.0, p.1.now)) result ≡ number_before text.now }
{
    let (word, rest) = cut(text, b' ')?;
    let number = number_of(word)?;
    Some((number, rest))
}

/// The name that the first word is, and what stands behind its space.
#[tactic(auto, unfolding(crate::specs::Spelling::name_before))]
fn leading_name(text: &[u8]) -> Option<(&str, &[u8])>
    ensures { option_map (λ p. (p.0.now, p.1.now)) result ≡ name_before text.now }
{
    let (word, rest) = cut(text, b' ')?;
    let name = name_of(word)?;
    Some((name, rest))
}

#[tactic(auto, unfolding(crate::specs::Spelling::pick_in))]
fn who_of(word: &[u8]) -> Option<Who>
    ensures { option_map pick_of result ≡ pick_in word.now }
{
    if is(word, "self") {
        Some(Who::Itself)
    } else if is(word, "new") {
        Some(Who::Fresh)
    } else {
        let place = number_of(word)?;
        Some(Who::Other(place))
    }
}

#[tactic(auto, unfolding(crate::specs::Spelling::goal_in))]
fn goal_of(rest: &[u8]) -> Option<WrittenFrom>
    ensures { option_map origin_view result ≡ goal_in rest.now }
{
    let place = number_of(rest)?;
    Some(WrittenFrom::Goal { place })
}

#[tactic(auto, unfolding(crate::specs::Spelling::assign_in))]
fn assign_of(parent: u32, rest: &[u8]) -> Option<WrittenFrom>
    ensures { option_map origin_view result ≡ assign_in parent rest.now }
{
    let (rule, rest) = leading_number(rest)?;
    let (conjunct, rest) = leading_number(rest)?;
    let (role, rest) = leading_name(rest)?;
    let (target, admin) = leading_number(rest)?;
    let admin = who_of(admin)?;
    Some(WrittenFrom::Assign {
        parent,
        rule,
        conjunct,
        role,
        target,
        admin,
    })
}

#[tactic(auto, unfolding(crate::specs::Spelling::weak_in))]
fn weak_of(parent: u32, rest: &[u8]) -> Option<WrittenFrom>
    ensures { option_map origin_view result ≡ weak_in parent rest.now }
{
    let (rule, rest) = leading_number(rest)?;
    let (role, rest) = leading_name(rest)?;
    let (target, admin) = leading_number(rest)?;
    let admin = who_of(admin)?;
    Some(WrittenFrom::Weak {
        parent,
        rule,
        role,
        target,
        admin,
    })
}

#[tactic(auto, unfolding(crate::specs::Spelling::pre_in))]
fn pre_of(rest: &[u8]) -> Option<WrittenFrom>
    ensures { option_map origin_view result ≡ pre_in rest.now }
{
    let (parent, rest) = leading_number(rest)?;
    let (act, rest) = cut(rest, b' ')?;
    if is(act, "assign") {
        assign_of(parent, rest)
    } else if is(act, "weak") {
        weak_of(parent, rest)
    } else {
        None
    }
}

/// The origin that the bytes spell, if they spell one.
#[tactic(auto, unfolding(crate::specs::Spelling::origin_in))]
pub fn origin_of(text: &[u8]) -> Option<WrittenFrom>
    ensures { option_map origin_view result ≡ origin_in text.now }
{
    let (word, rest) = cut(text, b' ')?;
    if is(word, "goal") {
        goal_of(rest)
    } else if is(word, "pre") {
        pre_of(rest)
    } else {
        None
    }
}

/// The origin with its role's number; nothing where no role has the name.
pub fn named_origin(order: &Order, written: &WrittenFrom) -> Option<StepFrom>
    ensures { TellsOrigin order.now.names result (origin_view written.now) }
{
    match *written {
        WrittenFrom::Goal { place } => Some(StepFrom::Goal { place }),
        WrittenFrom::Assign {
            parent,
            rule,
            conjunct,
            role,
            target,
            admin,
        } => {
            let role = order.role_named(role)?;
            Some(StepFrom::Assign {
                parent,
                rule,
                conjunct,
                role,
                target,
                admin,
            })
        }
        WrittenFrom::Weak {
            parent,
            rule,
            role,
            target,
            admin,
        } => {
            let role = order.role_named(role)?;
            Some(StepFrom::Weak {
                parent,
                rule,
                role,
                target,
                admin,
            })
        }
    }
}
