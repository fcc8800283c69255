//! A question as lines of numbers.

use arbac_policy::{CanAssign, CanRevoke, Cond, Profile};
use question_text::Question;
use role_order::{Order, Range, RoleSet};
use std::alloc::{AllocError, Global};

/// The root of a condition.
fn cond_word(alloc: Global, cond: &Cond) -> Result<String, AllocError> {
    match cond {
        Cond::Any => String::from_str(alloc, "any"),
        Cond::Has(role) => format!(in alloc; "has {role}"),
        Cond::Lacks(role) => format!(in alloc; "lacks {role}"),
        Cond::And(_, _) => String::from_str(alloc, "and"),
        Cond::Or(_, _) => String::from_str(alloc, "or"),
    }
}

fn range_word(alloc: Global, range: &Range) -> Result<String, AllocError> {
    let Range {
        low,
        high,
        low_open,
        high_open,
    } = *range;
    format!(in alloc; "{low} {high} {low_open} {high_open}")
}

fn most_word(alloc: Global, most: Option<u32>) -> Result<String, AllocError> {
    match most {
        Some(most) => format!(in alloc; "{most}"),
        None => String::from_str(alloc, "any"),
    }
}

fn set_word(alloc: Global, set: &RoleSet) -> Result<String, AllocError> {
    let mut text = String::new(alloc);
    for role in 0..250 {
        if set.has(role) {
            text.push_str(format!(in alloc; " {role}")?.as_str())?;
        }
    }
    Ok(text)
}

fn put_names(alloc: Global, text: &mut String, order: &Order) -> Result<(), AllocError> {
    for role in 0..order.count() {
        let name = order.name(role);
        text.push_str(format!(in alloc; "role {name}\n")?.as_str())?;
    }
    Ok(())
}

fn put_pairs(
    alloc: Global,
    text: &mut String,
    key: &str,
    pairs: &[(u16, u16)],
) -> Result<(), AllocError> {
    for (first, second) in pairs {
        text.push_str(format!(in alloc; "{key} {first} {second}\n")?.as_str())?;
    }
    Ok(())
}

fn put_assign(
    alloc: Global,
    text: &mut String,
    key: &str,
    rules: &[CanAssign],
) -> Result<(), AllocError> {
    for rule in rules {
        let admin = rule.admin;
        let cond = cond_word(alloc, &rule.cond)?;
        let range = range_word(alloc, &rule.range)?;
        text.push_str(format!(in alloc; "{key} {admin} {cond} {range}\n")?.as_str())?;
    }
    Ok(())
}

fn put_revoke(
    alloc: Global,
    text: &mut String,
    key: &str,
    rules: &[CanRevoke],
) -> Result<(), AllocError> {
    for rule in rules {
        let admin = rule.admin;
        let range = range_word(alloc, &rule.range)?;
        text.push_str(format!(in alloc; "{key} {admin} {range}\n")?.as_str())?;
    }
    Ok(())
}

fn put_profiles(alloc: Global, text: &mut String, profiles: &[Profile]) -> Result<(), AllocError> {
    for profile in profiles {
        let most = most_word(alloc, profile.most)?;
        let set = set_word(alloc, &profile.set)?;
        text.push_str(format!(in alloc; "profile {most}:{set}\n")?.as_str())?;
    }
    Ok(())
}

fn put_goal(alloc: Global, text: &mut String, conds: &[Cond]) -> Result<(), AllocError> {
    for cond in conds {
        let cond = cond_word(alloc, cond)?;
        text.push_str(format!(in alloc; "goal {cond}\n")?.as_str())?;
    }
    Ok(())
}

fn put_policy(alloc: Global, text: &mut String, q: &Question) -> Result<(), AllocError> {
    put_names(alloc, text, q.policy.order())?;
    put_pairs(alloc, text, "edge", q.policy.order().edges())?;
    put_pairs(alloc, text, "exclusive", q.policy.exclusive())?;
    put_assign(alloc, text, "assign", q.policy.assign())?;
    put_revoke(alloc, text, "revoke", q.policy.revoke())?;
    put_assign(alloc, text, "assignp", q.policy.assignp())?;
    put_revoke(alloc, text, "revokep", q.policy.revokep())
}

/// The lines of a question: roles by their numbers, an open end of a range as `true`.
pub fn lines_of(alloc: Global, q: &Question) -> Result<String, AllocError> {
    let separate = q.separate;
    let admins = set_word(alloc, &q.admin_roles)?;
    let mut text = format!(in alloc; "separate {separate}\nadmins:{admins}\n")?;
    put_policy(alloc, &mut text, q)?;
    put_profiles(alloc, &mut text, &q.profiles)?;
    put_goal(alloc, &mut text, &q.goal)?;
    Ok(text)
}
