//! Writing a question.

ghost use Rattle.std.specs.Prelude.{Bool, ◌≡◌, ◌<◌, ◌++◌, [], true, map, OnOk, IfOk, length, Ok, codes};
ghost use Rattle.std.specs.List.{flat_map};
ghost use Rattle.list_words.specs.Lists.{Each};
ghost use Rattle.arbac_policy.specs.Truth.{term_of, IsKnown};
ghost use Rattle.arbac_policy.specs.Rules.{IsKnownAssign, IsKnownRevoke, IsKnownPair, IsKnownRange};
ghost use Rattle.arbac_policy.specs.PlainRules.{plain_rule};
ghost use Rattle.question_text.specs.Documents.{document};
ghost use Rattle.question_text.specs.Rules.{IsSet, IsProfile, KeepsRules};
ghost use Rattle.question_writer.specs.Texts.{line, quoted, listed, role_text, pair_text, condition_text, range_text, truth_text, most_text, version_text};
ghost use Rattle.question_writer.specs.Texts.{exclusive_text, goal_text, assign_text, revoke_text, profile_text, keys_text, tables_text, question_text};
ghost use Rattle.question_text.specs.Values.{plain_of};

use crate::NoMemory;
use crate::pieces::{
    put_condition, put_conditions, put_header, put_key, put_names, put_pairs, put_quoted,
    put_range, put_role, put_roles, roles_of,
};
use arbac_policy::{CanAssign, CanRevoke, Cond, Profile};
use question_text::Question;
use role_order::{Order, Range, RoleSet};
use std::alloc::{AllocError, Global};
use text_pieces::{put, put_number};

fn version_word(pairs: &[(u16, u16)]) -> &'static str
    ensures { result.now ≡ version_text pairs.now }
{
    if pairs.is_empty() { "1" } else { "2" }
}

fn truth_word(value: bool) -> &'static str
    ensures { result.now ≡ truth_text value }
{
    if value { "true" } else { "false" }
}

/// Puts a line of the key and a word behind the text.
fn put_word_line(text: &mut Vec<u8>, key: &str, word: &str) -> Result<(), AllocError>
    ensures { OnOk result (text.new.items ≡ text.old.items ++ line key.now word.now) }
{
    put_key(text, key)?;
    put(text, word)?;
    put(text, "\n")?;
    Ok(())
}

fn put_names_line(text: &mut Vec<u8>, order: &Order) -> Result<(), AllocError>
    ensures { OnOk result (text.new.items ≡ text.old.items ++ line (codes "roles") (listed quoted order.now.names)) }
{
    put_key(text, "roles")?;
    put_names(text, order)?;
    put(text, "\n")?;
    Ok(())
}

/// Puts a line of the key and the names of the set's roles behind the text.
fn put_set_line(
    alloc: Global,
    text: &mut Vec<u8>,
    order: &Order,
    key: &str,
    set: &RoleSet,
) -> Result<(), AllocError>
    requires { IsSet (length order.now.names) set.now }
    ensures { OnOk result (text.new.items ≡ text.old.items ++ line key.now (listed (role_text order.now.names) set.now)) }
{
    let roles = roles_of(alloc, order, set)?;
    put_key(text, key)?;
    put_roles(text, order, &roles)?;
    put(text, "\n")?;
    Ok(())
}

/// Puts a line of the key and the pairs of names behind the text.
fn put_pairs_line(
    text: &mut Vec<u8>,
    order: &Order,
    key: &str,
    pairs: &[(u16, u16)],
) -> Result<(), AllocError>
    requires { Each (IsKnownPair (length order.now.names)) pairs.now }
    ensures { OnOk result (text.new.items ≡ text.old.items ++ line key.now (listed (pair_text order.now.names) pairs.now)) }
{
    put_key(text, key)?;
    put_pairs(text, order, pairs)?;
    put(text, "\n")?;
    Ok(())
}

fn put_exclusive(text: &mut Vec<u8>, order: &Order, pairs: &[(u16, u16)]) -> Result<(), AllocError>
    requires { Each (IsKnownPair (length order.now.names)) pairs.now }
    ensures { OnOk result (text.new.items ≡ text.old.items ++ exclusive_text order.now.names pairs.now) }
{
    if !pairs.is_empty() {
        put_pairs_line(text, order, "exclusive", pairs)?;
    }
    Ok(())
}

fn put_conditions_line(
    alloc: Global,
    text: &mut Vec<u8>,
    order: &Order,
    conds: &[Cond],
) -> Result<(), AllocError>
    requires { Each (IsKnown (length order.now.names)) (map term_of conds.now) }
    ensures { OnOk result (text.new.items ≡ text.old.items ++ line (codes "goal") (listed (condition_text order.now.names) (map term_of conds.now))) }
{
    put_key(text, "goal")?;
    put_conditions(alloc, text, order, conds)?;
    put(text, "\n")?;
    Ok(())
}

fn put_goal(
    alloc: Global,
    text: &mut Vec<u8>,
    order: &Order,
    conds: &[Cond],
) -> Result<(), AllocError>
    requires { Each (IsKnown (length order.now.names)) (map term_of conds.now) }
    ensures { OnOk result (text.new.items ≡ text.old.items ++ goal_text order.now.names (map term_of conds.now)) }
{
    if !conds.is_empty() {
        put_conditions_line(alloc, text, order, conds)?;
    }
    Ok(())
}

fn put_role_line(text: &mut Vec<u8>, order: &Order, key: &str, role: u16) -> Result<(), AllocError>
    requires { role < length order.now.names }
    ensures { OnOk result (text.new.items ≡ text.old.items ++ line key.now (role_text order.now.names role)) }
{
    put_key(text, key)?;
    put_role(text, order, role)?;
    put(text, "\n")?;
    Ok(())
}

fn put_condition_line(
    alloc: Global,
    text: &mut Vec<u8>,
    order: &Order,
    cond: &Cond,
) -> Result<(), AllocError>
    requires { IsKnown (length order.now.names) (term_of cond.now) }
    ensures { OnOk result (text.new.items ≡ text.old.items ++ line (codes "condition") (condition_text order.now.names (term_of cond.now))) }
{
    put_key(text, "condition")?;
    put_condition(alloc, text, order, cond)?;
    put(text, "\n")?;
    Ok(())
}

fn put_range_line(text: &mut Vec<u8>, order: &Order, range: &Range) -> Result<(), AllocError>
    requires { IsKnownRange (length order.now.names) range.now }
    ensures { OnOk result (text.new.items ≡ text.old.items ++ line (codes "range") (range_text order.now.names range.now)) }
{
    put_key(text, "range")?;
    put_range(text, order, range)?;
    put(text, "\n")?;
    Ok(())
}

fn put_most(alloc: Global, text: &mut Vec<u8>, most: Option<u32>) -> Result<(), AllocError>
    ensures { OnOk result (text.new.items ≡ text.old.items ++ most_text most) }
{
    match most {
        Some(most) => put_number(alloc, text, most as u64)?,
        None => put_quoted(text, "any")?,
    }
    Ok(())
}

fn put_most_line(alloc: Global, text: &mut Vec<u8>, most: Option<u32>) -> Result<(), AllocError>
    ensures { OnOk result (text.new.items ≡ text.old.items ++ line (codes "most") (most_text most)) }
{
    put_key(text, "most")?;
    put_most(alloc, text, most)?;
    put(text, "\n")?;
    Ok(())
}

fn put_assign_rule(
    alloc: Global,
    text: &mut Vec<u8>,
    key: &str,
    order: &Order,
    rule: &CanAssign,
) -> Result<(), AllocError>
    requires { IsKnownAssign (length order.now.names) rule.now }
    ensures { OnOk result (text.new.items ≡ text.old.items ++ assign_text key.now order.now.names (plain_rule rule.now)) }
{
    put_header(text, key)?;
    put_role_line(text, order, "admin", rule.admin)?;
    put_condition_line(alloc, text, order, &rule.cond)?;
    put_range_line(text, order, &rule.range)?;
    Ok(())
}

fn put_revoke_rule(
    text: &mut Vec<u8>,
    key: &str,
    order: &Order,
    rule: &CanRevoke,
) -> Result<(), AllocError>
    requires { IsKnownRevoke (length order.now.names) rule.now }
    ensures { OnOk result (text.new.items ≡ text.old.items ++ revoke_text key.now order.now.names rule.now) }
{
    put_header(text, key)?;
    put_role_line(text, order, "admin", rule.admin)?;
    put_range_line(text, order, &rule.range)?;
    Ok(())
}

fn put_profile(
    alloc: Global,
    text: &mut Vec<u8>,
    order: &Order,
    profile: &Profile,
) -> Result<(), AllocError>
    requires { IsSet (length order.now.names) profile.now.set }
    ensures { OnOk result (text.new.items ≡ text.old.items ++ profile_text order.now.names profile.now) }
{
    put_header(text, "profile")?;
    put_set_line(alloc, text, order, "roles", &profile.set)?;
    put_most_line(alloc, text, profile.most)?;
    Ok(())
}

fn put_assign_rules(
    alloc: Global,
    text: &mut Vec<u8>,
    key: &str,
    order: &Order,
    rules: &[CanAssign],
) -> Result<(), AllocError>
    requires { Each (IsKnownAssign (length order.now.names)) rules.now }
    ensures { OnOk result (text.new.items ≡ text.old.items ++ flat_map (assign_text key.now order.now.names) (map plain_rule rules.now)) }
{
    for rule in rules {
        put_assign_rule(alloc, text, key, order, rule)?;
    }
    Ok(())
}

fn put_revoke_rules(
    text: &mut Vec<u8>,
    key: &str,
    order: &Order,
    rules: &[CanRevoke],
) -> Result<(), AllocError>
    requires { Each (IsKnownRevoke (length order.now.names)) rules.now }
    ensures { OnOk result (text.new.items ≡ text.old.items ++ flat_map (revoke_text key.now order.now.names) rules.now) }
{
    for rule in rules {
        put_revoke_rule(text, key, order, rule)?;
    }
    Ok(())
}

fn put_profiles(
    alloc: Global,
    text: &mut Vec<u8>,
    order: &Order,
    profiles: &[Profile],
) -> Result<(), AllocError>
    requires { Each (λ profile. IsSet (length order.now.names) profile.set) profiles.now }
    ensures { OnOk result (text.new.items ≡ text.old.items ++ flat_map (profile_text order.now.names) profiles.now) }
{
    for profile in profiles {
        put_profile(alloc, text, order, profile)?;
    }
    Ok(())
}

/// Puts the keys behind the text, one a line.
#[tactic(auto, unfolding(crate::specs::Texts::keys_text))]
fn put_keys(alloc: Global, text: &mut Vec<u8>, question: &Question) -> Result<(), AllocError>
    requires { KeepsRules (plain_of question.now) }
    ensures { OnOk result (text.new.items ≡ text.old.items ++ keys_text (plain_of question.now)) }
{
    let order = question.policy.order();
    let exclusive = question.policy.exclusive();
    put_word_line(text, "version", version_word(exclusive))?;
    put_word_line(text, "separate", truth_word(question.separate))?;
    put_names_line(text, order)?;
    put_set_line(alloc, text, order, "admin_roles", &question.admin_roles)?;
    put_pairs_line(text, order, "edges", order.edges())?;
    put_exclusive(text, order, exclusive)?;
    put_goal(alloc, text, order, &question.goal)?;
    Ok(())
}

/// Puts the tables behind the text, each behind its header.
#[tactic(auto, unfolding(crate::specs::Texts::tables_text))]
fn put_tables(alloc: Global, text: &mut Vec<u8>, question: &Question) -> Result<(), AllocError>
    requires { KeepsRules (plain_of question.now) }
    ensures { OnOk result (text.new.items ≡ text.old.items ++ tables_text (plain_of question.now)) }
{
    let policy = &question.policy;
    let order = policy.order();
    put_assign_rules(alloc, text, "can_assign", order, policy.assign())?;
    put_revoke_rules(text, "can_revoke", order, policy.revoke())?;
    put_assign_rules(alloc, text, "can_assignp", order, policy.assignp())?;
    put_revoke_rules(text, "can_revokep", order, policy.revokep())?;
    put_profiles(alloc, text, order, &question.profiles)?;
    Ok(())
}

/// The text of the question, which reads as the question.
pub fn write_question(alloc: Global, question: &Question) -> Result<Vec<u8>, NoMemory>
    requires { KeepsRules (plain_of question.now) }
    ensures text { IfOk result (λ bytes. bytes.items ≡ question_text (plain_of question.now)) }
    // The text stands for the question, also where a goal is needed, unless the question has none.
    ensures back { IfOk result (λ bytes. (need : Bool) → (need ≡ true → ¬ (question.now.goal.items ≡ []))
        → document need bytes.items (Ok (plain_of question.now))) }
{
    let mut text = Vec::new(alloc);
    put_keys(alloc, &mut text, question)?;
    put_tables(alloc, &mut text, question)?;
    Ok(text)
}
