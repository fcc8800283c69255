//! What rules and exclusive pairs ask for, as links from roles to roles.

ghost use Rattle.std.specs.Prelude.{ℕ, ◌<◌, ◌↔◌, length, IfOk, OnOk};
ghost use Rattle.list_words.specs.Lists.{Each};
ghost use Rattle.role_order.specs.Roles.{IsIn};
ghost use Rattle.arbac_policy.specs.Rules.{IsKnownAssign, IsKnownRevoke, IsKnownPair};
ghost use Rattle.rule_prune.specs.Relevant.{AsksToAssign, AsksToRevoke, IsGivable, Excludes, AsksApart, HaveAsked, LeadsOn, HaveLinked};
ghost use Rattle.rule_prune.specs.declared.relevance.Relevance.{Relevance};

use crate::relevance::{Relevance, asked};
use arbac_policy::{CanAssign, CanRevoke, Policy};
use role_order::{Order, RoleSet};
use std::alloc::{AllocError, Global};

/// Where one of the roles that it starts from is relevant, all roles that it leads to are.
#[derive(Clone, Copy)]
pub struct Link {
    pub from: Relevance,
    pub to: Relevance,
}

/// From a wanted role of the range to what the condition asks for and to the administrators.
fn assign_link(order: &Order, rule: &CanAssign) -> Link
    requires { IsKnownAssign (length order.now.names) rule.now }
    ensures { (roles : Relevance) → LeadsOn result roles roles ↔ AsksToAssign order.now roles rule.now }
{
    let cond = asked(order, &rule.cond);
    Link {
        from: Relevance {
            wanted: order.roles_of(&rule.range),
            barred: RoleSet::empty(),
        },
        to: Relevance {
            wanted: cond.wanted.join(&order.seniors(rule.admin)),
            barred: cond.barred,
        },
    }
}

/// From a barred role of the range to the administrators.
fn revoke_link(order: &Order, rule: &CanRevoke) -> Link
    requires { IsKnownRevoke (length order.now.names) rule.now }
    ensures { (roles : Relevance) → LeadsOn result roles roles ↔ AsksToRevoke order.now roles rule.now }
{
    Link {
        from: Relevance {
            wanted: RoleSet::empty(),
            barred: order.roles_of(&rule.range),
        },
        to: Relevance {
            wanted: order.seniors(rule.admin),
            barred: RoleSet::empty(),
        },
    }
}

/// From one of these roles that is above the first to what is above the second.
fn apart_link(order: &Order, givable: &RoleSet, first: u16, second: u16) -> Link
    requires first { first < length order.now.names }
    requires second { second < length order.now.names }
    ensures { (roles : Relevance) → LeadsOn result roles roles ↔ Excludes order.now givable.now roles first second }
{
    Link {
        from: Relevance {
            wanted: order.seniors(first).common(givable),
            barred: RoleSet::empty(),
        },
        to: Relevance {
            wanted: RoleSet::empty(),
            barred: order.seniors(second),
        },
    }
}

/// Adds what the rules to assign ask for.
fn add_assigns(links: &mut Vec<Link>, policy: &Policy) -> Result<(), AllocError>
    ensures { OnOk result ((roles : Relevance) → HaveLinked links.new.items roles
        ↔ (HaveLinked links.old.items roles × Each (AsksToAssign policy.now.order roles) policy.now.assign)) }
{
    let order = policy.order();
    for rule in policy.assign() {
        links.push(assign_link(order, rule))?;
    }
    Ok(())
}

/// Adds what the rules to revoke ask for.
fn add_revokes(links: &mut Vec<Link>, policy: &Policy) -> Result<(), AllocError>
    ensures { OnOk result ((roles : Relevance) → HaveLinked links.new.items roles
        ↔ (HaveLinked links.old.items roles × Each (AsksToRevoke policy.now.order roles) policy.now.revoke)) }
{
    let order = policy.order();
    for rule in policy.revoke() {
        links.push(revoke_link(order, rule))?;
    }
    Ok(())
}

/// The roles that some rule to assign has in its range.
fn givable_roles(policy: &Policy) -> RoleSet
    ensures { (role : ℕ) → IsIn result role ↔ IsGivable policy.now role }
{
    let order = policy.order();
    let mut givable = RoleSet::empty();
    for rule in policy.assign() {
        givable = givable.join(&order.roles_of(&rule.range));
    }
    givable
}

/// Adds what the pair asks for, either way.
fn add_pair(
    links: &mut Vec<Link>,
    order: &Order,
    givable: &RoleSet,
    pair: (u16, u16),
) -> Result<(), AllocError>
    requires { IsKnownPair (length order.now.names) pair }
    ensures { OnOk result ((roles : Relevance) → HaveLinked links.new.items roles
        ↔ (HaveLinked links.old.items roles × AsksApart order.now givable.now roles pair)) }
{
    links.push(apart_link(order, givable, pair.0, pair.1))?;
    links.push(apart_link(order, givable, pair.1, pair.0))?;
    Ok(())
}

/// Adds what the pairs ask for, of the roles that can be given.
fn add_pairs(links: &mut Vec<Link>, policy: &Policy, givable: &RoleSet) -> Result<(), AllocError>
    ensures { OnOk result ((roles : Relevance) → HaveLinked links.new.items roles
        ↔ (HaveLinked links.old.items roles × Each (AsksApart policy.now.order givable.now roles) policy.now.exclusive)) }
{
    let order = policy.order();
    for &pair in policy.exclusive() {
        add_pair(links, order, givable, pair)?;
    }
    Ok(())
}

/// All that rules and pairs ask for.
pub fn all_links(alloc: Global, policy: &Policy) -> Result<Vec<Link>, AllocError>
    ensures { IfOk result (λ links. (roles : Relevance) → HaveLinked links.items roles ↔ HaveAsked policy.now roles) }
{
    let mut links = Vec::new(alloc);
    add_assigns(&mut links, policy)?;
    add_pairs(&mut links, policy, &givable_roles(policy))?;
    add_revokes(&mut links, policy)?;
    Ok(links)
}
