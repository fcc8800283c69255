//! Lines that commands share.

ghost use Rattle.std.specs.Prelude.{ℕ, ◌≡◌, ◌<◌, ◌++◌, length, OnOk, IfOk};
ghost use Rattle.desk_texts.specs.Lines as lines;
ghost use Rattle.desk_texts.specs.Parts.{name_of};

use crate::faults::Fault;
use crate::parts::put_name;
use role_order::{Order, RoleSet};
use std::alloc::{AllocError, Global};
use text_pieces::{put, put_count};

/// What is answered to words of no written form.
#[tactic(auto, unfolding(crate::specs::Lines::usage_line))]
pub fn usage() -> &'static str
    ensures { result.now ≡ lines.usage_line }
{
    "usage: ask QUESTION | check QUESTION CERT | replay RUN | load QUESTION | import MEMBERS | report KIND | serve --connections N | make N\n"
}

/// The line that names the file and the fault of its text.
pub fn malformed<F: Fault>(alloc: Global, name: &str, fault: &F) -> Result<Vec<u8>, AllocError>
    ensures { IfOk result (λ text. text.items ≡ lines.malformed_line name.now (F.written fault.now)) }
{
    let mut text = Vec::new(alloc);
    put(&mut text, "malformed ")?;
    put(&mut text, name)?;
    put(&mut text, ": ")?;
    fault.put(alloc, &mut text)?;
    put(&mut text, "\n")?;
    Ok(text)
}

/// The line that says that the file couldn't be read.
pub fn read_fault(alloc: Global, name: &str) -> Result<Vec<u8>, AllocError>
    ensures { IfOk result (λ text. text.items ≡ lines.read_fault_line name.now) }
{
    let mut text = Vec::new(alloc);
    put(&mut text, "read fault: ")?;
    put(&mut text, name)?;
    put(&mut text, "\n")?;
    Ok(text)
}

/// Puts the role's name behind a space, if the set has the role.
fn put_held_name(
    text: &mut Vec<u8>,
    order: &Order,
    set: &RoleSet,
    role: u16,
) -> Result<(), AllocError>
    requires { role < length order.now.names }
    ensures { OnOk result (text.new.items ≡ text.old.items ++ lines.held_name set.now role (name_of order.now.names role)) }
{
    if set.has(role) {
        put(text, " ")?;
        put_name(text, order, role)?;
    }
    Ok(())
}

/// Puts the names of the set's roles behind the text, each after a space.
fn put_held_names(text: &mut Vec<u8>, order: &Order, set: &RoleSet) -> Result<(), AllocError>
    ensures { OnOk result (text.new.items ≡ text.old.items ++ lines.held_names order.now.names set.now) }
{
    for role in 0..order.count() {
        put_held_name(text, order, set, role)?;
    }
    Ok(())
}

fn put_user_line(
    alloc: Global,
    text: &mut Vec<u8>,
    order: &Order,
    place: u64,
    set: &RoleSet,
) -> Result<(), AllocError>
    ensures { OnOk result (text.new.items ≡ text.old.items ++ lines.user_line order.now.names place set.now) }
{
    put_count(alloc, text, "user ", place)?;
    put_held_names(text, order, set)?;
    put(text, "\n")?;
    Ok(())
}

/// Puts a line for each user behind the text.
pub fn put_user_lines(
    alloc: Global,
    text: &mut Vec<u8>,
    order: &Order,
    sets: &[RoleSet],
) -> Result<(), AllocError>
    ensures { OnOk result (text.new.items ≡ text.old.items ++ lines.user_lines order.now.names sets.now) }
{
    for (place, set) in sets.iter().enumerate() {
        put_user_line(alloc, text, order, place as u64, set)?;
    }
    Ok(())
}

fn put_goal_line(alloc: Global, text: &mut Vec<u8>, place: u64, user: u32) -> Result<(), AllocError>
    ensures { OnOk result (text.new.items ≡ text.old.items ++ lines.goal_line place user) }
{
    put_count(alloc, text, "goal ", place)?;
    put_count(alloc, text, " ", user as u64)?;
    put(text, "\n")?;
    Ok(())
}

/// Puts a line for each condition of the goal behind the text, with the user who meets it.
pub fn put_goal_lines(alloc: Global, text: &mut Vec<u8>, users: &[u32]) -> Result<(), AllocError>
    ensures { OnOk result (text.new.items ≡ text.old.items ++ lines.goal_lines users.now) }
{
    for (place, user) in users.iter().enumerate() {
        put_goal_line(alloc, text, place as u64, *user)?;
    }
    Ok(())
}
