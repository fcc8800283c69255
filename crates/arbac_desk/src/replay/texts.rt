//! What `replay` writes.

ghost use Rattle.std.specs.Prelude.{ℕ, ◌≡◌, List, IfOk};
ghost use Rattle.arbac_desk.specs.ReplayTexts.{done_text, unmet_text, stopped_text};

use arbac_policy::Part;
use desk_texts::{put_goal_lines, put_part, put_user_lines};
use role_order::{Order, RoleSet};
use std::alloc::{AllocError, Global};
use text_pieces::{put, put_count};

/// The text of a run whose goal is met at its end, by these users.
pub fn done(
    alloc: Global,
    order: &Order,
    sets: &[RoleSet],
    users: &[u32],
) -> Result<Vec<u8>, AllocError>
    ensures { IfOk result (λ text. text.items ≡ done_text order.now.names sets.now users.now) }
{
    let mut text = Vec::new(alloc);
    put(&mut text, "done\n")?;
    put_user_lines(alloc, &mut text, order, sets)?;
    put_goal_lines(alloc, &mut text, users)?;
    put(&mut text, "end\n")?;
    Ok(text)
}

/// The text of a run whose goal isn't met at its end.
pub fn unmet(alloc: Global, order: &Order, sets: &[RoleSet]) -> Result<Vec<u8>, AllocError>
    ensures { IfOk result (λ text. text.items ≡ unmet_text order.now.names sets.now) }
{
    let mut text = Vec::new(alloc);
    put(&mut text, "unmet\n")?;
    put_user_lines(alloc, &mut text, order, sets)?;
    put(&mut text, "end\n")?;
    Ok(text)
}

/// The text of a run that stops at the act at the place.
pub fn stopped(alloc: Global, order: &Order, place: u32, part: Part) -> Result<Vec<u8>, AllocError>
    ensures { IfOk result (λ text. text.items ≡ stopped_text order.now.names place part) }
{
    let mut text = Vec::new(alloc);
    put_count(alloc, &mut text, "stopped act ", place as u64)?;
    put(&mut text, " ")?;
    put_part(alloc, &mut text, order, part)?;
    put(&mut text, "\n")?;
    Ok(text)
}
