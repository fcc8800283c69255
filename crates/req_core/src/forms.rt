//! The normal form of a requirement.

ghost use Rattle.std.specs.Prelude.{ℕ, ◌≡◌, ◌<◌, ◌≤◌, ◌+◌, ◌^◌, true, false, List, ◌∷◌, length, map, slice_get, Some, IfOk};
ghost use Rattle.std.specs.Prelude.{IfSome, OnOk};
ghost use Rattle.list_words.specs.Lists.{Each};
ghost use Rattle.arbac_laws.specs.Needs.{Need};
ghost use Rattle.arbac_laws.specs.Orders.{need_before};
ghost use Rattle.arbac_laws.specs.NormalForms.{normal_form, normal_need, insert_by, AreFormPlaces};
ghost use Rattle.req_core.specs.Answers.{form_in};
ghost use Rattle.req_core.specs.Forms.{moved, IsPlaced};
ghost use Rattle.arbac_laws.specs.Views.{needs_of};

use crate::answers::Normal;
use crate::hits::normal_user;
use crate::req::{Req, UserReq};
use crate::sorted::place_of;
use crate::{NoMemory, RawUser};
use std::alloc::{AllocError, Global};

/// One place further, from this place on.
fn move_on(place: &mut u32, at: u32)
    requires { place.old + 1 < 2 ^ 32 }
    ensures { place.new ≡ moved at place.old }
{
    if at <= *place {
        *place += 1;
    }
}

/// Makes room at the place.
fn make_room(places: &mut Vec<u32>, at: u32)
    requires { Each (λ place. place + 1 < 2 ^ 32) places.old.items }
    ensures { places.new.items ≡ map (moved at) places.old.items }
{
    for place in places.iter_mut() {
        move_on(place, at);
    }
}

/// Puts one more user, before the others, into the normal form of the others.
fn add_user(
    users: &mut Vec<UserReq>,
    places: &mut Vec<u32>,
    user: UserReq,
) -> Result<(), AllocError>
    requires room { length users.old.items + 1 < 2 ^ 32 }
    requires places { Each (λ place. place < length users.old.items) places.old.items }
    ensures users { OnOk result (users.new.items ≡ insert_by need_before user users.old.items) }
    ensures placed { OnOk result ((needs : List Need) (need : Need) → normal_need need ≡ user
        → IsPlaced needs users.old.items places.old.items → IsPlaced (need ∷ needs) users.new.items places.new.items) }
{
    let at = place_of(users, &user);
    make_room(places, at as u32);
    places.insert(0, at as u32)?;
    users.insert(at, user)?;
    Ok(())
}

/// The normal form of a requirement whose places have 32 bits.
fn form_of(alloc: Global, raw: &[RawUser]) -> Result<Option<Normal>, AllocError>
    requires { length raw.now < 2 ^ 32 }
    ensures form { IfOk result (λ normal. form_in normal ≡ normal_form (needs_of raw.now)) }
    ensures places { IfOk result (λ normal. IfSome normal (λ n. AreFormPlaces (needs_of raw.now) n.req n.places.items)) }
{
    let mut users = Vec::with_capacity(alloc, raw.len())?;
    let mut places = Vec::with_capacity(alloc, raw.len())?;
    for at in (0..raw.len()).rev() {
        match normal_user(alloc, &raw[at])? {
            None => return Ok(None),
            Some(user) => add_user(&mut users, &mut places, user)?,
        }
    }
    Ok(Some(Normal {
        req: Req { users },
        places,
    }))
}

/// The normal form of the requirement; none exactly where it is impossible. The error is want of memory, or
/// more users than 32 bits count.
pub fn normal(alloc: Global, raw: &[RawUser]) -> Result<Option<Normal>, NoMemory>
    ensures form { IfOk result (λ normal. form_in normal ≡ normal_form (needs_of raw.now)) }
    ensures places { IfOk result (λ normal. IfSome normal (λ n. AreFormPlaces (needs_of raw.now) n.req n.places.items)) }
{
    if raw.len() > u32::MAX as usize {
        return Err(AllocError);
    }
    form_of(alloc, raw)
}
