//! What is wanted of users, where one of them may administer an act besides.

ghost use Rattle.std.specs.Prelude.{ℕ, List, ◌≡◌, ◌<◌, ◌++◌, [], ◌∷◌, length, slice_set, Some, None, IfOk, OnOk, OnErr};
ghost use Rattle.arbac_laws.specs.PreImages.{add_hit, change_at};
ghost use Rattle.arbac_laws.specs.Views.{need_of, needs_of};
ghost use Rattle.cert_needs.specs.declared.wanted.Wanted as declared;
ghost use Rattle.cert_needs.specs.Wanted.{need_wanted, needs_wanted, IsFree, AreFree, set_admin, AddsFresh};

use crate::{NeedUser, NoMemory};
use role_order::RoleSet;
use std::alloc::Global;

/// What is wanted of a user: a role of each hit, one of the administrator's hit where it administers the act, and none of
/// the lacks. The hits stand where the requirement has them, so that many pre-images of it are made without a copy.
#[derive(Clone, Copy)]
pub struct Wanted<'a> {
    pub hits: &'a [RoleSet],
    pub admin: Option<RoleSet>,
    pub lacks: RoleSet,
}

/// What the user requirement wants of a user, who doesn't administer.
pub fn wanted_of(user: &NeedUser) -> Wanted
    ensures need { need_wanted result ≡ need_of user.now }
    ensures free { result.admin ≡ None }
{
    Wanted {
        hits: user.hits.as_slice(),
        admin: None,
        lacks: user.lacks,
    }
}

/// The users of a requirement, none of whom administers.
pub fn as_wanted<'a>(alloc: Global, users: &'a [NeedUser]) -> Result<Vec<Wanted<'a>>, NoMemory>
    ensures needs { IfOk result (λ list. needs_wanted list.items ≡ needs_of users.now) }
    ensures free { IfOk result (λ list. AreFree list.items) }
{
    let mut list = Vec::with_capacity(alloc, users.len())?;
    for user in users {
        list.extend_from_slice(&[wanted_of(user)])?;
    }
    Ok(list)
}

/// What is wanted of the user at the place, who doesn't administer then, is exchanged.
pub fn exchange<'a>(users: &mut [Wanted<'a>], place: usize, before: &'a NeedUser)
    requires { place < length users.old }
    ensures needs { needs_wanted users.new ≡ slice_set (needs_wanted users.old) place (need_of before.now) }
    ensures free { AreFree users.old → AreFree users.new }
{
    users[place] = wanted_of(before);
}

/// The user at the place, who doesn't administer yet, administers, and is to have a role of the hit.
pub fn put_admin(users: &mut [Wanted], place: usize, hit: RoleSet)
    requires place { place < length users.old }
    requires free { IsFree place users.old }
    ensures put { users.new ≡ set_admin place (Some hit) users.old }
    ensures needs { needs_wanted users.new ≡ change_at place (add_hit hit) (needs_wanted users.old) }
{
    users[place].admin = Some(hit);
}

/// The user at the place doesn't administer. After `put_admin` the list is again as it was before.
pub fn drop_admin(users: &mut [Wanted], place: usize)
    requires { place < length users.old }
    ensures dropped { users.new ≡ set_admin place None users.old }
    ensures back { (before : List declared.Wanted) (hit : List ℕ) → IsFree place before → users.old ≡ set_admin place (Some hit) before
        → users.new ≡ before }
{
    users[place].admin = None;
}

/// A new user administers, of whom nothing else is wanted. It is the last, and the list without it is as before.
pub fn add_fresh(users: &mut Vec<Wanted>, hit: RoleSet) -> Result<(), NoMemory>
    ensures added { OnOk result (AddsFresh hit users.old.items users.new.items) }
    ensures needs { OnOk result (needs_wanted users.new.items ≡ needs_wanted users.old.items ++ record { hits = hit ∷ []; lacks = [] } ∷ []) }
    ensures kept { OnErr result (users.new.items ≡ users.old.items) }
{
    let user = Wanted {
        hits: &[],
        admin: Some(hit),
        lacks: RoleSet::empty(),
    };
    users.extend_from_slice(&[user])?;
    Ok(())
}
