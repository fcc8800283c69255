//! What is wanted of a user, before it is in normal form.

ghost use Rattle.std.specs.Prelude.{◌≡◌, IfOk};
ghost use Rattle.arbac_laws.specs.Views.{need_of};

use crate::NoMemory;
use req_core::RawUser;
use role_order::RoleSet;
use std::alloc::Global;

/// A user of whom so much is wanted.
pub fn raw_user(alloc: Global, hits: &[RoleSet], lacks: &RoleSet) -> Result<RawUser, NoMemory>
    ensures { IfOk result (λ user. need_of user ≡ record { hits = hits.now; lacks = lacks.now }) }
{
    let mut copied = Vec::new(alloc);
    copied.extend_from_slice(hits)?;
    Ok(RawUser {
        hits: copied,
        lacks: *lacks,
    })
}
