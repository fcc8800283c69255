//! Sets that grow.

ghost use Rattle.std.specs.Prelude.{◌≡◌, ◌<◌, ◌≤◌, false, length, IsTrue};
ghost use Rattle.role_order.specs.Roles.{IsWithin};

use role_order::{MOST_ROLES, RoleSet};

/// Whether the second set, which has all roles of the first, has more.
pub fn has_grown(set: &RoleSet, wider: &RoleSet) -> bool
    requires { IsWithin set.now wider.now }
    ensures grown { IsTrue result → length set.now < length wider.now }
    ensures same { result ≡ false → IsWithin wider.now set.now }
    ensures kept { length set.now ≤ length wider.now }
    ensures few { length wider.now ≤ MOST_ROLES }
{
    set.is_role_set();
    wider.is_role_set();
    set.len() < wider.len()
}
