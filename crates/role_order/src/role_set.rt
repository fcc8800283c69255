//! Sets of roles.

ghost use Rattle.std.specs.Prelude.{ℕ, ◌≡◌, ◌<◌, ◌≤◌, ◌↔◌, [], length, slice_get, IsTrue, IfSome, IfNone};
ghost use Rattle.list_words.specs.Orders.{IsTotalOrder};
ghost use Rattle.role_order.specs.Orders.{set_before};
ghost use Rattle.role_order.specs.Roles.{has_role, with_role, without_role, less_roles, is_within, have_common, common_roles, join_roles, first_from};
ghost use Rattle.role_order.specs.Roles.{differ, Rises, IsOut, IsFirstFrom, IsRoleSet};

use crate::mask::{bit, has_bit, next_bit};
use crate::{MASK_BITS, MOST_ROLES};
use std::marker::Model;

/// A set of roles, which contracts see as the strictly rising list of their numbers.
#[derive(Clone, Copy)]
pub struct RoleSet {
    /// Bit `k` is role `k`.
    low: u128,
    /// Bit `k` is role `MASK_BITS + k`.
    high: u128,
}

impl Model for RoleSet {
    ghost use Rattle.std.specs.Prelude.{ℕ, List};
    ghost use Rattle.role_order.specs.declared.TheConstants.{MOST_ROLES, MASK_BITS};
    ghost use Rattle.role_order.specs.Masks.{AreMasks, held_roles, low_of, high_of};

    ghost Value = { List ℕ };

    ghost view = { λ s. held_roles MOST_ROLES s.low s.high };

    ghost invariant = { λ s. AreMasks s.low s.high };

    ghost inverse = { λ roles. record { low = low_of roles; high = high_of roles } };

    ghost use Rattle.role_order.specs.MasksBack.{low_back, high_back};

    ghost inverse_ok = { λ s h i. record { low = low_back s.low s.high h i; high = high_back s.low s.high h i } };
}

impl RoleSet {
    /// The set without roles.
    pub fn empty() -> RoleSet
        ensures { result ≡ [] }
    {
        RoleSet { low: 0, high: 0 }
    }

    /// Whether the role is in the set.
    pub fn has(&self, role: u16) -> bool
        ensures value { result ≡ has_role self.now role }
        ensures set { IsRoleSet self.now }
    {
        if role < MASK_BITS {
            has_bit(self.low, role)
        } else {
            has_bit(self.high, role - MASK_BITS)
        }
    }

    /// The set with the role.
    pub fn with(&self, role: u16) -> RoleSet
        requires { role < MOST_ROLES }
        ensures { result ≡ with_role self.now role }
    {
        if role < MASK_BITS {
            RoleSet {
                low: self.low | bit(role),
                high: self.high,
            }
        } else {
            RoleSet {
                low: self.low,
                high: self.high | bit(role - MASK_BITS),
            }
        }
    }

    /// The set without the role.
    pub fn without(&self, role: u16) -> RoleSet
        ensures { result ≡ without_role self.now role }
    {
        if role < MASK_BITS {
            RoleSet {
                low: self.low & !bit(role),
                high: self.high,
            }
        } else if role < 2 * MASK_BITS {
            RoleSet {
                low: self.low,
                high: self.high & !bit(role - MASK_BITS),
            }
        } else {
            *self
        }
    }

    /// The roles of one set or the other.
    pub fn join(&self, other: &RoleSet) -> RoleSet
        ensures { result ≡ join_roles self.now other.now }
    {
        RoleSet {
            low: self.low | other.low,
            high: self.high | other.high,
        }
    }

    /// The roles that both sets have.
    pub fn common(&self, other: &RoleSet) -> RoleSet
        ensures common { result ≡ common_roles self.now other.now }
        ensures rises { Rises result }
    {
        RoleSet {
            low: self.low & other.low,
            high: self.high & other.high,
        }
    }

    /// The roles of the set that the other lacks.
    pub fn less(&self, other: &RoleSet) -> RoleSet
        ensures { result ≡ less_roles self.now other.now }
    {
        RoleSet {
            low: self.low & !other.low,
            high: self.high & !other.high,
        }
    }

    /// Whether the set has no role.
    pub fn is_empty(&self) -> bool
        ensures { IsTrue result ↔ (self.now ≡ []) }
    {
        self.low == 0 && self.high == 0
    }

    /// Whether each role of the set is in the other.
    pub fn within(&self, other: &RoleSet) -> bool
        ensures { result ≡ is_within self.now other.now }
    {
        self.less(other).is_empty()
    }

    /// Whether a role is in both sets.
    pub fn meets(&self, other: &RoleSet) -> bool
        ensures { result ≡ have_common self.now other.now }
    {
        !self.common(other).is_empty()
    }

    /// How many roles the set has.
    pub fn len(&self) -> u16
        ensures { result ≡ length self.now }
    {
        (self.low.count_ones() + self.high.count_ones()) as u16
    }

    /// The least role of the set that isn't below the number.
    pub fn next_from(&self, from: u16) -> Option<u16>
        ensures value { result ≡ first_from self.now from }
        ensures found { IfSome result (IsFirstFrom self.now from) }
        ensures none { IfNone result ((role : ℕ) → from ≤ role → IsOut self.now role) }
        ensures set { IsRoleSet self.now }
    {
        match next_bit(self.low, from) {
            Some(role) => Some(role),
            None => Some(MASK_BITS + next_bit(self.high, from.saturating_sub(MASK_BITS))?),
        }
    }

    /// The least role of the set.
    pub fn least(&self) -> Option<u16>
        ensures value { result ≡ slice_get self.now 0 }
        ensures found { IfSome result (IsFirstFrom self.now 0) }
        ensures set { IsRoleSet self.now }
    {
        self.next_from(0)
    }

    /// The roles that one of the sets has and the other lacks.
    fn differing(&self, other: &RoleSet) -> RoleSet
        ensures differ { (role : ℕ) → has_role result role ≡ differ (has_role self.now role) (has_role other.now role) }
        ensures sets { IsRoleSet self.now × IsRoleSet other.now }
    {
        RoleSet {
            low: self.low ^ other.low,
            high: self.high ^ other.high,
        }
    }

    /// Whether the set comes before the other as rising lists of numbers do, a front first. Of two
    /// that differ, the one with the least role that only one has is before where the other goes on.
    pub fn before(&self, other: &RoleSet) -> bool
        ensures value { result ≡ set_before self.now other.now }
        ensures order { IsTotalOrder set_before }
    {
        match self.differing(other).least() {
            None => false,
            Some(role) if self.has(role) => other.next_from(role).is_some(),
            Some(role) => self.next_from(role).is_none(),
        }
    }

    /// The roles of the set, rising.
    pub fn roles(&self) -> Roles
        ensures { result ≡ self.now }
    {
        Roles { left: *self }
    }

    /// Says that the set's list is one of a set: its roles rise, and each is below `MOST_ROLES`.
    pub fn is_role_set(&self)
        ensures { IsRoleSet self.now }
    {
        let _ = &self.low;
    }
}

impl PartialEq for RoleSet {
    ghost use Rattle.std.specs.Prelude.{nat_eq};
    ghost use Rattle.std.specs.Cmp.{partial_equiv_from_equiv};
    ghost use Rattle.std.specs.Cmp.Lexicographic.{pointwise, nat_list_eq_equiv};

    ghost eq = { pointwise nat_eq };

    ghost laws = { partial_equiv_from_equiv nat_list_eq_equiv };

    fn eq(&self, other: &RoleSet) -> bool {
        self.low == other.low && self.high == other.high
    }
}

impl Eq for RoleSet {
    ghost use Rattle.std.specs.Cmp.Lexicographic.{nat_list_eq_equiv};

    ghost laws = { nat_list_eq_equiv };
}

/// The roles of a set that are left, the least first.
#[derive(Clone, Copy)]
pub struct Roles {
    left: RoleSet,
}

impl Model for Roles {
    ghost use Rattle.std.specs.Prelude.{ℕ, List};

    ghost Value = { List ℕ };

    ghost view = { λ roles. roles.left };

    ghost inverse = { λ left. record { left = left } };
}

impl Iterator for Roles {
    ghost use Rattle.std.specs.Iterator.{YieldsFirst, item_count};

    type Item = u16;

    ghost next_gives = { YieldsFirst (λ left. left) };

    ghost remaining = { item_count (λ left. left) };

    fn next(&mut self) -> Option<u16> {
        let role = self.left.least()?;
        self.left = self.left.without(role);
        Some(role)
    }
}
