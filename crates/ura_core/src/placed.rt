//! A role with all those above and below it.

ghost use Rattle.std.specs.Prelude.{◌≡◌, ◌<◌, ◌↔◌, IsTrue, length};
ghost use Rattle.role_order.specs.Graph.{Graph};
ghost use Rattle.role_order.specs.Ranges.{IsInRange};
ghost use Rattle.ura_core.specs.Placed.{IsPlaced};

use role_order::{Order, Range, RoleSet};

/// A role with the sets of those above and below it, by which many ranges are tested with no look-up.
#[derive(Clone, Copy)]
pub struct Placed {
    pub role: u16,
    pub above: RoleSet,
    pub below: RoleSet,
}

impl Placed {
    /// The role with those above and below it in the order.
    pub fn new(order: &Order, role: u16) -> Placed
        requires { role < length order.now.names }
        ensures role { result.role ≡ role }
        ensures placed { IsPlaced order.now result.role result.above result.below }
    {
        Placed {
            role,
            above: order.seniors(role),
            below: order.juniors(role),
        }
    }

    /// Whether the range has the role.
    pub fn is_in(&self, range: &Range) -> bool
        ensures { (order : Graph) → IsPlaced order self.now.role self.now.above self.now.below → IsTrue result ↔ IsInRange order range.now self.now.role }
    {
        self.below.has(range.low)
            && self.above.has(range.high)
            && !(range.low_open && self.role == range.low)
            && !(range.high_open && self.role == range.high)
    }
}
