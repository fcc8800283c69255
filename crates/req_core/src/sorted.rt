//! Where an item goes in a sorted list.

ghost use Rattle.std.specs.Prelude.{◌≡◌, Bool};
ghost use Rattle.req_core.specs.Forms.{IsSpot};

/// What has a place in an order.
pub trait Ranked {
    /// The first comes before the second.
    ghost before: { Self → Self → Bool };

    fn is_before(&self, other: &Self) -> bool
        ensures { result ≡ before self.now other.now };
}

/// The place of the first item that isn't before this one.
pub fn place_of<T: Ranked>(items: &[T], item: &T) -> usize
    ensures { IsSpot T.before item.now items.now result }
{
    items
        .iter()
        .position(|other| !other.is_before(item))
        .unwrap_or(items.len())
}
