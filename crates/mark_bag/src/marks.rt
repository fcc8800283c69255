//! Marks, and what asks for items by them.

ghost use Rattle.std.specs.Prelude.{ℕ, ◌↔◌, IsTrue};

/// What an item is marked with, as a set of features: a mark lies within the marks of all that have it.
///
/// What a query finds follows from `common` alone. The other functions only choose where an item is
/// kept: wrong answers cost time.
pub trait Mark: Copy {
    /// The first mark lies within the second.
    ghost within: { Self → Self → Type 0 };

    /// A mark within both, the greater the better.
    fn common(&self, other: &Self) -> Self
        ensures one { within result self.now }
        ensures other { within result other.now };

    /// How much the mark has.
    fn weight(&self) -> u32;

    /// Whether the mark lies within the other.
    fn is_within(&self, other: &Self) -> bool;

    /// How many words of features a mark has.
    fn words() -> u32;

    /// The word of features at the place, a bit for each that the mark has.
    fn word(&self, place: u32) -> u128;

    ghost itself: { (mark : Self) → within mark mark };

    ghost through: { (a b c : Self) → within a b → within b c → within a c };
}

/// What asks for items by their marks.
pub trait Query<M: Mark> {
    /// The mark fits the query.
    ghost fits: { Self → M → Type 0 };

    /// Whether the mark fits: then an item with it, or with one that it lies within, may be what is sought.
    fn may_fit(&self, mark: &M) -> bool
        ensures { IsTrue result ↔ fits self.now mark.now };

    ghost falls: { (query : Self) (a b : M) → M.within a b → fits query b → fits query a };
}

/// What tells whether an item is one that is sought.
pub trait Accepts {
    /// The item is one.
    ghost accepts: { Self → ℕ → Type 0 };

    fn accepts(&self, item: u32) -> bool
        ensures { IsTrue result ↔ accepts self.now item };
}
