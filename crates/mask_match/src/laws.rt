//! What rows of bits say of two lists.

ghost use Rattle.std.specs.Prelude.{ℕ, ◌≡◌, ◌≤◌, ◌↔◌, Bool, true, List, length};
ghost use Rattle.list_words.specs.Embeds.{Embeds};
ghost use Rattle.hall_match.specs.Joined.{JoinsAt};
ghost use Rattle.mask_match.specs.Rows.{HasBitAt, ArePlaced};
ghost use Rattle.mask_match.specs.declared.TheConstants.{MOST_PLACES};

/// Where rows say which items of the second list each of the first goes with, the rows can be placed just where each item
/// of the first list has an item of the second for itself.
pub fn placed_laws()
    ensures limit { MOST_PLACES ≡ 128 }
    ensures embeds { (joins : ℕ → ℕ → Bool) (xs ys rows : List ℕ) → length rows ≡ length xs → length ys ≤ MOST_PLACES
        → ((i j : ℕ) → HasBitAt rows i j ↔ JoinsAt (λ x y. joins x y ≡ true) xs ys i j)
        → ArePlaced rows ↔ Embeds (λ x y. joins x y ≡ true) xs ys }
{}
