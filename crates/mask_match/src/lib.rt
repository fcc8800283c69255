//! Whether different places can be found for all items, where each item's places are the bits of a mask; no memory is taken.
#![tactic(auto)]

mod laws;
mod placing;
#[cfg(test)]
mod tests;

pub use laws::placed_laws;
pub use placing::all_placed;

/// The number of places that a mask has bits for.
pub const MOST_PLACES: usize = 128;
