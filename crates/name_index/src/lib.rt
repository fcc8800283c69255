//! Names by place, and the place of a name by one look-up.
#![tactic(auto)]

mod index;
#[cfg(test)]
mod tests;

pub use index::NameIndex;
pub use profile_set::{Name, NoMemory};
