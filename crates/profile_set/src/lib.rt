//! Names, profiles as groups of users, choices of profiles that a population can be drawn by, and
//! lists of members.
#![tactic(auto)]

mod choice;
mod groups;
mod member_row;
mod members;
mod members_error;
mod name;
#[cfg(test)]
mod tests;

pub use arbac_policy::{On, Profile};
pub use choice::undrawn;
pub use groups::group;
pub use member_row::MemberRow;
pub use members::read_members;
pub use members_error::MembersError;
pub use name::Name;
pub use std::alloc::AllocError as NoMemory;
