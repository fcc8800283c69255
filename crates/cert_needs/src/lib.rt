//! Requirements as plain lists, in normal form or not, for whoever checks what a search found: cover, normal forms, profiles
//! that serve, and what must be met before an act.
#![tactic(auto)]

mod before;
mod cover;
mod exclusions;
mod forms;
#[cfg(test)]
mod requirement_tests;
mod service;
#[cfg(test)]
mod tests;
mod wanted;

pub use arbac_policy::Conjunct as NeedUser;
pub use before::{before_assign, before_weak};
pub use cover::{covers, covers_user};
pub use exclusions::Exclusions;
pub use forms::{has_form, is_possible};
pub use service::serving;
pub use std::alloc::AllocError as NoMemory;
pub use wanted::{Wanted, add_fresh, as_wanted, drop_admin, exchange, put_admin, wanted_of};
