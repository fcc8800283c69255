//! Requirements on users: normal forms, cover, and which users meet them.
#![tactic(auto)]

mod answers;
mod cover;
mod forms;
mod hits;
mod req;
mod service;
mod sorted;
#[cfg(test)]
mod tests;

pub use answers::{Met, Normal};
pub use arbac_policy::Conjunct as RawUser;
pub use cover::{covers, covers_user};
pub use forms::normal;
pub use hits::{normal_user, with_hit};
pub use req::{Req, UserReq, meets};
pub use service::met;
pub use std::alloc::AllocError as NoMemory;
