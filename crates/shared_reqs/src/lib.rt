//! Requirements in normal form that share their user requirements, each with its mark; and what is kept of many.
#![tactic(auto)]

mod cover_rows;
mod hashing;
mod index;
#[cfg(test)]
mod index_tests;
mod pool;
mod seen;
mod shared;
#[cfg(test)]
mod tests;
mod user;

pub use index::Index;
pub use pool::Pool;
pub use seen::Seen;
pub use shared::SharedReq;
pub use std::alloc::AllocError as NoMemory;
pub use user::MarkedUser;
