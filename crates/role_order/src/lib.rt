//! Role orders: roles by number, their edges, ranges and sets of roles.
#![tactic(auto)]

mod closure;
mod mask;
mod name_table;
mod names;
mod order;
mod range;
mod role_set;
#[cfg(test)]
mod tests;

pub use names::{is_name, is_name_byte, place_in};
pub use order::{Order, OrderError};
pub use range::Range;
pub use role_set::{RoleSet, Roles};
pub use std::alloc::AllocError as NoMemory;

/// The greatest number of roles of an order.
pub const MOST_ROLES: usize = 250;

/// The number of roles that one of a set's two masks has bits for.
pub const MASK_BITS: u16 = 128;

/// The greatest number of bytes of a name.
pub const MOST_NAME_BYTES: usize = 64;
