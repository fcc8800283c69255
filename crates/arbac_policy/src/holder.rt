//! Who holds roles.

/// A user, administered by URA97, or a permission, administered by PRA97.
#[derive(Clone, Copy, Debug, PartialEq, Eq)]
pub enum On {
    User,
    Permission,
}
