//! Ranges of roles.

/// The roles from `low` up to `high`, each by its number; an end that is open isn't in the range.
#[derive(Clone, Copy, Debug, PartialEq, Eq)]
pub struct Range {
    pub low: u16,
    pub high: u16,
    pub low_open: bool,
    pub high_open: bool,
}
