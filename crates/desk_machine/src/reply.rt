//! Replies to requests.

use desk_records::{Decision, Request, Told};

/// What a caller is answered.
#[derive(Drop)]
pub enum Reply {
    /// The request was carried out.
    Granted,
    /// The request was refused, and its number is used.
    Denied(Told),
    /// The request was decided before: the kept decision.
    Repeat(Decision),
    /// The number is neither the caller's last nor the next; his last, 0 where he has none.
    OutOfTurn { last: u64 },
    /// The number is the caller's last, of another request: the kept one.
    NumberReused(Request),
    /// The journal has so many rows, and takes no more.
    JournalFull { count: u64 },
}
