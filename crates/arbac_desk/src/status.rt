//! The statuses that the program exits with.

/// A number of the table of statuses.
pub type Status = u8;

/// All acts were accepted, and the goal is met; or the certificate has its property; or the sample was searched.
pub const DONE: Status = 0;

/// The words are of no written form.
pub const USAGE: Status = 2;

/// A file is too long, or isn't of its grammar.
pub const MALFORMED: Status = 3;

/// The shelf counted a fault.
pub const READ_FAULT: Status = 4;

/// The sink counted a fault.
pub const WRITE_FAULT: Status = 5;

/// No memory was left.
pub const NO_MEMORY: Status = 7;

/// The question is reachable.
pub const REACHABLE: Status = 10;

/// The question isn't reachable.
pub const UNREACHABLE: Status = 20;

/// An act was refused, or the goal isn't met; or the certificate hasn't its property.
pub const REFUSED: Status = 21;

/// The limit of recorded requirements came first.
pub const UNDECIDED: Status = 30;
