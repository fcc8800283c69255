//! The written forms of faults, of parts of acts, of the checker's reasons, and of the lines that commands share.
#![tactic(auto)]

mod faults;
mod lines;
mod parts;
mod reasons;
#[cfg(test)]
mod tests;

pub use faults::{
    Fault, TooLong, put_cert_fault, put_cond_fault, put_members_fault, put_order_fault,
    put_question_fault, put_run_fault,
};
pub use lines::{malformed, put_goal_lines, put_user_lines, read_fault, usage};
pub use parts::{put_name, put_part};
pub use reasons::{kind_word, put_why};
