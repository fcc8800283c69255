//! A question searched: its outcome, and the certificate of it.
#![tactic(auto)]

mod answer;
mod certificates;
mod laws;
mod posed;
#[cfg(test)]
mod tests;

pub use answer::{Answer, answer_question};
pub use certificates::{Kind, certificate};
pub use laws::answer_laws;
pub use posed::{Posed, pose, search_posed};
pub use std::alloc::AllocError as NoMemory;
