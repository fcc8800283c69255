//! The desk as a machine: what each request is answered over the kept tables, and what it leaves;
//! imports and loads; and laws over lists of requests. Each law computes nothing; its clauses are the law.
#![tactic(auto)]

mod laws;
mod reply;

pub use laws::{acts_once, counts_on, keeps_form, sent_again};
pub use reply::Reply;
