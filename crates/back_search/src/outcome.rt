//! What searches and rounds answer.

use arbac_policy::Act;
use req_core::Req;
use search_rounds::Origin;
use std::marker::Sync;

/// A requirement in normal form with its origin.
#[derive(Drop)]
pub struct Entry {
    pub req: Req,
    pub origin: Origin,
}

/// How a search ends.
#[derive(Drop)]
pub enum Outcome {
    /// Users drawn by the choice, a profile for each, come to meet the goal by the acts. So many requirements were recorded.
    Found {
        choice: Vec<u32>,
        acts: Vec<Act>,
        recorded: u32,
    },
    /// Nothing is left to take: the barriers, and the requirements that were recorded, so many.
    Closed {
        needs: Vec<Req>,
        recorded: u32,
    },
    /// As many requirements were recorded as may be, and there is one more.
    Limit {
        recorded: Vec<Entry>,
        next: Entry,
    },
}

/// What a round answers.
#[derive(Drop)]
pub struct Round {
    /// The unbeaten candidates, in the order of requirements.
    pub unbeaten: Vec<Entry>,
    /// What workers showed each other, by number. One that works alone shows nothing.
    pub placed: Vec<(u32, Entry)>,
    /// Candidates that workers dropped, each with the number of one that beats it.
    pub drops: Vec<(Entry, u32)>,
}

/// Where each worker passes in each round, before its first candidate.
pub trait Gate: Sync {
    fn pass(&self, worker: u32);
}

/// The gate that does nothing.
#[derive(Clone, Copy)]
pub struct NoGate;

impl Gate for NoGate {
    fn pass(&self, worker: u32) {}
}
