//! What the calls answer.

use crate::req::Req;

/// A requirement in normal form.
#[derive(Drop)]
pub struct Normal {
    pub req: Req,
    /// Where each user of the raw requirement went.
    pub places: Vec<u32>,
}

/// The answer of `met`.
#[derive(Debug, Drop)]
pub enum Met {
    /// A profile for each user requirement: the least choice whose users meet them.
    Choice(Vec<u32>),
    /// Places of user requirements, rising, that the profiles can't serve together.
    Apart(Vec<u32>),
}
