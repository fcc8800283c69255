//! Answers to question documents.

/// The answer to a question document.
#[derive(Drop)]
pub enum Asked {
    /// The text of its certificate.
    Answer(Vec<u8>),
    /// It is no question document: the text of its first fault.
    Malformed(Vec<u8>),
    /// Want of memory.
    Memory,
}
