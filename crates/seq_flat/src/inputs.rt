use seq_words::{Bytes, Items};

/// The input that has arrived so far.
#[derive(Drop)]
pub struct Inputs {
    /// An entry for each line, by its number. Nothing has arrived at a line without an entry.
    pub lines: Items<LineInput>,
}

/// What has arrived at a line.
#[derive(Drop)]
pub struct LineInput {
    pub bytes: Bytes,
    /// Nothing more will arrive.
    pub closed: bool,
}
