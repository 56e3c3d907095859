use seq_layout::Extent;
use seq_words::Block;

/// A block that was changed: where it stands, and what it is now.
#[derive(Clone, Copy, Debug, PartialEq, Eq)]
pub struct Change {
    pub extent: Extent,
    /// The number of the block in its extent.
    pub place: u32,
    pub block: Block,
}
