use crate::Extent;

/// A word of an extent. Word 0 of a process is its status word, word 0 of a segment its lock word; words 0, 1 and 2 of a
/// line are its journal count, its closed word and its sent count.
#[derive(Clone, Copy, Debug, PartialEq, Eq)]
pub struct WordAt {
    pub extent: Extent,
    pub word: u32,
}

/// What a memory holds of an extent: a block, by its number in the extent, or a word.
#[derive(Clone, Copy, Debug, PartialEq, Eq)]
pub enum Unit {
    Block(Extent, u32),
    Word(WordAt),
}
