/// An extent, by its number: the processes come first, then the segments, then the lines.
#[derive(Clone, Copy, Debug, PartialEq, Eq)]
pub struct Extent(pub u32);
