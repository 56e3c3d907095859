// The numbers of memory elements.

/// A memory element, by its number from 0 to 7.
#[derive(Clone, Copy, Debug, PartialEq, Eq)]
pub struct Me(pub u8);
