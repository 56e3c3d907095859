// The numbers of elements, processes, segments and lines. Each is a type of its own, so that none stands for another.

/// A processor element, by its number from 0 to 7.
#[derive(Clone, Copy, Debug, PartialEq, Eq)]
pub struct Pe(pub u8);

/// An I/O element, by its number from 0 to 3.
#[derive(Clone, Copy, Debug, PartialEq, Eq)]
pub struct Ioe(pub u8);

/// A process, by its number from 0 to 15.
#[derive(Clone, Copy, Debug, PartialEq, Eq)]
pub struct Pid(pub u8);

/// A segment, by its number from 0 to 15.
#[derive(Clone, Copy, Debug, PartialEq, Eq)]
pub struct Seg(pub u8);

/// A line, by its number from 0 to 15.
#[derive(Clone, Copy, Debug, PartialEq, Eq)]
pub struct LineNo(pub u8);
