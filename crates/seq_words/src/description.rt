use crate::{Bytes, Items};

/// The description of a machine.
#[derive(Drop)]
pub struct MachineDesc {
    /// The number of processors, from 1 to 8.
    pub processors: u8,
    /// The number of memory elements, from 2 to 8.
    pub memories: u8,
    /// The number of I/O elements, from 1 to 4.
    pub ios: u8,
    /// The changed blocks that a cache holds, from 16 to 256.
    pub cache: u16,
    /// The steps of a process between two checkpoints, from 1 to 10,000.
    pub quantum: u32,
    /// The bytes of each line's input journal, a multiple of 32 from 32 to 65,536.
    pub journal: u32,
    /// At most 16 segments.
    pub segments: Items<SegmentDesc>,
    /// 1 to 16 processes.
    pub processes: Items<ProcessDesc>,
}

/// A shared segment.
#[derive(Drop)]
pub struct SegmentDesc {
    /// Its bytes, a multiple of 32 from 32 to 16,384.
    pub size: u32,
    /// The bytes with which it starts. Zeros follow.
    pub first: Bytes,
}

/// A process, and the program that it runs.
#[derive(Drop)]
pub struct ProcessDesc {
    /// Its private bytes, a multiple of 32 from 32 to 65,536.
    pub size: u32,
    /// The first pc, a multiple of four below the size.
    pub entry: u32,
    /// The bytes with which its private bytes start. Zeros follow.
    pub image: Bytes,
    /// The lines that it owns: bit l stands for line l.
    pub lines: u16,
    /// The segments that it may acquire: bit s stands for segment s.
    pub grants: u16,
}
