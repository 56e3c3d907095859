//! Small machines for tests: each is a description, and its contract gives the whole of it.
#![tactic(auto)]

ghost use Rattle.std.specs.Prelude.{◌≡◌, ◌≤◌, [], ◌∷◌, length, IfOk};
ghost use Rattle.seq_words.specs.Description.{IsSize, IsDescription};
ghost use Rattle.seq_samples.specs.Samples.{segment_of_size, process_of_size, machine_of, lone_process, three_memories, two_segments, one_line, two_images};

use seq_words::{Bytes, Items, MachineDesc, NoMemory, ProcessDesc, SegmentDesc};
use std::alloc::Global;

// A segment of `size` bytes, all zero.
fn segment(alloc: Global, size: u32) -> SegmentDesc
    ensures { result ≡ segment_of_size size }
{
    SegmentDesc {
        size,
        first: Bytes::new(alloc),
    }
}

// A process of `size` bytes, which owns the lines of one mask and is granted the segments of the other.
fn process(size: u32, image: Bytes, lines: u16, grants: u16) -> ProcessDesc
    ensures { result ≡ process_of_size size image lines grants }
{
    ProcessDesc {
        size,
        entry: 0,
        image,
        lines,
        grants,
    }
}

// A machine of one processor and one I/O element.
fn machine(
    memories: u8,
    journal: u32,
    segments: Vec<SegmentDesc>,
    processes: Vec<ProcessDesc>,
) -> MachineDesc
    ensures { result ≡ machine_of memories journal segments.items processes.items }
{
    MachineDesc {
        processors: 1,
        memories,
        ios: 1,
        cache: 16,
        quantum: 1000,
        journal,
        segments: Items::from_vec(segments),
        processes: Items::from_vec(processes),
    }
}

/// Two memories, and one process of 32 bytes with no line.
pub fn lone_process(alloc: Global) -> Result<MachineDesc, NoMemory>
    ensures value { IfOk result (λ d. d ≡ lone_process) }
    ensures described { IfOk result IsDescription }
{
    let Ok(processes) = vec![in alloc; process(32, Bytes::new(alloc), 0, 0)] else {
        return Err(NoMemory);
    };
    Ok(machine(2, 32, Vec::new(alloc), processes))
}

/// Three memories; two processes of 64 and of 32 bytes, of which the second owns lines 0 and 1; and two segments of 32 and
/// of 64 bytes.
pub fn three_memories(alloc: Global) -> Result<MachineDesc, NoMemory>
    ensures value { IfOk result (λ d. d ≡ three_memories) }
    ensures described { IfOk result IsDescription }
{
    let Ok(processes) = vec![in alloc;
        process(64, Bytes::new(alloc), 0, 0),
        process(32, Bytes::new(alloc), 3, 0),
    ] else {
        return Err(NoMemory);
    };
    let Ok(segments) = vec![in alloc; segment(alloc, 32), segment(alloc, 64)] else {
        return Err(NoMemory);
    };
    Ok(machine(3, 96, segments, processes))
}

/// Two memories, a process of 64 bytes with no line, and two segments of 32 bytes.
pub fn two_segments(alloc: Global) -> Result<MachineDesc, NoMemory>
    ensures value { IfOk result (λ d. d ≡ two_segments) }
    ensures described { IfOk result IsDescription }
{
    let Ok(processes) = vec![in alloc; process(64, Bytes::new(alloc), 0, 0)] else {
        return Err(NoMemory);
    };
    let Ok(segments) = vec![in alloc; segment(alloc, 32), segment(alloc, 32)] else {
        return Err(NoMemory);
    };
    Ok(machine(2, 32, segments, processes))
}

/// Two memories, and a process of 64 bytes that owns line 0 and may acquire segments 0 and 2 of three of 32 bytes.
pub fn one_line(alloc: Global) -> Result<MachineDesc, NoMemory>
    ensures value { IfOk result (λ d. d ≡ one_line) }
    ensures described { IfOk result IsDescription }
{
    let Ok(processes) = vec![in alloc; process(64, Bytes::new(alloc), 1, 5)] else {
        return Err(NoMemory);
    };
    let Ok(segments) = vec![in alloc; segment(alloc, 32), segment(alloc, 32), segment(alloc, 32)]
    else {
        return Err(NoMemory);
    };
    Ok(machine(2, 32, segments, processes))
}

/// Two memories, and two processes of so many bytes with these images. The first owns line 0, and both may acquire segments
/// 0, 1 and 2 of four of 32 bytes. Sizes are multiples of 32 from 32 to 65,536.
pub fn two_images(
    alloc: Global,
    size: u32,
    image: Bytes,
    other_size: u32,
    other: Bytes,
) -> Result<MachineDesc, NoMemory>
    requires size { IsSize 65536 size }
    requires image { length image ≤ size }
    requires other_size { IsSize 65536 other_size }
    requires other { length other ≤ other_size }
    ensures value { IfOk result (λ d. d ≡ two_images size image other_size other) }
    ensures described { IfOk result IsDescription }
{
    let Ok(processes) = vec![in alloc;
        process(size, image, 1, 7),
        process(other_size, other, 0, 7),
    ] else {
        return Err(NoMemory);
    };
    let Ok(segments) = vec![in alloc;
        segment(alloc, 32),
        segment(alloc, 32),
        segment(alloc, 32),
        segment(alloc, 32),
    ] else {
        return Err(NoMemory);
    };
    Ok(machine(2, 32, segments, processes))
}
