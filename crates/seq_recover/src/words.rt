// The status words and the lock words that a recovery reads and writes.
ghost use Rattle.std.specs.Prelude.{◌≡◌, ◌<◌, length};
ghost use Rattle.seq_layout.specs.Shapes.{shape_of, segment_extent};
ghost use Rattle.seq_layout.specs.Copies.{Matches, copies};
ghost use Rattle.seq_status.specs.Words.{IsStatus, word_of};
ghost use Rattle.seq_recover.specs.Reading.{names};
ghost use Rattle.seq_recover.specs.Turns.{status_set};

use seq_layout::{Layout, WordAt};
use seq_memory::Memories;
use seq_status::{Status, to_word};
use seq_words::{MachineDesc, Pid, Seg};

/// The lock word of a segment.
pub fn lock_word(segment: Seg, layout: &Layout) -> WordAt
    requires { segment.0 < layout.now.segments }
    ensures { result ≡ record { extent = record { 0 = segment_extent layout.now segment.0 }; word = 0 } }
{
    WordAt {
        extent: layout.segment(segment),
        word: 0,
    }
}

/// Writes one copy of a process's status word, where it is in service.
pub fn write_status(
    pid: Pid,
    shadow: bool,
    status: &Status,
    memories: &mut Memories,
    layout: &Layout,
    desc: &MachineDesc,
)
    requires layout { layout.now ≡ shape_of desc.now }
    requires matches { Matches layout.now memories.old }
    requires process { pid.0 < length desc.now.processes }
    requires status { IsStatus status.now }
    ensures copies { copies layout.now memories.new ≡ status_set desc.now (copies layout.now memories.old) pid.0 shadow (word_of status.now) }
    ensures matches { Matches layout.now memories.new }
{
    let at = WordAt {
        extent: layout.process(pid),
        word: 0,
    };
    layout.write_word(memories, at, shadow, to_word(status));
}

/// Whether a copy of a segment's lock word is in service and names the process.
pub fn names(
    pid: Pid,
    segment: Seg,
    shadow: bool,
    memories: &Memories,
    layout: &Layout,
    desc: &MachineDesc,
) -> bool
    requires layout { layout.now ≡ shape_of desc.now }
    requires matches { Matches layout.now memories.now }
    requires segment { segment.0 < length desc.now.segments }
    ensures { result ≡ names desc.now (copies layout.now memories.now) pid.0 segment.0 shadow }
{
    let at = lock_word(segment, layout);
    layout.serves(memories, at.extent, shadow)
        && layout.read_word(memories, at, shadow) == u64::from(pid.0) + 1
}
