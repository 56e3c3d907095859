// The addresses that a process has: its private bytes from 0 on, and each segment that it holds.
ghost use Rattle.std.specs.Prelude.{◌≡◌, ◌+◌, ◌-◌, ◌*◌, ◌^◌, ◌<◌, ◌≤◌, length, Some, None, option_map, IfSome};
ghost use Rattle.seq_words.specs.Description.{IsDescription};
ghost use Rattle.seq_segments.specs.Map.{mapped};

use seq_layout::Extent;
use seq_words::{MachineDesc, Pid, has_bit};

/// The address of the first byte of segment 0.
const SEGMENTS: u32 = 0x4000_0000;

/// The addresses from one segment's first byte to the next one's.
const STRIDE: u32 = 0x1_0000;

/// The bytes of context, and those of a line's outbox.
const CONTEXT_BYTES: u32 = 256;

const OUTBOX_BYTES: u32 = 256;

/// The extent of an address and the byte's number in it, for a process that holds these segments (bit s stands for segment
/// s). None exactly outside: at an address that is neither of its private bytes nor of a segment that it holds.
#[tactic(auto, unfolding(crate::specs::Map::mapped))]
pub fn map(desc: &MachineDesc, pid: Pid, held: u16, address: u32) -> Option<(Extent, u32)>
    requires description { IsDescription desc.now }
    requires process { pid.0 < length desc.now.processes }
    ensures { result ≡ mapped desc.now pid.0 held address }
{
    let process = desc.processes.at(pid.0 as usize);
    if address < process.size {
        let before = CONTEXT_BYTES + OUTBOX_BYTES * process.lines.count_ones();
        return Some((Extent(pid.0 as u32), before + address));
    }
    if address < SEGMENTS {
        return None;
    }
    let segment = (address - SEGMENTS) / STRIDE;
    let offset = (address - SEGMENTS) % STRIDE;
    if segment as usize >= desc.segments.len() || !has_bit(held, segment as u8) {
        return None;
    }
    if offset >= desc.segments.at(segment as usize).size {
        return None;
    }
    Some((Extent(desc.processes.len() as u32 + segment), offset))
}
