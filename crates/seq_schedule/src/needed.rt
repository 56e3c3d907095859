// How many turns of each element end an out.
ghost use Rattle.std.specs.Prelude.{◌≡◌, ◌+◌, ◌*◌, ◌/◌, ◌≤◌, length, sum, sum_by};
ghost use Rattle.seq_words.specs.Description.{IsDescription, line_count};
ghost use Rattle.seq_layout.specs.Shapes.{process_blocks, blocks_of};
ghost use Rattle.seq_schedule.specs.Outs.{turns_needed};

use seq_words::MachineDesc;

// How many blocks all processes have.
fn process_blocks(desc: &MachineDesc) -> u32
    requires { IsDescription desc.now }
    ensures { result ≡ sum_by process_blocks desc.now.processes }
{
    let mut blocks = 0;
    for process in desc.processes.as_slice() {
        blocks += 8 + 8 * process.lines.count_ones() + process.size / 32;
    }
    blocks
}

// How many blocks all segments have.
fn segment_blocks(desc: &MachineDesc) -> u32
    requires { IsDescription desc.now }
    ensures { result ≡ sum_by (λ s. s.size / 32) desc.now.segments }
{
    let mut blocks = 0;
    for segment in desc.segments.as_slice() {
        blocks += segment.size / 32;
    }
    blocks
}

// How many lines the processes own together.
fn line_count(desc: &MachineDesc) -> u32
    requires { IsDescription desc.now }
    ensures { result ≡ line_count desc.now }
{
    let mut lines = 0;
    for process in desc.processes.as_slice() {
        lines += process.lines.count_ones();
    }
    lines
}

// How many blocks all extents of a machine have.
fn block_count(desc: &MachineDesc) -> u32
    requires { IsDescription desc.now }
    ensures count { result ≡ sum (blocks_of desc.now) }
    ensures few { result ≤ 200448 }
{
    process_blocks(desc) + segment_blocks(desc) + line_count(desc) * (desc.journal / 32)
}

/// After so many turns of each processor and I/O element that isn't failed, a memory that was repaired is copied.
pub fn turns_needed(desc: &MachineDesc) -> u32
    requires { IsDescription desc.now }
    ensures { result ≡ turns_needed desc.now }
{
    let processes = desc.processes.len() as u32;
    let segments = desc.segments.len() as u32;
    let parts = block_count(desc)
        + processes
        + segments
        + line_count(desc)
        + u32::from(desc.cache)
        + 8;
    8 * parts * (processes + 1)
}
