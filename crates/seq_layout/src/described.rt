// How many blocks and words each extent of a machine has, and who owns each line.
ghost use Rattle.std.specs.Prelude.{◌≡◌, ◌<◌, ◌≤◌, length, map, replicate, IfOk};
ghost use Rattle.seq_words.specs.Description.{IsDescription, line_count};
ghost use Rattle.seq_layout.specs.Shapes.{process_blocks, blocks_of, words_of, index_of, owner_from, owners_of};

use seq_words::{Items, MachineDesc, NoMemory, Pid, ProcessDesc, has_bit};
use std::alloc::Global;
use std::iter;

// How many blocks a process has.
#[tactic(auto, using(std::proofs::lemmas::Nat::ones_le_self))]
fn process_blocks(process: &ProcessDesc) -> u32
    ensures { result ≡ process_blocks process.now }
{
    let ProcessDesc { size, lines, .. } = process;
    8 + 8 * lines.count_ones() + size / 32
}

// How many lines the processes own together.
fn line_count(desc: &MachineDesc) -> u8
    requires { IsDescription desc.now }
    ensures count { result ≡ line_count desc.now }
    ensures few { result ≤ 16 }
{
    let mut count = 0;
    for process in desc.processes.as_slice() {
        count += process.lines.count_ones() as u8;
    }
    count
}

/// How many blocks each extent has.
pub fn blocks_of(alloc: Global, desc: &MachineDesc) -> Result<Items<u32>, NoMemory>
    requires { IsDescription desc.now }
    ensures { IfOk result (λ sizes. sizes ≡ blocks_of desc.now) }
{
    let processes = desc.processes.as_slice().iter().map(process_blocks);
    let segments = desc
        .segments
        .as_slice()
        .iter()
        .map(|segment| segment.size / 32);
    let journals = iter::repeat_n(desc.journal / 32, line_count(desc) as usize);
    match processes.chain(segments).chain(journals).collect(alloc) {
        Ok(sizes) => Ok(Items::from_vec(sizes)),
        Err(_) => Err(NoMemory),
    }
}

/// How many words each extent has.
pub fn words_of(alloc: Global, desc: &MachineDesc) -> Result<Items<u32>, NoMemory>
    requires { IsDescription desc.now }
    ensures { IfOk result (λ sizes. sizes ≡ words_of desc.now) }
{
    let statuses = iter::repeat_n(1, desc.processes.len());
    let locks = iter::repeat_n(1, desc.segments.len());
    let counts = iter::repeat_n(3, line_count(desc) as usize);
    match statuses.chain(locks).chain(counts).collect(alloc) {
        Ok(sizes) => Ok(Items::from_vec(sizes)),
        Err(_) => Err(NoMemory),
    }
}

// The number of a line among the lines of a mask, in ascending order.
#[tactic(auto, using(std::proofs::lemmas::Nat::one_shl, std::proofs::lemmas::Nat::ones_le_self))]
fn index_of(lines: u16, line: u8) -> u8
    requires { line < 16 }
    ensures { result ≡ index_of lines line }
{
    (lines % (1 << line)).count_ones() as u8
}

// The first process that has a line, and the line's number among its lines.
#[tactic(auto, using(crate::proofs::Owners::owner_here, crate::proofs::Owners::owner_later, crate::proofs::Owners::owner_none))]
fn owner_of(processes: &[ProcessDesc], line: u8) -> (Pid, u8)
    requires line { line < 16 }
    requires few { length processes.now ≤ 16 }
    ensures { result ≡ owner_from 0 processes.now line }
{
    for (pid, process) in processes.iter().enumerate() {
        if has_bit(process.lines, line) {
            return (Pid(pid as u8), index_of(process.lines, line));
        }
    }
    (Pid(0), 0)
}

/// Of each line its owner, and the line's number among the owner's lines.
#[tactic(auto, using(crate::proofs::Owners::one_more))]
pub fn owners_of(alloc: Global, desc: &MachineDesc) -> Result<Items<(Pid, u8)>, NoMemory>
    requires { IsDescription desc.now }
    ensures { IfOk result (λ owners. owners ≡ owners_of desc.now) }
{
    let mut owners = Items::new(alloc);
    for line in 0..line_count(desc) {
        let owner = owner_of(desc.processes.as_slice(), line);
        if owners.push(owner).is_err() {
            return Err(NoMemory);
        }
    }
    Ok(owners)
}
