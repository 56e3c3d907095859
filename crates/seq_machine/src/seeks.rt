// A turn of a processor that seeks: it recovers a process, or looks at one and claims it where it may.
ghost use Rattle.std.specs.Prelude.{◌≡◌, ℕ, ◌<◌, ◌^◌, ◌&&◌, ◌==◌, length, slice_index, true, false};
ghost use Rattle.seq_words.specs.Description.{IsDescription};
ghost use Rattle.seq_layout.specs.Shapes.{shape_of};
ghost use Rattle.seq_layout.specs.Copies.{Matches, copies, first_block};
ghost use Rattle.seq_cache.specs.Changes.{Changes};
ghost use Rattle.seq_ruling.specs.Ruling.{HaveRulingWords};
ghost use Rattle.seq_locks.specs.Turns.{is_taken};
ghost use Rattle.seq_status.specs.declared.status.Status.TheVariants.{Run};
ghost use Rattle.seq_status.specs.Words.{word_of};
ghost use Rattle.seq_turns.specs.Machines.{copies_after};
ghost use Rattle.seq_turns.specs.Reading.{status_word, write_word, context_of};
ghost use Rattle.seq_turns.specs.Processors.{is_free, looks, next_process};
ghost use Rattle.seq_machine.specs.Here.{here, among, turned, change_of};
ghost use Rattle.seq_machine.specs.Processors.{SeekNeeds, seeks_among, cursor_after};
ghost use Rattle.seq_machine.specs.declared.turned.Turned.TheVariants.{Moved};

use crate::recovers::{begin, deserted};
use seq_kernel::Note;
use seq_layout::{Layout, WordAt};
use seq_locks::{Claim, Claimed};
use seq_memory::Memories;
use seq_process::next_cursor;
use seq_ruling::ruling;
use seq_status::{Holder, Status, to_word};
use seq_turns::Hand;
use seq_words::{MachineDesc, Pe, Pid, block_word};

/// The block of a context whose second number says how the process stands.
const END_BLOCK: u32 = 4;

/// The place of that number in its block.
const END_PLACE: usize = 4;

// How the context of a process at its first copy says that it stands. It reads one block.
#[tactic(auto, using(crate::proofs::Seeking::end_is))]
fn end(pid: Pid, memories: &Memories, layout: &Layout, desc: &MachineDesc) -> u32
    requires description { IsDescription desc.now }
    requires layout { layout.now ≡ shape_of desc.now }
    requires matches { Matches layout.now memories.now }
    requires words { HaveRulingWords layout.now (copies layout.now memories.now) }
    requires process { pid.0 < length desc.now.processes }
    ensures { result ≡ (context_of desc.now (copies layout.now memories.now) pid.0).end }
{
    let block = layout.first_block(memories, layout.process(pid), END_BLOCK);
    block_word(block, END_PLACE)
}

// Whether a process may be claimed: no processor holds it, and it lives.
fn is_free(pid: Pid, memories: &Memories, layout: &Layout, desc: &MachineDesc) -> bool
    requires description { IsDescription desc.now }
    requires layout { layout.now ≡ shape_of desc.now }
    requires matches { Matches layout.now memories.now }
    requires words { HaveRulingWords layout.now (copies layout.now memories.now) }
    requires process { pid.0 < length desc.now.processes }
    ensures { (cache : Changes) (i : ℕ) → result ≡ is_free desc.now (here (copies layout.now memories.now) cache i) pid.0 }
{
    matches!(ruling(pid, memories, layout), Status::Idle) && end(pid, memories, layout, desc) == 0
}

// The first turn of the claim of a process that may be claimed.
#[tactic(auto, using(crate::proofs::Seeking::claimed_is, seq_layout::proofs::Sizes::process_has_status), unfolding(seq_locks::specs::Turns::claim_primary))]
#[inline(never)]
fn claim(
    hand: &mut Hand,
    pid: Pid,
    pe: Pe,
    incarnation: u64,
    memories: &mut Memories,
    layout: &Layout,
    desc: &MachineDesc,
)
    requires layout { layout.now ≡ shape_of desc.now }
    requires matches { Matches layout.now memories.old }
    requires process { pid.0 < length desc.now.processes }
    requires incarnation { incarnation < 2 ^ 48 }
    requires untaken { is_taken layout.now (copies layout.now memories.old) (status_word pid.0) false ≡ false }
    ensures hand { hand.new ≡ Hand.Claiming pid (record { at = status_word pid.0; value = word_of (Run (record { pe = pe; incarnation = incarnation })); stage = record {} }) }
    ensures copies { copies layout.now memories.new ≡ copies_after (write_word desc.now (copies layout.now memories.old) pid.0 0 false (word_of (Run (record { pe = pe; incarnation = incarnation })))) (copies layout.now memories.old) }
    ensures matches { Matches layout.now memories.new }
{
    let at = WordAt {
        extent: layout.process(pid),
        word: 0,
    };
    let status = Status::Run(Holder { pe, incarnation });
    match Claim::start(at, to_word(&status)).turn(memories, layout) {
        Claimed::Got(claim) => *hand = Hand::Claiming(pid, claim),
        Claimed::Refused(_) => unreachable!(),
    }
}

// A processor looks at the process under its cursor, and moves the cursor to the next one, cyclically. Where no processor holds
// that process and its context says that it lives, this is the first turn of its claim.
fn look(
    hand: &mut Hand,
    cursor: &mut u8,
    pe: Pe,
    incarnation: u64,
    memories: &mut Memories,
    layout: &Layout,
    desc: &MachineDesc,
) -> Note
    requires seeks { hand.old ≡ Hand.Seek }
    requires description { IsDescription desc.now }
    requires layout { layout.now ≡ shape_of desc.now }
    requires matches { Matches layout.now memories.old }
    requires words { HaveRulingWords layout.now (copies layout.now memories.old) }
    requires cursor { cursor.old < length desc.now.processes }
    requires incarnation { incarnation < 2 ^ 48 }
    requires untaken { (cache : Changes) (i : ℕ) → is_free desc.now (here (copies layout.now memories.old) cache i) cursor.old ≡ true → is_taken layout.now (copies layout.now memories.old) (status_word cursor.old) false ≡ false }
    ensures hand { (cache : Changes) → hand.new ≡ (looks desc.now (here (copies layout.now memories.old) cache incarnation) pe.0 cursor.old).hand }
    ensures note { (cache : Changes) → result ≡ (looks desc.now (here (copies layout.now memories.old) cache incarnation) pe.0 cursor.old).note }
    ensures copies { (cache : Changes) → copies layout.now memories.new ≡ copies_after (looks desc.now (here (copies layout.now memories.old) cache incarnation) pe.0 cursor.old).change (copies layout.now memories.old) }
    ensures cursor { cursor.new ≡ next_process desc.now cursor.old }
    ensures matches { Matches layout.now memories.new }
{
    let pid = Pid(*cursor);
    *cursor = next_cursor(*cursor, layout.processes());
    if is_free(pid, memories, layout, desc) {
        claim(hand, pid, pe, incarnation, memories, layout, desc);
        Note::Moved
    } else {
        Note::Looked(pid)
    }
}

/// A processor that seeks begins to recover the lowest process whose holder isn't live. Where there is none it looks at the process
/// under its cursor, and claims it where it may.
#[inline(never)]
pub fn seek(
    hand: &mut Hand,
    cursor: &mut u8,
    pe: Pe,
    incarnations: &[u64],
    memories: &mut Memories,
    layout: &Layout,
    desc: &MachineDesc,
) -> Note
    requires seeks { hand.old ≡ Hand.Seek }
    requires description { IsDescription desc.now }
    requires layout { layout.now ≡ shape_of desc.now }
    requires matches { Matches layout.now memories.old }
    requires processors { length incarnations.now ≡ desc.now.processors }
    requires processor { pe.0 < desc.now.processors }
    requires incarnation { slice_index incarnations.now pe.0 < 2 ^ 48 }
    requires needs { SeekNeeds desc.now (copies layout.now memories.old) cursor.old }
    ensures turned { (cache : Changes) → Moved hand.new result ≡ turned (seeks_among desc.now (among (copies layout.now memories.old) cache (slice_index incarnations.now) cursor.old) pe.0) }
    ensures copies { (cache : Changes) → copies layout.now memories.new ≡ copies_after (change_of (seeks_among desc.now (among (copies layout.now memories.old) cache (slice_index incarnations.now) cursor.old) pe.0)) (copies layout.now memories.old) }
    ensures cursor { (cache : Changes) → cursor.new ≡ cursor_after (seeks_among desc.now (among (copies layout.now memories.old) cache (slice_index incarnations.now) cursor.old) pe.0) cursor.old }
    ensures matches { Matches layout.now memories.new }
{
    let incarnation = incarnations[pe.0 as usize];
    match deserted(incarnations, memories, layout, desc) {
        Some(pid) => {
            begin(hand, pid, pe, incarnation, memories, layout, desc);
            Note::Moved
        }
        None => look(hand, cursor, pe, incarnation, memories, layout, desc),
    }
}
