// The recovery of a process whose holder isn't live.
ghost use Rattle.std.specs.Prelude.{◌≡◌, ℕ, ◌<◌, ◌^◌, length, slice_index};
ghost use Rattle.std.specs.Option.{option_map};
ghost use Rattle.seq_words.specs.Description.{IsDescription};
ghost use Rattle.seq_layout.specs.Shapes.{shape_of};
ghost use Rattle.seq_layout.specs.Copies.{Matches, copies};
ghost use Rattle.seq_cache.specs.Changes.{Changes};
ghost use Rattle.seq_ruling.specs.Ruling.{process, HaveRulingWords, AreHeldByOneOf};
ghost use Rattle.seq_turns.specs.Reading.{goes_forward};
ghost use Rattle.seq_turns.specs.Recoveries.{recovers, recovery_move};
ghost use Rattle.seq_turns.specs.Processors.{deserted};
ghost use Rattle.seq_turns.specs.Landed.{after_claimed, after_copying, after_locks, after_closing};
ghost use Rattle.seq_machine.specs.Needs.{RecoveryNeeds};
ghost use Rattle.seq_machine.specs.Rows.{IsRow};
ghost use Rattle.seq_machine.specs.Here.{here, among};

use seq_layout::Layout;
use seq_memory::Memories;
use seq_recover::{Claimed, Closing, Copying, Locks, Recovered, Recovery, Step};
use seq_ruling::{is_deserted, ruling};
use seq_status::{Holder, Status};
use seq_turns::{Hand, RecoveryAt};
use seq_words::{MachineDesc, Pe, Pid};

/// The lowest process whose holder isn't live. It reads a word of each process.
#[tactic(auto, using(seq_ruling::proofs::Lowest::lowest_none, seq_ruling::proofs::Lowest::lowest_more))]
pub fn deserted(
    incarnations: &[u64],
    memories: &Memories,
    layout: &Layout,
    desc: &MachineDesc,
) -> Option<Pid>
    requires layout { layout.now ≡ shape_of desc.now }
    requires matches { Matches layout.now memories.now }
    requires words { HaveRulingWords layout.now (copies layout.now memories.now) }
    requires holders { AreHeldByOneOf (length incarnations.now) layout.now (copies layout.now memories.now) }
    ensures { (cache : Changes) (scan : ℕ) → result ≡ option_map process (deserted desc.now (among (copies layout.now memories.now) cache (slice_index incarnations.now) scan)) }
{
    for q in 0..layout.processes() {
        if is_deserted(&ruling(Pid(q), memories, layout), incarnations) {
            return Some(Pid(q));
        }
    }
    None
}

// Whether a recovery of a process of this status goes forward.
fn goes_forward(status: &Status) -> bool
    ensures { result ≡ goes_forward status.now }
{
    matches!(status, Status::Pass2(_) | Status::Forward(_))
}

// What the processor is about after a turn of each stage.
fn after_claimed(step: Step<Recovery<Claimed>, Recovery<Copying>>) -> Hand
    ensures { result ≡ after_claimed step }
{
    match step {
        Step::Again(recovery) => Hand::Recovering(RecoveryAt::Claimed(recovery)),
        Step::Next(recovery) => Hand::Recovering(RecoveryAt::Copying(recovery)),
    }
}

fn after_copying(step: Step<Recovery<Copying>, Recovery<Locks>>) -> Hand
    ensures { result ≡ after_copying step }
{
    match step {
        Step::Again(recovery) => Hand::Recovering(RecoveryAt::Copying(recovery)),
        Step::Next(recovery) => Hand::Recovering(RecoveryAt::Locks(recovery)),
    }
}

fn after_locks(step: Step<Recovery<Locks>, Recovery<Closing>>) -> Hand
    ensures { result ≡ after_locks step }
{
    match step {
        Step::Again(recovery) => Hand::Recovering(RecoveryAt::Locks(recovery)),
        Step::Next(recovery) => Hand::Recovering(RecoveryAt::Closing(recovery)),
    }
}

fn after_closing(step: Step<Recovery<Closing>, Recovered>) -> Hand
    ensures { result ≡ after_closing step }
{
    match step {
        Step::Again(recovery) => Hand::Recovering(RecoveryAt::Closing(recovery)),
        Step::Next(_) => Hand::Seek,
    }
}

/// The first turn of the recovery of a process.
#[inline(never)]
pub fn begin(
    hand: &mut Hand,
    pid: Pid,
    pe: Pe,
    incarnation: u64,
    memories: &mut Memories,
    layout: &Layout,
    desc: &MachineDesc,
)
    requires layout { layout.now ≡ shape_of desc.now }
    requires matches { Matches layout.now memories.old }
    requires words { HaveRulingWords layout.now (copies layout.now memories.old) }
    requires process { pid.0 < length desc.now.processes }
    requires incarnation { incarnation < 2 ^ 48 }
    ensures row { IsRow (copies layout.now memories.old) (copies layout.now memories.new) hand.new (λ m p. recovers desc.now (here m.copies (m.cache p) incarnation) pe.0 pid.0) }
    ensures matches { Matches layout.now memories.new }
{
    let forward = goes_forward(&ruling(pid, memories, layout));
    let recovery = Recovery::start(pid, Holder { pe, incarnation }, forward);
    *hand = after_claimed(recovery.turn(memories, layout, desc));
}

/// A turn of a recovery that has begun.
pub fn recovering(
    recovery: RecoveryAt,
    memories: &mut Memories,
    layout: &Layout,
    desc: &MachineDesc,
) -> Hand
    requires description { IsDescription desc.now }
    requires layout { layout.now ≡ shape_of desc.now }
    requires matches { Matches layout.now memories.old }
    requires needs { RecoveryNeeds desc.now (copies layout.now memories.old) recovery }
    ensures row { IsRow (copies layout.now memories.old) (copies layout.now memories.new) result (λ m p. recovery_move desc.now m p recovery) }
    ensures matches { Matches layout.now memories.new }
{
    match recovery {
        RecoveryAt::Claimed(recovery) => after_claimed(recovery.turn(memories, layout, desc)),
        RecoveryAt::Copying(recovery) => after_copying(recovery.turn(memories, layout, desc)),
        RecoveryAt::Locks(recovery) => after_locks(recovery.turn(memories, layout, desc)),
        RecoveryAt::Closing(recovery) => after_closing(recovery.turn(memories, layout, desc)),
    }
}
