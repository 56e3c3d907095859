// The status of a process that rules: that of its first copy.
ghost use Rattle.std.specs.Prelude.{◌≡◌, ℕ, ◌<◌, ◌↔◌, false, length, slice_index, Some, None, IfSome};
ghost use Rattle.std.specs.Option.{option_map};
ghost use Rattle.seq_layout.specs.Copies.{Matches, copies, first_word};
ghost use Rattle.seq_status.specs.Words.{status_of};
ghost use Rattle.seq_ruling.specs.Lowest.{IsLowest};
ghost use Rattle.seq_ruling.specs.Ruling.{ruling, lives, is_deserted, is_recovered, awaits, awaits_recovery, awaiting, process, NamesOneOf, HaveRulingWords, AreHeldByOneOf};

use seq_layout::{Layout, WordAt};
use seq_memory::Memories;
use seq_status::{Holder, Status, of_word};
use seq_words::Pid;

/// The status of a process that rules. It reads one word.
pub fn ruling(pid: Pid, memories: &Memories, layout: &Layout) -> Status
    requires matches { Matches layout.now memories.now }
    requires words { HaveRulingWords layout.now (copies layout.now memories.now) }
    requires process { pid.0 < layout.now.processes }
    ensures status { result ≡ ruling layout.now (copies layout.now memories.now) pid.0 }
    ensures word { status_of (first_word layout.now (copies layout.now memories.now) pid.0 0) ≡ Some result }
{
    let at = WordAt {
        extent: layout.process(pid),
        word: 0,
    };
    of_word(layout.first_word(memories, at)).unwrap()
}

/// Whether a holder is live: its processor has the incarnation still in which it took hold.
pub fn live(holder: &Holder, incarnations: &[u64]) -> bool
    requires { holder.now.pe.0 < length incarnations.now }
    ensures { result ≡ lives (slice_index incarnations.now) holder.now }
{
    holder.incarnation == incarnations[holder.pe.0 as usize]
}

/// Whether a status names a holder that isn't live.
pub fn is_deserted(status: &Status, incarnations: &[u64]) -> bool
    requires { NamesOneOf (length incarnations.now) status.now }
    ensures { result ≡ is_deserted (slice_index incarnations.now) status.now }
{
    match status {
        Status::Idle => false,
        Status::Run(holder) => !live(holder, incarnations),
        Status::Pass1(holder) => !live(holder, incarnations),
        Status::Pass2(holder) => !live(holder, incarnations),
        Status::Back(holder) => !live(holder, incarnations),
        Status::Forward(holder) => !live(holder, incarnations),
    }
}

// Whether it is the status of a recovery.
fn is_recovered(status: &Status) -> bool
    ensures { result ≡ is_recovered status.now }
{
    matches!(status, Status::Back(_) | Status::Forward(_))
}

/// Whether a process of this status awaits recovery: its recovery has begun, or its holder isn't live.
pub fn awaits(status: &Status, incarnations: &[u64]) -> bool
    requires { NamesOneOf (length incarnations.now) status.now }
    ensures { result ≡ awaits (slice_index incarnations.now) status.now }
{
    is_deserted(status, incarnations) || is_recovered(status)
}

/// The lowest process that awaits recovery. It reads a word of each process, and has an incarnation for each processor.
#[tactic(auto, using(crate::proofs::Lowest::lowest_none, crate::proofs::Lowest::lowest_more))]
pub fn awaiting(incarnations: &[u64], memories: &Memories, layout: &Layout) -> Option<Pid>
    requires matches { Matches layout.now memories.now }
    requires words { HaveRulingWords layout.now (copies layout.now memories.now) }
    requires holders { AreHeldByOneOf (length incarnations.now) layout.now (copies layout.now memories.now) }
    ensures value { result ≡ option_map process (awaiting layout.now (copies layout.now memories.now) (slice_index incarnations.now)) }
    ensures none { result ≡ None ↔ ((q : ℕ) → q < layout.now.processes → awaits_recovery layout.now (copies layout.now memories.now) (slice_index incarnations.now) q ≡ false) }
    ensures lowest { IfSome result (λ pid. IsLowest (awaits_recovery layout.now (copies layout.now memories.now) (slice_index incarnations.now)) layout.now.processes pid.0) }
{
    for q in 0..layout.processes() {
        if awaits(&ruling(Pid(q), memories, layout), incarnations) {
            return Some(Pid(q));
        }
    }
    None
}
