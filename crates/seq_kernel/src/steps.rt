// One turn of a running process: an instruction, a kernel call or a trap.
ghost use Rattle.std.specs.Prelude.{◌≡◌, ◌↔◌, ◌⊎◌, ◌+◌, ◌^◌, ◌<◌, ◌≤◌, true, false};
ghost use Rattle.seq_words.specs.Masks.{has_bit};
ghost use Rattle.seq_words.specs.Description.{IsDescription};
ghost use Rattle.seq_pair.specs.Turns.{pair_after, port_after};
ghost use Rattle.seq_layout.specs.Shapes.{shape_of};
ghost use Rattle.seq_layout.specs.Copies.{Matches, copies};
ghost use Rattle.seq_kernel.specs.Views.{stored};
ghost use Rattle.seq_kernel.specs.Turns.{ended};
ghost use Rattle.seq_kernel.specs.Calls.{granted};
ghost use Rattle.seq_kernel.specs.Steps.{kind_of, is_plain, pair_turn, DifferInTurn, DifferInCall, step_of};
ghost use Rattle.seq_kernel.specs.Bounds.{IsRunning, AreReadable};

use crate::calls::{answer, call, count};
use crate::view::View;
use crate::{Cause, Outcome};
use seq_cache::Cache;
use seq_flat::End;
use seq_layout::Layout;
use seq_memory::Memories;
use seq_pair::Turn;
use seq_process::Running;
use seq_rv32::Effect;
use seq_words::{MachineDesc, Seg};

/// What the turn of a process's pair comes to, whatever it wrote.
#[derive(Clone, Copy, Debug, PartialEq, Eq)]
enum Kind {
    /// An instruction was made, and the next one follows.
    Made,
    /// It calls the kernel.
    Call,
    /// It traps, for this cause.
    Trap(u8),
    /// The cache has no room for its store.
    Full,
    /// The halves differ.
    Diverged,
}

#[inline(always)]
fn kind_of(turn: Turn) -> Kind
    ensures { result ≡ kind_of turn }
{
    match turn {
        Turn::Agreed(Effect::Next { .. }) => Kind::Made,
        Turn::Agreed(Effect::Call) => Kind::Call,
        Turn::Agreed(Effect::Trap(code)) => Kind::Trap(code),
        Turn::Agreed(Effect::Full) => Kind::Full,
        Turn::Diverged => Kind::Diverged,
    }
}

// The turn of the pair, over what the process sees.
#[inline(never)]
fn turn(
    r: &mut Running,
    cache: &mut Cache,
    memories: &Memories,
    layout: &Layout,
    desc: &MachineDesc,
) -> Kind
    requires description { IsDescription desc.now }
    requires layout { layout.now ≡ shape_of desc.now }
    requires matches { Matches layout.now memories.now }
    requires readable { AreReadable desc.now (copies layout.now memories.now) }
    requires running { IsRunning desc.now r.old }
    ensures kind { result ≡ kind_of (pair_turn desc.now (copies layout.now memories.now) r.old cache.old) }
    ensures differ { (result ≡ Kind.Diverged) ↔ DifferInTurn desc.now (copies layout.now memories.now) r.old cache.old }
    ensures running { r.new ≡ record r.old { pair = pair_after r.old.pair (pair_turn desc.now (copies layout.now memories.now) r.old cache.old) } }
    ensures cache { cache.new ≡ port_after (stored desc.now r.old.pid.0 r.old.held (copies layout.now memories.now)) cache.old (pair_turn desc.now (copies layout.now memories.now) r.old cache.old) }
{
    let mut view = View {
        desc,
        pid: r.pid,
        held: r.held,
        cache,
        memories,
        layout,
    };
    kind_of(r.pair.turn(&mut view))
}

// The step with which a process traps: it holds nothing any more.
fn trap(r: &mut Running, code: u8) -> Outcome
    requires steps { r.old.steps ≤ r.old.used }
    requires used { r.old.used < 10000 }
    ensures outcome { result ≡ Outcome.NeedsFlush Cause.Trap }
    ensures running { r.new ≡ ended r.old (End.Trapped code r.old.pair.a.pc) }
{
    r.end = End::Trapped(code, r.pair.a.pc);
    r.held = 0;
    count(r);
    Outcome::NeedsFlush(Cause::Trap)
}

/// Takes the next step of a running process where it is plain: an instruction on which the halves agree, that neither calls the
/// kernel nor traps, and for whose store the cache has room. Answers whether it is; where it isn't, nothing changes.
#[inline(always)]
pub fn step_plainly(
    r: &mut Running,
    cache: &mut Cache,
    memories: &Memories,
    layout: &Layout,
    desc: &MachineDesc,
) -> bool
    requires description { IsDescription desc.now }
    requires layout { layout.now ≡ shape_of desc.now }
    requires matches { Matches layout.now memories.now }
    requires readable { AreReadable desc.now (copies layout.now memories.now) }
    requires running { IsRunning desc.now r.old }
    ensures plain { result ≡ is_plain (pair_turn desc.now (copies layout.now memories.now) r.old cache.old) }
    ensures step { result ≡ true → step_of desc.now (copies layout.now memories.now) r.old cache.old ≡ record { outcome = Outcome.Done; running = r.new; cache = cache.new } }
    ensures running { result ≡ false → r.new ≡ r.old }
    ensures cache { result ≡ false → cache.new ≡ cache.old }
{
    match turn(r, cache, memories, layout, desc) {
        Kind::Made => {
            count(r);
            true
        }
        Kind::Call | Kind::Trap(_) | Kind::Full | Kind::Diverged => false,
    }
}

/// One turn of a running process. Where the halves differ, nothing changes; nor where the process has to wait, or to be
/// flushed for want of room in the cache, nor where it acquires a segment, which its lock decides.
#[tactic(auto, unfolding(crate::specs::Steps::step_of))]
#[inline(never)]
pub fn step(
    r: &mut Running,
    cache: &mut Cache,
    memories: &Memories,
    layout: &Layout,
    desc: &MachineDesc,
) -> Outcome
    requires description { IsDescription desc.now }
    requires layout { layout.now ≡ shape_of desc.now }
    requires matches { Matches layout.now memories.now }
    requires readable { AreReadable desc.now (copies layout.now memories.now) }
    requires running { IsRunning desc.now r.old }
    ensures outcome { result ≡ (step_of desc.now (copies layout.now memories.now) r.old cache.old).outcome }
    ensures running { r.new ≡ (step_of desc.now (copies layout.now memories.now) r.old cache.old).running }
    ensures cache { cache.new ≡ (step_of desc.now (copies layout.now memories.now) r.old cache.old).cache }
    ensures diverged { (result ≡ Outcome.Diverged) ↔ (DifferInTurn desc.now (copies layout.now memories.now) r.old cache.old ⊎ DifferInCall desc.now (copies layout.now memories.now) r.old cache.old) }
{
    match turn(r, cache, memories, layout, desc) {
        Kind::Made => {
            count(r);
            Outcome::Done
        }
        Kind::Call => call(r, cache, memories, layout, desc),
        Kind::Trap(code) => trap(r, code),
        Kind::Full => Outcome::NeedsFlush(Cause::Room),
        Kind::Diverged => Outcome::Diverged,
    }
}

// A mask with one bit more.
fn with_bit(mask: u16, at: u8) -> u16
    requires inside { at < 16 }
    requires free { has_bit mask at ≡ false }
    ensures { result ≡ mask + 2 ^ at }
{
    mask + (1 << at)
}

/// The step of an acquire whose lock is held for the process: it holds the segment, and the call is answered with 0.
pub fn grant(r: &mut Running, segment: Seg)
    requires segment { segment.0 < 16 }
    requires free { has_bit r.old.held segment.0 ≡ false }
    requires steps { r.old.steps ≤ r.old.used }
    requires used { r.old.used < 10000 }
    ensures { r.new ≡ granted r.old segment.0 }
{
    r.held = with_bit(r.held, segment.0);
    answer(r, 0);
}
