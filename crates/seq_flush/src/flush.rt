// A flush: the changed blocks and the context of a process go to the two copies of each, in two passes.
ghost use Rattle.std.specs.Prelude.{◌≡◌, ◌+◌, ◌-◌, ◌<◌, ◌≤◌, ◌^◌, length, nat_le};
ghost use Rattle.seq_layout.specs.Places.{IsPlace};
ghost use Rattle.seq_layout.specs.Shapes.{Shape};
ghost use Rattle.seq_layout.specs.Copies.{Copies, Matches, copies};
ghost use Rattle.seq_status.specs.Words.{IsStatus};
ghost use Rattle.seq_status.specs.declared.step.Step.TheVariants.{Again, Next};
ghost use Rattle.seq_cache.specs.Changes.{IsCache};
ghost use Rattle.seq_flush.specs.Units.{HavePlaces};
ghost use Rattle.seq_flush.specs.Turns.{units, unit_at, into_stage, status_written, unit_written, mark_turn, first_turn, second_turn, close_turn, taken_in_first};
ghost use Rattle.seq_flush.specs.Facts.{MarkKnows, FirstKnows, SecondKnows, CloseKnows, ClosedKnows};

use crate::{Close, Closed, First, Mark, Second};
use seq_cache::{Cache, Change};
use seq_layout::{Extent, Layout, WordAt};
use seq_memory::Memories;
use seq_status::{Holder, Status, Step, to_word};
use seq_words::{Block, Pid};

/// A flush of the process `pid`, which `holder` holds: its changed blocks and these eight blocks of context.
#[derive(Drop)]
pub struct Flush<S> {
    pub pid: Pid,
    pub holder: Holder,
    pub context: [Block; 8],
    /// How many turns of this stage were taken.
    pub cursor: u32,
    pub stage: S,
}

// Sets one copy of a process's status word, where it is in service.
fn write_status(memories: &mut Memories, layout: &Layout, pid: Pid, shadow: bool, status: &Status)
    requires matches { Matches layout.now memories.old }
    requires place { IsPlace layout.now.words pid.0 0 }
    requires status { IsStatus status.now }
    ensures copies { copies layout.now memories.new ≡ status_written layout.now (copies layout.now memories.old) pid.0 shadow status.now }
    ensures matches { Matches layout.now memories.new }
{
    let at = WordAt {
        extent: Extent(pid.0 as u32),
        word: 0,
    };
    layout.write_word(memories, at, shadow, to_word(status));
}

// Writes one copy of a unit, where it is in service.
fn write_unit(memories: &mut Memories, layout: &Layout, shadow: bool, unit: &Change)
    requires matches { Matches layout.now memories.old }
    requires place { IsPlace layout.now.blocks unit.now.extent.0 unit.now.place }
    ensures copies { copies layout.now memories.new ≡ unit_written layout.now (copies layout.now memories.old) shadow unit.now }
    ensures matches { Matches layout.now memories.new }
{
    layout.write_block(memories, unit.extent, unit.place, shadow, &unit.block);
}

impl<S> Flush<S> {
    // The same flush at the beginning of another stage.
    fn into_stage<T>(self, stage: T) -> Flush<T>
    where
        S: Drop,
        ensures { result ≡ into_stage self stage }
    {
        Flush {
            pid: self.pid,
            holder: self.holder,
            context: self.context,
            cursor: 0,
            stage,
        }
    }

    // The unit with a number: a changed block, or a block of the context after these.
    fn unit(&self, cache: &Cache, i: u32) -> Change
        requires within { i < length cache.now.changes + 8 }
        ensures value { result ≡ unit_at (units self.now cache.now.changes) i }
        ensures place { (s : _) → HavePlaces s self.now.pid.0 cache.now.changes → IsPlace s.blocks result.extent.0 result.place }
        ensures cache { IsCache cache.now }
    {
        let dirty = cache.dirty();
        if i < dirty {
            *cache.dirty_at(i)
        } else {
            Change {
                extent: Extent(self.pid.0 as u32),
                place: i - dirty,
                block: self.context[(i - dirty) as usize],
            }
        }
    }
}

impl Flush<Mark> {
    /// A flush that begins. The incarnation of `holder` is below 2^48.
    pub fn start(pid: Pid, holder: Holder, context: [Block; 8]) -> Flush<Mark>
        ensures flush { result ≡ record { pid = pid; holder = holder; context = context; cursor = 0; stage = record {} } }
        ensures mark { (s : Shape) (p : Copies) → MarkKnows s p result }
    {
        Flush {
            pid,
            holder,
            context,
            cursor: 0,
            stage: Mark,
        }
    }

    /// Writes Pass1 to the primary of the status word, in the second turn to its shadow.
    #[tactic(auto, unfolding(crate::specs::Turns::mark_turn))]
    pub fn turn(
        self,
        memories: &mut Memories,
        layout: &Layout,
        cache: &Cache,
    ) -> Step<Flush<Mark>, Flush<First>>
        requires matches { Matches layout.now memories.old }
        requires places { HavePlaces layout.now self.pid.0 cache.now.changes }
        requires holder { self.holder.incarnation < 2 ^ 48 }
        ensures step { result ≡ (mark_turn layout.now (copies layout.now memories.old) self).step }
        ensures copies { copies layout.now memories.new ≡ (mark_turn layout.now (copies layout.now memories.old) self).copies }
        ensures matches { Matches layout.now memories.new }
        ensures no_unit_written { (copies layout.now memories.new).block ≡ (copies layout.now memories.old).block }
        ensures again { (f : _) → result ≡ Again f → (self.cursor ≡ 0) × (f ≡ record self { cursor = 1 }) }
        ensures next { (f : _) → result ≡ Next f → f ≡ into_stage self (record {}) }
        ensures mark { (f : _) → result ≡ Again f → MarkKnows layout.now (copies layout.now memories.new) f }
        ensures first { (f : _) → result ≡ Next f → MarkKnows layout.now (copies layout.now memories.old) self → FirstKnows layout.now (copies layout.now memories.new) cache.now.changes f }
    {
        let status = Status::Pass1(self.holder);
        if self.cursor == 0 {
            write_status(memories, layout, self.pid, false, &status);
            Step::Again(Flush { cursor: 1, ..self })
        } else {
            write_status(memories, layout, self.pid, true, &status);
            Step::Next(self.into_stage(First))
        }
    }
}

impl Flush<First> {
    /// Whether the next turn is the commit.
    #[tactic(auto, using(crate::proofs::Numbered::length_units))]
    pub fn ready(&self, cache: &Cache) -> bool
        ensures { result ≡ nat_le (length (units self.now cache.now.changes)) self.now.cursor }
    {
        self.cursor >= cache.dirty() + 8
    }

    /// Writes a unit to its primary. The turn after the last unit is the commit: it writes Pass2 to the primary of the
    /// status word.
    #[tactic(auto, unfolding(crate::specs::Turns::first_turn))]
    pub fn turn(
        self,
        memories: &mut Memories,
        layout: &Layout,
        cache: &Cache,
    ) -> Step<Flush<First>, Flush<Second>>
        requires matches { Matches layout.now memories.old }
        requires places { HavePlaces layout.now self.pid.0 cache.now.changes }
        requires holder { self.holder.incarnation < 2 ^ 48 }
        ensures step { result ≡ (first_turn layout.now (copies layout.now memories.old) cache.now.changes self).step }
        ensures copies { copies layout.now memories.new ≡ (first_turn layout.now (copies layout.now memories.old) cache.now.changes self).copies }
        ensures matches { Matches layout.now memories.new }
        ensures again { (f : _) → result ≡ Again f → (self.cursor < length cache.now.changes + 8) × (f ≡ record self { cursor = self.cursor + 1 }) }
        ensures next { (f : _) → result ≡ Next f → f ≡ into_stage self (record {}) }
        ensures first { (f : _) → result ≡ Again f → FirstKnows layout.now (copies layout.now memories.old) cache.now.changes self → FirstKnows layout.now (copies layout.now memories.new) cache.now.changes f }
        ensures second { (f : _) → result ≡ Next f → FirstKnows layout.now (copies layout.now memories.old) cache.now.changes self → SecondKnows layout.now (copies layout.now memories.new) cache.now.changes f }
        ensures taken { (f : _) → result ≡ Next f → 10 ≤ taken_in_first self }
    {
        if self.ready(cache) {
            let status = Status::Pass2(self.holder);
            write_status(memories, layout, self.pid, false, &status);
            Step::Next(self.into_stage(Second))
        } else {
            let unit = self.unit(cache, self.cursor);
            write_unit(memories, layout, false, &unit);
            Step::Again(Flush {
                cursor: self.cursor + 1,
                ..self
            })
        }
    }
}

impl Flush<Second> {
    /// Writes Pass2 to the shadow of the status word, and then each unit to its shadow.
    #[tactic(auto, using(crate::proofs::Numbered::length_units), unfolding(crate::specs::Turns::second_turn))]
    pub fn turn(
        self,
        memories: &mut Memories,
        layout: &Layout,
        cache: &Cache,
    ) -> Step<Flush<Second>, Flush<Close>>
        requires matches { Matches layout.now memories.old }
        requires places { HavePlaces layout.now self.pid.0 cache.now.changes }
        requires holder { self.holder.incarnation < 2 ^ 48 }
        requires cursor { self.cursor ≤ length cache.now.changes + 8 }
        ensures step { result ≡ (second_turn layout.now (copies layout.now memories.old) cache.now.changes self).step }
        ensures copies { copies layout.now memories.new ≡ (second_turn layout.now (copies layout.now memories.old) cache.now.changes self).copies }
        ensures matches { Matches layout.now memories.new }
        ensures again { (f : _) → result ≡ Again f → (self.cursor < length cache.now.changes + 8) × (f ≡ record self { cursor = self.cursor + 1 }) }
        ensures next { (f : _) → result ≡ Next f → f ≡ into_stage self (record {}) }
        ensures second { (f : _) → result ≡ Again f → SecondKnows layout.now (copies layout.now memories.old) cache.now.changes self → SecondKnows layout.now (copies layout.now memories.new) cache.now.changes f }
        ensures close { (f : _) → result ≡ Next f → SecondKnows layout.now (copies layout.now memories.old) cache.now.changes self → CloseKnows layout.now (copies layout.now memories.new) cache.now.changes f }
    {
        if self.cursor == 0 {
            let status = Status::Pass2(self.holder);
            write_status(memories, layout, self.pid, true, &status);
            return Step::Again(Flush { cursor: 1, ..self });
        }
        let unit = self.unit(cache, self.cursor - 1);
        write_unit(memories, layout, true, &unit);
        if self.cursor >= cache.dirty() + 8 {
            Step::Next(self.into_stage(Close))
        } else {
            Step::Again(Flush {
                cursor: self.cursor + 1,
                ..self
            })
        }
    }
}

impl Flush<Close> {
    /// Writes Run to the primary of the status word, in the second turn to its shadow.
    #[tactic(auto, unfolding(crate::specs::Turns::close_turn))]
    pub fn turn(
        self,
        memories: &mut Memories,
        layout: &Layout,
        cache: &Cache,
    ) -> Step<Flush<Close>, Closed>
        requires matches { Matches layout.now memories.old }
        requires places { HavePlaces layout.now self.pid.0 cache.now.changes }
        requires holder { self.holder.incarnation < 2 ^ 48 }
        ensures step { result ≡ (close_turn layout.now (copies layout.now memories.old) self).step }
        ensures copies { copies layout.now memories.new ≡ (close_turn layout.now (copies layout.now memories.old) self).copies }
        ensures matches { Matches layout.now memories.new }
        ensures again { (f : _) → result ≡ Again f → (self.cursor ≡ 0) × (f ≡ record self { cursor = 1 }) }
        ensures close { (f : _) → result ≡ Again f → CloseKnows layout.now (copies layout.now memories.old) cache.now.changes self → CloseKnows layout.now (copies layout.now memories.new) cache.now.changes f }
        ensures closed { (c : _) → result ≡ Next c → CloseKnows layout.now (copies layout.now memories.old) cache.now.changes self → ClosedKnows layout.now (copies layout.now memories.new) cache.now.changes self }
    {
        let status = Status::Run(self.holder);
        if self.cursor == 0 {
            write_status(memories, layout, self.pid, false, &status);
            Step::Again(Flush { cursor: 1, ..self })
        } else {
            write_status(memories, layout, self.pid, true, &status);
            Step::Next(Closed)
        }
    }
}
