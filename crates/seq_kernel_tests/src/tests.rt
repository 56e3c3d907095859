// Kernel calls on two memories, of a process that owns line 0 and may acquire segments 0 and 2 of three.
ghost use Rattle.std.specs.Prelude.{◌≡◌, ℕ, ◌<◌, ◌≤◌, Bool, [], ◌∷◌, length, None, IfOk};
ghost use Rattle.std.proofs.Props.{props};
ghost use Rattle.seq_words.specs.Description.{IsDescription};
ghost use Rattle.seq_words.specs.declared.description.MachineDesc.{MachineDesc};
ghost use Rattle.seq_layout.specs.Shapes.{shape_of};
ghost use Rattle.seq_layout.specs.Copies.{Matches, copies};
ghost use Rattle.seq_samples.specs.Samples.{one_line};
ghost use Rattle.seq_kernel.specs.Bounds.{IsRunning, AreReadable};

use seq_cache::Cache;
use seq_flat::End;
use seq_kernel::{Cause, Outcome, Reason, call};
use seq_layout::{Extent, Layout, WordAt};
use seq_memory::Memories;
use seq_pair::Pair;
use seq_process::Running;
use seq_samples::one_line;
use seq_words::{Block, Half, LineNo, MachineDesc, NoMemory, Pid, Regs, Seg};
use std::alloc::Global;
use std::process::Abort;
use std::test::Fail;

/// The extents of the process and of line 0.
const PROCESS: Extent = Extent(0);

const LINE: Extent = Extent(4);

/// A machine with its memories.
#[derive(Drop)]
struct Machine {
    desc: MachineDesc,
    layout: Layout,
    memories: Memories,
    ghost described: { IsDescription desc } by { Prim.hlevel props },
    ghost processes: { desc.processes ≡ record { size = 64; entry = 0; image = []; lines = 1; grants = 5 } ∷ [] },
    ghost segments: { length desc.segments ≡ 3 },
    ghost quantum: { desc.quantum ≡ 1000 },
    ghost journal: { desc.journal ≡ 32 },
    ghost shape: { layout ≡ shape_of desc },
    ghost matches: { Matches layout memories } by { Prim.hlevel props },
    ghost readable: { AreReadable desc (copies layout memories) } by { Prim.hlevel props },
}

// The shape of the machine with one line.
fn layout_of(alloc: Global, desc: &MachineDesc) -> Result<Layout, NoMemory>
    requires value { desc.now ≡ one_line }
    requires described { IsDescription desc.now }
    ensures shape { IfOk result (λ l. l ≡ shape_of desc.now) }
    ensures blocks { IfOk result (λ l. l.blocks ≡ 18 ∷ 1 ∷ 1 ∷ 1 ∷ 1 ∷ []) }
    ensures words { IfOk result (λ l. l.words ≡ 1 ∷ 1 ∷ 1 ∷ 1 ∷ 3 ∷ []) }
{
    let layout = Layout::new(alloc, desc)?;
    Ok(layout)
}

// A word of line 0.
fn line_word(word: u32) -> WordAt
    ensures extent { result.extent.0 ≡ 4 }
    ensures word { result.word ≡ word }
{
    WordAt { extent: LINE, word }
}

// A block whose bytes are all the same.
fn filled(byte: u8) -> Block {
    Block { bytes: [byte; 32] }
}

// Sets a copy of the process's bytes, of the journal and of the words of line 0. The bytes of the process are 5, and those of
// the journal 9.
fn set_copy(
    memories: &mut Memories,
    layout: &Layout,
    shadow: bool,
    arrived: u64,
    closed: u64,
    sent: u64,
)
    requires matches { Matches layout.now memories.old }
    requires blocks { layout.now.blocks ≡ 18 ∷ 1 ∷ 1 ∷ 1 ∷ 1 ∷ [] }
    requires words { layout.now.words ≡ 1 ∷ 1 ∷ 1 ∷ 1 ∷ 3 ∷ [] }
    requires small { (e n : ℕ) (c : Bool) → (copies layout.now memories.old).word e n c ≤ 32 }
    requires arrived { arrived ≤ 32 }
    requires closed { closed ≤ 1 }
    requires sent { sent ≤ 32 }
    ensures matches { Matches layout.now memories.new }
    ensures state { (copies layout.now memories.new).state ≡ (copies layout.now memories.old).state }
    ensures small { (e n : ℕ) (c : Bool) → (copies layout.now memories.new).word e n c ≤ 32 }
{
    layout.write_block(memories, PROCESS, 16, shadow, &filled(5));
    layout.write_block(memories, PROCESS, 17, shadow, &filled(5));
    layout.write_block(memories, LINE, 0, shadow, &filled(9));
    layout.write_word(memories, line_word(0), shadow, arrived);
    layout.write_word(memories, line_word(1), shadow, closed);
    layout.write_word(memories, line_word(2), shadow, sent);
}

// That machine, where so many bytes have arrived on line 0 and were sent from it, and it is closed or not.
fn new_machine(alloc: Global, arrived: u64, closed: u64, sent: u64) -> Result<Machine, NoMemory>
    requires arrived { arrived ≤ 32 }
    requires closed { closed ≤ 1 }
    requires sent { sent ≤ 32 }
{
    let desc = one_line(alloc)?;
    let layout = layout_of(alloc, &desc)?;
    let mut memories = layout.memories(alloc)?;
    set_copy(&mut memories, &layout, false, arrived, closed, sent);
    set_copy(&mut memories, &layout, true, arrived, closed, sent);
    Ok(Machine {
        desc,
        layout,
        memories,
    })
}

// The process at a call, with these segments held and so many bytes read and written.
fn running(number: u32, arguments: [u32; 3], held: u16, reads: u32, writes: u32) -> Running
    requires held { held < 8 }
    requires reads { reads ≤ 32 }
    requires writes { writes ≤ 1048576 }
    ensures running { (d : MachineDesc) → d.processes ≡ record { size = 64; entry = 0; image = []; lines = 1; grants = 5 } ∷ [] → length d.segments ≡ 3 → d.quantum ≡ 1000 → d.journal ≡ 32 → IsRunning d result }
    ensures unstruck { result.pair.struck ≡ None }
    ensures first { result.pair.a.pc ≡ 64 }
    ensures second { result.pair.b.pc ≡ 64 }
{
    let mut x = [0; 32];
    x[17] = number;
    x[10] = arguments[0];
    x[11] = arguments[1];
    x[12] = arguments[2];
    Running {
        pid: Pid(0),
        pair: Pair::load(&Regs { x, pc: 64 }),
        held,
        end: End::Live,
        reads: [reads, 0, 0, 0],
        writes: [writes, 0, 0, 0],
        commits: 0,
        steps: 3,
        used: 4,
    }
}

// The process at a call of self, where one bit of a half's register is struck.
fn struck(half: Half, reg: u8) -> Running
    requires low { 1 ≤ reg }
    requires high { reg ≤ 32 }
    ensures { (d : MachineDesc) → d.processes ≡ record { size = 64; entry = 0; image = []; lines = 1; grants = 5 } ∷ [] → length d.segments ≡ 3 → d.quantum ≡ 1000 → d.journal ≡ 32 → IsRunning d result }
{
    let mut r = running(5, [0, 0, 0], 0, 0, 0);
    r.pair.strike(half, reg, 4);
    r
}

/// A call: its number, its arguments, what is held, and how many bytes were read and written.
type Row = (u32, [u32; 3], u16, u32, u32);

/// What a call comes to, x10 after it, and how far pc moves.
type Answer = (Outcome, u32, u32);

const CALLS: [(Row, Answer); 26] = [
    // exit, self, commit, yield, and no call
    (
        (0, [7, 0, 0], 5, 0, 0),
        (Outcome::NeedsFlush(Cause::Exit), 7, 0),
    ),
    ((5, [7, 0, 0], 0, 0, 0), (Outcome::Done, 0, 4)),
    (
        (6, [7, 0, 0], 0, 0, 0),
        (Outcome::NeedsFlush(Cause::Commit), 0, 4),
    ),
    (
        (7, [7, 0, 0], 0, 0, 0),
        (Outcome::NeedsFlush(Cause::Yield), 0, 4),
    ),
    ((8, [7, 0, 0], 0, 0, 0), (Outcome::Done, u32::MAX - 8, 4)),
    // acquire
    ((1, [3, 0, 0], 0, 0, 0), (Outcome::Done, u32::MAX - 2, 4)),
    ((1, [1, 0, 0], 0, 0, 0), (Outcome::Done, u32::MAX - 3, 4)),
    ((1, [0, 0, 0], 1, 0, 0), (Outcome::Done, u32::MAX, 4)),
    ((1, [0, 0, 0], 4, 0, 0), (Outcome::Done, u32::MAX - 1, 4)),
    ((1, [2, 0, 0], 1, 0, 0), (Outcome::Claim(Seg(2)), 2, 0)),
    // release
    (
        (2, [2, 0, 0], 5, 0, 0),
        (Outcome::NeedsFlush(Cause::Release(Seg(2))), 0, 4),
    ),
    ((2, [0, 0, 0], 4, 0, 0), (Outcome::Done, u32::MAX, 4)),
    ((2, [99, 0, 0], 4, 0, 0), (Outcome::Done, u32::MAX, 4)),
    // read
    ((3, [1, 0, 0], 0, 0, 0), (Outcome::Done, u32::MAX - 5, 4)),
    ((3, [16, 0, 0], 0, 0, 0), (Outcome::Done, u32::MAX - 5, 4)),
    ((3, [0, 0, 0], 0, 1, 0), (Outcome::Done, 9, 4)),
    (
        (3, [0, 0, 0], 0, 2, 0),
        (Outcome::Waits(Reason::Input(LineNo(0), 2)), 0, 0),
    ),
    // write
    ((4, [1, 0, 99], 0, 0, 0), (Outcome::Done, u32::MAX - 5, 4)),
    ((4, [0, 64, 65], 0, 0, 0), (Outcome::Done, u32::MAX - 6, 4)),
    ((4, [0, 0, 64], 0, 0, 192), (Outcome::Done, 64, 4)),
    (
        (4, [0, 1, 64], 0, 0, 1_048_576),
        (Outcome::Done, u32::MAX - 7, 4),
    ),
    (
        (4, [0, 0, 1], 0, 0, 1_048_576),
        (Outcome::Done, u32::MAX - 4, 4),
    ),
    ((4, [0, 0, 0], 0, 0, 256), (Outcome::Done, 0, 4)),
    ((4, [0, 0, 1], 0, 0, 255), (Outcome::Done, 1, 4)),
    (
        (4, [0, 0, 1], 0, 0, 256),
        (Outcome::Waits(Reason::Outbox(LineNo(0), 0)), 0, 0),
    ),
    (
        (4, [0, 0, 64], 0, 0, 193),
        (Outcome::Waits(Reason::Outbox(LineNo(0), 0)), 0, 0),
    ),
];

impl Machine {
    // What a call of the process comes to.
    fn call(&self, r: &mut Running, cache: &mut Cache) -> Outcome
        requires { IsRunning self.now.desc r.old }
    {
        call(r, cache, &self.memories, &self.layout, &self.desc)
    }

    // The process at a call.
    fn at(&self, rt: &impl Abort, row: Row) -> Running
        ensures { IsRunning self.now.desc result }
    {
        let (number, arguments, held, reads, writes) = row;
        assert!(rt; held < 8 && reads <= 32 && writes <= 1_048_576);
        running(number, arguments, held, reads, writes)
    }

    // The process at a call of self, where one bit of a half's register is struck.
    fn struck(&self, rt: &impl Abort, half: Half, reg: u8) -> Running
        ensures { IsRunning self.now.desc result }
    {
        assert!(rt; 1 <= reg && reg <= 32);
        struck(half, reg)
    }
}

// A half of the process after a call.
fn check_half(rt: &impl Abort, half: &Regs, &(_, answer, moved): &Answer) {
    assert_eq!(rt; half.x[10], answer);
    assert_eq!(rt; half.pc.wrapping_sub(64), moved);
}

fn check_call(
    rt: &impl Abort,
    alloc: Global,
    machine: &Machine,
    row: &Row,
    answer: &Answer,
) -> Result<(), NoMemory> {
    let mut cache = Cache::new(alloc, 16)?;
    let mut r = machine.at(rt, *row);
    let found = machine.call(&mut r, &mut cache);
    assert_eq!(rt; found, answer.0, "{row:?}");
    check_half(rt, &r.pair.a, answer);
    check_half(rt, &r.pair.b, answer);
    Ok(())
}

fn check_calls(
    rt: &impl Abort,
    alloc: Global,
    machine: &Machine,
    calls: &[(Row, Answer)],
) -> Result<(), NoMemory> {
    for (row, answer) in calls {
        check_call(rt, alloc, machine, row, answer)?;
    }
    Ok(())
}

#[test]
fn each_call_and_each_answer(rt: HostRuntime) -> Result<(), NoMemory> {
    let machine = new_machine(rt.alloc(), 2, 0, 0)?;
    check_calls(&rt, rt.alloc(), &machine, &CALLS)
}

/// How many bytes were read; what a read answers then, and how many were read afterwards.
type Read = (u32, u32, u32);

fn check_read(
    rt: &impl Abort,
    machine: &Machine,
    cache: &mut Cache,
    (reads, answer, after): &Read,
) {
    let mut r = machine.at(rt, (3, [0, 0, 0], 0, *reads, 0));
    let found = machine.call(&mut r, cache);
    assert_eq!(rt; found, Outcome::Done);
    assert_eq!(rt; r.pair.a.x[10], *answer);
    assert_eq!(rt; r.reads[0], *after);
}

fn check_reads(rt: &impl Abort, machine: &Machine, cache: &mut Cache, rows: &[Read]) {
    for row in rows {
        check_read(rt, machine, cache, row);
    }
}

#[test]
fn a_read_at_the_end_of_a_closed_line(rt: HostRuntime) -> Result<(), NoMemory> {
    let machine = new_machine(rt.alloc(), 2, 1, 0)?;
    let mut cache = Cache::new(rt.alloc(), 16)?;
    check_reads(&rt, &machine, &mut cache, &[(1, 9, 2), (2, u32::MAX, 2)]);
    Ok(())
}

/// A changed block, and its first byte that was written and the one behind the last.
type Part = (u32, usize, usize);

fn check_part(rt: &impl Abort, cache: &Cache, &(block, first, end): &Part) -> Result<(), Fail> {
    let block = cache.find(Extent(0), block).ok_or("not changed")?;
    for (at, byte) in block.bytes.iter().enumerate() {
        let written = first <= at && at < end;
        assert_eq!(rt; *byte, if written { 5 } else { 0 }, "{at}");
    }
    Ok(())
}

/// How many bytes were written, and how many are to be; and the two blocks that the write changes.
type Write = (u32, u32, Part, Part);

// Across the end of a block, and across the end of the outbox.
const WRITES: [Write; 2] = [
    (210, 40, (14, 18, 32), (15, 0, 26)),
    (250, 12, (15, 26, 32), (8, 0, 6)),
];

fn check_write(
    rt: &impl Abort,
    alloc: Global,
    machine: &Machine,
    (from, count, first, second): &Write,
) -> Result<(), Fail> {
    let mut cache = Cache::new(alloc, 2)?;
    let mut r = machine.at(rt, (4, [0, 0, *count], 0, 0, *from));
    let found = machine.call(&mut r, &mut cache);
    assert_eq!(rt; found, Outcome::Done);
    assert_eq!(rt; r.writes[0].checked_sub(*from), Some(*count));
    check_part(rt, &cache, first)?;
    check_part(rt, &cache, second)
}

fn check_writes(
    rt: &impl Abort,
    alloc: Global,
    machine: &Machine,
    rows: &[Write],
) -> Result<(), Fail> {
    for row in rows {
        check_write(rt, alloc, machine, row)?;
    }
    Ok(())
}

#[test]
fn writes_across_ends(rt: HostRuntime) -> Result<(), Fail> {
    let machine = new_machine(rt.alloc(), 0, 0, 6)?;
    check_writes(&rt, rt.alloc(), &machine, &WRITES)
}

/// How many bytes were written, and how many are to be; and what the write comes to, the blocks changed, and the bytes written then.
type Room = (u32, u32, Outcome, u32, u32);

const ROOM: Outcome = Outcome::NeedsFlush(Cause::Room);

const ROOMS: [Room; 4] = [
    (16, 17, ROOM, 0, 16),
    (16, 16, Outcome::Done, 1, 32),
    (8, 24, Outcome::Done, 1, 32),
    (31, 2, ROOM, 1, 31),
];

fn check_room(
    rt: &impl Abort,
    machine: &Machine,
    cache: &mut Cache,
    (from, count, outcome, dirty, after): &Room,
) {
    let mut r = machine.at(rt, (4, [0, 0, *count], 0, 0, *from));
    let found = machine.call(&mut r, cache);
    assert_eq!(rt; found, *outcome);
    assert_eq!(rt; cache.dirty(), *dirty);
    assert_eq!(rt; r.writes[0], *after);
}

fn check_rooms(rt: &impl Abort, machine: &Machine, cache: &mut Cache, rows: &[Room]) {
    for row in rows {
        check_room(rt, machine, cache, row);
    }
}

#[test]
fn a_write_at_the_last_free_block(rt: HostRuntime) -> Result<(), NoMemory> {
    let machine = new_machine(rt.alloc(), 0, 0, 0)?;
    let mut cache = Cache::new(rt.alloc(), 1)?;
    check_rooms(&rt, &machine, &mut cache, &ROOMS);
    Ok(())
}

/// A register in which a half is struck, and what a call of self comes to.
type Strike = (u8, Outcome);

const STRIKES: [Strike; 6] = [
    (9, Outcome::Done),
    (10, Outcome::Diverged),
    (16, Outcome::Diverged),
    (17, Outcome::Diverged),
    (18, Outcome::Done),
    (32, Outcome::Diverged),
];

fn check_struck(
    rt: &impl Abort,
    machine: &Machine,
    cache: &mut Cache,
    half: Half,
    (reg, outcome): &Strike,
) {
    let mut r = machine.struck(rt, half, *reg);
    let found = machine.call(&mut r, cache);
    assert_eq!(rt; found, *outcome, "{reg}");
}

// Either half is struck.
fn check_strikes(rt: &impl Abort, machine: &Machine, cache: &mut Cache, rows: &[Strike]) {
    for row in rows {
        check_struck(rt, machine, cache, Half::A, row);
        check_struck(rt, machine, cache, Half::B, row);
    }
}

#[test]
fn a_struck_half_at_a_call(rt: HostRuntime) -> Result<(), NoMemory> {
    let machine = new_machine(rt.alloc(), 0, 0, 0)?;
    let mut cache = Cache::new(rt.alloc(), 1)?;
    check_strikes(&rt, &machine, &mut cache, &STRIKES);
    Ok(())
}
