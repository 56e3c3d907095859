// Turns over memories that are made by hand: traps, a struck half, and the step of an acquire whose lock is held.
ghost use Rattle.std.specs.Prelude.{◌≡◌, ◌+◌, ◌%◌, ◌<◌, ◌≤◌, [], ◌∷◌, None, length, IfOk};
ghost use Rattle.std.proofs.Props.{props};
ghost use Rattle.seq_words.specs.Description.{IsDescription, process_of};
ghost use Rattle.seq_layout.specs.Places.{IsPlace};
ghost use Rattle.seq_layout.specs.Shapes.{shape_of};
ghost use Rattle.seq_layout.specs.Copies.{Matches, copies};
ghost use Rattle.seq_kernel.specs.Bounds.{IsRunning, AreReadable};

use seq_cache::Cache;
use seq_flat::End;
use seq_kernel::{Cause, Outcome, call, grant, step};
use seq_layout::{Extent, Layout};
use seq_memory::Memories;
use seq_pair::Pair;
use seq_process::{Running, save};
use seq_samples::two_images;
use seq_words::{
    Block, Bytes, Half, MachineDesc, NoMemory, Pid, Regs, Seg, has_bit, set_block_word,
};
use std::alloc::Global;
use std::process::Abort;

/// The extent of process 0, and the first block of its private bytes.
const OWNER: Extent = Extent(0);

const PRIVATE: u32 = 16;

// Two processes of 128 and 32 bytes, of which the first owns line 0, and four segments of 32 bytes.
fn description(alloc: Global) -> Result<MachineDesc, NoMemory>
    ensures described { IfOk result IsDescription }
    ensures quantum { IfOk result (λ d. d.quantum ≡ 1000) }
    ensures journal { IfOk result (λ d. d.journal ≡ 32) }
    ensures segments { IfOk result (λ d. length d.segments ≡ 4) }
    ensures processes { IfOk result (λ d. length d.processes ≡ 2) }
    ensures lines { IfOk result (λ d. (process_of d 0).lines ≡ 1) }
    ensures blocks { IfOk result (λ d. (shape_of d).blocks ≡ 20 ∷ 9 ∷ 1 ∷ 1 ∷ 1 ∷ 1 ∷ 1 ∷ []) }
    ensures words { IfOk result (λ d. (shape_of d).words ≡ 1 ∷ 1 ∷ 1 ∷ 1 ∷ 1 ∷ 1 ∷ 3 ∷ []) }
{
    let desc = two_images(alloc, 128, Bytes::new(alloc), 32, Bytes::new(alloc))?;
    Ok(desc)
}

// Fresh memories.
fn fresh(alloc: Global, desc: &MachineDesc, layout: &Layout) -> Result<Memories, NoMemory>
    requires { layout.now ≡ shape_of desc.now }
    ensures matches { IfOk result (Matches layout.now) }
    ensures readable { IfOk result (λ m. AreReadable desc.now (copies layout.now m)) }
{
    let memories = layout.memories(alloc)?;
    Ok(memories)
}

// A machine with its memories.
#[derive(Drop)]
struct Bench {
    desc: MachineDesc,
    layout: Layout,
    memories: Memories,
    ghost described: { IsDescription desc } by { Prim.hlevel props },
    ghost quantum: { desc.quantum ≡ 1000 },
    ghost journal: { desc.journal ≡ 32 },
    ghost segments: { length desc.segments ≡ 4 },
    ghost processes: { length desc.processes ≡ 2 },
    ghost lines: { (process_of desc 0).lines ≡ 1 },
    ghost blocks: { layout.blocks ≡ 20 ∷ 9 ∷ 1 ∷ 1 ∷ 1 ∷ 1 ∷ 1 ∷ [] },
    ghost words: { layout.words ≡ 1 ∷ 1 ∷ 1 ∷ 1 ∷ 1 ∷ 1 ∷ 3 ∷ [] },
    ghost shape: { layout ≡ shape_of desc },
    ghost matches: { Matches layout memories } by { Prim.hlevel props },
    ghost readable: { AreReadable desc (copies layout memories) } by { Prim.hlevel props },
}

fn new_bench(alloc: Global) -> Result<Bench, NoMemory> {
    let desc = description(alloc)?;
    let layout = Layout::new(alloc, &desc)?;
    let memories = fresh(alloc, &desc, &layout)?;
    Ok(Bench {
        desc,
        layout,
        memories,
    })
}

/// What a process holds, and of its line the bytes read and the bytes written.
#[derive(Clone, Copy, Debug)]
struct Kept {
    held: u16,
    read: u32,
    written: u32,
}

impl Bench {
    // Sets a copy of a block.
    fn set_copy(&mut self, extent: Extent, n: u32, shadow: bool, block: &Block)
        requires { IsPlace self.old.layout.blocks extent.0 n }
    {
        self.layout
            .write_block(&mut self.memories, extent, n, shadow, block);
    }

    // Sets a block of process 0.
    fn set_block(&mut self, n: u32, block: &Block)
        requires { n < 20 }
    {
        self.set_copy(OWNER, n, false, block);
        self.set_copy(OWNER, n, true, block);
    }

    // Process 0 with these registers. It has taken five steps since its checkpoint, and nine since its claim.
    fn process_at(&self, regs: Regs, kept: Kept) -> Running
        requires aligned { regs.pc % 4 ≡ 0 }
        requires held { kept.held < 16 }
        requires read { kept.read ≤ 32 }
        requires written { kept.written ≤ 1048576 }
        ensures running { IsRunning self.now.desc result }
        ensures whole { result.pair.struck ≡ None }
        ensures steps { result.steps ≡ 5 }
        ensures used { result.used ≡ 9 }
    {
        Running {
            pid: Pid(0),
            pair: Pair::load(&regs),
            held: kept.held,
            end: End::Live,
            reads: [kept.read, 0, 0, 0],
            writes: [kept.written, 0, 0, 0],
            commits: 3,
            steps: 5,
            used: 9,
        }
    }

    fn running(&self, rt: &impl Abort, regs: Regs, kept: Kept) -> Running
        ensures running { IsRunning self.now.desc result }
        ensures whole { result.pair.struck ≡ None }
        ensures steps { result.steps ≡ 5 }
        ensures used { result.used ≡ 9 }
    {
        assert!(rt; regs.pc % 4 == 0 && kept.held < 16);
        assert!(rt; kept.read <= 32 && kept.written <= 1_048_576);
        self.process_at(regs, kept)
    }

    // A turn of the process, and a call of it.
    fn step(&self, r: &mut Running, cache: &mut Cache) -> Outcome
        requires { IsRunning self.now.desc r.old }
    {
        step(r, cache, &self.memories, &self.layout, &self.desc)
    }

    fn call(&self, r: &mut Running, cache: &mut Cache) -> Outcome
        requires { IsRunning self.now.desc r.old }
    {
        call(r, cache, &self.memories, &self.layout, &self.desc)
    }

    // The same process after half b was struck in a register.
    fn struck(&self, mut r: Running, reg: u8) -> Running
        requires running { IsRunning self.now.desc r }
        requires whole { r.pair.struck ≡ None }
        requires low { 1 ≤ reg }
        requires high { reg < 32 }
        ensures { IsRunning self.now.desc result }
    {
        r.pair.strike(Half::B, reg, 1);
        r
    }
}

/// What a turn leaves of a process.
#[derive(Clone, Copy, Debug)]
enum After {
    /// All as it was.
    Same,
    /// What x5 holds then.
    Moved(u32),
    /// The answer in x10, and what it holds, has read and has written then.
    Answered(u32, Kept),
    Ended(End),
}

// Both halves get an answer in x10, and go on with the next instruction.
fn go_on(pair: &mut Pair, answer: u32) {
    pair.a.x[10] = answer;
    pair.b.x[10] = answer;
    pair.a.pc = 4;
    pair.b.pc = 4;
}

// A process from pc 0 on, as it is to be after a turn.
fn expected(before: &Running, after: After) -> Running {
    let mut r = *before;
    match after {
        After::Same => return r,
        After::Moved(x5) => {
            let x10 = r.pair.a.x[10];
            go_on(&mut r.pair, x10);
            r.pair.a.x[5] = x5;
            r.pair.b.x[5] = x5;
        }
        After::Answered(x10, kept) => {
            go_on(&mut r.pair, x10);
            r.held = kept.held;
            r.reads[0] = kept.read;
            r.writes[0] = kept.written;
        }
        After::Ended(end) => {
            r.end = end;
            r.held = 0;
        }
    }
    r.steps = 6;
    r.used = 10;
    r
}

fn same_registers(first: &Pair, second: &Pair) -> bool {
    first.a.x == second.a.x
        && first.a.pc == second.a.pc
        && first.b.x == second.b.x
        && first.b.pc == second.b.pc
        && first.struck == second.struck
}

fn is_same(first: &Running, second: &Running) -> bool {
    first.pid == second.pid
        && same_registers(&first.pair, &second.pair)
        && first.held == second.held
        && first.end == second.end
        && first.reads == second.reads
        && first.writes == second.writes
        && first.commits == second.commits
        && first.steps == second.steps
        && first.used == second.used
}

// The registers of a call: x17, and x10 to x12.
fn asks([number, first, second, third]: [u32; 4]) -> Regs {
    let mut x = [0; 32];
    x[5] = 55;
    x[10] = first;
    x[11] = second;
    x[12] = third;
    x[17] = number;
    Regs { x, pc: 0 }
}

fn having(held: u16, read: u32, written: u32) -> Kept {
    Kept {
        held,
        read,
        written,
    }
}

const NOTHING_KEPT: Kept = Kept {
    held: 0,
    read: 0,
    written: 0,
};

// The block with another first word.
fn with_first(mut block: Block, word: u32) -> Block {
    set_block_word(&mut block, 0, word);
    block
}

// A block whose first word is an instruction.
fn program(word: u32) -> Block {
    with_first(Block::zero(), word)
}

// The registers of a process at an instruction, which reads x6.
fn at(pc: u32, x6: u32) -> Regs {
    let mut regs = asks([5, 0, 0, 0]);
    regs.x[6] = x6;
    regs.pc = pc;
    regs
}

// One step of process 0, which is granted segments 0 and 1, and what comes of it.
fn check_step(
    rt: &impl Abort,
    bench: &mut Bench,
    cache: &mut Cache,
    (word, x6): (u32, u32),
    (outcome, after): (Outcome, After),
) -> Running {
    bench.set_block(PRIVATE, &program(word));
    let mut r = bench.running(rt, at(0, x6), having(3, 1, 2));
    let wanted = expected(&r, after);
    assert_eq!(rt; bench.step(&mut r, cache), outcome, "{word:#x} {x6:#x}");
    assert!(rt; is_same(&r, &wanted), "{word:#x} {x6:#x} {r:?}");
    r
}

// The words of addi x5, x6, 7; of lw x5, 0(x6); of sw x17, 0(x6); and of jalr x5, 0(x6).
const ADD: u32 = 0x0073_0293;

const LOAD: u32 = 0x0003_2283;

const STORE: u32 = 0x0113_2023;

const JUMP: u32 = 0x0003_02e7;

const ECALL: u32 = 0x0000_0073;

const EBREAK: u32 = 0x0010_0073;

/// An instruction, x6, and x5 afterwards.
type Move = (u32, u32, u32);

// What is stored is 5, which is loaded then.
const MOVES: [Move; 7] = [
    (ADD, 3, 10),
    (LOAD, 0, LOAD),
    (LOAD, 36, 0),
    (STORE, 36, 55),
    (LOAD, 36, 5),
    (STORE, 0x4001_001c, 55),
    (LOAD, 0x4001_001c, 5),
];

fn check_moves(rt: &impl Abort, bench: &mut Bench, cache: &mut Cache, rows: &[Move]) {
    for (word, x6, x5) in rows {
        let after = (Outcome::Done, After::Moved(*x5));
        check_step(rt, bench, cache, (*word, *x6), after);
    }
}

#[test]
fn instructions(rt: HostRuntime) -> Result<(), NoMemory> {
    let mut bench = new_bench(rt.alloc())?;
    let mut cache = Cache::new(rt.alloc(), 16)?;
    check_moves(&rt, &mut bench, &mut cache, &MOVES);
    assert_eq!(rt; cache.dirty(), 2);
    Ok(())
}

// The context of a process that was trapped.
fn check_context(rt: &impl Abort, trapped: &Running, code: u8) {
    assert!(rt; trapped.commits < 10);
    let context = save(trapped);
    assert!(rt; context.is_some_and(|c| (c.end, c.value, c.end_pc) == (2, u32::from(code), 0)));
    assert!(rt; context.is_some_and(|c| c.held == 0 && c.commits == 4 && c.regs.pc == 0));
}

/// An instruction, x6, and the cause of the trap.
type Trap = (u32, u32, u8);

const TRAPS: [Trap; 9] = [
    (EBREAK, 0, 3),
    (0, 0, 2),
    (LOAD, 128, 5),
    (LOAD, 0x4002_0000, 5),
    (LOAD, 38, 4),
    (STORE, 38, 6),
    (STORE, 128, 7),
    (STORE, 0x4002_0000, 7),
    (JUMP, 6, 0),
];

fn check_traps(rt: &impl Abort, bench: &mut Bench, cache: &mut Cache, rows: &[Trap]) {
    for (word, x6, code) in rows {
        let flush = Outcome::NeedsFlush(Cause::Trap);
        let after = After::Ended(End::Trapped(*code, 0));
        let trapped = check_step(rt, bench, cache, (*word, *x6), (flush, after));
        check_context(rt, &trapped, *code);
    }
}

#[test]
fn traps(rt: HostRuntime) -> Result<(), NoMemory> {
    let mut bench = new_bench(rt.alloc())?;
    let mut cache = Cache::new(rt.alloc(), 16)?;
    check_traps(&rt, &mut bench, &mut cache, &TRAPS);
    assert_eq!(rt; cache.dirty(), 0);
    Ok(())
}

// An instruction that is not among the private bytes.
fn check_outside(rt: &impl Abort, bench: &Bench, cache: &mut Cache, pc: u32) {
    let mut r = bench.running(rt, at(pc, 0), having(3, 1, 2));
    let wanted = expected(&r, After::Ended(End::Trapped(1, pc)));
    let flush = Outcome::NeedsFlush(Cause::Trap);
    assert_eq!(rt; bench.step(&mut r, cache), flush, "{pc:#x}");
    assert!(rt; is_same(&r, &wanted), "{pc:#x} {r:?}");
}

fn check_all_outside(rt: &impl Abort, bench: &Bench, cache: &mut Cache, places: &[u32]) {
    for pc in places {
        check_outside(rt, bench, cache, *pc);
    }
}

#[test]
fn a_pc_outside(rt: HostRuntime) -> Result<(), NoMemory> {
    let bench = new_bench(rt.alloc())?;
    let mut cache = Cache::new(rt.alloc(), 16)?;
    check_all_outside(&rt, &bench, &mut cache, &[128, 0x4002_0000, 0xffff_fffc]);
    Ok(())
}

/// A register in which half b is struck, and what comes of a call of self.
type Strike = (u8, Outcome, After);

// What x9 holds is no part of a call; each of x10 to x17 is.
const STRIKES: [Strike; 4] = [
    (9, Outcome::Done, After::Answered(0, NOTHING_KEPT)),
    (10, Outcome::Diverged, After::Same),
    (11, Outcome::Diverged, After::Same),
    (17, Outcome::Diverged, After::Same),
];

// The call, and a step of it.
fn check_struck(rt: &impl Abort, bench: &Bench, cache: &mut Cache, (reg, outcome, after): &Strike) {
    let whole = bench.running(rt, asks([5, 0, 0, 0]), NOTHING_KEPT);
    assert!(rt; 1 <= *reg && *reg < 32);
    let mut called = bench.struck(whole, *reg);
    let mut stepped = called;
    let wanted = expected(&called, *after);
    assert_eq!(rt; bench.call(&mut called, cache), *outcome, "{reg}");
    assert!(rt; is_same(&called, &wanted), "{reg} {called:?}");
    assert_eq!(rt; bench.step(&mut stepped, cache), *outcome, "{reg}");
    assert!(rt; is_same(&stepped, &wanted), "{reg} {stepped:?}");
}

fn check_strikes(rt: &impl Abort, bench: &Bench, cache: &mut Cache, rows: &[Strike]) {
    for row in rows {
        check_struck(rt, bench, cache, row);
    }
}

#[test]
fn a_struck_half(rt: HostRuntime) -> Result<(), NoMemory> {
    let mut bench = new_bench(rt.alloc())?;
    bench.set_block(PRIVATE, &program(ECALL));
    let mut cache = Cache::new(rt.alloc(), 16)?;
    check_strikes(&rt, &bench, &mut cache, &STRIKES);
    assert_eq!(rt; cache.dirty(), 0);
    Ok(())
}

/// The step of an acquire: what is held before it, the segment, and what is held after it.
type Grant = (u16, u8, u16);

const GRANTS: [Grant; 4] = [(0, 0, 1), (1, 1, 3), (3, 2, 7), (0, 2, 4)];

fn check_grant(rt: &impl Abort, bench: &Bench, (held, segment, after): &Grant) {
    let mut r = bench.running(rt, asks([1, *segment as u32, 0, 0]), having(*held, 4, 5));
    let wanted = expected(&r, After::Answered(0, having(*after, 4, 5)));
    assert!(rt; *segment < 16 && !has_bit(r.held, *segment));
    grant(&mut r, Seg(*segment));
    assert!(rt; is_same(&r, &wanted), "{held} {segment} {r:?}");
}

fn check_grants(rt: &impl Abort, bench: &Bench, rows: &[Grant]) {
    for row in rows {
        check_grant(rt, bench, row);
    }
}

#[test]
fn grants(rt: HostRuntime) -> Result<(), NoMemory> {
    let bench = new_bench(rt.alloc())?;
    check_grants(&rt, &bench, &GRANTS);
    Ok(())
}
