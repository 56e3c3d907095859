// Kernel calls on the hardware. x17 holds the number of a call, x10 to x12 its arguments, and x10 gets the answer.
ghost use Rattle.std.specs.Prelude.{◌≡◌, ◌+◌, ◌-◌, ◌/◌, ◌%◌, ◌^◌, ◌<◌, ◌≤◌, ◌↔◌, true, IsTrue, IfSome, Some, is_some, length, take, option_map, nat_lt, count_ones};
ghost use Rattle.seq_words.specs.Masks.{has_bit};
ghost use Rattle.seq_words.specs.Description.{IsDescription, line_count, process_of};
ghost use Rattle.seq_isa.specs.Meaning.{register};
ghost use Rattle.seq_flat.specs.Memory.{bytes_from};
ghost use Rattle.seq_layout.specs.Shapes.{shape_of, index_of};
ghost use Rattle.seq_layout.specs.Copies.{Matches, copies};
ghost use Rattle.seq_cache.specs.Changes.{Changes};
ghost use Rattle.seq_kernel.specs.Views.{read_by, seen};
ghost use Rattle.seq_kernel.specs.Turns.{counted, half_answered, answered, ended};
ghost use Rattle.seq_kernel.specs.Calls.{acquire, release, line_word, journal_byte, read, put_out, write, numbered, agree_on_call, AgreeOnCall, call_of};
ghost use Rattle.seq_kernel.specs.Bounds.{IsRunning, AreReadable};
ghost use Rattle.seq_kernel.specs.Causes.{Acquires, AwaitsFor, FlushesFor};
ghost use Rattle.seq_kernel.specs.Refinement.{takes_step};

use crate::outbox::Outbox;
use crate::{Cause, Outcome, Reason};
use seq_cache::Cache;
use seq_flat::End;
use seq_layout::{Extent, Layout, WordAt};
use seq_memory::Memories;
use seq_pair::Pair;
use seq_process::Running;
use seq_segments::map;
use seq_words::{LineNo, MachineDesc, Pid, Regs, Seg, has_bit};

/// Most bytes of one write.
const WRITE_LIMIT: u32 = 64;

/// Most bytes of a line's output.
const OUTPUT_LIMIT: u32 = 1_048_576;

/// How many bytes of a line's output may wait to be sent.
const OUTBOX_BYTES: u64 = 256;

/// The bytes of a block.
const BLOCK_BYTES: u32 = 32;

/// The words of a line: its journal count, its closed word and its sent count.
const JOURNAL_COUNT: u32 = 0;

const CLOSED: u32 = 1;

const SENT_COUNT: u32 = 2;

// Answers that refuse a call: -1 to -9 in two's complement.
const HELD_OR_NOT: u32 = u32::MAX;

const OUT_OF_ORDER: u32 = u32::MAX - 1;

const NO_SEGMENT: u32 = u32::MAX - 2;

const NOT_GRANTED: u32 = u32::MAX - 3;

const OUTPUT_FULL: u32 = u32::MAX - 4;

const NOT_OWNED: u32 = u32::MAX - 5;

const TOO_LONG: u32 = u32::MAX - 6;

const OUTSIDE: u32 = u32::MAX - 7;

const NO_CALL: u32 = u32::MAX - 8;

const END_OF_INPUT: u32 = u32::MAX;

/// So many bytes from an address on.
#[derive(Clone, Copy)]
struct Span {
    address: u32,
    count: u32,
}

// Whether the halves hold the same in pc and in x10 to x17.
fn agree(pair: &Pair) -> bool
    ensures value { result ≡ agree_on_call pair.now }
    ensures agree { IsTrue result ↔ AgreeOnCall pair.now }
{
    let (a, b) = (&pair.a, &pair.b);
    a.pc == b.pc && (10..18).all(|i| a.x[i] == b.x[i])
}

// A step is taken: it counts once since the checkpoint, and once since the claim.
pub fn count(r: &mut Running)
    requires steps { r.old.steps ≤ r.old.used }
    requires used { r.old.used < 10000 }
    ensures { r.new ≡ counted r.old }
{
    r.steps += 1;
    r.used += 1;
}

// A half gets an answer in x10, and goes on with the next instruction.
fn answer_half(half: &mut Regs, answer: u32)
    ensures { half.new ≡ half_answered half.old answer }
{
    half.x[10] = answer;
    half.pc = half.pc.wrapping_add(4);
}

// The step of a call that is answered.
pub fn answer(r: &mut Running, answer: u32) -> Outcome
    requires steps { r.old.steps ≤ r.old.used }
    requires used { r.old.used < 10000 }
    ensures outcome { result ≡ Outcome.Done }
    ensures running { r.new ≡ answered r.old answer }
{
    answer_half(&mut r.pair.a, answer);
    answer_half(&mut r.pair.b, answer);
    count(r);
    Outcome::Done
}

// The step of a call that is answered with 0, after which the process is to be flushed.
fn answer_and_flush(r: &mut Running, cause: Cause) -> Outcome
    requires steps { r.old.steps ≤ r.old.used }
    requires used { r.old.used < 10000 }
    ensures outcome { result ≡ Outcome.NeedsFlush cause }
    ensures running { r.new ≡ answered r.old 0 }
{
    answer(r, 0);
    Outcome::NeedsFlush(cause)
}

// exit(code)
fn exit(r: &mut Running, code: u32) -> Outcome
    requires steps { r.old.steps ≤ r.old.used }
    requires used { r.old.used < 10000 }
    ensures outcome { result ≡ Outcome.NeedsFlush Cause.Exit }
    ensures running { r.new ≡ ended r.old (End.Exited code) }
{
    r.end = End::Exited(code);
    r.held = 0;
    count(r);
    Outcome::NeedsFlush(Cause::Exit)
}

// Whether a process holds a segment above this one.
fn holds_above(held: u16, segment: u8) -> bool
    requires { segment < 16 }
    ensures { result ≡ nat_lt 0 (held / 2 ^ (segment + 1)) }
{
    u32::from(held) >> (segment + 1) > 0
}

// acquire(segment)
#[tactic(auto, unfolding(crate::specs::Calls::acquire))]
fn acquire(r: &mut Running, desc: &MachineDesc, segment: u32) -> Outcome
    requires description { IsDescription desc.now }
    requires running { IsRunning desc.now r.old }
    ensures outcome { (c : Changes) → result ≡ (acquire desc.now r.old c segment).outcome }
    ensures running { (c : Changes) → r.new ≡ (acquire desc.now r.old c segment).running }
{
    if segment as usize >= desc.segments.len() {
        return answer(r, NO_SEGMENT);
    }
    let at = segment as u8;
    if !has_bit(desc.processes.at(r.pid.0 as usize).grants, at) {
        return answer(r, NOT_GRANTED);
    }
    if has_bit(r.held, at) {
        return answer(r, HELD_OR_NOT);
    }
    if holds_above(r.held, at) {
        return answer(r, OUT_OF_ORDER);
    }
    Outcome::Claim(Seg(at))
}

// release(segment)
#[tactic(auto, unfolding(crate::specs::Calls::release))]
fn release(r: &mut Running, desc: &MachineDesc, segment: u32) -> Outcome
    requires description { IsDescription desc.now }
    requires running { IsRunning desc.now r.old }
    ensures outcome { (c : Changes) → result ≡ (release desc.now r.old c segment).outcome }
    ensures running { (c : Changes) → r.new ≡ (release desc.now r.old c segment).running }
{
    if segment as usize >= desc.segments.len() || !has_bit(r.held, segment as u8) {
        return answer(r, HELD_OR_NOT);
    }
    r.held -= 1 << segment;
    answer_and_flush(r, Cause::Release(Seg(segment as u8)))
}

// The lines that a process owns: bit l stands for line l.
fn lines_of(desc: &MachineDesc, pid: Pid) -> u16
    requires { pid.0 < length desc.now.processes }
    ensures { result ≡ (process_of desc.now pid.0).lines }
{
    desc.processes.at(pid.0 as usize).lines
}

// The line with a number, which may be any, if the process owns it.
#[tactic(auto, using(seq_flat::proofs::Masks::no_bit_above, crate::proofs::CallPlaces::line_below))]
fn owned(desc: &MachineDesc, pid: Pid, line: u32) -> Option<LineNo>
    requires description { IsDescription desc.now }
    requires process { pid.0 < length desc.now.processes }
    ensures owned { is_some result ≡ has_bit (process_of desc.now pid.0).lines line }
    ensures line { IfSome result (λ l. l.0 ≡ line) }
    ensures few { IfSome result (λ l. l.0 < 16) }
    ensures there { IfSome result (λ l. l.0 < line_count desc.now) }
{
    let lines = lines_of(desc, pid);
    if line < 16 && has_bit(lines, line as u8) {
        Some(LineNo(line as u8))
    } else {
        None
    }
}

// The number of a line among the lines of a mask.
#[tactic(auto, using(std::proofs::lemmas::Nat::one_shl, std::proofs::lemmas::Nat::ones_le_self))]
fn index_in(lines: u16, line: LineNo) -> u8
    requires { line.0 < 16 }
    ensures { result ≡ index_of lines line.0 }
{
    (lines % (1 << line.0)).count_ones() as u8
}

// The number of a line among its owner's lines.
#[tactic(auto, using(crate::proofs::CallPlaces::index_few, crate::proofs::CallPlaces::own_lines_few))]
fn index_of(desc: &MachineDesc, pid: Pid, line: LineNo) -> u8
    requires description { IsDescription desc.now }
    requires process { pid.0 < length desc.now.processes }
    requires line { line.0 < 16 }
    requires owned { has_bit (process_of desc.now pid.0).lines line.0 ≡ true }
    ensures index { result ≡ index_of (process_of desc.now pid.0).lines line.0 }
    ensures below { result < count_ones (process_of desc.now pid.0).lines }
    ensures few { result < 4 }
{
    index_in(lines_of(desc, pid), line)
}

// A byte of a line's journal.
#[tactic(auto, using(crate::proofs::CallPlaces::line_owned))]
fn journal_byte(
    memories: &Memories,
    layout: &Layout,
    desc: &MachineDesc,
    line: LineNo,
    at: u32,
) -> u8
    requires description { IsDescription desc.now }
    requires layout { layout.now ≡ shape_of desc.now }
    requires matches { Matches layout.now memories.now }
    requires readable { AreReadable desc.now (copies layout.now memories.now) }
    requires line { line.0 < line_count desc.now }
    requires at { at < desc.now.journal }
    ensures { result ≡ journal_byte desc.now (copies layout.now memories.now) line.0 at }
{
    let block = layout.first_block(memories, layout.line(line), at / BLOCK_BYTES);
    block.bytes[(at % BLOCK_BYTES) as usize]
}

// A word of a line: its journal count, its closed word or its sent count.
#[tactic(auto, using(crate::proofs::CallPlaces::line_owned))]
fn line_word(
    memories: &Memories,
    layout: &Layout,
    desc: &MachineDesc,
    line: LineNo,
    word: u32,
) -> u64
    requires description { IsDescription desc.now }
    requires layout { layout.now ≡ shape_of desc.now }
    requires matches { Matches layout.now memories.now }
    requires readable { AreReadable desc.now (copies layout.now memories.now) }
    requires line { line.0 < line_count desc.now }
    requires word { word < 3 }
    ensures { result ≡ line_word desc.now (copies layout.now memories.now) line.0 word }
{
    let extent = layout.line(line);
    layout.first_word(memories, WordAt { extent, word })
}

// read(line)
#[tactic(auto, unfolding(crate::specs::Calls::read))]
fn read(
    r: &mut Running,
    memories: &Memories,
    layout: &Layout,
    desc: &MachineDesc,
    line: u32,
) -> Outcome
    requires description { IsDescription desc.now }
    requires layout { layout.now ≡ shape_of desc.now }
    requires matches { Matches layout.now memories.now }
    requires readable { AreReadable desc.now (copies layout.now memories.now) }
    requires running { IsRunning desc.now r.old }
    ensures outcome { (c : Changes) → result ≡ (read desc.now (copies layout.now memories.now) r.old c line).outcome }
    ensures running { (c : Changes) → r.new ≡ (read desc.now (copies layout.now memories.now) r.old c line).running }
{
    let Some(line) = owned(desc, r.pid, line) else {
        return answer(r, NOT_OWNED);
    };
    let index = index_of(desc, r.pid, line) as usize;
    let at = r.reads[index];
    let count = line_word(memories, layout, desc, line, JOURNAL_COUNT);
    if u64::from(at) < count {
        r.reads[index] = at + 1;
        return answer(r, journal_byte(memories, layout, desc, line, at) as u32);
    }
    if line_word(memories, layout, desc, line, CLOSED) == 1 {
        return answer(r, END_OF_INPUT);
    }
    Outcome::Waits(Reason::Input(line, count))
}

// The byte at an address that a process has.
#[tactic(auto, unfolding(crate::specs::Views::seen, seq_cache::specs::Overlay::overlay))]
fn byte(
    r: &Running,
    cache: &Cache,
    memories: &Memories,
    layout: &Layout,
    desc: &MachineDesc,
    address: u32,
) -> Option<u8>
    requires description { IsDescription desc.now }
    requires layout { layout.now ≡ shape_of desc.now }
    requires matches { Matches layout.now memories.now }
    requires readable { AreReadable desc.now (copies layout.now memories.now) }
    requires process { r.now.pid.0 < length desc.now.processes }
    ensures { result ≡ seen desc.now r.now.pid.0 r.now.held (read_by desc.now (copies layout.now memories.now) cache.now) address }
{
    let (extent, at) = map(desc, r.pid, r.held, address)?;
    let n = at / BLOCK_BYTES;
    let block = match cache.find(extent, n) {
        Some(block) => block,
        None => layout.first_block(memories, extent, n),
    };
    Some(block.bytes[(at % BLOCK_BYTES) as usize])
}

// So many bytes from an address on, modulo 2^32, at the front of a buffer: none where one of them is outside.
#[tactic(auto, using(seq_flat::proofs::Gathered::gathered_none))]
fn gather(
    r: &Running,
    cache: &Cache,
    memories: &Memories,
    layout: &Layout,
    desc: &MachineDesc,
    span: Span,
) -> Option<[u8; 64]>
    requires description { IsDescription desc.now }
    requires layout { layout.now ≡ shape_of desc.now }
    requires matches { Matches layout.now memories.now }
    requires readable { AreReadable desc.now (copies layout.now memories.now) }
    requires process { r.now.pid.0 < length desc.now.processes }
    requires few { span.count ≤ 64 }
    ensures { bytes_from (seen desc.now r.now.pid.0 r.now.held (read_by desc.now (copies layout.now memories.now) cache.now)) span.address span.count ≡ option_map (λ b. take span.count b) result }
{
    let mut gathered = [0; 64];
    for i in 0..span.count {
        match byte(
            r,
            cache,
            memories,
            layout,
            desc,
            span.address.wrapping_add(i),
        ) {
            Some(byte) => gathered[i as usize] = byte,
            None => return None,
        }
    }
    Some(gathered)
}

// The bytes of a write go to the outbox, where it and the cache have room for them.
#[tactic(auto, using(crate::proofs::CallPlaces::outbox_place))]
fn put_out(
    r: &mut Running,
    cache: &mut Cache,
    memories: &Memories,
    layout: &Layout,
    desc: &MachineDesc,
    line: LineNo,
    bytes: &[u8],
) -> Outcome
    requires description { IsDescription desc.now }
    requires layout { layout.now ≡ shape_of desc.now }
    requires matches { Matches layout.now memories.now }
    requires readable { AreReadable desc.now (copies layout.now memories.now) }
    requires running { IsRunning desc.now r.old }
    requires line { line.0 < 16 }
    requires owned { has_bit (process_of desc.now r.old.pid.0).lines line.0 ≡ true }
    requires there { line.0 < line_count desc.now }
    requires few { length bytes.now ≤ 64 }
    ensures outcome { result ≡ (put_out desc.now (copies layout.now memories.now) r.old cache.old line.0 bytes.now).outcome }
    ensures running { r.new ≡ (put_out desc.now (copies layout.now memories.now) r.old cache.old line.0 bytes.now).running }
    ensures cache { cache.new ≡ (put_out desc.now (copies layout.now memories.now) r.old cache.old line.0 bytes.now).cache }
{
    let index = index_of(desc, r.pid, line);
    let from = r.writes[index as usize];
    let count = bytes.len() as u32;
    if from + count > OUTPUT_LIMIT {
        return answer(r, OUTPUT_FULL);
    }
    let sent = line_word(memories, layout, desc, line, SENT_COUNT);
    if u64::from(from + count).saturating_sub(sent) > OUTBOX_BYTES {
        return Outcome::Waits(Reason::Outbox(line, sent));
    }
    let owner = Extent(r.pid.0 as u32);
    let outbox = Outbox { owner, index, from };
    if !outbox.fits(cache, count) {
        return Outcome::NeedsFlush(Cause::Room);
    }
    outbox.fill(cache, memories, layout, bytes);
    r.writes[index as usize] = from + count;
    answer(r, count)
}

// write(line, address, length)
#[tactic(auto, unfolding(crate::specs::Calls::write))]
fn write(
    r: &mut Running,
    cache: &mut Cache,
    memories: &Memories,
    layout: &Layout,
    desc: &MachineDesc,
    line: u32,
    span: Span,
) -> Outcome
    requires description { IsDescription desc.now }
    requires layout { layout.now ≡ shape_of desc.now }
    requires matches { Matches layout.now memories.now }
    requires readable { AreReadable desc.now (copies layout.now memories.now) }
    requires running { IsRunning desc.now r.old }
    ensures outcome { result ≡ (write desc.now (copies layout.now memories.now) r.old cache.old line span.address span.count).outcome }
    ensures running { r.new ≡ (write desc.now (copies layout.now memories.now) r.old cache.old line span.address span.count).running }
    ensures cache { cache.new ≡ (write desc.now (copies layout.now memories.now) r.old cache.old line span.address span.count).cache }
{
    let Some(line) = owned(desc, r.pid, line) else {
        return answer(r, NOT_OWNED);
    };
    if span.count > WRITE_LIMIT {
        return answer(r, TOO_LONG);
    }
    let Some(bytes) = gather(r, cache, memories, layout, desc, span) else {
        return answer(r, OUTSIDE);
    };
    put_out(
        r,
        cache,
        memories,
        layout,
        desc,
        line,
        &bytes[..span.count as usize],
    )
}

// The call with the number in x17.
#[tactic(auto, using(crate::proofs::CallCases::acquire_cache, crate::proofs::CallCases::release_cache, crate::proofs::CallCases::read_cache), unfolding(crate::specs::Calls::numbered))]
fn numbered(
    r: &mut Running,
    cache: &mut Cache,
    memories: &Memories,
    layout: &Layout,
    desc: &MachineDesc,
) -> Outcome
    requires description { IsDescription desc.now }
    requires layout { layout.now ≡ shape_of desc.now }
    requires matches { Matches layout.now memories.now }
    requires readable { AreReadable desc.now (copies layout.now memories.now) }
    requires running { IsRunning desc.now r.old }
    ensures outcome { result ≡ (numbered desc.now (copies layout.now memories.now) r.old cache.old (register r.old.pair.a)).outcome }
    ensures running { r.new ≡ (numbered desc.now (copies layout.now memories.now) r.old cache.old (register r.old.pair.a)).running }
    ensures cache { cache.new ≡ (numbered desc.now (copies layout.now memories.now) r.old cache.old (register r.old.pair.a)).cache }
{
    let x = &r.pair.a.x;
    let first = x[10];
    let span = Span {
        address: x[11],
        count: x[12],
    };
    match x[17] {
        0 => exit(r, first),
        1 => acquire(r, desc, first),
        2 => release(r, desc, first),
        3 => read(r, memories, layout, desc, first),
        4 => write(r, cache, memories, layout, desc, first, span),
        5 => answer(r, u32::from(r.pid.0)),
        6 => answer_and_flush(r, Cause::Commit),
        7 => answer_and_flush(r, Cause::Yield),
        _ => answer(r, NO_CALL),
    }
}

/// A kernel call of a running process. Where the halves differ in what they ask for, nothing changes; nor where the process
/// has to wait, or to be flushed for want of room in the cache.
#[tactic(auto, unfolding(crate::specs::Calls::call_of))]
#[inline(never)]
pub fn call(
    r: &mut Running,
    cache: &mut Cache,
    memories: &Memories,
    layout: &Layout,
    desc: &MachineDesc,
) -> Outcome
    requires description { IsDescription desc.now }
    requires layout { layout.now ≡ shape_of desc.now }
    requires matches { Matches layout.now memories.now }
    requires readable { AreReadable desc.now (copies layout.now memories.now) }
    requires running { IsRunning desc.now r.old }
    ensures outcome { result ≡ (call_of desc.now (copies layout.now memories.now) r.old cache.old).outcome }
    ensures running { r.new ≡ (call_of desc.now (copies layout.now memories.now) r.old cache.old).running }
    ensures cache { cache.new ≡ (call_of desc.now (copies layout.now memories.now) r.old cache.old).cache }
    ensures diverged { (result ≡ Outcome.Diverged) ↔ ¬ (AgreeOnCall r.old.pair) }
    ensures claims { (segment : Seg) → (result ≡ Outcome.Claim segment) ↔ Acquires desc.now r.old segment.0 }
    ensures waits { (why : Reason) → (result ≡ Outcome.Waits why) ↔ AwaitsFor desc.now (copies layout.now memories.now) r.old cache.old why }
    ensures flushes { (why : Cause) → (result ≡ Outcome.NeedsFlush why) ↔ FlushesFor desc.now (copies layout.now memories.now) r.old cache.old why }

    // A call that takes no step changes nothing.
    ensures running_stays { (takes_step result → ⊥) → r.new ≡ r.old }
    ensures cache_stays { (takes_step result → ⊥) → cache.new ≡ cache.old }
{
    if !agree(&r.pair) {
        return Outcome::Diverged;
    }
    numbered(r, cache, memories, layout, desc)
}
