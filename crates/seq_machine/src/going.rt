// Whether processes can take a step, as their contexts, their segments and the counts of their lines say.
ghost use Rattle.std.specs.Prelude.{◌≡◌, ℕ, ◌+◌, ◌/◌, ◌%◌, ◌^◌, ◌<◌, ◌↔◌, IsTrue, IfSome, is_some, count_ones, not, true, ◌&&◌, ◌||◌, Some, length, map, nat_lt, slice_index};
ghost use Rattle.std.specs.List.{range_with_len};
ghost use Rattle.seq_words.specs.Masks.{has_bit};
ghost use Rattle.seq_words.specs.Description.{IsDescription, line_count, process_of};
ghost use Rattle.seq_isa.specs.Decoded.{decode_of};
ghost use Rattle.seq_isa.specs.Meaning.{number_at, outcome_at};
ghost use Rattle.seq_flat.specs.Step.{IsQuiet};
ghost use Rattle.seq_layout.specs.Shapes.{shape_of, index_of};
ghost use Rattle.seq_layout.specs.Copies.{first_block};
ghost use Rattle.seq_kernel.specs.Views.{seen};
ghost use Rattle.seq_turns.specs.Reading.{context_of};
ghost use Rattle.seq_lines.specs.Committed.{context_at, state_in, input_counts};
ghost use Rattle.seq_lines.specs.Going.{is_call, is_ecall, calls, awaits_lock, awaits_input, awaits, goes_on, AreHeldBelow, AreOwned};
ghost use Rattle.seq_machine.specs.Plain.{Outside, machine_of, IsHardware};
ghost use Rattle.seq_machine.specs.Settling.{MayBeSettled, held_copies, first_blocks, ports_of};

use crate::Hardware;
use seq_isa::{Instr, decode};
use seq_layout::{Context, blocks_to_context};
use seq_segments::map;
use seq_words::{Block, LineNo, MachineDesc, Pid, Regs, block_word, has_bit};

/// How many bytes a block has.
const BLOCK_BYTES: u32 = 32;

/// The registers of a kernel call's number and of its argument.
const NUMBER: usize = 17;

const ARGUMENT: usize = 10;

/// The kernel calls that may wait.
const ACQUIRE: u32 = 1;

const READ: u32 = 3;

// The word at a place of a block.
#[tactic(auto, unfolding(seq_isa::specs::Meaning::number_at))]
fn word_in(block: &Block, at: usize) -> u32
    requires aligned { at % 4 ≡ 0 }
    requires inside { at < 32 }
    ensures { number_at (λ k. Some (slice_index block.now.bytes k)) at 4 ≡ Some result }
{
    block_word(block, at)
}

// Whether a mask has a bit above this one.
fn has_above(mask: u16, at: u8) -> bool
    requires { at < 16 }
    ensures { result ≡ nat_lt 0 (mask / 2 ^ (at + 1)) }
{
    u32::from(mask) >> (at + 1) > 0
}

// Whether a word is an ecall.
fn is_ecall(word: u32) -> bool
    ensures { result ≡ is_ecall (decode_of word) }
{
    matches!(decode(word), Some(Instr::Ecall))
}

// The lines that a process owns: bit l stands for line l.
fn lines_of(desc: &MachineDesc, pid: Pid) -> u16
    requires { pid.0 < length desc.now.processes }
    ensures { result ≡ (process_of desc.now pid.0).lines }
{
    desc.processes.at(pid.0 as usize).lines
}

// The line with a number, which may be any, if the process owns it.
#[tactic(auto, using(seq_flat::proofs::Masks::no_bit_above, seq_kernel::proofs::CallPlaces::line_below))]
fn own_line(desc: &MachineDesc, pid: Pid, line: u32) -> Option<LineNo>
    requires description { IsDescription desc.now }
    requires process { pid.0 < length desc.now.processes }
    ensures owned { is_some result ≡ has_bit (process_of desc.now pid.0).lines line }
    ensures line { IfSome result (λ l. l.0 ≡ line) }
    ensures few { IfSome result (λ l. l.0 < 16) }
    ensures there { IfSome result (λ l. l.0 < line_count desc.now) }
{
    let lines = lines_of(desc, pid);
    if line < 16 && has_bit(lines, line as u8) {
        Some(LineNo(line as u8))
    } else {
        None
    }
}

// The number of a line among the lines of a mask.
#[tactic(auto, using(std::proofs::lemmas::Nat::one_shl, std::proofs::lemmas::Nat::ones_le_self))]
fn index_in(lines: u16, line: LineNo) -> u8
    requires { line.0 < 16 }
    ensures { result ≡ index_of lines line.0 }
{
    (lines % (1 << line.0)).count_ones() as u8
}

// The number of a line among its owner's lines.
#[tactic(auto, using(seq_kernel::proofs::CallPlaces::index_few, seq_kernel::proofs::CallPlaces::own_lines_few))]
fn index_of(desc: &MachineDesc, pid: Pid, line: LineNo) -> u8
    requires description { IsDescription desc.now }
    requires process { pid.0 < length desc.now.processes }
    requires line { line.0 < 16 }
    requires owned { has_bit (process_of desc.now pid.0).lines line.0 ≡ true }
    ensures index { result ≡ index_of (process_of desc.now pid.0).lines line.0 }
    ensures below { result < count_ones (process_of desc.now pid.0).lines }
    ensures few { result < 4 }
{
    index_in(lines_of(desc, pid), line)
}

// The segments of a process that no lower process holds.
#[tactic(auto, using(crate::proofs::Masks::without_bit))]
fn without(held: u16, below: u16) -> u16
    ensures { (t : ℕ) → has_bit result t ≡ (has_bit held t && not (has_bit below t)) }
{
    held & !below
}

// The segments of either mask.
#[tactic(auto, using(crate::proofs::Masks::either_bit))]
fn together(one: u16, two: u16) -> u16
    ensures { (t : ℕ) → has_bit result t ≡ (has_bit one t || has_bit two t) }
{
    one | two
}

impl Hardware {
    // A block of a process's context, at its first copy.
    fn context_block(&self, pid: Pid, n: u32) -> Block
        requires hardware { IsHardware self.now }
        requires readable { MayBeSettled self.now.desc (held_copies self.now) }
        requires process { pid.0 < length self.now.desc.processes }
        requires block { n < 8 }
        ensures { result ≡ first_blocks self.now pid.0 n }
    {
        let extent = self.layout.process(pid);
        *self.layout.first_block(&self.memories, extent, n)
    }

    // The eight blocks of a process's context.
    fn context_blocks(&self, pid: Pid) -> [Block; 8]
        requires hardware { IsHardware self.now }
        requires readable { MayBeSettled self.now.desc (held_copies self.now) }
        requires process { pid.0 < length self.now.desc.processes }
        ensures { result ≡ map (first_blocks self.now pid.0) (range_with_len 0 8) }
    {
        [
            self.context_block(pid, 0),
            self.context_block(pid, 1),
            self.context_block(pid, 2),
            self.context_block(pid, 3),
            self.context_block(pid, 4),
            self.context_block(pid, 5),
            self.context_block(pid, 6),
            self.context_block(pid, 7),
        ]
    }

    /// The context of a process, at its first copy.
    pub(crate) fn context(&self, pid: Pid) -> Context
        requires hardware { IsHardware self.now }
        requires readable { MayBeSettled self.now.desc (held_copies self.now) }
        requires process { pid.0 < length self.now.desc.processes }
        ensures value { result ≡ context_at (first_blocks self.now) pid.0 }
        ensures same { result ≡ context_of self.now.desc (held_copies self.now) pid.0 }
        ensures aligned { result.regs.pc % 4 ≡ 0 }
    {
        blocks_to_context(&self.context_blocks(pid)).unwrap()
    }

    // The word at an address of a process that owns these segments.
    #[tactic(auto, using(seq_kernel::proofs::ViewSeen::number_outside))]
    fn word(&self, pid: Pid, owned: u16, at: u32) -> Option<u32>
        requires hardware { IsHardware self.now }
        requires readable { MayBeSettled self.now.desc (held_copies self.now) }
        requires process { pid.0 < length self.now.desc.processes }
        requires aligned { at % 4 ≡ 0 }
        ensures { result ≡ number_at (seen self.now.desc pid.0 owned (first_blocks self.now)) at 4 }
    {
        let (extent, byte) = map(&self.desc, pid, owned, at)?;
        let block = self
            .layout
            .first_block(&self.memories, extent, byte / BLOCK_BYTES);
        Some(word_in(block, (byte % BLOCK_BYTES) as usize))
    }

    // Whether the next instruction of a process with these registers calls the kernel.
    fn calls(&self, pid: Pid, owned: u16, regs: &Regs) -> bool
        requires hardware { IsHardware self.now }
        requires readable { MayBeSettled self.now.desc (held_copies self.now) }
        requires process { pid.0 < length self.now.desc.processes }
        requires aligned { regs.now.pc % 4 ≡ 0 }
        ensures { result ≡ is_call (outcome_at regs.now (seen self.now.desc pid.0 owned (first_blocks self.now))) }
    {
        match self.word(pid, owned, regs.pc) {
            Some(word) => is_ecall(word),
            None => false,
        }
    }

    // Whether a process's acquire of a segment waits.
    #[tactic(auto, unfolding(seq_lines::specs::Going::awaits_lock))]
    fn awaits_lock(&self, pid: Pid, owned: u16, held: u16, segment: u32) -> bool
        requires hardware { IsHardware self.now }
        requires process { pid.0 < length self.now.desc.processes }
        ensures { result ≡ awaits_lock self.now.desc pid.0 owned held segment }
    {
        if segment as usize >= self.desc.segments.len() {
            return false;
        }
        let at = segment as u8;
        has_bit(self.desc.processes.at(pid.0 as usize).grants, at)
            && !has_bit(owned, at)
            && !has_above(owned, at)
            && has_bit(held, at)
    }

    // Whether a process's read of a line waits.
    #[tactic(auto, unfolding(seq_lines::specs::Going::awaits_input))]
    fn awaits_input(&self, pid: Pid, context: &Context, line: u32) -> bool
        requires hardware { IsHardware self.now }
        requires process { pid.0 < length self.now.desc.processes }
        ensures { result ≡ awaits_input self.now.desc (ports_of self.now) pid.0 context.now line }
    {
        let Some(line) = own_line(&self.desc, pid, line) else {
            return false;
        };
        let port = self.ports.at(line.0 as usize);
        let at = context.reads[index_of(&self.desc, pid, line) as usize];
        at >= port.arrived && !port.closed
    }

    // Whether the kernel call of a process waits.
    #[tactic(auto, unfolding(seq_lines::specs::Going::awaits))]
    fn awaits(&self, pid: Pid, context: &Context, owned: u16, held: u16) -> bool
        requires hardware { IsHardware self.now }
        requires process { pid.0 < length self.now.desc.processes }
        ensures { result ≡ awaits self.now.desc (ports_of self.now) pid.0 context.now owned held (slice_index context.now.regs.x 17) }
    {
        let argument = context.regs.x[ARGUMENT];
        match context.regs.x[NUMBER] {
            ACQUIRE => self.awaits_lock(pid, owned, held, argument),
            READ => self.awaits_input(pid, context, argument),
            _ => false,
        }
    }

    // Whether a process that owns these segments can take a step, where these are held at all.
    #[tactic(auto, unfolding(seq_lines::specs::Going::goes_on))]
    fn goes_on(&self, pid: Pid, context: &Context, owned: u16, held: u16) -> bool
        requires hardware { IsHardware self.now }
        requires readable { MayBeSettled self.now.desc (held_copies self.now) }
        requires process { pid.0 < length self.now.desc.processes }
        requires aligned { context.now.regs.pc % 4 ≡ 0 }
        ensures { result ≡ goes_on self.now.desc (first_blocks self.now) (ports_of self.now) pid.0 context.now owned held }
    {
        context.end == 0
            && !(self.calls(pid, owned, &context.regs) && self.awaits(pid, context, owned, held))
    }

    // The segments that processes hold.
    fn held(&self) -> u16
        requires hardware { IsHardware self.now }
        requires readable { MayBeSettled self.now.desc (held_copies self.now) }
        ensures { AreHeldBelow (first_blocks self.now) (length self.now.desc.processes) result }
    {
        let mut held = 0;
        for q in 0..self.layout.processes() {
            held = together(held, self.context(Pid(q)).held);
        }
        held
    }

    /// Whether no process can take a step from the state that the first copies hold, with what has arrived.
    pub(crate) fn is_quiet(&self) -> bool
        requires hardware { IsHardware self.now }
        requires readable { MayBeSettled self.now.desc (held_copies self.now) }
        ensures { (o : Outside) → IsTrue result ↔ IsQuiet self.now.desc (input_counts self.now.desc (machine_of self.now o)) (state_in self.now.desc (first_blocks self.now)) }
    {
        let held = self.held();
        let mut below = 0;
        for q in 0..self.layout.processes() {
            let context = self.context(Pid(q));
            if self.goes_on(Pid(q), &context, without(context.held, below), held) {
                return false;
            }
            below = together(below, context.held);
        }
        true
    }
}
