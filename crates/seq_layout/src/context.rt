//! The context of a process, and the eight blocks that hold it: 256 bytes, each number with its lowest byte first.
//!
//! | Bytes | What they hold |
//! |---|---|
//! | 0 to 127 | the registers x0 to x31, four bytes each |
//! | 128 to 131 | the program counter pc |
//! | 132 to 135 | the end: 0 live, 1 exited, 2 trapped |
//! | 136 to 139 | the code of the exit or the cause of the trap |
//! | 140 to 143 | the pc of the trap |
//! | 144 to 147 | the held segments: bit s for segment s |
//! | 148 to 151 | zero |
//! | 152 to 159 | the number of commits |
//! | 160 to 191 | of each of four lines the read position, then the number of bytes written, four bytes each |
//! | 192 to 255 | zero |
ghost use Rattle.std.specs.Prelude.{◌≡◌, ℕ, ◌+◌, ◌*◌, ◌/◌, ◌%◌, ◌^◌, ◌<◌, ◌≤◌, ◌↔◌, IsTrue, IsSome, IfSome, Some, length, slice_index, slice_index_or, EachIndex};
ghost use Rattle.seq_words.specs.Blocks.{zero_block};
ghost use Rattle.seq_layout.specs.Contexts.{byte_of, number_at, block_from, blocks_of, numbers_of, context_blocks, HoldContext, IsContext, AreContextNumbers, IsContextBlocks, HasLengths};

use seq_words::{Block, Regs, block_word, set_block_word};

/// What is kept of a process between two checkpoints, beside its bytes.
#[derive(Clone, Copy, Debug)]
pub struct Context {
    pub regs: Regs,
    /// 0 while it lives, 1 after it exited, 2 after a trap.
    pub end: u8,
    /// The code of its exit or the cause of its trap, else 0.
    pub value: u32,
    /// The pc of its trap, else 0.
    pub end_pc: u32,
    /// The segments that it holds: bit s stands for segment s.
    pub held: u16,
    /// How many checkpoints it has committed.
    pub commits: u64,
    /// Of each of its lines, in ascending order: how many bytes it has read. Unused ones are 0.
    pub reads: [u32; 4],
    /// Of each of its lines, in ascending order: how many bytes it has written. Unused ones are 0.
    pub writes: [u32; 4],
}

/// A context is inside the format of its blocks: x0 is 0, pc is a multiple of four, and a value or an end pc stands only
/// where the end has one.
pub fn is_context(c: &Context) -> bool
    ensures { IsTrue result ↔ IsContext c.now }
{
    c.regs.x[0] == 0
        && c.regs.pc % 4 == 0
        && c.end <= 2
        && (c.end != 0 || c.value == 0)
        && (c.end == 2 || c.end_pc == 0)
}

fn low_half(number: u64) -> u32
    ensures { result ≡ number % 2 ^ 32 }
{
    (number & 0xffff_ffff) as u32
}

fn high_half(number: u64) -> u32
    ensures { result ≡ number / 2 ^ 32 }
{
    (number >> 32) as u32
}

fn from_halves(low: u32, high: u32) -> u64
    ensures low { result % 2 ^ 32 ≡ low }
    ensures high { result / 2 ^ 32 ≡ high }
{
    low as u64 | (high as u64) << 32
}

// The block of eight numbers from a place on.
#[tactic(auto, using(crate::proofs::ContextBytes::block_is))]
fn block_from(numbers: &[u32; 64], from: usize) -> Block
    requires { from + 8 ≤ 64 }
    ensures { result ≡ block_from numbers.now from }
{
    let mut block = Block::zero();
    for i in 0..8 {
        set_block_word(&mut block, 4 * i, numbers[from + i]);
    }
    block
}

// Number i of eight blocks.
fn number_at(b: &[Block; 8], i: usize) -> u32
    requires { i < 64 }
    ensures number { result ≡ number_at b.now i }
    ensures bytes { (j : ℕ) → j < 4 → slice_index (slice_index_or b.now (i / 8) zero_block).bytes (4 * (i % 8) + j) ≡ byte_of result j }
    ensures full { length (slice_index_or b.now (i / 8) zero_block).bytes ≡ 32 }
{
    block_word(&b[i / 8], 4 * (i % 8))
}

#[tactic(auto, using(crate::proofs::ContextBytes::blocks_are))]
fn blocks_of(numbers: &[u32; 64]) -> [Block; 8]
    ensures { result ≡ blocks_of numbers.now }
{
    let mut blocks = [Block::zero(); 8];
    for (k, block) in blocks.iter_mut().enumerate() {
        *block = block_from(numbers, 8 * k);
    }
    blocks
}

#[tactic(auto, using(crate::proofs::ContextBytes::blocks_back))]
fn numbers_in(b: &[Block; 8]) -> [u32; 64]
    ensures numbers { (i : ℕ) → i < 64 → slice_index result i ≡ number_at b.now i }
    ensures back { blocks_of result ≡ b.now }
{
    let mut numbers = [0; 64];
    for (i, number) in numbers.iter_mut().enumerate() {
        *number = number_at(b, i);
    }
    numbers
}

// The numbers of a context: number i stands in the four bytes from 4 * i on.
fn numbers_of(c: &Context) -> [u32; 64]
    ensures numbers { result ≡ numbers_of c.now }
    ensures registers { length c.now.regs.x ≡ 32 }
    ensures held { c.now.held < 2 ^ 16 }
{
    let mut numbers = [0; 64];
    numbers[..32].copy_from_slice(&c.regs.x);
    let after = [
        c.regs.pc,
        c.end as u32,
        c.value,
        c.end_pc,
        c.held as u32,
        0,
        low_half(c.commits),
        high_half(c.commits),
        c.reads[0],
        c.writes[0],
        c.reads[1],
        c.writes[1],
        c.reads[2],
        c.writes[2],
        c.reads[3],
        c.writes[3],
    ];
    numbers[32..48].copy_from_slice(&after);
    numbers
}

fn are_zero(numbers: &[u32]) -> bool
    ensures { IsTrue result ↔ EachIndex numbers.now (λ i. slice_index numbers.now i ≡ 0) }
{
    numbers.iter().all(|number| *number == 0)
}

// The numbers that no context uses are zero.
fn unused_are_zero(numbers: &[u32; 64]) -> bool
    ensures { IsTrue result ↔ (slice_index numbers.now 37 ≡ 0) × ((i : ℕ) → 48 ≤ i → i < 64 → slice_index numbers.now i ≡ 0) }
{
    numbers[37] == 0 && are_zero(&numbers[48..])
}

// The context of numbers: none where one of them is outside the format.
fn context_of(numbers: &[u32; 64]) -> Option<Context>
    ensures inside { IfSome result IsContext }
    ensures numbers { IfSome result (λ c. numbers_of c ≡ numbers.now) }
    ensures exactly { IsSome result ↔ AreContextNumbers (λ i. slice_index numbers.now i) }
{
    if !unused_are_zero(numbers) {
        return None;
    }
    let mut x = [0; 32];
    x.copy_from_slice(&numbers[..32]);
    let c = Context {
        regs: Regs { x, pc: numbers[32] },
        end: u8::try_from(numbers[33]).ok()?,
        value: numbers[34],
        end_pc: numbers[35],
        held: u16::try_from(numbers[36]).ok()?,
        commits: from_halves(numbers[38], numbers[39]),
        reads: [numbers[40], numbers[42], numbers[44], numbers[46]],
        writes: [numbers[41], numbers[43], numbers[45], numbers[47]],
    };
    if is_context(&c) { Some(c) } else { None }
}

/// The eight blocks of a context that is inside the format.
#[tactic(auto, using(crate::proofs::ContextBytes::numbers_held, crate::proofs::Contexts::inside), unfolding(crate::specs::Contexts::context_blocks))]
pub fn context_to_blocks(c: &Context) -> [Block; 8]
    requires { IsContext c.now }
    ensures blocks { result ≡ context_blocks c.now }
    ensures holds { HoldContext result c.now }
    ensures inside { IsContextBlocks result }
    ensures lengths { HasLengths c.now }
    ensures whole { (k : ℕ) → k < 8 → length (slice_index_or result k zero_block).bytes ≡ 32 }
{
    blocks_of(&numbers_of(c))
}

/// The context that eight blocks hold: none exactly where they are outside the format.
#[tactic(auto, using(crate::proofs::ContextBytes::numbers_held), unfolding(crate::specs::Contexts::context_blocks))]
pub fn blocks_to_context(b: &[Block; 8]) -> Option<Context>
    ensures found { IfSome result IsContext }
    ensures blocks { IfSome result (λ c. context_blocks c ≡ b.now) }
    ensures holds { IfSome result (HoldContext b.now) }
    ensures exactly { IsSome result ↔ IsContextBlocks b.now }
    ensures lengths { IfSome result HasLengths }
{
    context_of(&numbers_in(b))
}

// The length of registers, which a clause learns only where they are passed.
fn all_registers(x: &[u32; 32])
    ensures { length x.now ≡ 32 }
{}

/// Two contexts that have the same blocks are one.
#[tactic(auto, using(crate::proofs::Contexts::one))]
pub fn one_context(a: &Context, b: &Context)
    ensures { context_blocks a.now ≡ context_blocks b.now → a.now ≡ b.now }
{
    all_registers(&a.regs.x);
    all_registers(&b.regs.x);
}

/// Writes a context and reads its blocks, which gives the context again.
pub fn context_read_back(c: &Context) -> Option<Context>
    requires { IsContext c.now }
    ensures { result ≡ Some c.now }
{
    let found = blocks_to_context(&context_to_blocks(c))?;
    one_context(&found, c);
    Some(found)
}
