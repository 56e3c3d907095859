// A block, and the numbers of four bytes in it.
ghost use Rattle.std.specs.Prelude.{◌≡◌, ℕ, ◌+◌, ◌-◌, ◌*◌, ◌/◌, ◌%◌, ◌<◌, if◌then◌else◌, ◌&&◌, nat_le, nat_lt, length, slice_index, slice_set};
ghost use Rattle.std.specs.Int.{byte_at};
ghost use Rattle.seq_words.specs.Blocks.{zero_block, word_at, with_word_at};

/// The unit of memory: 32 bytes.
#[derive(Clone, Copy, Debug, PartialEq, Eq)]
pub struct Block {
    pub bytes: [u8; 32],
}

impl Block {
    /// A block of zeros.
    #[tactic(auto, unfolding(crate::specs::Blocks::zero_block))]
    pub fn zero() -> Block
        ensures { result ≡ zero_block }
    {
        Block { bytes: [0; 32] }
    }
}

/// The number of four bytes, the lowest first.
fn word_of_bytes(a: u8, b: u8, c: u8, d: u8) -> u32
    ensures number { result ≡ a + 256 * b + 65536 * c + 16777216 * d }
    ensures first { result % 256 ≡ a }
    ensures second { result / 256 % 256 ≡ b }
    ensures third { result / 65536 % 256 ≡ c }
    ensures fourth { result / 16777216 ≡ d }
{
    a as u32 | (b as u32) << 8 | (c as u32) << 16 | (d as u32) << 24
}

/// The number in the four bytes from `at`, the lowest first. `at` is a multiple of four.
#[tactic(auto, using(crate::proofs::Words::same_word))]
pub fn block_word(b: &Block, at: usize) -> u32
    requires inside { at < 32 }
    requires aligned { at % 4 ≡ 0 }
    ensures number { result ≡ word_at b.now.bytes at }
    ensures written_back { with_word_at b.now.bytes at result ≡ b.now.bytes }
    ensures full { length b.now.bytes ≡ 32 }
{
    let bytes = &b.bytes;
    word_of_bytes(bytes[at], bytes[at + 1], bytes[at + 2], bytes[at + 3])
}

/// Puts a number into the four bytes from `at`, the lowest first. `at` is a multiple of four.
pub fn set_block_word(b: &mut Block, at: usize, value: u32)
    requires inside { at < 32 }
    requires aligned { at % 4 ≡ 0 }
    ensures after { b.new ≡ record b.old { bytes = with_word_at b.old.bytes at value } }
    ensures number { word_at b.new.bytes at ≡ value }
    ensures bytes { (k : ℕ) → slice_index b.new.bytes k ≡ (if nat_le at k && nat_lt k (at + 4) then byte_at (k - at) value else slice_index b.old.bytes k) }
{
    let bytes = &mut b.bytes;
    bytes[at] = (value & 0xff) as u8;
    bytes[at + 1] = ((value >> 8) & 0xff) as u8;
    bytes[at + 2] = ((value >> 16) & 0xff) as u8;
    bytes[at + 3] = (value >> 24) as u8;
}

/// Sets one byte.
pub fn set_block_byte(b: &mut Block, at: usize, value: u8)
    requires { at < 32 }
    ensures { b.new ≡ record b.old { bytes = slice_set b.old.bytes at value } }
{
    b.bytes[at] = value;
}

#[cfg(test)]
mod tests {
    use super::*;

    #[test]
    fn words_stand_lowest_byte_first(rt: HostRuntime) {
        let mut block = Block::zero();
        set_block_word(&mut block, 4, 0x8765_4321);
        for (at, byte) in [(3, 0), (4, 0x21), (5, 0x43), (6, 0x65), (7, 0x87), (8, 0)] {
            assert_eq!(rt; block.bytes[at], byte, "at {at}");
        }
        set_block_byte(&mut block, 7, 0xff);
        assert_eq!(rt; block_word(&block, 4), 0xff65_4321);
        assert_eq!(rt; block_word(&block, 0), 0);
    }
}
