//! A memory that is a list of bytes, from address 0 on.
ghost use Rattle.std.specs.Prelude.{◌≡◌, ℕ, ◌+◌, ◌*◌, ◌<◌, ◌≤◌, ◌^◌, length, slice_get, IfSome};
ghost use Rattle.seq_isa.specs.Meaning.{number_at};
ghost use Rattle.seq_rv32.specs.Widths.{IsWidth};

use crate::port::{Admit, Port};
use seq_words::Items;

/// A memory of bytes at the addresses from 0 on. It takes every store inside.
#[derive(Drop)]
pub struct ByteMemory {
    pub bytes: Items<u8>,
}

impl ByteMemory {
    /// A memory of these bytes.
    pub fn new(bytes: Items<u8>) -> ByteMemory
        ensures { result.bytes ≡ bytes }
    {
        ByteMemory { bytes }
    }

    /// The number of one, two or four bytes.
    #[tactic(auto, unfolding(seq_isa::specs::Meaning::number_at))]
    fn number(&self, at: u32, width: u8) -> Option<u32>
        requires { IsWidth width }
        ensures value { result ≡ number_at (slice_get self.now.bytes) at width }
        ensures bound { IfSome result (λ n. n < 2 ^ (8 * width)) }
    {
        let at = at as usize;
        if at + width as usize > self.bytes.len() {
            return None;
        }
        let first = self.bytes.get(at) as u32;
        if width == 1 {
            return Some(first);
        }
        let second = self.bytes.get(at + 1) as u32;
        if width == 2 {
            return Some(first + 256 * second);
        }
        let third = self.bytes.get(at + 2) as u32;
        let fourth = self.bytes.get(at + 3) as u32;
        Some(first + 256 * (second + 256 * (third + 256 * fourth)))
    }
}

impl Port for ByteMemory {
    ghost use Rattle.std.specs.Prelude.{slice_get};
    ghost use Rattle.seq_rv32.specs.ByteMemory.{admission_of, bytes_stored};

    ghost bytes = { λ m. slice_get m.bytes };

    ghost admission = { λ m. admission_of m.bytes };

    ghost after_store = { λ m at width value. record { bytes = bytes_stored m.bytes at width value } };

    fn fetch(&self, at: u32) -> Option<u32> {
        self.number(at, 4)
    }

    fn load(&self, at: u32, width: u8) -> Option<u32> {
        self.number(at, width)
    }

    #[tactic(auto, using(crate::proofs::Numbers::number_some, crate::proofs::Numbers::number_none))]
    fn admit(&self, at: u32, width: u8) -> Admit {
        if at as usize + width as usize <= self.bytes.len() {
            Admit::Fits
        } else {
            Admit::Outside
        }
    }

    fn store(&mut self, at: u32, width: u8, value: u32) {
        let bytes = value.to_le_bytes();
        for i in 0..width as usize {
            self.bytes.set(at as usize + i, bytes[i]);
        }
    }
}
