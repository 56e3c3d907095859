//! A memory as a core sees it.
ghost use Rattle.std.specs.Prelude.{◌≡◌, ℕ, ◌*◌, ◌^◌, ◌<◌, ◌%◌, ◌⊎◌, Bool, Option, is_none, IfSome};
ghost use Rattle.seq_isa.specs.Meaning.{number_at, stored};
ghost use Rattle.seq_rv32.specs.Widths.{IsWidth, is_outside};

/// Whether a store may be made.
#[derive(Clone, Copy, PartialEq, Eq, Debug)]
pub enum Admit {
    /// It may.
    Fits,
    /// One of its bytes has no place in the memory.
    Outside,
    /// Its bytes have places, but the port has no room for the change.
    Full,
}

/// A memory, as a core sees it: the bytes at the addresses that it has. A width is 1, 2 or 4 bytes, and an address is a
/// multiple of the width.
pub trait Port {
    ghost use Rattle.std.specs.Prelude.{ℕ, Option, Bool};
    ghost use Rattle.seq_rv32.specs.declared.port.Admit.{Admit};

    // the byte at each address that the memory has
    ghost bytes: { Self → ℕ → Option ℕ };

    // the answer to a store at an address with a width
    ghost admission: { Self → ℕ → ℕ → Admit };

    // the port after a store at an address with a width and a value
    ghost after_store: { Self → ℕ → ℕ → ℕ → Self };

    /// The word at an address, or None where one of its bytes is outside.
    fn fetch(&self, at: u32) -> Option<u32>
        requires { at % 4 ≡ 0 }
        ensures { result ≡ number_at (bytes self.now) at 4 };

    /// The number of `width` bytes at an address, or None where one of them is outside.
    fn load(&self, at: u32, width: u8) -> Option<u32>
        requires width { IsWidth width }
        requires aligned { at % width ≡ 0 }
        ensures value { result ≡ number_at (bytes self.now) at width }
        ensures bound { IfSome result (λ n. n < 2 ^ (8 * width)) };

    /// Whether a store may be made at an address.
    fn admit(&self, at: u32, width: u8) -> Admit
        requires width { IsWidth width }
        requires aligned { at % width ≡ 0 }
        ensures value { result ≡ admission self.now at width }
        ensures outside { is_none (number_at (bytes self.now) at width) ≡ is_outside result };

    /// Puts the `width` low bytes of `value` at an address. Every other byte, and the addresses that the memory has, stay.
    fn store(&mut self, at: u32, width: u8, value: u32)
        requires width { IsWidth width }
        requires aligned { at % width ≡ 0 }
        requires fits { admission self.old at width ≡ Admit.Fits }
        ensures state { self.new ≡ after_store self.old at width value }
        ensures bytes { bytes self.new ≡ stored (bytes self.old) at width value };
}
