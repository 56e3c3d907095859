// A mask of sixteen bits, as in the lines that a process owns.
ghost use Rattle.std.specs.Prelude.{◌≡◌, ◌<◌};
ghost use Rattle.seq_words.specs.Masks.{has_bit};

/// Whether a mask has the bit of this number.
pub fn has_bit(mask: u16, at: u8) -> bool
    requires { at < 16 }
    ensures { result ≡ has_bit mask at }
{
    (mask >> at) & 1 == 1
}
