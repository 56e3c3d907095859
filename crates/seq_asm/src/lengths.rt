// How many bytes lines make.
ghost use Rattle.std.specs.Prelude.{◌≡◌};
ghost use Rattle.seq_asm.specs.Lines.{length_at};

use seq_source::{Item, Said};

/// The most bytes of an image.
pub const MOST_BYTES: u64 = 65_536;

#[tactic(auto, unfolding(crate::specs::Lines::length_at))]
fn item_length(at: u64, item: Item) -> u64
    ensures { result ≡ length_at at (Said.Says item) }
{
    match item {
        Item::Instruction(_) => 4,
        Item::Branch { .. } => 4,
        Item::Jump { .. } => 4,
        Item::Word(_) => 4,
        Item::Byte(_) => 1,
        Item::Space(count) => count,
        Item::Align => (4 - at % 4) % 4,
        Item::Entry => 0,
        Item::Size(_) => 0,
    }
}

/// How many bytes a line makes at an address.
#[tactic(auto, unfolding(crate::specs::Lines::length_at))]
pub fn length_at(at: u64, said: Said) -> u64
    ensures { result ≡ length_at at said }
{
    match said {
        Said::Nothing => 0,
        Said::UnknownWord => 0,
        Said::BadOperands => 0,
        Said::OutOfRange => 0,
        Said::Says(item) => item_length(at, item),
    }
}
