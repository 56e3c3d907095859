// The rules of one line.
ghost use Rattle.std.specs.Prelude.{◌≡◌, ◌≤◌, ◌+◌, nat_lt};
ghost use Rattle.std.specs.Option.{is_some, option_or};
ghost use Rattle.seq_asm.specs.Rules.{said_rule, is_second, is_instruction, is_misplaced, place_rule};

use crate::lengths::{MOST_BYTES, length_at};
use seq_source::{Item, Said};

const UNKNOWN_WORD: u16 = 50;

const BAD_OPERANDS: u16 = 51;

/// A value is out of its range.
pub const OUT_OF_RANGE: u16 = 52;

const STANDS_ALREADY: u16 = 53;

/// A label is missing.
pub const MISSING: u16 = 54;

/// A line or the size is misplaced.
pub const MISPLACED: u16 = 55;

/// The entry is no place of an instruction below the size.
pub const BAD_ENTRY: u16 = 56;

fn said_rule(said: Said) -> Option<u16>
    ensures { result ≡ said_rule said }
{
    match said {
        Said::Nothing => None,
        Said::UnknownWord => Some(UNKNOWN_WORD),
        Said::BadOperands => Some(BAD_OPERANDS),
        Said::OutOfRange => Some(OUT_OF_RANGE),
        Said::Says(_) => None,
    }
}

fn is_second(entry: bool, size: bool, said: Said) -> bool
    ensures { result ≡ is_second entry size said }
{
    match said {
        Said::Says(Item::Entry) => entry,
        Said::Says(Item::Size(_)) => size,
        _ => false,
    }
}

fn is_instruction(said: Said) -> bool
    ensures { result ≡ is_instruction said }
{
    match said {
        Said::Says(Item::Instruction(_)) => true,
        Said::Says(Item::Branch { .. }) => true,
        Said::Says(Item::Jump { .. }) => true,
        _ => false,
    }
}

fn ends_above(at: u64, length: u64) -> bool
    requires { at ≤ 65536 }
    ensures { result ≡ nat_lt 65536 (at + length) }
{
    MOST_BYTES - at < length
}

fn is_misplaced(at: u64, said: Said) -> bool
    requires { at ≤ 65536 }
    ensures { result ≡ is_misplaced at said }
{
    is_instruction(said) && at % 4 != 0 || ends_above(at, length_at(at, said))
}

fn place_rule(at: u64, stands: bool, second: bool, said: Said) -> Option<u16>
    requires { at ≤ 65536 }
    ensures { result ≡ place_rule at stands second said }
{
    if stands || second {
        Some(STANDS_ALREADY)
    } else if is_misplaced(at, said) {
        Some(MISPLACED)
    } else {
        None
    }
}

/// What matters of the lines before a line, besides their labels.
#[derive(Clone, Copy)]
pub struct Past {
    /// The address behind them.
    pub end: u64,
    /// Whether the entry is said.
    pub entry: bool,
    /// The line that says the private size, with the size that it says.
    pub size: Option<(u64, u64)>,
}

/// The least rule that a line violates.
pub fn line_rule(past: Past, stands: bool, said: Said) -> Option<u16>
    requires { past.end ≤ 65536 }
    ensures { result ≡ option_or (said_rule said) (place_rule past.end stands (is_second past.entry (is_some past.size) said) said) }
{
    match said_rule(said) {
        Some(rule) => Some(rule),
        None => place_rule(
            past.end,
            stands,
            is_second(past.entry, past.size.is_some(), said),
            said,
        ),
    }
}
