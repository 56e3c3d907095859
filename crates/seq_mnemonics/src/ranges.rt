// The ranges of operands.
ghost use Rattle.std.specs.Prelude.{◌≡◌, ◌<◌, ◌≤ℤ◌, ◌<ℤ◌, ◌^◌, pos, MatchOption};
ghost use Rattle.seq_isa.specs.InRange.{IsImmediate, IsOffset};
ghost use Rattle.seq_mnemonics.specs.Ranges.{IsBelow};

/// A number as an immediate of 12 bits, from -2048 to 2047.
pub fn immediate(number: i64) -> Option<i32>
    ensures { MatchOption result (IsImmediate number → ⊥) (λ imm. (imm ≡ number) × IsImmediate imm) }
{
    if (-2048..=2047).contains(&number) {
        Some(number as i32)
    } else {
        None
    }
}

/// A number as the offset of a branch: even, from -4096 to 4094.
pub fn branch_offset(number: i64) -> Option<i32>
    ensures { MatchOption result (IsOffset 4096 number → ⊥) (λ offset. (offset ≡ number) × IsOffset 4096 offset) }
{
    if (-4096..=4094).contains(&number) && number % 2 == 0 {
        Some(number as i32)
    } else {
        None
    }
}

/// A number as the offset of `jal`: even, from -1048576 to 1048574.
pub fn jump_offset(number: i64) -> Option<i32>
    ensures { MatchOption result (IsOffset 1048576 number → ⊥) (λ offset. (offset ≡ number) × IsOffset 1048576 offset) }
{
    if (-1_048_576..=1_048_574).contains(&number) && number % 2 == 0 {
        Some(number as i32)
    } else {
        None
    }
}

/// A number as the upper 20 bits that `lui` and `auipc` take, from 0 to 1048575.
pub fn upper(number: i64) -> Option<u32>
    ensures { MatchOption result (IsBelow (2 ^ 20) number → ⊥) (λ imm. (pos imm ≡ number) × (imm < 2 ^ 20)) }
{
    if (0..=0xf_ffff).contains(&number) {
        Some(number as u32)
    } else {
        None
    }
}

/// A number as the amount of a shift, from 0 to 31.
pub fn amount(number: i64) -> Option<u8>
    ensures { MatchOption result (IsBelow 32 number → ⊥) (λ amount. (pos amount ≡ number) × (amount < 32)) }
{
    if (0..=31).contains(&number) {
        Some(number as u8)
    } else {
        None
    }
}
