//! Products, quotients and shifts, as the manual has them for words of 32 bits.
ghost use Rattle.std.specs.Prelude.{◌≡◌, ℕ, ◌*◌, ◌/◌, ◌^◌, ◌<◌, pos, ◌*ℤ◌, int_lt};
ghost use Rattle.seq_isa.specs.Meaning.{signed, upper, quotient, remainder, quotient_unsigned, remainder_unsigned, shifted_signed, flag};

/// Whether a number is below another, both signed.
#[inline(always)]
pub fn is_less(a: u32, b: u32) -> bool
    ensures { result ≡ int_lt (signed a) (signed b) }
{
    a.cast_signed() < b.cast_signed()
}

/// 1 where a test holds.
#[inline(always)]
pub fn flag(test: bool) -> u32
    ensures { result ≡ flag test }
{
    if test { 1 } else { 0 }
}

/// The product of two signed numbers, in twice their bits.
#[inline(always)]
fn product(a: i32, b: i32) -> i64
    ensures { result ≡ a *ℤ b }
{
    a as i64 * b as i64
}

/// MULH: the upper 32 bits of the product of two signed numbers.
#[inline(always)]
pub fn multiply_high(a: u32, b: u32) -> u32
    ensures { result ≡ upper (signed a *ℤ signed b) }
{
    let product = product(a.cast_signed(), b.cast_signed());
    (product.cast_unsigned() >> 32) as u32
}

/// MULHSU: the upper 32 bits of the product of a signed number `a` and an unsigned one `b`.
#[inline(always)]
pub fn multiply_high_mixed(a: u32, b: u32) -> u32
    ensures { result ≡ upper (signed a *ℤ pos b) }
{
    let product = a.cast_signed() as i64 * b as i64;
    (product.cast_unsigned() >> 32) as u32
}

/// MULHU: the upper 32 bits of the product of two unsigned numbers.
#[inline(always)]
pub fn multiply_high_unsigned(a: u32, b: u32) -> u32
    ensures { result ≡ a * b / 2 ^ 32 }
{
    ((a as u64 * b as u64) >> 32) as u32
}

/// DIV: the quotient of two signed numbers, rounded towards zero.
#[tactic(auto, unfolding(seq_isa::specs::Meaning::quotient))]
#[inline(always)]
pub fn divide(a: u32, b: u32) -> u32
    ensures { result ≡ quotient a b }
{
    if b == 0 {
        return u32::MAX;
    }
    a.cast_signed()
        .wrapping_div(b.cast_signed())
        .cast_unsigned()
}

/// REM: the remainder of two signed numbers, with the sign of the dividend.
#[tactic(auto, unfolding(seq_isa::specs::Meaning::remainder))]
#[inline(always)]
pub fn remainder(a: u32, b: u32) -> u32
    ensures { result ≡ remainder a b }
{
    if b == 0 {
        return a;
    }
    a.cast_signed()
        .wrapping_rem(b.cast_signed())
        .cast_unsigned()
}

/// DIVU: the quotient of two unsigned numbers.
#[tactic(auto, unfolding(seq_isa::specs::Meaning::quotient_unsigned))]
#[inline(always)]
pub fn divide_unsigned(a: u32, b: u32) -> u32
    ensures { result ≡ quotient_unsigned a b }
{
    if b == 0 { u32::MAX } else { a / b }
}

/// REMU: the remainder of two unsigned numbers.
#[tactic(auto, unfolding(seq_isa::specs::Meaning::remainder_unsigned))]
#[inline(always)]
pub fn remainder_unsigned(a: u32, b: u32) -> u32
    ensures { result ≡ remainder_unsigned a b }
{
    if b == 0 { a } else { a % b }
}

/// SRA: a shift to the right by `amount`, in which copies of the sign bit come in.
#[inline(always)]
pub fn shift_signed(a: u32, amount: u32) -> u32
    requires { amount < 32 }
    ensures { result ≡ shifted_signed a amount }
{
    (a.cast_signed() >> amount).cast_unsigned()
}
