// The numbers of a source.
ghost use Rattle.std.specs.Prelude.{◌≡◌, ◌≤◌, ◌<◌, ◌^◌, ◌*◌, ◌≤ℤ◌, ◌&&◌, min, pos, neg_ℤ, true, false, length, take, drop, nat_lt, codes, IfSome, MatchOption};
ghost use Rattle.std.specs.Char.{digit_value};
ghost use Rattle.std.specs.List.{list_all};
ghost use Rattle.std.specs.Option.{option_map};
ghost use Rattle.std.specs.Str.{bytes_eq};
ghost use Rattle.std.specs.Str.Parse.{digits_value};
ghost use Rattle.seq_text.specs.Numbers.{number_of};
ghost use Rattle.seq_mnemonics.specs.Numbers.{is_hexadecimal, hexadecimal_of};
ghost use Rattle.seq_source.specs.Numbers.{kept, number_written, wrapped};

use seq_text::number;

/// What a larger number is kept as. It is out of every range.
pub const LARGEST: u64 = 1 << 40;

// The value of a hexadecimal digit in either letter case, and 16 for any other byte.
fn hex_value(byte: u8) -> u8
    ensures value { result ≡ min (digit_value byte) 16 }
    ensures bound { result ≤ 16 }
{
    if b'0' <= byte && byte <= b'9' {
        byte - b'0'
    } else if b'A' <= byte && byte <= b'F' {
        byte - b'A' + 10
    } else if b'a' <= byte && byte <= b'f' {
        byte - b'a' + 10
    } else {
        16
    }
}

fn is_hex_digit(byte: u8) -> bool
    ensures { result ≡ is_hexadecimal byte }
{
    hex_value(byte) < 16
}

fn are_hex_digits(digits: &[u8]) -> bool
    ensures { result ≡ list_all is_hexadecimal digits.now }
{
    digits.iter().all(|byte| is_hex_digit(*byte))
}

fn is_hexadecimal(digits: &[u8]) -> bool
    ensures { result ≡ (nat_lt 0 (length digits.now) && list_all is_hexadecimal digits.now) }
{
    !digits.is_empty() && are_hex_digits(digits)
}

// The number that hexadecimal digits write, as it is kept.
fn hex_number(digits: &[u8]) -> u64
    ensures value { list_all is_hexadecimal digits.now ≡ true → result ≡ kept (digits_value 16 digits.now) }
    ensures small { result ≤ 2 ^ 40 }
{
    let mut number = 0;
    for byte in digits {
        number = (number * 16 + u64::from(hex_value(*byte))).min(LARGEST);
    }
    number
}

#[tactic(auto, using(crate::proofs::Kept::hexadecimal_none))]
fn hexadecimal(digits: &[u8]) -> Option<u64>
    ensures value { result ≡ option_map kept (hexadecimal_of digits.now) }
    ensures small { IfSome result (λ n. n ≤ 2 ^ 40) }
{
    if is_hexadecimal(digits) {
        Some(hex_number(digits))
    } else {
        None
    }
}

#[tactic(auto, using(crate::proofs::Kept::decimal_none, crate::proofs::Kept::decimal_some))]
fn decimal(word: &[u8]) -> Option<u64>
    ensures value { result ≡ option_map kept (number_of word.now) }
    ensures small { IfSome result (λ n. n ≤ 2 ^ 40) }
{
    match number(word) {
        None => None,
        Some(number) => Some(number.min(u128::from(LARGEST)) as u64),
    }
}

// The digits behind `0x`.
fn behind_mark(word: &[u8]) -> Option<&[u8]>
    ensures { MatchOption result (bytes_eq (take 2 word.now) (codes "0x") ≡ false)
        (λ digits. (bytes_eq (take 2 word.now) (codes "0x") ≡ true) × (digits.now ≡ drop 2 word.now)) }
{
    if word.len() < 2 {
        return None;
    }
    let (front, digits) = word.split_at(2);
    if front == b"0x".as_slice() {
        Some(digits)
    } else {
        None
    }
}

// The digits behind `-`.
fn behind_sign(word: &[u8]) -> Option<&[u8]>
    ensures { MatchOption result (bytes_eq (take 1 word.now) (codes "-") ≡ false)
        (λ digits. (bytes_eq (take 1 word.now) (codes "-") ≡ true) × (digits.now ≡ drop 1 word.now)) }
{
    if word.is_empty() {
        return None;
    }
    let (front, digits) = word.split_at(1);
    if front == b"-".as_slice() {
        Some(digits)
    } else {
        None
    }
}

fn positive(number: Option<u64>) -> Option<i64>
    requires { IfSome number (λ n. n ≤ 2 ^ 40) }
    ensures value { result ≡ option_map pos number }
    ensures small { IfSome result (λ z. (neg_ℤ (pos (2 ^ 40)) ≤ℤ z) × (z ≤ℤ pos (2 ^ 40))) }
{
    match number {
        None => None,
        Some(number) => Some(number as i64),
    }
}

fn negative(number: Option<u64>) -> Option<i64>
    requires { IfSome number (λ n. n ≤ 2 ^ 40) }
    ensures value { result ≡ option_map (λ n. neg_ℤ (pos n)) number }
    ensures small { IfSome result (λ z. (neg_ℤ (pos (2 ^ 40)) ≤ℤ z) × (z ≤ℤ pos (2 ^ 40))) }
{
    match number {
        None => None,
        Some(number) => Some(-(number as i64)),
    }
}

/// The number that a word writes: `0x` and hexadecimal digits, or in decimal without leading zeros, perhaps behind a `-`.
/// One that is further from 0 than 2^40 is kept as 2^40 or -2^40.
#[tactic(auto, using(crate::proofs::Kept::hexadecimal_written, crate::proofs::Kept::negative_written, crate::proofs::Kept::decimal_written))]
pub fn number_written(word: &[u8]) -> Option<i64>
    ensures value { result ≡ number_written word.now }
    ensures small { IfSome result (λ z. (neg_ℤ (pos (2 ^ 40)) ≤ℤ z) × (z ≤ℤ pos (2 ^ 40))) }
{
    if let Some(digits) = behind_mark(word) {
        return positive(hexadecimal(digits));
    }
    if let Some(digits) = behind_sign(word) {
        return negative(decimal(digits));
    }
    positive(decimal(word))
}

/// A number from -half to 2 * half - 1, in two's complement.
#[tactic(auto, unfolding(crate::specs::Numbers::wrapped))]
pub fn wrapped(half: u32, number: i64) -> Option<u32>
    requires positive { 0 < half }
    requires most { half ≤ 2 ^ 31 }
    ensures value { result ≡ wrapped half number }
    ensures small { IfSome result (λ n. n < 2 * half) }
{
    let half = i64::from(half);
    if number >= 0 && number < 2 * half {
        Some(number as u32)
    } else if number < 0 && number >= -half {
        Some((number + 2 * half) as u32)
    } else {
        None
    }
}
