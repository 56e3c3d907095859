// The numbers of a schedule: how often, which line, which register, and what hexadecimal digits write.
ghost use Rattle.std.specs.Prelude.{◌≡◌, ◌≤◌, ◌<◌, ◌^◌, ◌+◌, ◌*◌, ◌/◌, true, length, nat_lt, map, is_some, IfSome, IfOk, OnErr};
ghost use Rattle.std.specs.List.{range_with_len};
ghost use Rattle.std.specs.Option.{option_map};
ghost use Rattle.seq_schedule.specs.Numbers.{if_within, number_within, line_numbered, line_named, hex_value, is_hex, hex_number, mask_of, hex_byte, bytes_of};

use seq_text::number;
use seq_words::{Bytes, LineNo, NoMemory};
use std::alloc::Global;

fn if_within(least: u64, most: u64, number: Option<u128>) -> Option<u64>
    ensures value { result ≡ if_within least most number }
    ensures within { IfSome result (λ n. n ≤ most) }
{
    match number {
        None => None,
        Some(number) => {
            if u128::from(least) <= number && number <= u128::from(most) {
                Some(number as u64)
            } else {
                None
            }
        }
    }
}

/// The number that a word writes, where it lies between two others, both included.
#[tactic(auto, using(crate::proofs::Capped::within_is))]
pub fn number_within(least: u64, most: u64, word: &[u8]) -> Option<u64>
    ensures value { result ≡ number_within least most word.now }
    ensures within { IfSome result (λ n. n ≤ most) }
{
    if_within(least, most, number(word))
}

fn line_with(number: Option<u128>) -> Option<LineNo>
    ensures { result ≡ option_map line_numbered number }
{
    match number {
        None => None,
        Some(number) => Some(LineNo(number.min(255) as u8)),
    }
}

/// The line that a word names. No machine has a line 255, and every larger number stands for it.
#[tactic(auto, using(crate::proofs::Capped::line_is))]
pub fn line_named(word: &[u8]) -> Option<LineNo>
    ensures { result ≡ line_named word.now }
{
    line_with(number(word))
}

// The value of a hexadecimal digit in either letter case, and 16 for any other byte.
#[tactic(auto, unfolding(crate::specs::Numbers::hex_value))]
fn hex_value(byte: u8) -> u8
    ensures value { result ≡ hex_value byte }
    ensures bound { result ≤ 16 }
{
    if b'0' <= byte && byte <= b'9' {
        byte - b'0'
    } else if b'A' <= byte && byte <= b'F' {
        byte - b'A' + 10
    } else if b'a' <= byte && byte <= b'f' {
        byte - b'a' + 10
    } else {
        16
    }
}

fn is_hex_digit(byte: u8) -> bool
    ensures { result ≡ nat_lt (hex_value byte) 16 }
{
    hex_value(byte) < 16
}

fn is_hex(word: &[u8]) -> bool
    ensures { result ≡ is_hex word.now }
{
    word.iter().all(|byte| is_hex_digit(*byte))
}

// The number that at most eight hexadecimal digits write.
fn hex_number(word: &[u8]) -> u32
    requires digits { is_hex word.now ≡ true }
    requires few { length word.now ≤ 8 }
    ensures { result ≡ hex_number word.now }
{
    let mut number = 0;
    for byte in word {
        number = number * 16 + u32::from(hex_value(*byte));
    }
    number
}

/// The mask that the digits behind `0x` write: 1 to 8 of them, not all 0.
#[tactic(auto, unfolding(crate::specs::Numbers::mask_of))]
pub fn mask_of(digits: &[u8]) -> Option<u32>
    ensures { result ≡ mask_of digits.now }
{
    if digits.is_empty() || digits.len() > 8 || !is_hex(digits) {
        return None;
    }
    let number = hex_number(digits);
    if number == 0 { None } else { Some(number) }
}

// The byte that two digits from a place write.
fn hex_byte(word: &[u8], at: usize) -> u8
    requires digits { is_hex word.now ≡ true }
    requires there { at + 1 < length word.now }
    ensures { result ≡ hex_byte word.now at }
{
    16 * hex_value(word[at]) + hex_value(word[at + 1])
}

fn hex_bytes(alloc: Global, word: &[u8]) -> Result<Bytes, NoMemory>
    requires { is_hex word.now ≡ true }
    ensures { IfOk result (λ bytes. bytes ≡ map (λ k. hex_byte word.now (2 * k)) (range_with_len 0 (length word.now / 2))) }
{
    let mut bytes = Bytes::new(alloc);
    for k in 0..word.len() / 2 {
        bytes.push(hex_byte(word, 2 * k))?;
    }
    Ok(bytes)
}

/// The bytes that an even number of hexadecimal digits writes, two each. There is at least one.
#[tactic(auto, unfolding(crate::specs::Numbers::bytes_of))]
pub fn bytes_of(alloc: Global, word: &[u8]) -> Result<Option<Bytes>, NoMemory>
    ensures value { IfOk result (λ bytes. bytes ≡ bytes_of word.now) }

    // Nothing but bytes takes memory.
    ensures refused { OnErr result (is_some (bytes_of word.now) ≡ true) }
{
    if word.len() < 2 || word.len() % 2 != 0 || !is_hex(word) {
        return Ok(None);
    }
    let bytes = hex_bytes(alloc, word)?;
    Ok(Some(bytes))
}
