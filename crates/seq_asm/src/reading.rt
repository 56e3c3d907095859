ghost use Rattle.std.specs.Prelude.{◌≡◌, ◌≤◌, ◌⊎◌, ℕ, Some, None, IfOk, OnOk};
ghost use Rattle.std.specs.Option.{option_map};
ghost use Rattle.seq_loader.specs.declared.image.Image.{Image};
ghost use Rattle.seq_loader.specs.Image.{IsImage};
ghost use Rattle.seq_loader.specs.Faults.{is_size, is_entry};
ghost use Rattle.seq_asm.specs.Rules.{size_fault, size_of, first_fault};
ghost use Rattle.seq_asm.specs.Assembled.{Makes};
ghost use Rattle.seq_asm.specs.Surveyed.{spot_fault, spot_address};

use crate::emitting::{EntryAt, emit};
use crate::lengths::MOST_BYTES;
use crate::rules::{BAD_ENTRY, MISPLACED, Past};
use crate::survey::first_reading;
use seq_loader::Image;
use seq_words::ReadError;
use std::alloc::Global;

// What is left behind the bytes of a source that says no size.
const FREE_BYTES: u64 = 1024;

fn is_size(size: u64) -> bool
    ensures { result ≡ is_size size }
{
    (32..=MOST_BYTES).contains(&size) && size % 32 == 0
}

// The line that says a size that is none, or is below the length.
fn size_fault(end: u64, size: Option<(u64, u64)>) -> Option<u64>
    ensures { option_map (λ place. (place, 55)) result ≡ size_fault end size }
{
    match size {
        None => None,
        Some((place, size)) => {
            if is_size(size) && end <= size {
                None
            } else {
                Some(place)
            }
        }
    }
}

fn size_of(past: Past) -> u64
    requires { past.end ≤ 65536 }
    ensures { result ≡ size_of past.end past.size }
{
    match past.size {
        None => ((past.end + 31) / 32 * 32 + FREE_BYTES).min(MOST_BYTES),
        Some((_, size)) => size,
    }
}

fn is_entry(size: u64, address: u32) -> bool
    ensures { result ≡ is_entry size address }
{
    address % 4 == 0 && u64::from(address) < size
}

// The line that says an entry that is no multiple of four below the size.
fn entry_fault(size: u64, entry: Option<EntryAt>) -> Option<u64>
    ensures { option_map (λ place. (place, 56)) result ≡ spot_fault size entry }
{
    match entry {
        None => None,
        Some(at) => {
            if is_entry(size, at.address) {
                None
            } else {
                Some(at.place)
            }
        }
    }
}

fn entry_address(entry: Option<EntryAt>) -> u32
    ensures { result ≡ spot_address entry }
{
    match entry {
        None => 0,
        Some(at) => at.address,
    }
}

fn assembled(alloc: Global, text: &[u8]) -> Result<Image, ReadError>
    ensures image { IfOk result (λ i. Makes text.now i) }
    ensures inside { IfOk result (λ i. IsImage i) }
    ensures none { OnOk result (first_fault text.now ≡ None) }
    ensures refused { (place rule : ℕ) → result ≡ Err (ReadError.Refused place rule) →
        first_fault text.now ≡ Some (place, rule) }
{
    let survey = match first_reading(alloc, text) {
        Ok(survey) => survey,
        Err(error) => return Err(error),
    };
    let past = survey.past;
    if let Some(place) = size_fault(past.end, past.size) {
        return Err(ReadError::Refused {
            place,
            rule: MISPLACED,
        });
    }
    let emitted = match emit(alloc, text, &survey.labels) {
        Ok(emitted) => emitted,
        Err(error) => return Err(error),
    };
    let size = size_of(past);
    if let Some(place) = entry_fault(size, emitted.entry) {
        return Err(ReadError::Refused {
            place,
            rule: BAD_ENTRY,
        });
    }
    Ok(Image {
        size: size as u32,
        entry: entry_address(emitted.entry),
        bytes: emitted.bytes,
    })
}

/// Assembles a source. A place is a line from 1.
///
/// Line by line: rule 50, an unknown word; 51, operands that aren't of the word's form; 52, a value out of its range, or an odd
/// offset; 53, a label that stands already, or a second `.entry` or `.size`; 55, an instruction not at a multiple of four, or
/// bytes that end above 65,536. After all lines: 55 at a `.size` that is no private size or is below the length; then, line by
/// line, 54 where a label is missing, and 52 where the offset to it is odd or out of its range; then 56 at an `.entry` that isn't
/// a multiple of four below the size.
pub fn assemble(alloc: Global, text: &[u8]) -> Result<Image, ReadError>
    ensures image { IfOk result (λ i. Makes text.now i) }
    ensures inside { IfOk result (λ i. IsImage i) }
    ensures none { OnOk result (first_fault text.now ≡ None) }
    ensures faultless { first_fault text.now ≡ None →
        ((i : Image) × Makes text.now i × (result ≡ Ok i)) ⊎ (result ≡ Err ReadError.NoMemory) }
    ensures refused { (place rule : ℕ) → result ≡ Err (ReadError.Refused place rule) →
        first_fault text.now ≡ Some (place, rule) }
    ensures faulty { (place rule : ℕ) → first_fault text.now ≡ Some (place, rule) →
        (result ≡ Err (ReadError.Refused place rule)) ⊎ (result ≡ Err ReadError.NoMemory) }
{
    assembled(alloc, text)
}
