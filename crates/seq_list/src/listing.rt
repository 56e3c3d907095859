ghost use Rattle.std.specs.Prelude.{◌≡◌, ℕ, ◌+◌, ◌≤◌, ◌++◌, [], length, OnOk, IfOk, IfSome, MatchOption};
ghost use Rattle.seq_loader.specs.Image.{IsImage};
ghost use Rattle.seq_list.specs.Lines.{word_line, byte_line};
ghost use Rattle.seq_list.specs.Listing.{left_over, listing};

use crate::digits::{byte_digits, word_digits};
use crate::text::put_text;
use byteorder::{ByteOrder, LittleEndian};
use seq_loader::Image;
use seq_words::{Bytes, NoMemory};
use std::alloc::Global;

/// The most bytes of a word's line, its end included: two words in digits, and a text of at most 21 bytes.
const WORD_LINE: usize = 40;

/// The bytes of the lines of three bytes that are left over.
const LEFT_OVER: usize = 3 * 23;

// No text yet, with room for the listing of so many bytes.
fn with_room(alloc: Global, bytes: usize) -> Result<Bytes, NoMemory>
    requires { bytes ≤ 65536 }
    ensures { IfOk result (λ text. text ≡ []) }
{
    match Vec::with_capacity(alloc, bytes / 4 * WORD_LINE + LEFT_OVER) {
        Ok(items) => Ok(Bytes { items }),
        Err(_) => Err(NoMemory),
    }
}

fn put_word_line(out: &mut Bytes, at: u32, word: u32) -> Result<(), NoMemory>
    ensures { OnOk result (out.new ≡ out.old ++ word_line at word) }
{
    out.append(&word_digits(at))?;
    out.push(b' ')?;
    out.append(&word_digits(word))?;
    out.push(b' ')?;
    put_text(out, word)?;
    out.push(b'\n')
}

fn put_byte_line(out: &mut Bytes, at: u32, byte: u8) -> Result<(), NoMemory>
    ensures { OnOk result (out.new ≡ out.old ++ byte_line at byte) }
{
    let digits = byte_digits(byte);
    out.append(&word_digits(at))?;
    out.push(b' ')?;
    out.append(&digits)?;
    out.append(b" .byte 0x")?;
    out.append(&digits)?;
    out.push(b'\n')
}

// The number in the first four bytes, the lowest first, and what follows them.
#[tactic(auto, using(crate::proofs::Listed::listing_from, crate::proofs::Listed::listing_ends))]
fn next_word(bytes: &[u8]) -> Option<(u32, &[u8])>
    ensures listed { MatchOption result ((at : ℕ) → listing at bytes.now ≡ left_over at bytes.now)
        (λ found. (at : ℕ) → listing at bytes.now ≡ word_line at found.0 ++ listing (at + 4) found.1.now) }
    ensures shorter { IfSome result (λ found. length found.1.now + 4 ≡ length bytes.now) }
{
    if bytes.len() < 4 {
        return None;
    }
    let (word, rest) = bytes.split_at(4);
    Some((LittleEndian::read_u32(word), rest))
}

/// Lists an image: a line for each whole four bytes, and one for each byte that is left over.
pub fn list(alloc: Global, image: &Image) -> Result<Bytes, NoMemory>
    requires { IsImage image.now }
    ensures { IfOk result (λ text. text ≡ listing 0 image.now.bytes) }
{
    let mut text = with_room(alloc, image.bytes.as_slice().len())?;
    let mut rest = image.bytes.as_slice();
    let mut at = 0;
    while let Some((word, behind)) = next_word(rest) {
        put_word_line(&mut text, at, word)?;
        rest = behind;
        at += 4;
    }
    for byte in rest {
        put_byte_line(&mut text, at, *byte)?;
        at += 1;
    }
    Ok(text)
}
