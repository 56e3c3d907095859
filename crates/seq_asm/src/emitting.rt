// The second reading of a source: its bytes and its entry.
ghost use Rattle.std.specs.Prelude.{◌≡◌, ℕ, [], List, Option, Some, None, IfOk, OnOk, reverse, length};
ghost use Rattle.seq_text.specs.Lines.{lines_of};
ghost use Rattle.seq_asm.specs.Lines.{end_of, address_in, labels_of, entry_or, entry_in};
ghost use Rattle.seq_asm.specs.Rules.{name_fault_from};
ghost use Rattle.seq_asm.specs.Assembled.{AreBytes};
ghost use Rattle.seq_asm.specs.Surveyed.{HasLabels, entry_at};

use crate::labels::address_of;
use crate::line::{Reading, read_line};
use crate::pieces::{line_piece, put_piece};
use seq_source::{Item, Said};
use seq_text::next_line;
use seq_words::{Bytes, ReadError};
use std::alloc::Global;
use std::collections::BTreeMap;

/// The line that says the entry, and the address of the label that it names.
#[derive(Clone, Copy)]
pub struct EntryAt {
    pub place: u64,
    pub address: u32,
}

/// What the second reading makes.
#[derive(Drop)]
pub struct Emitted {
    pub bytes: Bytes,
    pub entry: Option<EntryAt>,
}

fn entry_after(
    place: u64,
    address: Option<u32>,
    said: Said,
    entry: Option<EntryAt>,
) -> Option<EntryAt>
    ensures { (labels : List (List ℕ × ℕ)) (name : List ℕ) (earlier : Option (ℕ × List ℕ)) →
        address ≡ address_in labels name → entry ≡ entry_at labels earlier →
        result ≡ entry_at labels (entry_or place name said earlier) }
{
    match said {
        Said::Says(Item::Entry) => Some(EntryAt {
            place,
            address: address.unwrap_or(0),
        }),
        _ => entry,
    }
}

/// Makes the bytes of a text's lines, up to the first whose label violates a rule.
pub fn emit<'a>(
    alloc: Global,
    text: &'a [u8],
    labels: &BTreeMap<&'a [u8], u32>,
) -> Result<Emitted, ReadError>
    requires { HasLabels labels.now (labels_of (reverse (lines_of text.now))) }
    ensures none { OnOk result
        (name_fault_from (labels_of (reverse (lines_of text.now))) [] (lines_of text.now) ≡ None) }
    ensures refused { (place rule : ℕ) → result ≡ Err (ReadError.Refused place rule) →
        name_fault_from (labels_of (reverse (lines_of text.now))) [] (lines_of text.now) ≡ Some (place, rule) }
    ensures bytes { IfOk result
        (λ e. AreBytes (labels_of (reverse (lines_of text.now))) [] (lines_of text.now) e.bytes) }
    ensures long { IfOk result (λ e. length e.bytes ≡ end_of (reverse (lines_of text.now))) }
    ensures entry { IfOk result (λ e. e.entry
        ≡ entry_at (labels_of (reverse (lines_of text.now))) (entry_in (reverse (lines_of text.now)))) }
{
    let mut bytes = Bytes::new(alloc);
    let mut entry = None;
    let mut place = 1;
    let mut rest: &'a [u8] = text;
    'lines: while !rest.is_empty() {
        let (line, after): (&'a [u8], &'a [u8]) = next_line(rest);
        let read: Reading<'a> = read_line(line);
        let address = address_of(labels, read.named);
        let made = match line_piece(bytes.as_slice().len(), address, read.said) {
            Ok(made) => made,
            Err(rule) => return Err(ReadError::Refused { place, rule }),
        };
        match put_piece(&mut bytes, made) {
            Ok(()) => {}
            Err(_) => return Err(ReadError::NoMemory),
        }
        entry = entry_after(place, address, read.said, entry);
        place += 1;
        rest = after;
    }
    Ok(Emitted { bytes, entry })
}
