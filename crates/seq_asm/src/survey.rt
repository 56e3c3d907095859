// The first reading of a source: its labels, its length and the size that it says.
ghost use Rattle.std.specs.Prelude.{◌≡◌, ◌≤◌, ◌+◌, ◌||◌, ◌++◌, [], ℕ, List, Some, None, IfOk, OnOk, reverse};
ghost use Rattle.std.specs.Option.{option_map};
ghost use Rattle.seq_text.specs.Lines.{lines_of};
ghost use Rattle.seq_asm.specs.Lines.{size_or, length_at, labelled, labels_of};
ghost use Rattle.seq_asm.specs.Rules.{stands, fault_from};
ghost use Rattle.seq_asm.specs.Surveyed.{HasLabels, IsPast, says_entry};

use crate::labels::{address_of, put_label};
use crate::lengths::length_at;
use crate::line::read_line;
use crate::rules::{Past, line_rule};
use seq_source::{Item, Said};
use seq_text::next_line;
use seq_words::{NoMemory, ReadError};
use std::alloc::Global;
use std::collections::BTreeMap;

/// What the first reading finds.
#[derive(Drop)]
pub struct Survey<'a> {
    pub labels: BTreeMap<&'a [u8], u32>,
    pub past: Past,
}

fn label_stands<'a>(labels: &BTreeMap<&'a [u8], u32>, label: Option<&'a [u8]>) -> bool
    ensures { (known : List (List ℕ × ℕ)) → HasLabels labels.now known →
        result ≡ stands known (option_map (λ name. name.now) label.entry) }
{
    match label {
        None => false,
        Some(name) => address_of(labels, name).is_some(),
    }
}

fn note_label<'a>(
    labels: &mut BTreeMap<&'a [u8], u32>,
    label: Option<&'a [u8]>,
    address: u64,
) -> Result<(), NoMemory>
    requires { address ≤ 65536 }
    ensures { OnOk result ((known : List (List ℕ × ℕ)) → HasLabels labels.old known →
        HasLabels labels.new (labelled address (option_map (λ name. name.now) label.entry) ++ known)) }
{
    match label {
        None => Ok(()),
        Some(name) => put_label(labels, name, address as u32),
    }
}

fn size_after(place: u64, said: Said, size: Option<(u64, u64)>) -> Option<(u64, u64)>
    ensures { result ≡ size_or place said size }
{
    match said {
        Said::Says(Item::Size(number)) => Some((place, number)),
        _ => size,
    }
}

fn says_entry(said: Said) -> bool
    ensures { result ≡ says_entry said }
{
    match said {
        Said::Says(Item::Entry) => true,
        _ => false,
    }
}

impl Past {
    fn none() -> Past
        ensures { IsPast result [] }
    {
        Past {
            end: 0,
            entry: false,
            size: None,
        }
    }

    fn after(self, place: u64, said: Said) -> Past
        requires { self.end + length_at self.end said ≤ 65536 }
        ensures end { result.end ≡ self.end + length_at self.end said }
        ensures entry { result.entry ≡ (self.entry || says_entry said) }
        ensures size { result.size ≡ size_or place said self.size }
    {
        Past {
            end: self.end + length_at(self.end, said),
            entry: self.entry || says_entry(said),
            size: size_after(place, said, self.size),
        }
    }
}

/// Reads the lines of a text, up to the first that violates a rule.
pub fn first_reading(alloc: Global, text: &[u8]) -> Result<Survey<'_>, ReadError>
    ensures none { OnOk result (fault_from [] (lines_of text.now) ≡ None) }
    ensures refused { (place rule : ℕ) → result ≡ Err (ReadError.Refused place rule) →
        fault_from [] (lines_of text.now) ≡ Some (place, rule) }
    ensures labels { IfOk result (λ s. HasLabels s.labels (labels_of (reverse (lines_of text.now)))) }
    ensures past { IfOk result (λ s. IsPast s.past (reverse (lines_of text.now))) }
{
    let mut labels = BTreeMap::new(alloc);
    let mut past = Past::none();
    let mut place = 1;
    let mut rest = text;
    'lines: while !rest.is_empty() {
        let (line, after) = next_line(rest);
        let read = read_line(line);
        let stands = label_stands(&labels, read.label);
        if let Some(rule) = line_rule(past, stands, read.said) {
            return Err(ReadError::Refused { place, rule });
        }
        match note_label(&mut labels, read.label, past.end) {
            Ok(()) => {}
            Err(_) => return Err(ReadError::NoMemory),
        }
        past = past.after(place, read.said);
        place += 1;
        rest = after;
    }
    Ok(Survey { labels, past })
}
