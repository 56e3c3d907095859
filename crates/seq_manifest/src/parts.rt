ghost use Rattle.std.specs.Prelude.{◌≡◌, ◌<◌, ◌^◌, ◌+◌, ◌&&◌, false, true, not, length, count_by, nat_lt, OnOk, IfOk, [], Some, None};
ghost use Rattle.std.specs.List.{list_any};
ghost use Rattle.seq_words.specs.Masks.{has_bit};
ghost use Rattle.seq_manifest.specs.Statements.{Statement as Said};
ghost use Rattle.seq_manifest.specs.Drafts.{said_by};
ghost use Rattle.seq_manifest.specs.Faults.{is_owned, is_process, is_segment, is_misplaced, is_out_of_limits, is_badly_listed, is_absent, rule_of, some_below, has_gap};
ghost use Rattle.seq_manifest.specs.Kept.{kept, seen, kept_segment, kept_process};
ghost use Rattle.seq_manifest.specs.Taking.{IsParts, IsSmall, with_kept};

use crate::heading::{is_allowed, is_within, place_of};
use crate::lists::NumberList;
use crate::statement::Statement;
use seq_words::{Bytes, Items, NoMemory, ProcessDesc, SegmentDesc, has_bit};
use std::alloc::Global;

/// What the lines of a description make up.
#[derive(Drop)]
pub struct Parts {
    /// The numbers of the first lines.
    pub numbers: Items<u32>,
    pub segments: Items<SegmentDesc>,
    /// For each segment the name of its file, empty for none.
    pub firsts: Items<Bytes>,
    pub processes: Items<ProcessDesc>,
    /// For each process the name of its file.
    pub images: Items<Bytes>,
}

fn has_owner(processes: &[ProcessDesc], line: u8) -> bool
    requires { line < 16 }
    ensures { result ≡ list_any (λ p. has_bit p.lines line) processes.now }
{
    processes.iter().any(|process| has_bit(process.lines, line))
}

/// Whether a number of a statement is out of its limits.
fn is_out_of_limits(statement: &Statement) -> bool
    ensures rule { (s : Said) → seen statement.now ≡ kept s → result ≡ is_out_of_limits s }
    ensures small { result ≡ false → IsSmall (seen statement.now) }
{
    match *statement {
        Statement::Heading(heading, number) => !is_allowed(heading, number),
        Statement::Segment(size, _) => !is_within(32, 16_384, 32, size),
        Statement::Process(_, _, _) => false,
    }
}

impl Parts {
    /// No part yet. It takes no memory.
    pub fn new(alloc: Global) -> Parts
        ensures { result ≡ record { numbers = []; segments = []; firsts = []; processes = []; images = [] } }
    {
        Parts {
            numbers: Items::new(alloc),
            segments: Items::new(alloc),
            firsts: Items::new(alloc),
            processes: Items::new(alloc),
            images: Items::new(alloc),
        }
    }

    // How many statements made these parts.
    fn count(&self) -> usize
        requires { IsParts self.now }
        ensures { result ≡ length (said_by self.now) }
    {
        self.numbers.len() + self.segments.len() + self.processes.len()
    }

    fn segment_count(&self) -> usize
        requires { IsParts self.now }
        ensures { result ≡ count_by is_segment (said_by self.now) }
    {
        self.segments.len()
    }

    pub fn process_count(&self) -> usize
        requires { IsParts self.now }
        ensures count { result ≡ count_by is_process (said_by self.now) }
        ensures some { nat_lt 0 result ≡ list_any is_process (said_by self.now) }
        ensures processes { result ≡ length self.now.processes }
    {
        self.processes.len()
    }

    pub fn is_owned(&self, line: u8) -> bool
        requires there { line < 16 }
        requires parts { IsParts self.now }
        ensures { result ≡ is_owned (said_by self.now) line }
    {
        has_owner(self.processes.as_slice(), line)
    }

    fn is_misplaced(&self, statement: &Statement) -> bool
        requires { IsParts self.now }
        ensures { (s : Said) → seen statement.now ≡ kept s → result ≡ is_misplaced (said_by self.now) s }
    {
        match *statement {
            Statement::Heading(heading, _) => self.count() != place_of(heading),
            Statement::Segment(_, _) => {
                self.count() < 7 || self.process_count() > 0 || self.segment_count() >= 16
            }
            Statement::Process(_, _, _) => self.count() < 7 || self.process_count() >= 16,
        }
    }

    fn owns_bit(&self, mask: u16, line: u8) -> bool
        requires there { line < 16 }
        requires parts { IsParts self.now }
        ensures { result ≡ (has_bit mask line && is_owned (said_by self.now) line) }
    {
        has_bit(mask, line) && self.is_owned(line)
    }

    // Whether a line of a mask is owned already.
    fn owns_some(&self, mask: u16) -> bool
        requires { IsParts self.now }
        ensures { result ≡ some_below 16 (λ l. has_bit mask l && is_owned (said_by self.now) l) }
    {
        let mut some = false;
        for line in 0..16 {
            some = some || self.owns_bit(mask, line);
        }
        some
    }

    fn is_badly_listed(&self, statement: &Statement) -> bool
        requires { IsParts self.now }
        ensures { (s : Said) → seen statement.now ≡ kept s → result ≡ is_badly_listed (said_by self.now) s }
    {
        match *statement {
            Statement::Process(_, lines, segments) => {
                !lines.ascends || !segments.ascends || lines.count > 4 || self.owns_some(lines.mask)
            }
            Statement::Heading(_, _) => false,
            Statement::Segment(_, _) => false,
        }
    }

    fn is_absent(&self, statement: &Statement) -> bool
        requires { IsParts self.now }
        ensures { (s : Said) → seen statement.now ≡ kept s → result ≡ is_absent (said_by self.now) s }
    {
        match *statement {
            Statement::Process(_, lines, segments) => {
                segments.end > self.segment_count() as u128 || lines.end > 16
            }
            Statement::Heading(_, _) => false,
            Statement::Segment(_, _) => false,
        }
    }

    /// The least rule that a statement violates behind those that made these parts.
    pub fn rule(&self, statement: &Statement) -> Option<u16>
        requires { IsParts self.now }
        ensures rule { (s : Said) → seen statement.now ≡ kept s → result ≡ rule_of (said_by self.now) (Some s) }
        ensures small { result ≡ None → IsSmall (seen statement.now) }
    {
        if self.is_misplaced(statement) {
            Some(MISPLACED)
        } else if is_out_of_limits(statement) {
            Some(OUT_OF_LIMITS)
        } else if self.is_badly_listed(statement) {
            Some(BADLY_LISTED)
        } else if self.is_absent(statement) {
            Some(ABSENT)
        } else {
            None
        }
    }

    fn push_segment(&mut self, alloc: Global, size: u32, file: &[u8]) -> Result<(), NoMemory>
        ensures { OnOk result (self.new ≡ with_kept self.old (kept_segment size file.now)) }
    {
        let segment = SegmentDesc {
            size,
            first: Bytes::new(alloc),
        };
        if self.segments.push(segment).is_err() {
            return Err(NoMemory);
        }
        let name = Bytes::copy_of(alloc, file)?;
        if self.firsts.push(name).is_err() {
            return Err(NoMemory);
        }
        Ok(())
    }

    fn push_process(
        &mut self,
        alloc: Global,
        file: &[u8],
        lines: NumberList,
        segments: NumberList,
    ) -> Result<(), NoMemory>
        ensures { OnOk result (self.new ≡ with_kept self.old (kept_process file.now lines segments)) }
    {
        let process = ProcessDesc {
            size: 0,
            entry: 0,
            image: Bytes::new(alloc),
            lines: lines.mask,
            grants: segments.mask,
        };
        if self.processes.push(process).is_err() {
            return Err(NoMemory);
        }
        let name = Bytes::copy_of(alloc, file)?;
        if self.images.push(name).is_err() {
            return Err(NoMemory);
        }
        Ok(())
    }

    /// Takes a statement whose numbers are within their limits.
    pub fn push(&mut self, alloc: Global, statement: &Statement) -> Result<(), NoMemory>
        requires { IsSmall (seen statement.now) }
        ensures { OnOk result (self.new ≡ with_kept self.old (seen statement.now)) }
    {
        match *statement {
            Statement::Heading(_, number) => {
                if self.numbers.push(number as u32).is_err() {
                    return Err(NoMemory);
                }
                Ok(())
            }
            Statement::Segment(size, file) => self.push_segment(alloc, size as u32, file),
            Statement::Process(file, lines, segments) => {
                self.push_process(alloc, file, lines, segments)
            }
        }
    }
}

// The rules of a line.
const MISPLACED: u16 = 11;

const OUT_OF_LIMITS: u16 = 12;

const BADLY_LISTED: u16 = 13;

const ABSENT: u16 = 14;
