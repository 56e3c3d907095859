ghost use Rattle.std.specs.Prelude.{◌≡◌, ◌==◌, ℕ, slice_index, Some, None, OnOk, IfOk, ◌⊎◌};
ghost use Rattle.seq_text.specs.Words.{words_of};
ghost use Rattle.seq_manifest.specs.Statements.{Statement as Said};
ghost use Rattle.seq_manifest.specs.Drafts.{said_by, Describes};
ghost use Rattle.seq_manifest.specs.Faults.{rule_of, line_rule, with_line, first_fault};
ghost use Rattle.seq_manifest.specs.Kept.{kept, seen};
ghost use Rattle.seq_manifest.specs.Errors.{error_at};
ghost use Rattle.seq_manifest.specs.Taking.{IsParts, with_kept};

use crate::Draft;
use crate::parts::Parts;
use crate::statement::{Statement, said};
use seq_text::{first_word, next_line};
use seq_words::ReadError;
use std::alloc::Global;

/// Why a line isn't taken.
#[derive(Clone, Copy)]
pub enum LineError {
    /// It violates the rule of this number.
    Broken(u16),
    NoMemory,
}

impl LineError {
    // The same of the line at a place.
    fn at(self, place: u64) -> ReadError
        ensures { result ≡ error_at place self }
    {
        match self {
            LineError::Broken(rule) => ReadError::Refused { place, rule },
            LineError::NoMemory => ReadError::NoMemory,
        }
    }
}

// Rule 10: a line is none of the forms.
const NO_FORM: u16 = 10;

fn is_comment(word: &[u8]) -> bool
    ensures { result ≡ (slice_index word.now 0 == 35) }
{
    match word {
        [first, ..] => *first == b'#',
        [] => false,
    }
}

impl Parts {
    fn take(&mut self, alloc: Global, statement: &Statement) -> Result<(), LineError>
        requires { IsParts self.old }
        ensures rule { (s : Said) (rule : ℕ) → seen statement.now ≡ kept s → result ≡ Err (LineError.Broken rule) →
            rule_of (said_by self.old) (Some s) ≡ Some rule }
        ensures none { (s : Said) → seen statement.now ≡ kept s → OnOk result (rule_of (said_by self.old) (Some s) ≡ None) }
        ensures taken { OnOk result (self.new ≡ with_kept self.old (seen statement.now)) }
    {
        if let Some(rule) = self.rule(statement) {
            return Err(LineError::Broken(rule));
        }
        match self.push(alloc, statement) {
            Ok(()) => Ok(()),
            Err(_) => Err(LineError::NoMemory),
        }
    }

    /// Takes what a line says.
    pub fn take_line(&mut self, alloc: Global, line: &[u8]) -> Result<(), LineError>
        requires { IsParts self.old }
        ensures rule { (rule : ℕ) → result ≡ Err (LineError.Broken rule) →
            line_rule (said_by self.old) (words_of line.now) ≡ Some rule }
        ensures none { OnOk result (line_rule (said_by self.old) (words_of line.now) ≡ None) }
        ensures said { OnOk result (said_by self.new ≡ with_line (said_by self.old) (words_of line.now)) }
        ensures parts { OnOk result (IsParts self.new) }
    {
        let Some((key, rest)) = first_word(line) else {
            return Ok(());
        };
        if is_comment(key) {
            return Ok(());
        }
        let Some(statement) = said(key, rest) else {
            return Err(LineError::Broken(NO_FORM));
        };
        self.take(alloc, &statement)
    }
}

fn read_lines(alloc: Global, text: &[u8]) -> Result<Draft, ReadError>
    ensures value { IfOk result (λ d. Describes text.now d) }
    ensures none { OnOk result (first_fault text.now ≡ None) }
    ensures refused { (place rule : ℕ) → result ≡ Err (ReadError.Refused place rule) →
        first_fault text.now ≡ Some (place, rule) }
{
    let mut parts = Parts::new(alloc);
    let mut place = 1;
    let mut rest = text;
    'lines: while !rest.is_empty() {
        let (line, after) = next_line(rest);
        match parts.take_line(alloc, line) {
            Ok(()) => {}
            Err(error) => return Err(error.at(place)),
        }
        place += 1;
        rest = after;
    }
    match parts.end_rule() {
        Some(rule) => Err(ReadError::Refused { place, rule }),
        None => Ok(parts.draft()),
    }
}

/// Reads the description of a machine. A place is a line from 1, or one more than the last line's number for a rule at
/// the end of the text.
///
/// Rule 10: a line is none of the forms, or a number isn't a number. 11: a line is out of order or one too many, or the
/// text ends before a process. 12: a number is out of its limits. 13: a list doesn't ascend, has more than four lines,
/// or names a line that is owned already. 14: a list names a segment that isn't there, or a line above 15. 15: a line
/// below the greatest has no owner.
pub fn read(alloc: Global, text: &[u8]) -> Result<Draft, ReadError>
    ensures value { IfOk result (λ d. Describes text.now d) }
    ensures read { (d : Draft) → Describes text.now d →
        (result ≡ Ok d) ⊎ (result ≡ Err ReadError.NoMemory) }
    ensures refused { (place rule : ℕ) → result ≡ Err (ReadError.Refused place rule) →
        first_fault text.now ≡ Some (place, rule) }
    ensures faulty { (place rule : ℕ) → first_fault text.now ≡ Some (place, rule) →
        (result ≡ Err (ReadError.Refused place rule)) ⊎ (result ≡ Err ReadError.NoMemory) }
{
    read_lines(alloc, text)
}
