//! The program: it makes the real outside, and hands it with the words of the command line to the top call.
#![tactic(auto)]

ghost use Rattle.std.specs.Prelude.{◌≡◌, ◌++◌, length, drop, codes, decimal, string_bytes, IfOk};
ghost use Rattle.std.specs.IoError.{error_kind};
ghost use Rattle.std.specs.Process.{exit_status};
ghost use Rattle.std.specs.Vec.Iter.{into_iter_items};
ghost use Rattle.seq_report.specs.Numbers.{number_of};
ghost use Rattle.sequoia.specs.Words.{unread_status};
ghost use Rattle.seq_shelf.specs.Outlets.{views, marks};
ghost use Rattle.seq_shelf.specs.Rows.{AreFresh};

use seq_cli::{Status, add_line, number, print_usage, sequoia};
use seq_shelf::{FileLine, FileShelf, OutSink, SoundChronicle, open_output};
use std::alloc::{AllocError, Global};
use std::env::{Args, Env};
use std::io::ErrorKind;
use std::process::ExitCode;
use std::{env, io};

/// The number of lines of the largest machine.
const LINES: u8 = 16;

// Why the command line gives no words: usage where a word isn't UTF-8, else want of memory.
fn unread(error: &io::Error) -> Status
    ensures { result ≡ unread_status (error_kind error.now) }
{
    match error.kind() {
        ErrorKind::InvalidData => Status::Usage,
        _ => Status::NoMemory,
    }
}

// The words behind the program's name.
fn behind_name(alloc: Global, all: Args) -> Result<Vec<String>, AllocError>
    ensures { IfOk result (λ words. words.items ≡ drop 1 (into_iter_items all)) }
{
    all.skip(1).collect(alloc)
}

// The words after the program's name: usage where one of them isn't UTF-8.
fn read_words(rt: &(impl Env + AllocGlobal), alloc: Global) -> Result<Vec<String>, Status> {
    match env::args(rt) {
        Ok(all) => behind_name(alloc, all).map_err(|_| Status::NoMemory),
        Err(error) => Err(unread(&error)),
    }
}

// The file of a line's output.
fn line_file(alloc: Global, line: u8) -> Result<String, AllocError>
    ensures { IfOk result (λ name. string_bytes name ≡ codes "line" ++ decimal line ++ codes ".out") }
{
    format!(in alloc; "line{line}.out")
}

fn exit_code(status: &Status) -> ExitCode
    ensures { exit_status result ≡ number_of status.now }
{
    ExitCode::from(number(status))
}

// Makes the outside, and does what the words ask for.
fn command(rt: HostRuntime) -> Result<ExitCode, AllocError> {
    let alloc = rt.alloc();
    let mut sink = OutSink::new(open_output(rt.stdout()));
    let mut lines = Vec::new(alloc);
    for n in 0..LINES {
        let line = FileLine::new(rt.clone()?, line_file(alloc, n)?);
        if add_line(&mut lines, Box::new(alloc, line)?).is_err() {
            return Ok(exit_code(&Status::NoMemory));
        }
    }
    let words = match read_words(&rt, alloc) {
        Ok(words) => words,
        Err(Status::Usage) => return Ok(exit_code(&print_usage(&mut sink))),
        Err(status) => return Ok(exit_code(&status)),
    };
    let mut shelf = FileShelf::new(rt.clone()?, alloc);
    let mut chronicle = SoundChronicle::new(alloc);
    let status = sequoia(
        alloc,
        &words,
        &mut shelf,
        &mut lines,
        &mut chronicle,
        &mut sink,
    );
    Ok(exit_code(&status))
}

fn main(rt: HostRuntime) -> ExitCode {
    match command(rt) {
        Ok(code) => code,
        Err(_) => exit_code(&Status::NoMemory),
    }
}

#[cfg(test)]
mod elements;
#[cfg(test)]
mod images;
#[cfg(test)]
mod prints;
#[cfg(test)]
mod runs;
#[cfg(test)]
mod tests;
