// The report of a run.
ghost use Rattle.std.specs.Prelude.{◌≡◌, ◌≤◌, ◌++◌, length, true, codes, decimal, OnOk, IfOk};
ghost use Rattle.std.specs.List.{sum_by};
ghost use Rattle.seq_report.specs.Texts.{check_words, is_reported, first_line, history_line, process_line, process_lines, sent_line, sent_lines, report_text};

use crate::Status;
use crate::put::{put_blocker, put_element, put_end, put_hung, put_number, put_numbered};
use seq_flat::{Flat, ProcessState};
use seq_words::{Blocker, Bytes, Element, Entry, NoMemory, has_bit};
use std::alloc::Global;

// Which element stopped, and what kept the machine from going on.
fn put_stopped(out: &mut Bytes, stopped: Element, cause: Blocker) -> Result<(), NoMemory>
    ensures { OnOk result (out.new ≡ out.old ++ check_words stopped cause) }
{
    put_element(out, stopped)?;
    out.append(b" while ")?;
    put_blocker(out, cause)
}

// The line of a machine check.
fn put_check(out: &mut Bytes, line: u64, stopped: Element, cause: Blocker) -> Result<(), NoMemory>
    ensures { OnOk result (out.new ≡ out.old ++ first_line (Status.MachineCheck line stopped cause)) }
{
    put_numbered(out, b"machine check at line ", u128::from(line))?;
    out.append(b": ")?;
    put_stopped(out, stopped, cause)?;
    out.push(b'\n')
}

// A line of some words and a number.
fn put_numbered_line(out: &mut Bytes, words: &[u8], number: u128) -> Result<(), NoMemory>
    ensures { OnOk result (out.new ≡ out.old ++ (words.now ++ decimal number ++ codes "\n")) }
{
    put_numbered(out, words, number)?;
    out.push(b'\n')
}

// How the run ended.
fn put_first(out: &mut Bytes, status: &Status) -> Result<(), NoMemory>
    ensures { OnOk result (out.new ≡ out.old ++ first_line status.now) }
{
    match *status {
        Status::Done => out.append(b"done\n"),
        Status::MachineCheck {
            line,
            stopped,
            cause,
        } => put_check(out, line, stopped, cause),
        Status::OutOfTurns { line } => {
            put_numbered_line(out, b"out of turns at line ", u128::from(line))
        }
        Status::LineFault { line } => put_numbered_line(out, b"line fault ", u128::from(line.0)),
        Status::ChronicleFault => out.append(b"chronicle fault\n"),
        _ => Ok(()),
    }
}

// How many steps the entries of a history are together.
fn steps(history: &[Entry]) -> u128
    ensures { result ≡ sum_by (λ e. e.count) history.now }
{
    let mut steps = 0;
    for entry in history {
        steps += u128::from(entry.count);
    }
    steps
}

fn put_history(out: &mut Bytes, history: &[Entry]) -> Result<(), NoMemory>
    ensures { OnOk result (out.new ≡ out.old ++ history_line history.now) }
{
    put_numbered(out, b"history ", history.len() as u128)?;
    put_numbered_line(out, b" ", steps(history))
}

fn put_process(out: &mut Bytes, number: usize, process: &ProcessState) -> Result<(), NoMemory>
    ensures { OnOk result (out.new ≡ out.old ++ process_line number process.now) }
{
    put_numbered(out, b"process ", number as u128)?;
    out.push(b' ')?;
    put_end(out, process.end)?;
    out.push(b'\n')
}

fn put_processes(out: &mut Bytes, processes: &[ProcessState]) -> Result<(), NoMemory>
    ensures { OnOk result (out.new ≡ out.old ++ process_lines 0 processes.now) }
{
    let mut number = 0;
    for process in processes {
        put_process(out, number, process)?;
        number += 1;
    }
    Ok(())
}

fn put_line(out: &mut Bytes, number: u8, count: u64, hung: bool) -> Result<(), NoMemory>
    ensures { OnOk result (out.new ≡ out.old ++ sent_line number count hung) }
{
    put_numbered(out, b"line ", u128::from(number))?;
    put_numbered(out, b" ", u128::from(count))?;
    put_hung(out, hung)?;
    out.push(b'\n')
}

fn put_lines(out: &mut Bytes, sent: &[u64], hung: u16) -> Result<(), NoMemory>
    requires { length sent.now ≤ 16 }
    ensures { OnOk result (out.new ≡ out.old ++ sent_lines hung 0 sent.now) }
{
    let mut number = 0;
    for count in sent {
        put_line(out, number, *count, has_bit(hung, number))?;
        number += 1;
    }
    Ok(())
}

/// The report of a run that ended so: the status, the history, how each process stands in the flat state, and how many bytes each
/// line has accepted. A bit of `hung` stands for each line that is hung up.
pub fn report(
    alloc: Global,
    status: &Status,
    flat: &Flat,
    history: &[Entry],
    sent: &[u64],
    hung: u16,
) -> Result<Bytes, NoMemory>
    requires reported { is_reported status.now ≡ true }
    requires lines { length sent.now ≤ 16 }
    ensures { IfOk result (λ text. text ≡ report_text status.now flat.now.state history.now sent.now hung) }
{
    let mut text = Bytes::new(alloc);
    put_first(&mut text, status)?;
    put_history(&mut text, history)?;
    put_processes(&mut text, flat.state.processes.as_slice())?;
    put_lines(&mut text, sent, hung)?;
    Ok(text)
}
