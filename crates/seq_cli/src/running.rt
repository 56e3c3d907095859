// The command `run`: what was loaded is run, and what came of it is reported.
ghost use Rattle.std.specs.Prelude.{◌≡◌, ◌<◌, ◌≤◌, ◌+◌, ◌*◌, ◌^◌, ℕ, length, map, take, get_or, true, false, if◌then◌else◌, Some, None, IfOk};
ghost use Rattle.seq_words.specs.Description.{IsDescription, line_count};
ghost use Rattle.seq_words.specs.declared.description.MachineDesc.{MachineDesc};
ghost use Rattle.seq_flat.specs.Run.{flat_run};
ghost use Rattle.seq_flat.specs.declared.state.FlatState.{FlatState};
ghost use Rattle.seq_shelf.specs.Causes.{Rose};
ghost use Rattle.seq_shelf.specs.Outlets.{views, marks};
ghost use Rattle.seq_shelf.specs.Rows.{line_at, AreFresh};
ghost use Rattle.seq_shelf.specs.Told.{Map};
ghost use Rattle.seq_retell.specs.Shown.{inputs_shown};
ghost use Rattle.seq_schedule.specs.Faultless.{AreFaultless};
ghost use Rattle.seq_report.specs.Texts.{is_reported};
ghost use Rattle.seq_cli.specs.Commands.{run};
ghost use Rattle.seq_cli.specs.Opening.{OpensForm, AsksRun, AsksImage};
ghost use Rattle.seq_cli.specs.Endings.{status_of, EndsFaultless, EndsStillFaultless};
ghost use Rattle.seq_cli.specs.Running.{RunsOrWants, Reports};
ghost use Rattle.seq_cli.specs.Texts.{IsHungMask, IsReport, IsReportAsked, IsText};
ghost use Rattle.seq_cli.specs.Top.{Ended};

use crate::answer::{Answer, wanting};
use crate::opening::{Loaded, open};
use crate::status::status_of;
use seq_course::{Ending, courses_check_uncovered, run};
use seq_flat::{Flat, Inputs, StepError};
use seq_machine::Hardware;
use seq_recount::{entries_for, histories_fit};
use seq_report::{Status, is_reported, report};
use seq_retell::{Kept, inputs_shown, retell};
use seq_shelf::{Chronicle, Line, Outlet, Shelf, accepted};
use seq_words::{Bytes, Entry, MachineDesc, NoMemory};
use std::alloc::Global;

// The flat machine after the steps of a history that is a flat run.
fn told_again(
    alloc: Global,
    desc: &MachineDesc,
    inputs: &Inputs,
    history: &[Entry],
) -> Result<Flat, NoMemory>
    requires described { IsDescription desc.now }
    requires runs { (f : FlatState) × (flat_run desc.now inputs.now.lines history.now ≡ Some f) }
    ensures { IfOk result (λ flat. flat_run desc.now inputs.now.lines history.now ≡ Some flat.state) }
{
    match retell(alloc, desc, inputs, history) {
        Ok(flat) => Ok(flat),
        Err(StepError::NoMemory) => Err(NoMemory),
        Err(StepError::Waits(_)) => unreachable!(),
    }
}

// How many bytes each of the first `count` lines has accepted.
fn accepted_on(alloc: Global, lines: &[Outlet], count: usize) -> Result<Vec<u64>, NoMemory>
    requires { count ≤ length lines.now }
    ensures { IfOk result (λ sent. sent.items ≡ map (λ v. v.count) (take count (views (λ z. (⟦<dyn Line as Line>⟧ z.0).line z.1) lines.now))) }
{
    let mut sent = Vec::new(alloc);
    for line in 0..count {
        if sent.push(accepted(lines, line)).is_err() {
            return Err(NoMemory);
        }
    }
    Ok(sent)
}

// Whether the outlet of a line is hung up.
fn is_hung(lines: &[Outlet], line: usize) -> bool
    requires { line < length lines.now }
    ensures { result ≡ get_or (marks lines.now) line false }
{
    lines[line].hung
}

// A mask of the lines above one, with that line as its lowest.
fn with_line(mask: u16, hung: bool) -> u16
    requires { mask < 2 ^ 15 }
    ensures { result ≡ 2 * mask + (if hung then 1 else 0) }
{
    2 * mask + u16::from(hung)
}

// The mask of sixteen outlets, with a bit for each that is hung up. It is made from the highest line down.
fn hung_mask(lines: &[Outlet]) -> u16
    requires { length lines.now ≡ 16 }
    ensures { IsHungMask result (marks lines.now) }
{
    let mut mask = 0;
    for above in 0..16 {
        mask = with_line(mask, is_hung(lines, 15 - above));
    }
    mask
}

// The report of a run on this hardware, where there is one of this status.
fn report_of(
    alloc: Global,
    status: &Status,
    hardware: &Hardware,
    history: &[Entry],
    lines: &[Outlet],
) -> Result<Bytes, NoMemory>
    requires described { IsDescription hardware.now.desc }
    requires ports { length hardware.now.ports ≡ line_count hardware.now.desc }
    requires sixteen { length lines.now ≡ 16 }
    requires runs { (f : FlatState) × (flat_run hardware.now.desc (inputs_shown hardware.now.ports) history.now ≡ Some f) }
    ensures { IfOk result (Reports status.now hardware.now history.now (views (λ z. (⟦<dyn Line as Line>⟧ z.0).line z.1) lines.now) (marks lines.now)) }
{
    if !is_reported(status) {
        return Err(NoMemory);
    }
    let inputs = inputs_shown(alloc, hardware.ports.as_slice())?;
    let flat = told_again(alloc, hardware.desc(), &inputs, history)?;
    let sent = accepted_on(alloc, lines, hardware.ports.len())?;
    report(alloc, status, &flat, history, &sent, hung_mask(lines))
}

// The answer of a run that ended so on this hardware.
fn answer_of(
    alloc: Global,
    ending: &Ending,
    hardware: &Hardware,
    history: &[Entry],
    lines: &[Outlet],
) -> Answer
    requires described { IsDescription hardware.now.desc }
    requires ports { length hardware.now.ports ≡ line_count hardware.now.desc }
    requires sixteen { length lines.now ≡ 16 }
    requires runs { (f : FlatState) × (flat_run hardware.now.desc (inputs_shown hardware.now.ports) history.now ≡ Some f) }
    ensures status { result.status ≡ status_of ending.now }
    ensures text { IfOk result.text (Reports result.status hardware.now history.now (views (λ z. (⟦<dyn Line as Line>⟧ z.0).line z.1) lines.now) (marks lines.now)) }
{
    let status = status_of(ending);
    Answer {
        status,
        text: report_of(alloc, &status, hardware, history, lines),
    }
}

// Runs what was loaded: makes room for the history and the machine, and takes the course of the schedule's items on it. All memory of
// the run is taken before its first event.
fn run_loaded<C: Chronicle>(
    alloc: Global,
    loaded: Loaded,
    lines: &mut Vec<Outlet>,
    chronicle: &mut C,
) -> Answer
    requires described { IsDescription loaded.desc }
    requires faultless { AreFaultless loaded.desc loaded.items }
    requires sixteen { length lines.old.items ≡ 16 }
    requires fresh { AreFresh (views line lines.old.items) (marks lines.old.items) }
    ensures runs { RunsOrWants loaded.desc loaded.items result.status (C.chronicle chronicle.old) (C.chronicle chronicle.new)
        (views line lines.old.items) (views line lines.new.items) }
    ensures text { IfOk result.text (λ text. (is_reported result.status ≡ true) × IsReport loaded.desc loaded.items result.status (C.chronicle chronicle.old) (C.chronicle chronicle.new)
        (views line lines.old.items) (views line lines.new.items) (marks lines.new.items) text) }
    ensures hung { marks lines.new.items ≡ marks lines.old.items }
{
    histories_fit();
    let room = entries_for(&loaded.desc, loaded.items.as_slice());
    let mut kept = match Kept::with_room(alloc, room) {
        Ok(kept) => kept,
        Err(_) => return wanting(),
    };
    let mut hardware = match Hardware::new(alloc, loaded.desc) {
        Ok(hardware) => hardware,
        Err(_) => return wanting(),
    };
    match run(
        alloc,
        loaded.items.as_slice(),
        &mut hardware,
        lines,
        chronicle,
        &mut kept,
    ) {
        Ok(ending) => answer_of(alloc, &ending, &hardware, kept.entries(), lines),
        Err(_) => wanting(),
    }
}

/// Does `run MACHINE SCHEDULE`.
pub fn run_command<S: Shelf, C: Chronicle>(
    alloc: Global,
    shelf: &mut S,
    machine: &str,
    schedule: &str,
    lines: &mut Vec<Outlet>,
    chronicle: &mut C,
) -> Answer
    requires sixteen { length lines.old.items ≡ 16 }
    requires fresh { AreFresh (views line lines.old.items) (marks lines.old.items) }
    ensures ended { Ended (Some (run machine.now schedule.now)) result.status (S.shelf shelf.old) (S.shelf shelf.new)
        (C.chronicle chronicle.old) (C.chronicle chronicle.new) (views line lines.old.items) (views line lines.new.items) }
    ensures text { IfOk result.text (IsText (Some (run machine.now schedule.now)) (S.shelf shelf.old).told (S.shelf shelf.new).told
        (λ status. IsReportAsked (Some (run machine.now schedule.now)) (S.shelf shelf.old).told status
        (C.chronicle chronicle.old) (C.chronicle chronicle.new) (views line lines.old.items) (views line lines.new.items) (marks lines.new.items))
        result.status) }
    ensures complete { (m : Map) → (S.shelf shelf.old).told ≡ Some m → (asks : AsksRun (OpensForm m None (Some (run machine.now schedule.now))))
        → ¬ Rose (S.shelf shelf.old).faults (S.shelf shelf.new).faults
        → ¬ Rose (C.chronicle chronicle.old).faults (C.chronicle chronicle.new).faults
        → ((l : ℕ) → ¬ Rose (line_at (views line lines.old.items) l).faults (line_at (views line lines.new.items) l).faults)
        → EndsFaultless asks.desc asks.items result.status }
    ensures complete_image { (m : Map) → (S.shelf shelf.old).told ≡ Some m → AsksImage (OpensForm m None (Some (run machine.now schedule.now)))
        → ¬ Rose (S.shelf shelf.old).faults (S.shelf shelf.new).faults → EndsStillFaultless result.status }
    ensures hung { marks lines.new.items ≡ marks lines.old.items }
{
    courses_check_uncovered();
    match open(alloc, shelf, machine, schedule) {
        Ok(loaded) => run_loaded(alloc, loaded, lines, chronicle),
        Err(answer) => answer,
    }
}
