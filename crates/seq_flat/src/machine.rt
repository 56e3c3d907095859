// The flat machine as a value of its own.
ghost use Rattle.std.specs.Prelude.{◌≡◌, ℕ, ◌+◌, ◌<◌, ◌≤◌, ◌++◌, List, [], length, map, replicate, slice_set, IfOk, OnOk, OnErr, IfErr, Ok};
ghost use Rattle.seq_words.specs.Description.{IsDescription};
ghost use Rattle.seq_flat.specs.State.{filled, start_regs, start_process, start_segment, rights_of, no_line, start, process_at};
ghost use Rattle.seq_flat.specs.Run.{output};
ghost use Rattle.seq_flat.specs.Step.{step_or_wait, Refuses};
ghost use Rattle.seq_flat.specs.Whole.{IsWhole};
ghost use Rattle.seq_flat.specs.Reached.{HasShape};
ghost use Rattle.seq_words.specs.declared.description.MachineDesc.{MachineDesc};

use crate::{End, FlatState, Inputs, LineState, ProcessState, Rights, SegmentState, StepError};
use seq_words::{Bytes, Items, LineNo, MachineDesc, NoMemory, Pid, ProcessDesc, Regs, SegmentDesc};
use std::alloc::Global;

/// The flat machine of a description.
#[derive(Drop)]
pub struct Flat {
    /// What the description lets each process use.
    pub rights: Items<Rights>,
    pub state: FlatState,
    ghost whole: { IsWhole state },
}

// Bytes, and zeros up to a size.
fn filled(alloc: Global, first: &Bytes, size: u32) -> Result<Bytes, NoMemory>
    ensures { IfOk result (λ b. b ≡ filled first.now size) }
{
    let mut bytes = Bytes::copy_of(alloc, first.as_slice())?;
    let zeros = (size as usize).saturating_sub(first.as_slice().len());
    match vec![in alloc; 0; zeros] {
        Ok(more) => bytes.append(&more)?,
        Err(_) => return Err(NoMemory),
    }
    Ok(bytes)
}

// The registers with which a process starts.
fn start_regs(size: u32, pc: u32) -> Regs
    ensures { result ≡ start_regs size pc }
{
    let mut x = [0; 32];
    x[2] = size;
    Regs { x, pc }
}

fn start_process(alloc: Global, process: &ProcessDesc) -> Result<ProcessState, NoMemory>
    ensures { IfOk result (λ q. q ≡ start_process process.now) }
{
    let bytes = filled(alloc, &process.image, process.size)?;
    Ok(ProcessState {
        regs: start_regs(process.size, process.entry),
        end: End::Live,
        bytes,
    })
}

fn start_segment(alloc: Global, segment: &SegmentDesc) -> Result<SegmentState, NoMemory>
    ensures { IfOk result (λ s. s ≡ start_segment segment.now) }
{
    let bytes = filled(alloc, &segment.first, segment.size)?;
    Ok(SegmentState { bytes, owner: None })
}

fn start_processes(
    alloc: Global,
    processes: &[ProcessDesc],
) -> Result<Items<ProcessState>, NoMemory>
    ensures { IfOk result (λ qs. qs ≡ map start_process processes.now) }
{
    let mut started = Items::new(alloc);
    for process in processes {
        let state = start_process(alloc, process)?;
        if started.push(state).is_err() {
            return Err(NoMemory);
        }
    }
    Ok(started)
}

fn start_segments(alloc: Global, segments: &[SegmentDesc]) -> Result<Items<SegmentState>, NoMemory>
    ensures { IfOk result (λ ss. ss ≡ map start_segment segments.now) }
{
    let mut started = Items::new(alloc);
    for segment in segments {
        let state = start_segment(alloc, segment)?;
        if started.push(state).is_err() {
            return Err(NoMemory);
        }
    }
    Ok(started)
}

fn start_lines(alloc: Global) -> Result<Items<LineState>, NoMemory>
    ensures { IfOk result (λ ls. ls ≡ replicate 16 no_line) }
{
    let mut started = Items::new(alloc);
    for number in 0..16usize {
        let line = LineState {
            read: 0,
            output: Bytes::new(alloc),
        };
        if started.push(line).is_err() {
            return Err(NoMemory);
        }
    }
    Ok(started)
}

// The rights of all processes.
fn rights_of(alloc: Global, processes: &[ProcessDesc]) -> Result<Items<Rights>, NoMemory>
    ensures { IfOk result (λ rs. rs ≡ map (λ p. record { lines = p.lines; grants = p.grants }) processes.now) }
{
    let mut rights = Items::new(alloc);
    for process in processes {
        let right = Rights {
            lines: process.lines,
            grants: process.grants,
        };
        if rights.push(right).is_err() {
            return Err(NoMemory);
        }
    }
    Ok(rights)
}

// The state at the start.
fn start_state(alloc: Global, desc: &MachineDesc) -> Result<FlatState, NoMemory>
    ensures { IfOk result (λ f. f ≡ start desc.now) }
{
    let processes = start_processes(alloc, desc.processes.as_slice())?;
    let segments = start_segments(alloc, desc.segments.as_slice())?;
    let lines = start_lines(alloc)?;
    Ok(FlatState {
        processes,
        segments,
        lines,
    })
}

impl Flat {
    /// The flat machine at its start.
    pub fn new(alloc: Global, desc: &MachineDesc) -> Result<Self, NoMemory>
        requires { IsDescription desc.now }
        ensures rights { IfOk result (λ f. f.rights ≡ rights_of desc.now) }
        ensures state { IfOk result (λ f. f.state ≡ start desc.now) }
        ensures shape { IfOk result (λ f. HasShape desc.now f.state) }
    {
        let rights = rights_of(alloc, desc.processes.as_slice())?;
        let state = start_state(alloc, desc)?;
        Ok(Flat { rights, state })
    }

    /// One step of a process. It waits exactly where the process isn't enabled, and says for what; a process that isn't
    /// in the description waits as ended. An error changes nothing. A state keeps the shape of the description's machine.
    pub fn step(&mut self, pid: Pid, inputs: &Inputs) -> Result<(), StepError>
        ensures ok { OnOk result (step_or_wait self.old.rights inputs.now.lines self.old.state pid.0 ≡ Ok self.new.state) }
        ensures waits { IfErr result (Refuses (step_or_wait self.old.rights inputs.now.lines self.old.state pid.0)) }
        ensures same { OnErr result (self.new.state ≡ self.old.state) }
        ensures rights { self.new.rights ≡ self.old.rights }
        ensures shape { (d : MachineDesc) → HasShape d self.old.state → HasShape d self.new.state }
    {
        self.state.step(self.rights.as_slice(), pid, inputs)
    }

    /// What a line has put out so far: nothing for a line above 15.
    pub fn output(&self, line: LineNo) -> &[u8]
        ensures { result.now ≡ output self.now.state line.0 }
    {
        match self.state.lines.as_slice().get(line.0 as usize) {
            Some(found) => found.output.as_slice(),
            None => &[],
        }
    }

    /// How a process stands.
    pub fn end(&self, pid: Pid) -> End
        requires { pid.0 < length self.now.state.processes }
        ensures { result ≡ (process_at self.now.state pid.0).end }
    {
        self.state.processes.at(pid.0 as usize).end
    }
}
