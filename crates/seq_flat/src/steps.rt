// One step of a process on the flat state.
ghost use Rattle.std.specs.Prelude.{◌≡◌, ℕ, ◌+◌, ◌-◌, ◌%◌, ◌^◌, ◌<◌, ◌≤◌, List, length, Ok, Err, OnOk, OnErr, IfErr};
ghost use Rattle.seq_isa.specs.Meaning.{outcome_at};
ghost use Rattle.seq_flat.specs.State.{process_at, rights_at};
ghost use Rattle.seq_flat.specs.Memory.{seen};
ghost use Rattle.seq_flat.specs.Calls.{argument, kernel_call};
ghost use Rattle.seq_flat.specs.Step.{is_live, outcome, step_or_wait, Refuses};
ghost use Rattle.seq_flat.specs.Whole.{IsWhole};
ghost use Rattle.seq_flat.specs.Effects.{plain_effect, process_after, segments_after_effect, state_after_effect};

use crate::memory::View;
use crate::{End, FlatState, Inputs, ProcessState, Rights, SegmentState, StepError, Waits};
use seq_rv32::{Effect, exec};
use seq_words::{Items, Pid};

// A process takes the instruction at its pc, unless it is a kernel call or traps.
#[tactic(auto, using(crate::proofs::PlainEffects::is_plain))]
fn execute(process: &mut ProcessState, segments: &mut Items<SegmentState>, pid: Pid) -> Effect
    requires { process.old.regs.pc % 4 ≡ 0 }
    ensures effect { result ≡ plain_effect (outcome_at process.old.regs (seen process.old.bytes segments.old pid.0)) }
    ensures process { process.new ≡ process_after process.old result }
    ensures segments { segments.new ≡ segments_after_effect segments.old result }
{
    let mut view = View {
        bytes: &mut process.bytes,
        segments,
        pid,
    };
    exec(&mut process.regs, &mut view)
}

impl FlatState {
    // Process `pid` takes the instruction at its pc, unless it is a kernel call or traps.
    fn execute(&mut self, pid: Pid) -> Effect
        requires there { pid.0 < length self.old.processes }
        requires aligned { (process_at self.old pid.0).regs.pc % 4 ≡ 0 }
        ensures effect { result ≡ plain_effect (outcome self.old pid.0) }
        ensures state { self.new ≡ state_after_effect self.old pid.0 result }
    {
        let process = self.processes.at_mut(pid.0 as usize);
        execute(process, &mut self.segments, pid)
    }

    // Whether process `pid` is live.
    fn is_live(&self, pid: Pid) -> bool
        requires { pid.0 < length self.now.processes }
        ensures { result ≡ is_live (process_at self.now pid.0).end }
    {
        matches!(self.processes.at(pid.0 as usize).end, End::Live)
    }

    // The pc of process `pid`.
    fn pc(&self, pid: Pid) -> u32
        requires { pid.0 < length self.now.processes }
        ensures { result ≡ (process_at self.now pid.0).regs.pc }
    {
        self.processes.at(pid.0 as usize).regs.pc
    }

    /// A step of a process that has these rights. It waits exactly where the process isn't enabled; an error changes
    /// nothing.
    #[tactic(auto)]
    pub fn step(&mut self, rights: &[Rights], pid: Pid, inputs: &Inputs) -> Result<(), StepError>
        requires { IsWhole self.old }
        ensures ok { OnOk result (step_or_wait rights.now inputs.now.lines self.old pid.0 ≡ Ok self.new) }
        ensures waits { IfErr result (Refuses (step_or_wait rights.now inputs.now.lines self.old pid.0)) }
        ensures same { OnErr result (self.new ≡ self.old) }
    {
        if pid.0 as usize >= self.processes.len() {
            return Err(StepError::Waits(Waits::Ended));
        }
        if !self.is_live(pid) {
            return Err(StepError::Waits(Waits::Ended));
        }
        let pc = self.pc(pid);
        match self.execute(pid) {
            Effect::Next { .. } => Ok(()),
            Effect::Full => Ok(()),
            Effect::Call => self.call(rights_of(rights, pid), inputs, pid),
            Effect::Trap(cause) => {
                self.end_process(pid, End::Trapped(cause, pc));
                Ok(())
            }
        }
    }
}

// The rights of a process.
fn rights_of(rights: &[Rights], pid: Pid) -> Rights
    ensures { result ≡ rights_at rights.now pid.0 }
{
    match rights.get(pid.0 as usize) {
        Some(found) => *found,
        None => Rights {
            lines: 0,
            grants: 0,
        },
    }
}
