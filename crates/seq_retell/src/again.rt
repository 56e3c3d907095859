// The flat machine along a history.
ghost use Rattle.std.specs.Prelude.{◌≡◌, Some, None, Err, IfOk, IfErr, OnOk};
ghost use Rattle.seq_words.specs.Description.{IsDescription};
ghost use Rattle.seq_words.specs.declared.description.MachineDesc.{MachineDesc};
ghost use Rattle.seq_flat.specs.declared.state.Waits.{Waits};
ghost use Rattle.seq_flat.specs.State.{rights_of};
ghost use Rattle.seq_flat.specs.Run.{steps, flat_run};
ghost use Rattle.seq_flat.specs.Reached.{HasShape};

use seq_flat::{Flat, Inputs, StepError};
use seq_words::{Entry, MachineDesc, NoMemory};
use std::alloc::Global;

// Takes the steps of an entry.
fn take_steps(flat: &mut Flat, entry: Entry, inputs: &Inputs) -> Result<(), StepError>
    ensures ok { OnOk result ((d : MachineDesc) → rights_of d ≡ flat.old.rights →
        steps d inputs.now.lines entry.pid.0 entry.count flat.old.state ≡ Some flat.new.state) }
    ensures waits { IfErr result (λ e. (w : Waits) → e ≡ StepError.Waits w → (d : MachineDesc) → rights_of d ≡ flat.old.rights →
        steps d inputs.now.lines entry.pid.0 entry.count flat.old.state ≡ None) }
    ensures rights { flat.new.rights ≡ flat.old.rights }
    ensures shape { (d : MachineDesc) → HasShape d flat.old.state → HasShape d flat.new.state }
{
    for taken in 0..entry.count {
        flat.step(entry.pid, inputs)?;
    }
    Ok(())
}

/// The flat machine after the steps of a history, with this input. It waits only where the history is no flat run.
pub fn retell(
    alloc: Global,
    desc: &MachineDesc,
    inputs: &Inputs,
    history: &[Entry],
) -> Result<Flat, StepError>
    requires { IsDescription desc.now }
    ensures ok { IfOk result (λ flat. flat_run desc.now inputs.now.lines history.now ≡ Some flat.state) }
    ensures waits { (w : Waits) → result ≡ Err (StepError.Waits w) → flat_run desc.now inputs.now.lines history.now ≡ None }
    ensures shape { IfOk result (λ flat. HasShape desc.now flat.state) }
{
    let mut flat = match Flat::new(alloc, desc) {
        Ok(flat) => flat,
        Err(NoMemory) => return Err(StepError::NoMemory),
    };
    for entry in history {
        take_steps(&mut flat, *entry, inputs)?;
    }
    Ok(flat)
}
