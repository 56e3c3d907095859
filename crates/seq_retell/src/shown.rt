ghost use Rattle.std.specs.Prelude.{◌≡◌, map, IfOk};
ghost use Rattle.seq_retell.specs.Shown.{input_shown, inputs_shown};

use seq_flat::{Inputs, LineInput};
use seq_io::PortState;
use seq_words::{Bytes, Items, NoMemory};
use std::alloc::Global;
use std::cmp::min;

// What has arrived at a port.
#[tactic(auto, using(std::proofs::lemmas::List::take_min))]
fn input_shown(alloc: Global, port: &PortState) -> Result<LineInput, NoMemory>
    ensures { IfOk result (λ input. input ≡ input_shown port.now) }
{
    let store = port.store.as_slice();
    let arrived = min(port.arrived as usize, store.len());
    let bytes = Bytes::copy_of(alloc, &store[..arrived])?;
    Ok(LineInput {
        bytes,
        closed: port.closed,
    })
}

/// What has arrived at each port.
pub fn inputs_shown(alloc: Global, ports: &[PortState]) -> Result<Inputs, NoMemory>
    ensures { IfOk result (λ inputs. inputs.lines ≡ inputs_shown ports.now) }
{
    let mut lines = Items::new(alloc);
    for port in ports {
        let input = input_shown(alloc, port)?;
        if lines.push(input).is_err() {
            return Err(NoMemory);
        }
    }
    Ok(Inputs { lines })
}
