// The hardware of a description, made.
ghost use Rattle.std.specs.Prelude.{◌≡◌, length, replicate, IfOk};
ghost use Rattle.seq_words.specs.Description.{IsDescription, line_count};
ghost use Rattle.seq_turns.specs.Start.{start};
ghost use Rattle.seq_machine.specs.Plain.{idle_processor, fresh_element, empty_port, machine_of, IsHardware};
ghost use Rattle.seq_machine.specs.Starting.{no_outside, machine_at_start};

use crate::{Hardware, Processor};
use seq_cache::Cache;
use seq_io::{IoElement, PortState};
use seq_layout::Layout;
use seq_start::start_memories;
use seq_turns::Hand;
use seq_words::{Bytes, Items, MachineDesc, NoMemory};
use std::alloc::Global;

// So many copies of an item.
#[tactic(auto, using(crate::proofs::Lists::one_more))]
fn repeated<T: Copy + Drop>(alloc: Global, item: T, count: usize) -> Result<Items<T>, NoMemory>
    ensures { IfOk result (λ items. items ≡ replicate count item) }
{
    let mut items = Items::new(alloc);
    for number in 0..count {
        if items.push(item).is_err() {
            return Err(NoMemory);
        }
    }
    Ok(items)
}

// A processor that seeks, with an empty cache.
fn idle_processor(alloc: Global, desc: &MachineDesc) -> Result<Processor, NoMemory>
    ensures { IfOk result (λ processor. processor ≡ idle_processor desc.now) }
{
    Ok(Processor {
        hand: Hand::Seek,
        cache: Cache::new(alloc, desc.cache)?,
    })
}

#[tactic(auto, using(crate::proofs::Lists::one_more))]
fn idle_processors(alloc: Global, desc: &MachineDesc) -> Result<Items<Processor>, NoMemory>
    ensures { IfOk result (λ processors. processors ≡ replicate desc.now.processors (idle_processor desc.now)) }
{
    let mut processors = Items::new(alloc);
    for number in 0..desc.processors {
        let processor = idle_processor(alloc, desc)?;
        if processors.push(processor).is_err() {
            return Err(NoMemory);
        }
    }
    Ok(processors)
}

// A port at which nothing has arrived, with room for as much as the journal of its line.
fn empty_port(alloc: Global, desc: &MachineDesc) -> Result<PortState, NoMemory>
    ensures { IfOk result (λ port. port ≡ empty_port desc.now) }
{
    let Ok(items) = vec![in alloc; 0; desc.journal as usize] else {
        return Err(NoMemory);
    };
    Ok(PortState {
        taken: 0,
        arrived: 0,
        store: Bytes { items },
        closed: false,
    })
}

#[tactic(auto, using(crate::proofs::Lists::one_more))]
fn empty_ports(
    alloc: Global,
    lines: usize,
    desc: &MachineDesc,
) -> Result<Items<PortState>, NoMemory>
    ensures { IfOk result (λ ports. ports ≡ replicate lines (empty_port desc.now)) }
{
    let mut ports = Items::new(alloc);
    for line in 0..lines {
        let port = empty_port(alloc, desc)?;
        if ports.push(port).is_err() {
            return Err(NoMemory);
        }
    }
    Ok(ports)
}

impl Hardware {
    /// The hardware of a description at its start: every processor seeks, and the memories, all in service, hold the contexts,
    /// the images and the first bytes of the description. All memory that the machine needs while it runs is taken here; where
    /// it is refused, the description is given up.
    pub fn new(alloc: Global, desc: MachineDesc) -> Result<Hardware, NoMemory>
        requires { IsDescription desc }
        ensures hardware { IfOk result IsHardware }
        ensures desc { IfOk result (λ h. h.desc ≡ desc) }
        ensures starts { IfOk result (λ h. machine_of h no_outside ≡ machine_at_start desc) }
    {
        let layout = Layout::new(alloc, &desc)?;
        let memories = start_memories(alloc, &desc, &layout)?;
        let element = IoElement {
            up: true,
            cursor: 0,
        };
        Ok(Hardware {
            processors: idle_processors(alloc, &desc)?,
            memories,
            ios: repeated(alloc, element, desc.ios as usize)?,
            scan: repeated(alloc, 0, desc.processors as usize)?,
            incarnations: repeated(alloc, 0, desc.processors as usize)?,
            ports: empty_ports(alloc, layout.lines(), &desc)?,
            desc,
            layout,
        })
    }

    /// The description of its machine.
    pub fn desc(&self) -> &MachineDesc
        ensures { result.now ≡ self.now.desc }
    {
        &self.desc
    }
}
