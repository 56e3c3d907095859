// What is out, and which events are covered, worked by hand. Of the machines here 720 turns end an out, and 360 are half of them.
ghost use Rattle.std.specs.Prelude.{◌≡◌, ◌≤◌, true, IfOk};
ghost use Rattle.seq_words.specs.Description.{IsDescription};
ghost use Rattle.seq_words.specs.Names.{has_name};
ghost use Rattle.seq_schedule.specs.Keeping.{names_element};

use seq_schedule::OutState;
use seq_words::{
    Bytes, Element, Event, Half, Ioe, Items, MachineDesc, Me, NoMemory, Pe, ProcessDesc,
};
use std::alloc::Global;

// A process of 64 bytes with line 0, on two memories, a journal of 32 bytes, with so many processors, and as many I/O elements.
fn machine(alloc: Global, number: u8) -> Result<MachineDesc, NoMemory>
    requires low { 1 ≤ number }
    requires high { number ≤ 2 }
    ensures { IfOk result IsDescription }
{
    let process = ProcessDesc {
        size: 64,
        entry: 0,
        image: Bytes::new(alloc),
        lines: 1,
        grants: 0,
    };
    let Ok(processes) = vec![in alloc; process] else {
        return Err(NoMemory);
    };
    Ok(MachineDesc {
        processors: number,
        memories: 2,
        ios: number,
        cache: 16,
        quantum: 1000,
        journal: 32,
        segments: Items::new(alloc),
        processes: Items::from_vec(processes),
    })
}

const P0: Element = Element::Processor(Pe(0));

const M0: Element = Element::Memory(Me(0));

const M1: Element = Element::Memory(Me(1));

const I0: Element = Element::Io(Ioe(0));

const I1: Element = Element::Io(Ioe(1));

// What happens in a test: so many turns of one element, so many rounds of one or of two processors, or an event.
#[derive(Clone, Copy)]
enum Happens {
    Turns(Element, u32),
    Rounds(u8, u32),
    Fails(Element),
    Repairs(Element),
    Upset,
}

use Happens::{Fails, Repairs, Rounds, Turns, Upset};

fn make(state: &mut OutState, event: Event)
    requires { names_element event ≡ true }
{
    state.after(&event);
}

fn turns(state: &mut OutState, element: Element, number: u32) {
    for _ in 0..number {
        match element {
            Element::Processor(Pe(p)) if p < 8 => make(state, Event::Processor(Pe(p))),
            Element::Io(Ioe(i)) if i < 4 => make(state, Event::Io(Ioe(i))),
            _ => {}
        }
    }
}

fn is_named(element: Element) -> bool
    ensures { result ≡ has_name element }
{
    match element {
        Element::Processor(Pe(p)) => p < 8,
        Element::Memory(Me(m)) => m < 8,
        Element::Io(Ioe(i)) => i < 4,
    }
}

fn happen(state: &mut OutState, happens: Happens) {
    match happens {
        Turns(element, number) => turns(state, element, number),
        Rounds(number, rounds) => {
            for _ in 0..rounds {
                for at in 0..number {
                    turns(state, Element::Processor(Pe(at)), 1);
                }
                for at in 0..number {
                    turns(state, Element::Io(Ioe(at)), 1);
                }
            }
        }
        Fails(element) => {
            if is_named(element) {
                make(state, Event::Fail(element));
            }
        }
        Repairs(element) => {
            if is_named(element) {
                make(state, Event::Repair(element));
            }
        }
        Upset => make(state, Event::Upset(Pe(0), Half::B, 5, 1)),
    }
}

// Whether the processor 0, the memories 0 and 1, and the I/O element 0 are out at the end, and whether the events are covered.
fn end(alloc: Global, number: u8, all: &[Happens]) -> Result<([bool; 4], bool), NoMemory>
    requires low { 1 ≤ number }
    requires high { number ≤ 2 }
{
    let mut state = OutState::new(&machine(alloc, number)?);
    for happens in all {
        happen(&mut state, *happens);
    }
    let outs = [state.out(P0), state.out(M0), state.out(M1), state.out(I0)];
    Ok((outs, state.covered()))
}

// Whether memory 0 is out so many rounds after its repair.
fn is_out_after(alloc: Global, number: u8, rounds: u32) -> Result<bool, NoMemory>
    requires low { 1 ≤ number }
    requires high { number ≤ 2 }
{
    let all = [Fails(M0), Repairs(M0), Rounds(number, rounds)];
    let ([_, memory, _, _], _) = end(alloc, number, &all)?;
    Ok(memory)
}

// 720 turns of each element end an out, and none fewer, of both machines.
#[test]
fn the_turns_that_end_an_out(rt: HostRuntime) -> Result<(), NoMemory> {
    let alloc = rt.alloc();
    assert!(rt; is_out_after(alloc, 1, 719)? && !is_out_after(alloc, 1, 720)?);
    assert!(rt; is_out_after(alloc, 2, 719)? && !is_out_after(alloc, 2, 720)?);
    Ok(())
}

// Memory 0 is out until both the processor and the I/O element have taken 720 turns since its repair, and only then may memory 1
// fail.
#[test]
fn a_memory_is_out_until_it_must_be_copied(rt: HostRuntime) -> Result<(), NoMemory> {
    let alloc = rt.alloc();
    let before = [
        Turns(P0, 15),
        Fails(M0),
        Turns(P0, 21),
        Repairs(M0),
        Turns(I0, 720),
        Turns(P0, 719),
    ];
    assert_eq!(rt;
        end(alloc, 1, &before)?,
        ([false, true, false, false], true)
    );
    let early = [
        Turns(P0, 15),
        Fails(M0),
        Turns(P0, 21),
        Repairs(M0),
        Turns(I0, 720),
        Turns(P0, 719),
        Fails(M1),
    ];
    assert_eq!(rt; end(alloc, 1, &early)?, ([false, true, true, false], false));
    let late = [
        Turns(P0, 15),
        Fails(M0),
        Turns(P0, 21),
        Repairs(M0),
        Turns(I0, 720),
        Turns(P0, 720),
        Fails(M1),
        Rounds(1, 100),
    ];
    assert_eq!(rt; end(alloc, 1, &late)?, ([false, false, true, false], true));
    Ok(())
}

// Where all processors and I/O elements are failed, the repaired memory stays out.
#[test]
fn where_all_are_failed_no_out_ends(rt: HostRuntime) -> Result<(), NoMemory> {
    let alloc = rt.alloc();
    let all = [Fails(I0), Fails(M0), Repairs(M0), Fails(P0)];
    assert_eq!(rt; end(alloc, 1, &all)?, ([true, true, false, true], false));
    Ok(())
}

// A processor needs the second counts too, and rounds meet both. Where one element takes its turns after the other, the second
// counts begin only when the last has taken half of them.
#[test]
fn a_processor_needs_both_counts(rt: HostRuntime) -> Result<(), NoMemory> {
    let alloc = rt.alloc();
    let rounds = [Fails(P0), Repairs(P0), Rounds(1, 720)];
    assert_eq!(rt;
        end(alloc, 1, &rounds)?,
        ([false, false, false, false], true)
    );
    let fewer = [Fails(P0), Repairs(P0), Rounds(1, 719)];
    assert_eq!(rt; end(alloc, 1, &fewer)?, ([true, false, false, false], true));
    let apart = [Fails(P0), Repairs(P0), Turns(I0, 720), Turns(P0, 720)];
    assert_eq!(rt; end(alloc, 1, &apart)?, ([true, false, false, false], true));
    let then = [
        Fails(P0),
        Repairs(P0),
        Turns(I0, 720),
        Turns(P0, 720),
        Turns(I0, 360),
    ];
    assert_eq!(rt; end(alloc, 1, &then)?, ([false, false, false, false], true));
    Ok(())
}

// The failure or the repair of another element begins all counts anew. One that is failed need take no turns.
#[test]
fn another_element_begins_the_counts_anew(rt: HostRuntime) -> Result<(), NoMemory> {
    let alloc = rt.alloc();
    let anew = [
        Fails(I1),
        Fails(M0),
        Repairs(M0),
        Rounds(2, 700),
        Repairs(I1),
        Rounds(2, 20),
    ];
    assert_eq!(rt; end(alloc, 2, &anew)?, ([false, true, false, false], true));
    let on = [
        Fails(I1),
        Fails(M0),
        Repairs(M0),
        Rounds(2, 700),
        Repairs(I1),
        Rounds(2, 720),
    ];
    assert_eq!(rt; end(alloc, 2, &on)?, ([false, false, false, false], true));
    let without = [Fails(I1), Fails(M0), Repairs(M0), Rounds(2, 720)];
    assert_eq!(rt;
        end(alloc, 2, &without)?,
        ([false, false, false, false], true)
    );
    Ok(())
}

// An upset makes a processor out, and a repair without a failure after it ends that never.
#[test]
fn an_upset_makes_a_processor_out(rt: HostRuntime) -> Result<(), NoMemory> {
    let alloc = rt.alloc();
    let upset = [Upset, Rounds(2, 2000)];
    assert_eq!(rt; end(alloc, 2, &upset)?, ([true, false, false, false], true));
    let after_its_failure = [Fails(P0), Upset, Repairs(P0), Rounds(2, 2000)];
    assert_eq!(rt;
        end(alloc, 2, &after_its_failure)?,
        ([true, false, false, false], true)
    );
    let mended = [Upset, Fails(P0), Repairs(P0), Rounds(2, 720)];
    assert_eq!(rt;
        end(alloc, 2, &mended)?,
        ([false, false, false, false], true)
    );
    let with_a_memory = [Upset, Rounds(2, 10), Fails(M0)];
    assert_eq!(rt;
        end(alloc, 2, &with_a_memory)?,
        ([true, true, false, false], false)
    );
    let with_an_io = [Fails(I0), Fails(M0)];
    assert_eq!(rt;
        end(alloc, 2, &with_an_io)?,
        ([false, true, false, true], true)
    );
    Ok(())
}
