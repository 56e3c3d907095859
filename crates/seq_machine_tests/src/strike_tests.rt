// Scenes in which halves are struck and I/O elements fail, worked by hand from the rules.
use crate::programs::{HELLO, HELLO2, LOOP};
use crate::stage::{Outcome, Row, Stage, alone, with_two_lines};
use crate::tests::{
    ENDS, EXITS, FAIL_0, FIVE_STEPS, HELLO_AFTER, HELLO_BEFORE, HELLO_COMMITS, HELLO_SENDS, I0, I1,
    MADE, MOVED, NOTHING, P0, P1, RAN, RECOVERED, REPAIR_0, SENT, STOPPED_0, alone_scene,
    counting_in_cycles, entry, first_scene, pair_scene, scene,
};
use seq_machine::Note;
use seq_words::{Element, Event, Half, Ioe, LineNo, Pe, Pid};
use std::alloc::Global;
use std::process::Abort;
use std::test::Fail;

const FAIL_I0: Event = Event::Fail(Element::Io(Ioe(0)));

const REPAIR_I0: Event = Event::Repair(Element::Io(Ioe(0)));

const STOPPED_I0: Outcome = Ok(Note::Stopped(Element::Io(Ioe(0))));

/// Strikes of the process that processor 0 runs, by half and register.
const STRIKE_A_X5: Event = Event::Upset(Pe(0), Half::A, 5, 1);

const STRIKE_A_X8: Event = Event::Upset(Pe(0), Half::A, 8, 0x100);

const STRIKE_A_X10: Event = Event::Upset(Pe(0), Half::A, 10, 1);

const STRIKE_A_PC: Event = Event::Upset(Pe(0), Half::A, 32, 4);

const STRIKE_B_X5: Event = Event::Upset(Pe(0), Half::B, 5, 1);

const STRIKE_B_X11: Event = Event::Upset(Pe(0), Half::B, 11, 0x8000_0000);

const STRIKE_B_X31: Event = Event::Upset(Pe(0), Half::B, 31, 1);

const STRIKE_B_PC: Event = Event::Upset(Pe(0), Half::B, 32, 4);

/// x31 is never read: the process runs on, and its processor stops where its exit compares the halves. It does nothing then.
const UNREAD: [Row; 5] = [
    (P0, 2, MOVED),
    (P0, 1, RAN),
    (STRIKE_B_X31, 1, MADE),
    (P0, 6, RAN),
    (P0, 1, STOPPED_0),
];

/// The halves are at two instructions: the next step stops the processor.
const APART: [Row; 4] = [
    (P0, 2, MOVED),
    (P0, 1, RAN),
    (STRIKE_A_PC, 1, MADE),
    (P0, 1, STOPPED_0),
];

/// x10 is struck before the call that reads it.
const BEFORE_A_CALL: [Row; 4] = [
    (P0, 2, MOVED),
    (P0, 4, RAN),
    (STRIKE_A_X10, 1, MADE),
    (P0, 1, STOPPED_0),
];

// A processor whose halves differ stops by these rows. The other recovers its process, and it works on once it is repaired.
fn stopped_scene(rt: &impl Abort, alloc: Global, stop: &[Row]) -> Result<(), Fail> {
    let parts: [&[Row]; 6] = [
        stop,
        &RECOVERED,
        &HELLO_BEFORE,
        &HELLO_COMMITS,
        &HELLO_AFTER,
        &HELLO_SENDS,
    ];
    pair_scene(rt, alloc, &parts, &[0x41], &[entry(0, 8)])
}

#[test]
fn differing_halves_stop_a_processor(rt: HostRuntime) -> Result<(), Fail> {
    let alloc = rt.alloc();
    stopped_scene(&rt, alloc, &UNREAD)?;
    stopped_scene(&rt, alloc, &APART)?;
    stopped_scene(&rt, alloc, &BEFORE_A_CALL)
}

const IDLE: [Row; 1] = [(P0, 1, NOTHING)];

// How often processor 0 has stopped, and how many blocks it has changed.
fn stops_of(stage: &Stage) -> Option<(u64, u32)> {
    let stops = stage.hardware.incarnations.as_slice().first()?;
    let processor = stage.hardware.processors.as_slice().first()?;
    Some((*stops, processor.cache.dirty()))
}

// A processor that stops has the next incarnation, and its cache is empty.
#[test]
fn a_stop_is_counted(rt: HostRuntime) -> Result<(), Fail> {
    let alloc = rt.alloc();
    let mut stage = Stage::new(alloc, alone(&rt, alloc, 2, 1000, 64, &HELLO)?)?;
    scene(&rt, alloc, &mut stage, false, &[&UNREAD, &IDLE], &[], &[])?;
    assert_eq!(rt; stops_of(&stage), Some((1, 0)));
    Ok(())
}

/// x11 is struck before the step that sets it, and x31 of the same half twice, which inverts its bit and inverts it back. Nothing
/// is found.
const OVERWRITTEN: [Row; 8] = [
    (P0, 2, MOVED),
    (P0, 1, RAN),
    (STRIKE_B_X11, 1, MADE),
    (STRIKE_B_X31, 2, MADE),
    (P0, 6, RAN),
    (P0, 1, EXITS),
    (P0, 2, MOVED),
    (P0, 9, MOVED),
];

/// A processor that seeks, and one that claims a process, run nothing: strikes of both halves change nothing.
const STRUCK_SEEKING: [Row; 10] = [
    (STRIKE_A_X5, 1, MADE),
    (STRIKE_B_PC, 1, MADE),
    (P0, 1, MOVED),
    (STRIKE_A_PC, 1, MADE),
    (STRIKE_B_X5, 1, MADE),
    (P0, 1, MOVED),
    (P0, 7, RAN),
    (P0, 1, EXITS),
    (P0, 2, MOVED),
    (P0, 9, MOVED),
];

// These rows lead to the end of the program: what is struck is overwritten, or nothing is there that is struck.
fn harmless_scene(rt: &impl Abort, alloc: Global, before: &[Row]) -> Result<(), Fail> {
    let parts: [&[Row]; 4] = [before, &HELLO_COMMITS, &HELLO_AFTER, &HELLO_SENDS];
    pair_scene(rt, alloc, &parts, &[0x41], &[entry(0, 8)])
}

#[test]
fn harmless_strikes_change_nothing(rt: HostRuntime) -> Result<(), Fail> {
    let alloc = rt.alloc();
    harmless_scene(&rt, alloc, &OVERWRITTEN)?;
    harmless_scene(&rt, alloc, &STRUCK_SEEKING)
}

/// A process that never ends takes five steps. Its pc is struck amid the mark of its flush, and again amid the first pass.
const STRUCK_AMID_FLUSH: [Row; 9] = [
    (P0, 2, MOVED),
    (P0, 5, RAN),
    (P0, 1, ENDS),
    (P0, 1, MOVED),
    (STRIKE_A_PC, 1, MADE),
    (P0, 4, MOVED),
    (STRIKE_A_X5, 1, MADE),
    (P0, 5, MOVED),
    (P0, 1, Ok(Note::Committed(Pid(0), 5))),
];

const LEAVES: [Row; 1] = [(P0, 13, MOVED)];

// Amid a flush the half that isn't struck is saved: the process goes on where it was.
#[test]
fn the_other_half_is_saved(rt: HostRuntime) -> Result<(), Fail> {
    let alloc = rt.alloc();
    let desc = alone(&rt, alloc, 1, 5, 32, &LOOP)?;
    let entries = [entry(0, 5), entry(0, 5)];
    let parts: [&[Row]; 3] = [&STRUCK_AMID_FLUSH, &LEAVES, &FIVE_STEPS];
    first_scene(&rt, alloc, desc, false, &parts, &[], &entries)
}

// Halves are struck amid whatever their processor is about. The sum is right, and each step is committed once.
#[test]
fn both_count_through_strikes(rt: HostRuntime) -> Result<(), Fail> {
    let alloc = rt.alloc();
    let cycle: [(&[Event], u32); 7] = [
        (&[P1, P0, I0], 83),
        (&[STRIKE_A_X8], 1),
        (&[P1, P0, I1], 131),
        (&[STRIKE_A_PC], 1),
        (&[P0, P1, P1], 61),
        (&[FAIL_0, REPAIR_0], 1),
        (&[P0, P1], 13),
    ];
    counting_in_cycles(&rt, alloc, &[], &cycle, 150)
}

/// The element fails after the first byte, before the committed words say that it was sent. It rests, and goes on with the second
/// byte once it is repaired, since the line has accepted one.
const FAILS_AFTER_A_BYTE: [Row; 7] = [
    (I0, 1, SENT),
    (FAIL_I0, 1, STOPPED_I0),
    (I0, 2, NOTHING),
    (REPAIR_I0, 1, MADE),
    (I0, 1, Ok(Note::Sent(LineNo(0), 0x42))),
    (I0, 2, MOVED),
    (I0, 1, NOTHING),
];

#[test]
fn a_line_counts_for_itself(rt: HostRuntime) -> Result<(), Fail> {
    let alloc = rt.alloc();
    let parts: [&[Row]; 4] = [
        &HELLO_BEFORE,
        &HELLO_COMMITS,
        &HELLO_AFTER,
        &FAILS_AFTER_A_BYTE,
    ];
    let bytes = [0x41, 0x42];
    alone_scene(&rt, alloc, &HELLO2, false, &parts, &bytes, &[entry(0, 8)])
}

/// An element fails at line 1 and serves line 0 first once it is repaired. The other one goes on meanwhile.
const BEGINS_AGAIN: [Row; 11] = [
    (I0, 1, SENT),
    (FAIL_I0, 1, STOPPED_I0),
    (I0, 1, NOTHING),
    (I1, 1, MOVED),
    (REPAIR_I0, 1, MADE),
    // It is at line 0, and then at line 1.
    (I0, 1, MOVED),
    (I0, 1, NOTHING),
    (Event::Input(LineNo(1), 7), 1, MADE),
    (I1, 1, MOVED),
    (I0, 1, NOTHING),
    (I0, 1, MOVED),
];

#[test]
fn a_repaired_element_begins_at_the_first_line(rt: HostRuntime) -> Result<(), Fail> {
    let alloc = rt.alloc();
    let desc = with_two_lines(&rt, alloc, 64, &HELLO)?;
    let parts: [&[Row]; 4] = [&HELLO_BEFORE, &HELLO_COMMITS, &HELLO_AFTER, &BEGINS_AGAIN];
    first_scene(&rt, alloc, desc, false, &parts, &[0x41], &[entry(0, 8)])
}
