// Events made one after the other: a list of them, a list several times, turns, bytes that arrive, rounds until the machine is settled.
ghost use Rattle.std.specs.Prelude.{◌≡◌, ◌∷◌, ◌++◌, List, [], map, IfOk, IfErr, OnOk};
ghost use Rattle.seq_words.specs.declared.events.Entry.{Entry};
ghost use Rattle.seq_words.specs.declared.events.Event.TheVariants as event;
ghost use Rattle.seq_shelf.specs.Outlets.{views, marks};
ghost use Rattle.seq_schedule.specs.declared.script.Script.TheVariants as scripts;
ghost use Rattle.seq_schedule.specs.Scripted.{times, turn_of, round_of};
ghost use Rattle.seq_machine.specs.Happening.{entries_in};
ghost use Rattle.seq_course.specs.Made.{AreFirst};
ghost use Rattle.seq_course.specs.Making.{scene, MayCome, Makes, Breaks, MakesScript, BreaksScript};

use seq_machine::{Hardware, Note, Stop};
use seq_retell::Kept;
use seq_shelf::{Chronicle, Line, Outlet};
use seq_words::{Element, Entry, Event, LineNo};

// Keeps the entry of a note that says that one was committed, where there is room for it.
#[tactic(auto, using(seq_retell::proofs::Keeping::keeps_on))]
fn keep_commit(note: Note, kept: &mut Kept)
    ensures first { (history : List Entry) → AreFirst kept.old history → AreFirst kept.new (history ++ entries_in note) }
    ensures room { kept.new.room ≡ kept.old.room }
{
    if let Note::Committed(pid, count) = note {
        kept.keep_if_room(Entry { pid, count });
    }
}

// Makes this event. The entry that it commits is kept, where there is room.
#[inline(always)]
fn one<C: Chronicle>(
    event: Event,
    hardware: &mut Hardware,
    lines: &mut Vec<Outlet>,
    chronicle: &mut C,
    kept: &mut Kept,
) -> Result<(), Stop>
    requires { MayCome (event ∷ []) (scene hardware.old (C.chronicle chronicle.old) (views line lines.old.items) (marks lines.old.items) kept.old) }
    ensures ok { OnOk result (Makes (event ∷ []) (scene hardware.old (C.chronicle chronicle.old) (views line lines.old.items) (marks lines.old.items) kept.old) (scene hardware.new (C.chronicle chronicle.new) (views line lines.new.items) (marks lines.new.items) kept.new)) }
    ensures err { IfErr result (Breaks (event ∷ []) (scene hardware.old (C.chronicle chronicle.old) (views line lines.old.items) (marks lines.old.items) kept.old) (scene hardware.new (C.chronicle chronicle.new) (views line lines.new.items) (marks lines.new.items) kept.new)) }
{
    let note = hardware.event(event, lines, chronicle)?;
    keep_commit(note, kept);
    Ok(())
}

/// Makes these events, up to the first that ends the run.
#[inline(always)]
pub fn make<C: Chronicle>(
    events: &[Event],
    hardware: &mut Hardware,
    lines: &mut Vec<Outlet>,
    chronicle: &mut C,
    kept: &mut Kept,
) -> Result<(), Stop>
    requires { MayCome events.now (scene hardware.old (C.chronicle chronicle.old) (views line lines.old.items) (marks lines.old.items) kept.old) }
    ensures ok { OnOk result (Makes events.now (scene hardware.old (C.chronicle chronicle.old) (views line lines.old.items) (marks lines.old.items) kept.old) (scene hardware.new (C.chronicle chronicle.new) (views line lines.new.items) (marks lines.new.items) kept.new)) }
    ensures err { IfErr result (Breaks events.now (scene hardware.old (C.chronicle chronicle.old) (views line lines.old.items) (marks lines.old.items) kept.old) (scene hardware.new (C.chronicle chronicle.new) (views line lines.new.items) (marks lines.new.items) kept.new)) }
{
    for event in events {
        one(*event, hardware, lines, chronicle, kept)?;
    }
    Ok(())
}

/// Makes these events so many times.
#[inline(always)]
pub fn repeat<C: Chronicle>(
    count: u32,
    events: &[Event],
    hardware: &mut Hardware,
    lines: &mut Vec<Outlet>,
    chronicle: &mut C,
    kept: &mut Kept,
) -> Result<(), Stop>
    requires { MayCome (times count events.now) (scene hardware.old (C.chronicle chronicle.old) (views line lines.old.items) (marks lines.old.items) kept.old) }
    ensures ok { OnOk result (Makes (times count events.now) (scene hardware.old (C.chronicle chronicle.old) (views line lines.old.items) (marks lines.old.items) kept.old) (scene hardware.new (C.chronicle chronicle.new) (views line lines.new.items) (marks lines.new.items) kept.new)) }
    ensures err { IfErr result (Breaks (times count events.now) (scene hardware.old (C.chronicle chronicle.old) (views line lines.old.items) (marks lines.old.items) kept.old) (scene hardware.new (C.chronicle chronicle.new) (views line lines.new.items) (marks lines.new.items) kept.new)) }
{
    for made in 0..count {
        make(events, hardware, lines, chronicle, kept)?;
    }
    Ok(())
}

/// Makes so many turns of an element. A memory has none.
pub fn turns<C: Chronicle>(
    count: u32,
    element: Element,
    hardware: &mut Hardware,
    lines: &mut Vec<Outlet>,
    chronicle: &mut C,
    kept: &mut Kept,
) -> Result<(), Stop>
    requires { MayCome (times count (turn_of element)) (scene hardware.old (C.chronicle chronicle.old) (views line lines.old.items) (marks lines.old.items) kept.old) }
    ensures ok { OnOk result (Makes (times count (turn_of element)) (scene hardware.old (C.chronicle chronicle.old) (views line lines.old.items) (marks lines.old.items) kept.old) (scene hardware.new (C.chronicle chronicle.new) (views line lines.new.items) (marks lines.new.items) kept.new)) }
    ensures err { IfErr result (Breaks (times count (turn_of element)) (scene hardware.old (C.chronicle chronicle.old) (views line lines.old.items) (marks lines.old.items) kept.old) (scene hardware.new (C.chronicle chronicle.new) (views line lines.new.items) (marks lines.new.items) kept.new)) }
{
    match element {
        Element::Processor(pe) => repeat(
            count,
            &[Event::Processor(pe)],
            hardware,
            lines,
            chronicle,
            kept,
        ),
        Element::Io(io) => repeat(count, &[Event::Io(io)], hardware, lines, chronicle, kept),
        Element::Memory(_) => Ok(()),
    }
}

/// Lets these bytes arrive on a line.
pub fn arrive<C: Chronicle>(
    number: LineNo,
    bytes: &[u8],
    hardware: &mut Hardware,
    lines: &mut Vec<Outlet>,
    chronicle: &mut C,
    kept: &mut Kept,
) -> Result<(), Stop>
    requires { MayCome (map (λ byte. event.Input number byte) bytes.now) (scene hardware.old (C.chronicle chronicle.old) (views line lines.old.items) (marks lines.old.items) kept.old) }
    ensures ok { OnOk result (Makes (map (λ byte. event.Input number byte) bytes.now) (scene hardware.old (C.chronicle chronicle.old) (views line lines.old.items) (marks lines.old.items) kept.old) (scene hardware.new (C.chronicle chronicle.new) (views line lines.new.items) (marks lines.new.items) kept.new)) }
    ensures err { IfErr result (Breaks (map (λ byte. event.Input number byte) bytes.now) (scene hardware.old (C.chronicle chronicle.old) (views line lines.old.items) (marks lines.old.items) kept.old) (scene hardware.new (C.chronicle chronicle.new) (views line lines.new.items) (marks lines.new.items) kept.new)) }
{
    for byte in bytes {
        one(
            Event::Input(number, *byte),
            hardware,
            lines,
            chronicle,
            kept,
        )?;
    }
    Ok(())
}

/// Makes rounds until the machine is settled, at most so many. Answers whether it is settled then.
pub fn finish<C: Chronicle>(
    most: u32,
    round: &[Event],
    hardware: &mut Hardware,
    lines: &mut Vec<Outlet>,
    chronicle: &mut C,
    kept: &mut Kept,
) -> Result<bool, Stop>
    requires round { round.now ≡ round_of hardware.old.desc }
    requires may { MayCome (times most round.now) (scene hardware.old (C.chronicle chronicle.old) (views line lines.old.items) (marks lines.old.items) kept.old) }
    ensures ok { IfOk result (λ settled. MakesScript (scripts.Finish most) settled (scene hardware.old (C.chronicle chronicle.old) (views line lines.old.items) (marks lines.old.items) kept.old) (scene hardware.new (C.chronicle chronicle.new) (views line lines.new.items) (marks lines.new.items) kept.new)) }
    ensures err { IfErr result (BreaksScript (scripts.Finish most) (scene hardware.old (C.chronicle chronicle.old) (views line lines.old.items) (marks lines.old.items) kept.old) (scene hardware.new (C.chronicle chronicle.new) (views line lines.new.items) (marks lines.new.items) kept.new)) }
{
    for made in 0..most {
        if hardware.settled(lines) {
            return Ok(true);
        }
        make(round, hardware, lines, chronicle, kept)?;
    }
    Ok(hardware.settled(lines))
}
