// A schedule's items, made one after the other.
ghost use Rattle.std.specs.Prelude.{◌≡◌, ◌≤◌, [], ◌++◌, length, map, IfOk, IfErr, OnOk, OnErr};
ghost use Rattle.std.specs.List.{range_with_len};
ghost use Rattle.seq_words.specs.Description.{line_count};
ghost use Rattle.seq_words.specs.declared.events.Event.TheVariants as event;
ghost use Rattle.seq_shelf.specs.Outlets.{views, marks};
ghost use Rattle.seq_shelf.specs.Rows.{AreFresh, AllAccept};
ghost use Rattle.seq_shelf.specs.Told.{Grows};
ghost use Rattle.seq_schedule.specs.Faultless.{AreFaultless};
ghost use Rattle.seq_schedule.specs.Scripted.{round_of};
ghost use Rattle.seq_machine.specs.Plain.{machine_of, IsHardware};
ghost use Rattle.seq_machine.specs.Starting.{no_outside, machine_at_start};
ghost use Rattle.seq_course.specs.Made.{TakesTelling};
ghost use Rattle.seq_course.specs.Making.{scene, MayCome, all_of, MayBegin, MakesScript, BreaksScript};

use crate::Ending;
use crate::making::{arrive, finish, make, repeat, turns};
use seq_machine::{Hardware, Stop};
use seq_retell::Kept;
use seq_schedule::{Item, Script};
use seq_shelf::{Chronicle, Line, Outlet};
use seq_words::{Event, Ioe, Items, MachineDesc, NoMemory, Pe};
use std::alloc::Global;

// Adds a turn of each processor, in ascending order.
#[tactic(auto, using(crate::proofs::Rounds::turns_more))]
fn push_processors(round: &mut Items<Event>, count: u8) -> Result<(), NoMemory>
    ensures { OnOk result (round.new ≡ round.old ++ map (λ n. event.Processor (record { 0 = n })) (range_with_len 0 count)) }
{
    for processor in 0..count {
        if round.push(Event::Processor(Pe(processor))).is_err() {
            return Err(NoMemory);
        }
    }
    Ok(())
}

// Adds a turn of each I/O element, in ascending order.
#[tactic(auto, using(crate::proofs::Rounds::turns_more))]
fn push_elements(round: &mut Items<Event>, count: u8) -> Result<(), NoMemory>
    ensures { OnOk result (round.new ≡ round.old ++ map (λ n. event.Io (record { 0 = n })) (range_with_len 0 count)) }
{
    for element in 0..count {
        if round.push(Event::Io(Ioe(element))).is_err() {
            return Err(NoMemory);
        }
    }
    Ok(())
}

// A round: a turn of each processor, then of each I/O element, in ascending order.
#[tactic(auto, unfolding(seq_schedule::specs::Scripted::round_of))]
fn round_of(alloc: Global, desc: &MachineDesc) -> Result<Items<Event>, NoMemory>
    ensures { IfOk result (λ round. round ≡ round_of desc.now) }
{
    let mut round = Items::new(alloc);
    push_processors(&mut round, desc.processors)?;
    push_elements(&mut round, desc.ios)?;
    Ok(round)
}

// Makes the events of a script. Answers whether the schedule goes on behind it.
fn make_script<C: Chronicle>(
    script: &Script,
    round: &[Event],
    hardware: &mut Hardware,
    lines: &mut Vec<Outlet>,
    chronicle: &mut C,
    kept: &mut Kept,
) -> Result<bool, Stop>
    requires round { round.now ≡ round_of hardware.old.desc }
    requires may { MayCome (all_of hardware.old.desc script.now) (scene hardware.old (C.chronicle chronicle.old) (views line lines.old.items) (marks lines.old.items) kept.old) }
    ensures ok { IfOk result (λ on. MakesScript script.now on (scene hardware.old (C.chronicle chronicle.old) (views line lines.old.items) (marks lines.old.items) kept.old) (scene hardware.new (C.chronicle chronicle.new) (views line lines.new.items) (marks lines.new.items) kept.new)) }
    ensures err { IfErr result (BreaksScript script.now (scene hardware.old (C.chronicle chronicle.old) (views line lines.old.items) (marks lines.old.items) kept.old) (scene hardware.new (C.chronicle chronicle.new) (views line lines.new.items) (marks lines.new.items) kept.new)) }
{
    match script {
        Script::One(event) => {
            make(&[*event], hardware, lines, chronicle, kept)?;
            Ok(true)
        }
        Script::Bytes(line, bytes) => {
            arrive(*line, bytes.as_slice(), hardware, lines, chronicle, kept)?;
            Ok(true)
        }
        Script::Turns(element, n) => {
            turns(*n, *element, hardware, lines, chronicle, kept)?;
            Ok(true)
        }
        Script::Rounds(n) => {
            repeat(*n, round, hardware, lines, chronicle, kept)?;
            Ok(true)
        }
        Script::Finish(n) => finish(*n, round, hardware, lines, chronicle, kept),
    }
}

// Makes the items one after the other.
fn make_items<C: Chronicle>(
    items: &[Item],
    round: &[Event],
    hardware: &mut Hardware,
    lines: &mut Vec<Outlet>,
    chronicle: &mut C,
    kept: &mut Kept,
) -> Ending
    requires items { AreFaultless hardware.old.desc items.now }
    requires round { round.now ≡ round_of hardware.old.desc }
    requires begins { MayBegin items.now (scene hardware.old (C.chronicle chronicle.old) (views line lines.old.items) (marks lines.old.items) kept.old) }
    ensures takes { TakesTelling hardware.old.desc items.now result (C.chronicle chronicle.old) (C.chronicle chronicle.new)
        (views line lines.old.items) (views line lines.new.items) hardware.new kept.new }
    ensures hung { marks lines.new.items ≡ marks lines.old.items }
    ensures room { kept.new.room ≡ kept.old.room }
    ensures desc { hardware.new.desc ≡ hardware.old.desc }
{
    for item in items {
        match make_script(&item.script, round, hardware, lines, chronicle, kept) {
            Ok(true) => {}
            Ok(false) => return Ending::OutOfTurns { line: item.line },
            Err(stop) => {
                return Ending::Stopped {
                    line: item.line,
                    stop,
                };
            }
        }
    }
    Ending::Done
}

/// Makes the events of a faultless schedule of a machine at its start: item by item, up to the first event that ends the run, or to
/// the first `finish` that runs out of turns. The chronicle gets the machine's history and the lines the bytes that it sends. The entries
/// of the history are kept besides, as many as there is room for.
///
/// Memory is taken before the first event alone; where it is wanting, no event is made. Line l of the machine is entry l of
/// `lines`.
pub fn run<C: Chronicle>(
    alloc: Global,
    items: &[Item],
    hardware: &mut Hardware,
    lines: &mut Vec<Outlet>,
    chronicle: &mut C,
    kept: &mut Kept,
) -> Result<Ending, NoMemory>
    requires hardware { IsHardware hardware.old }
    requires start { machine_of hardware.old no_outside ≡ machine_at_start hardware.old.desc }
    requires items { AreFaultless hardware.old.desc items.now }
    requires lines { line_count hardware.old.desc ≤ length lines.old.items }
    requires fresh { AreFresh (views line lines.old.items) (marks lines.old.items) }
    requires empty { kept.old.entries ≡ [] }

    // Which events were made, by the ending, what they released, and what they leave for a report.
    ensures takes { IfOk result (λ ending. TakesTelling hardware.old.desc items.now ending (C.chronicle chronicle.old) (C.chronicle chronicle.new)
        (views line lines.old.items) (views line lines.new.items) hardware.new kept.new) }

    // Where memory is wanting, no event was made.
    ensures err { OnErr result (C.chronicle chronicle.new ≡ C.chronicle chronicle.old) }
    ensures err_lines { OnErr result (AllAccept (views line lines.old.items) (views line lines.new.items) (λ l. [])) }
    ensures hung { marks lines.new.items ≡ marks lines.old.items }

    // The room for entries is as before, and so is the machine's description.
    ensures room { kept.new.room ≡ kept.old.room }
    ensures desc { hardware.new.desc ≡ hardware.old.desc }
{
    let round = round_of(alloc, hardware.desc())?;
    Ok(make_items(items, round.as_slice(), hardware, lines, chronicle, kept))
}
