// The top call: all that the program does.
ghost use Rattle.std.specs.Prelude.{◌≡◌, ◌≤◌, ℕ, List, [], length, Some, None, false, map as list_map, string_bytes, IfOk, OnOk, OnErr, ◌+◌, ◌++◌, ◌∷◌};
ghost use Rattle.seq_shelf.specs.Causes.{Rose};
ghost use Rattle.seq_shelf.specs.Outlets.{views, marks};
ghost use Rattle.seq_shelf.specs.Told.{Map};
ghost use Rattle.seq_shelf.specs.Rows.{line_at, AreFresh};
ghost use Rattle.seq_cli.specs.Commands.{form_of, command_of};
ghost use Rattle.seq_cli.specs.Opening.{OpensForm, Opens, AsksRun, AsksImage};
ghost use Rattle.seq_cli.specs.Endings.{EndsFaultless, EndsStillFaultless};
ghost use Rattle.seq_cli.specs.Printing.{Ends};
ghost use Rattle.seq_cli.specs.Texts.{IsReportAsked, IsText};
ghost use Rattle.seq_cli.specs.Top.{Ended};

use crate::answer::Answer;
use crate::command::{Command, read_form};
use crate::images::{assemble_command, list_command};
use crate::printing::{print, print_usage};
use crate::running::run_command;
use seq_report::Status;
use seq_shelf::{Chronicle, Line, Outlet, Shelf, Sink};
use seq_words::NoMemory;
use std::alloc::Global;

// Carries a command out, up to the printing.
fn carry_out<S: Shelf, C: Chronicle>(
    alloc: Global,
    command: Command,
    shelf: &mut S,
    lines: &mut Vec<Outlet>,
    chronicle: &mut C,
) -> Answer
    requires sixteen { length lines.old.items ≡ 16 }
    requires fresh { AreFresh (views line lines.old.items) (marks lines.old.items) }
    ensures ended { Ended (Some (command_of command.entry)) result.status (S.shelf shelf.old) (S.shelf shelf.new)
        (C.chronicle chronicle.old) (C.chronicle chronicle.new) (views line lines.old.items) (views line lines.new.items) }
    ensures text { IfOk result.text (IsText (Some (command_of command.entry)) (S.shelf shelf.old).told (S.shelf shelf.new).told
        (λ status. IsReportAsked (Some (command_of command.entry)) (S.shelf shelf.old).told status
        (C.chronicle chronicle.old) (C.chronicle chronicle.new) (views line lines.old.items) (views line lines.new.items) (marks lines.new.items))
        result.status) }
    ensures complete { (m : Map) → (S.shelf shelf.old).told ≡ Some m → (asks : AsksRun (OpensForm m None (Some (command_of command.entry))))
        → ¬ Rose (S.shelf shelf.old).faults (S.shelf shelf.new).faults
        → ¬ Rose (C.chronicle chronicle.old).faults (C.chronicle chronicle.new).faults
        → ((l : ℕ) → ¬ Rose (line_at (views line lines.old.items) l).faults (line_at (views line lines.new.items) l).faults)
        → EndsFaultless asks.desc asks.items result.status }
    ensures complete_image { (m : Map) → (S.shelf shelf.old).told ≡ Some m → AsksImage (OpensForm m None (Some (command_of command.entry)))
        → ¬ Rose (S.shelf shelf.old).faults (S.shelf shelf.new).faults → EndsStillFaultless result.status }
    ensures hung { marks lines.new.items ≡ marks lines.old.items }
{
    match command {
        Command::Run { machine, schedule } => {
            run_command(alloc, shelf, machine, schedule, lines, chronicle)
        }
        Command::Assemble { source, image } => assemble_command(alloc, shelf, source, image),
        Command::List { image } => list_command(alloc, shelf, image),
    }
}

/// Does what the words ask for, prints its text to the sink, and answers how that ended: it loads the files, runs the machine and
/// reports the run; or it assembles a source and stores the image; or it lists an image.
///
/// `words` are those after the program's name. The files of a run are looked at in their order: the machine, its parts, the
/// schedule; each is loaded and read before the next. Line l of the machine is entry l of `lines`. The text goes to the sink in one
/// piece, behind all else.
pub fn sequoia<S: Shelf, K: Sink, C: Chronicle>(
    alloc: Global,
    words: &[String],
    shelf: &mut S,
    lines: &mut Vec<Outlet>,
    chronicle: &mut C,
    sink: &mut K,
) -> Status
    requires sixteen { length lines.old.items ≡ 16 }
    requires fresh { AreFresh (views line lines.old.items) (marks lines.old.items) }

    // The call ended with a status before it printed, in whose place a fault of the sink, or want of memory, may stand. Of that status
    // all this holds in either case, and its text is what is printed: whole, but for a fault of the sink, and for want of memory.
    // - The released bytes are a prefix of the flat output along the appended history.
    // - History and bytes are exactly those of the machine, for the events that the status says were made.
    // - At the end of each `finish` that ended, all output is released, and no process can take a step.
    // - The status has its cause: the words, the files, a count that rose, or events that aren't covered.
    // - The files are as before, but for the image that is assembled.
    ensures ended { let form = form_of (list_map string_bytes words.now) in Ends result
        (λ status. Ended form status (S.shelf shelf.old) (S.shelf shelf.new)
        (C.chronicle chronicle.old) (C.chronicle chronicle.new) (views line lines.old.items) (views line lines.new.items))
        (IsText form (S.shelf shelf.old).told (S.shelf shelf.new).told (λ status. IsReportAsked form (S.shelf shelf.old).told status
        (C.chronicle chronicle.old) (C.chronicle chronicle.new) (views line lines.old.items) (views line lines.new.items) (marks lines.new.items)))
        (K.sink sink.old).told (K.sink sink.new).told }
    ensures sink_fault { result ≡ Status.SinkFault → Rose (K.sink sink.old).faults (K.sink sink.new).faults }

    // Where a run is asked for and no count rises, it comes to its end, or to a `finish` that runs out of turns, unless memory is
    // wanting, or events that aren't covered come to a machine check.
    ensures complete { (m : Map) → (S.shelf shelf.old).told ≡ Some m → (asks : AsksRun (Opens (list_map string_bytes words.now) m None))
        → ¬ Rose (S.shelf shelf.old).faults (S.shelf shelf.new).faults
        → ¬ Rose (C.chronicle chronicle.old).faults (C.chronicle chronicle.new).faults
        → ((l : ℕ) → ¬ Rose (line_at (views line lines.old.items) l).faults (line_at (views line lines.new.items) l).faults)
        → ¬ Rose (K.sink sink.old).faults (K.sink sink.new).faults
        → EndsFaultless asks.desc asks.items result }

    // Where an image is asked for, to be stored or listed, and no count rises, all is done, unless memory is wanting.
    ensures complete_image { (m : Map) → (S.shelf shelf.old).told ≡ Some m → AsksImage (Opens (list_map string_bytes words.now) m None)
        → ¬ Rose (S.shelf shelf.old).faults (S.shelf shelf.new).faults
        → ¬ Rose (K.sink sink.old).faults (K.sink sink.new).faults → EndsStillFaultless result }

    // What it leaves alone.
    ensures hung { marks lines.new.items ≡ marks lines.old.items }
{
    match read_form(words) {
        Some(command) => {
            let answer = carry_out(alloc, command, shelf, lines, chronicle);
            print(sink, answer)
        }
        None => print_usage(sink),
    }
}

/// Adds a line that has accepted nothing: the rows are the old ones with the new line as their last.
pub fn add_line(lines: &mut Vec<Outlet>, boxed: Box<dyn Line>) -> Result<(), NoMemory>
    requires fresh { (line boxed).count ≡ 0 }
    requires all_fresh { AreFresh (views (λ z. (⟦<dyn Line as Line>⟧ z.0).line z.1) lines.old.items) (marks lines.old.items) }
    ensures rows { OnOk result (views (λ z. (⟦<dyn Line as Line>⟧ z.0).line z.1) lines.new.items ≡
        views (λ z. (⟦<dyn Line as Line>⟧ z.0).line z.1) lines.old.items ++ line boxed ∷ []) }
    ensures marks { OnOk result (marks lines.new.items ≡ marks lines.old.items ++ false ∷ []) }
    ensures err { OnErr result (lines.new.items ≡ lines.old.items) }
    ensures number { OnOk result (length lines.new.items ≡ length lines.old.items + 1) }
    ensures all_fresh { AreFresh (views (λ z. (⟦<dyn Line as Line>⟧ z.0).line z.1) lines.new.items) (marks lines.new.items) }
{
    let outlet = Outlet {
        line: boxed,
        hung: false,
    };
    match lines.push(outlet) {
        Ok(()) => Ok(()),
        Err(_) => Err(NoMemory),
    }
}
