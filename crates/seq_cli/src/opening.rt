// What the files of a run ask for, in their order.
ghost use Rattle.std.specs.Prelude.{◌≡◌, ◌<◌, ◌≤◌, ℕ, [], length, IfOk, IfErr, Some, None, Option, MatchOption, map as list_map, string_bytes};
ghost use Rattle.seq_words.specs.Description.{IsDescription};
ghost use Rattle.seq_shelf.specs.Causes.{Rose};
ghost use Rattle.seq_shelf.specs.Told.{Map};
ghost use Rattle.seq_schedule.specs.Faultless.{AreFaultless};
ghost use Rattle.seq_report.specs.declared.status.Status.TheVariants.{ShelfFault};
ghost use Rattle.seq_cli.specs.Files.{ready};
ghost use Rattle.seq_cli.specs.Commands.{run};
ghost use Rattle.seq_cli.specs.Opening.{OpensForm};
ghost use Rattle.seq_cli.specs.Endings.{Stops};
ghost use Rattle.seq_cli.specs.Loads.{EndsLoading};
ghost use Rattle.seq_cli.specs.Texts.{IsLine};

use crate::answer::{Answer, ended_by};
use crate::files::{load_draft, load_schedule};
use crate::parts::load_parts;
use seq_schedule::Item;
use seq_shelf::Shelf;
use seq_words::{Bytes, Items, MachineDesc};
use std::alloc::Global;

/// What a run begins with.
#[derive(Drop)]
pub struct Loaded {
    pub desc: MachineDesc,
    pub items: Items<Item>,
    /// The contents of all files that were loaded, in their order.
    pub files: Items<Bytes>,
}

/// Loads and reads the files in their order: the machine, its parts, the schedule.
pub fn open<S: Shelf>(
    alloc: Global,
    shelf: &mut S,
    machine: &str,
    schedule: &str,
) -> Result<Loaded, Answer>
    ensures same { (S.shelf shelf.new).told ≡ (S.shelf shelf.old).told }
    ensures cause { IfErr result (λ a. a.status ≡ ShelfFault → Rose (S.shelf shelf.old).faults (S.shelf shelf.new).faults) }
    ensures ends { IfErr result (λ a. EndsLoading a.status) }
    ensures ok { (m : Map) → (S.shelf shelf.old).told ≡ Some m →
        IfOk result (λ x. OpensForm m None (Some (run machine.now schedule.now)) (ready x.desc x.items x.files)) }
    ensures err { (m : Map) → (S.shelf shelf.old).told ≡ Some m →
        IfErr result (λ a. (failed : Option ℕ) × Stops (OpensForm m failed (Some (run machine.now schedule.now))) a.status) }
    ensures line { IfErr result (λ a. IfOk a.text (IsLine (Some (run machine.now schedule.now)) (S.shelf shelf.old).told a.status)) }
    ensures described { IfOk result (λ x. IsDescription x.desc) }
    ensures faultless { IfOk result (λ x. AreFaultless x.desc x.items) }
{
    let mut files = Items::new(alloc);
    let draft = match load_draft(alloc, shelf, &mut files, machine) {
        Ok(draft) => draft,
        Err(status) => return Err(ended_by(alloc, status, machine)),
    };
    let desc = match load_parts(alloc, shelf, &mut files, draft) {
        Ok(desc) => desc,
        Err(answer) => return Err(answer),
    };
    let items = match load_schedule(alloc, shelf, &mut files, &desc, schedule) {
        Ok(items) => items,
        Err(status) => return Err(ended_by(alloc, status, schedule)),
    };
    Ok(Loaded { desc, items, files })
}
