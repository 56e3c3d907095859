// The files that a command loads, one after another: the next one has as its number how many were loaded before it.
ghost use Rattle.std.specs.Prelude.{◌≡◌, ◌<◌, ◌≤◌, ◌+◌, ◌^◌, ℕ, List, Some, None, length, IfOk, IfErr, OnOk, IsErrOf};
ghost use Rattle.seq_words.specs.Description.{IsDescription};
ghost use Rattle.seq_shelf.specs.Causes.{Rose};
ghost use Rattle.seq_shelf.specs.Told.{Map};
ghost use Rattle.seq_manifest.specs.Drafts.{Describes, IsDraft};
ghost use Rattle.seq_manifest.specs.Faults.{first_fault as description_fault};
ghost use Rattle.seq_schedule.specs.declared.forms.Gate.TheVariants.{Built};
ghost use Rattle.seq_schedule.specs.Faultless.{AreFaultless};
ghost use Rattle.seq_schedule.specs.Rules.{first_fault as schedule_fault};
ghost use Rattle.seq_cli.specs.Parts.{part_fault, Completes};
ghost use Rattle.seq_cli.specs.Opening.{Schedules};
ghost use Rattle.seq_cli.specs.Loads.{EndsLoading, Loads, LoadStops, TextStops, error_status};

use crate::parts::read_part;
use seq_manifest::{Draft, read as read_description};
use seq_report::Status;
use seq_schedule::{Item, parse};
use seq_shelf::{LoadError, Shelf};
use seq_words::{Bytes, Items, MachineDesc, ReadError};
use std::alloc::Global;

/// The most bytes of a file that is loaded.
const FILE_LIMIT: u64 = 268_435_456;

/// The rule on a file's length.
const TOO_LONG: u16 = 1;

/// Loads the next file, behind those that were loaded.
#[tactic(auto, using(crate::proofs::Openings::absent_stops, crate::proofs::Openings::long_stops, crate::proofs::Openings::fault_stops))]
pub fn load<S: Shelf>(shelf: &mut S, files: &Items<Bytes>, name: &str) -> Result<Bytes, Status>
    requires { length files.now < 2 ^ 32 }
    ensures same { (S.shelf shelf.new).told ≡ (S.shelf shelf.old).told }
    ensures faults { (S.shelf shelf.old).faults ≤ (S.shelf shelf.new).faults }
    ensures cause { IsErrOf result Status.ShelfFault → Rose (S.shelf shelf.old).faults (S.shelf shelf.new).faults }
    ensures found { (m : Map) → (S.shelf shelf.old).told ≡ Some m →
        IfOk result (λ text. (m name.now ≡ Some text) × (length text ≤ 268435456)) }
    ensures err { (m : Map) → (S.shelf shelf.old).told ≡ Some m → IfErr result (λ s. TextStops s files.now (m name.now)) }
    ensures ends { IfErr result EndsLoading }
{
    let file = files.len() as u32;
    match shelf.load(name, FILE_LIMIT) {
        Ok(bytes) => Ok(bytes),
        Err(LoadError::Absent) => Err(Status::Absent { file }),
        Err(LoadError::TooLong) => Err(Status::Refused {
            file,
            place: FILE_LIMIT,
            rule: TOO_LONG,
        }),
        Err(LoadError::Failed) => Err(Status::ShelfFault),
        Err(LoadError::NoMemory) => Err(Status::NoMemory),
    }
}

/// The status of a text that a reader gives no value, where it is that of the next file.
pub fn unread(files: &Items<Bytes>, error: ReadError) -> Status
    requires { length files.now < 2 ^ 32 }
    ensures value { result ≡ error_status (length files.now) error }
    ensures ends { EndsLoading result }
{
    match error {
        ReadError::Refused { place, rule } => Status::Refused {
            file: files.len() as u32,
            place,
            rule,
        },
        ReadError::NoMemory => Status::NoMemory,
    }
}

/// Loads and reads the machine's file.
#[tactic(auto, using(crate::proofs::Openings::text_stops))]
pub fn load_draft<S: Shelf>(
    alloc: Global,
    shelf: &mut S,
    files: &mut Items<Bytes>,
    name: &str,
) -> Result<Draft, Status>
    requires { length files.old < 2 ^ 32 }
    ensures same { (S.shelf shelf.new).told ≡ (S.shelf shelf.old).told }
    ensures faults { (S.shelf shelf.old).faults ≤ (S.shelf shelf.new).faults }
    ensures cause { IsErrOf result Status.ShelfFault → Rose (S.shelf shelf.old).faults (S.shelf shelf.new).faults }
    ensures ends { IfErr result EndsLoading }
    ensures one { OnOk result (length files.new ≡ length files.old + 1) }
    ensures ok { (m : Map) → (S.shelf shelf.old).told ≡ Some m →
        IfOk result (λ draft. Loads description_fault Describes (m name.now) files.old files.new draft) }
    ensures err { (m : Map) → (S.shelf shelf.old).told ≡ Some m →
        IfErr result (λ s. LoadStops s files.old description_fault (m name.now)) }
    ensures draft { IfOk result IsDraft }
{
    let text = match load(shelf, files, name) {
        Ok(text) => text,
        Err(status) => return Err(status),
    };
    let draft = match read_description(alloc, text.as_slice()) {
        Ok(draft) => draft,
        Err(error) => return Err(unread(files, error)),
    };
    match files.push(text) {
        Ok(()) => Ok(draft),
        Err(_) => Err(Status::NoMemory),
    }
}

/// Loads and reads the file of part n of a machine.
#[tactic(auto, using(crate::proofs::Openings::text_stops))]
pub fn load_part<S: Shelf>(
    alloc: Global,
    shelf: &mut S,
    files: &mut Items<Bytes>,
    desc: &mut MachineDesc,
    n: usize,
    name: &str,
) -> Result<(), Status>
    requires few { length files.old < 2 ^ 32 }
    requires there { n < length desc.old.processes + length desc.old.segments }
    ensures same { (S.shelf shelf.new).told ≡ (S.shelf shelf.old).told }
    ensures faults { (S.shelf shelf.old).faults ≤ (S.shelf shelf.new).faults }
    ensures cause { IsErrOf result Status.ShelfFault → Rose (S.shelf shelf.old).faults (S.shelf shelf.new).faults }
    ensures ends { IfErr result EndsLoading }
    ensures one { OnOk result (length files.new ≡ length files.old + 1) }
    ensures ok { (m : Map) → (S.shelf shelf.old).told ≡ Some m →
        OnOk result (Loads (part_fault desc.old n) (Completes desc.old n) (m name.now) files.old files.new desc.new) }
    ensures err { (m : Map) → (S.shelf shelf.old).told ≡ Some m →
        IfErr result (λ s. LoadStops s files.old (part_fault desc.old n) (m name.now)) }
    ensures completes { OnOk result ((text : List ℕ) × Completes desc.old n text desc.new × (part_fault desc.old n text ≡ None)) }
{
    let text = match load(shelf, files, name) {
        Ok(text) => text,
        Err(status) => return Err(status),
    };
    if let Err(error) = read_part(alloc, desc, n, text.as_slice()) {
        return Err(unread(files, error));
    }
    match files.push(text) {
        Ok(()) => Ok(()),
        Err(_) => Err(Status::NoMemory),
    }
}

// Reads a schedule.
fn read_schedule(alloc: Global, text: &[u8], desc: &MachineDesc) -> Result<Items<Item>, ReadError>
    requires { IsDescription desc.now }
    ensures items { IfOk result (Schedules text.now) }
    ensures none { OnOk result (schedule_fault Built desc.now text.now ≡ None) }
    ensures faultless { IfOk result (AreFaultless desc.now) }
    ensures refused { (place rule : ℕ) → result ≡ Err (ReadError.Refused place rule) →
        schedule_fault Built desc.now text.now ≡ Some (place, rule) }
{
    parse(alloc, text, desc)
}

/// Loads and reads the schedule.
#[tactic(auto, using(crate::proofs::Openings::text_stops))]
pub fn load_schedule<S: Shelf>(
    alloc: Global,
    shelf: &mut S,
    files: &mut Items<Bytes>,
    desc: &MachineDesc,
    name: &str,
) -> Result<Items<Item>, Status>
    requires few { length files.old < 2 ^ 32 }
    requires described { IsDescription desc.now }
    ensures same { (S.shelf shelf.new).told ≡ (S.shelf shelf.old).told }
    ensures faults { (S.shelf shelf.old).faults ≤ (S.shelf shelf.new).faults }
    ensures cause { IsErrOf result Status.ShelfFault → Rose (S.shelf shelf.old).faults (S.shelf shelf.new).faults }
    ensures ends { IfErr result EndsLoading }
    ensures faultless { IfOk result (AreFaultless desc.now) }
    ensures ok { (m : Map) → (S.shelf shelf.old).told ≡ Some m →
        IfOk result (λ items. Loads (schedule_fault Built desc.now) Schedules (m name.now) files.old files.new items) }
    ensures err { (m : Map) → (S.shelf shelf.old).told ≡ Some m →
        IfErr result (λ s. LoadStops s files.old (schedule_fault Built desc.now) (m name.now)) }
{
    let text = match load(shelf, files, name) {
        Ok(text) => text,
        Err(status) => return Err(status),
    };
    let items = match read_schedule(alloc, text.as_slice(), desc) {
        Ok(items) => items,
        Err(error) => return Err(unread(files, error)),
    };
    match files.push(text) {
        Ok(()) => Ok(items),
        Err(_) => Err(Status::NoMemory),
    }
}
