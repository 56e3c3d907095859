// The parts of a machine that have files of their own: the images of its processes, and the first bytes of its segments.
ghost use Rattle.std.specs.Prelude.{◌≡◌, ◌≢◌, ◌<◌, ◌≤◌, ◌+◌, ◌-◌, ◌^◌, ◌⊎◌, ℕ, List, [], ◌∷◌, ◌++◌, Some, None, length, true, slice_index_or, IfOk, IfErr, OnOk};
ghost use Rattle.seq_words.specs.Description.{IsDescription, segment_of};
ghost use Rattle.seq_shelf.specs.Causes.{Rose};
ghost use Rattle.seq_shelf.specs.Told.{Map};
ghost use Rattle.seq_loader.specs.declared.image.Image.{Image};
ghost use Rattle.seq_loader.specs.Image.{Spells};
ghost use Rattle.seq_loader.specs.Faults.{first_fault};
ghost use Rattle.seq_manifest.specs.Drafts.{IsDraft};
ghost use Rattle.seq_manifest.specs.Statements.{is_file};
ghost use Rattle.seq_report.specs.declared.status.Status.TheVariants.{ShelfFault};
ghost use Rattle.seq_cli.specs.Parts.{names_of, is_process, with_image, with_first, segment_fault, part_fault, Completes, IsPartly};
ghost use Rattle.seq_cli.specs.Loads.{EndsLoading, LoadStops, PartsLoaded, PartsStop};
ghost use Rattle.seq_cli.specs.Texts.{IsLineOf};

use crate::answer::{Answer, ended_by};
use crate::files::load_part;
use seq_loader::{Image, read_image};
use seq_manifest::Draft;
use seq_shelf::Shelf;
use seq_words::{Bytes, Items, MachineDesc, ReadError};
use std::alloc::Global;
use std::str;

/// The rule on the length of a segment's file.
const LONGER_THAN_SEGMENT: u16 = 27;

// Lets process p run the image.
fn add_image(desc: &mut MachineDesc, p: usize, image: Image)
    requires { p < length desc.old.processes }
    ensures { desc.new ≡ with_image desc.old p image }
{
    let process = desc.processes.at_mut(p);
    process.size = image.size;
    process.entry = image.entry;
    process.image = image.bytes;
}

// Lets segment s start with these bytes.
fn add_first(desc: &mut MachineDesc, s: usize, first: Bytes)
    requires { s < length desc.old.segments }
    ensures { desc.new ≡ with_first desc.old s first }
{
    let segment = desc.segments.at_mut(s);
    segment.first = first;
}

// Reads the image of process p.
fn read_process(
    alloc: Global,
    desc: &mut MachineDesc,
    p: usize,
    text: &[u8],
) -> Result<(), ReadError>
    requires { p < length desc.old.processes }
    ensures completes { OnOk result ((i : Image) × Spells text.now i × (desc.new ≡ with_image desc.old p i)) }
    ensures none { OnOk result (first_fault text.now ≡ None) }
    ensures refused { (place rule : ℕ) → result ≡ Err (ReadError.Refused place rule) → first_fault text.now ≡ Some (place, rule) }
{
    match read_image(alloc, text) {
        Ok(image) => {
            add_image(desc, p, image);
            Ok(())
        }
        Err(error) => Err(error),
    }
}

// Reads the first bytes of segment s.
fn read_segment(
    alloc: Global,
    desc: &mut MachineDesc,
    s: usize,
    text: &[u8],
) -> Result<(), ReadError>
    requires { s < length desc.old.segments }
    ensures completes { OnOk result (desc.new ≡ with_first desc.old s text.now) }
    ensures none { OnOk result (segment_fault (segment_of desc.old s).size text.now ≡ None) }
    ensures refused { (place rule : ℕ) → result ≡ Err (ReadError.Refused place rule) →
        segment_fault (segment_of desc.old s).size text.now ≡ Some (place, rule) }
{
    let size = desc.segments.at(s).size;
    if text.len() > size as usize {
        return Err(ReadError::Refused {
            place: size as u64,
            rule: LONGER_THAN_SEGMENT,
        });
    }
    match Bytes::copy_of(alloc, text) {
        Ok(first) => {
            add_first(desc, s, first);
            Ok(())
        }
        Err(_) => Err(ReadError::NoMemory),
    }
}

/// Reads the file of part n: a process, or else a segment.
pub fn read_part(
    alloc: Global,
    desc: &mut MachineDesc,
    n: usize,
    text: &[u8],
) -> Result<(), ReadError>
    requires { n < length desc.old.processes + length desc.old.segments }
    ensures completes { OnOk result (Completes desc.old n text.now desc.new) }
    ensures none { OnOk result (part_fault desc.old n text.now ≡ None) }
    ensures refused { (place rule : ℕ) → result ≡ Err (ReadError.Refused place rule) →
        part_fault desc.old n text.now ≡ Some (place, rule) }
{
    let processes = desc.processes.len();
    if n < processes {
        read_process(alloc, desc, n, text)
    } else {
        read_segment(alloc, desc, n - processes, text)
    }
}

// The name of a file, which is text.
fn file_name(word: &[u8]) -> &str
    requires { is_file word.now ≡ true }
    ensures { result.now ≡ word.now }
{
    match str::from_utf8(word) {
        Ok(name) => name,
        Err(_) => unreachable!(),
    }
}

// The name of the file of part n, which is empty where it has none.
fn part_name<'a>(images: &'a Items<Bytes>, firsts: &'a Items<Bytes>, n: usize) -> &'a [u8]
    requires { n < length images.now + length firsts.now }
    ensures { result.now ≡ slice_index_or (images.now ++ firsts.now) n [] }
{
    if n < images.len() {
        images.at(n).as_slice()
    } else {
        firsts.at(n - images.len()).as_slice()
    }
}

// Loads the file of part n, where it has one.
fn open_part<S: Shelf>(
    alloc: Global,
    shelf: &mut S,
    files: &mut Items<Bytes>,
    desc: &mut MachineDesc,
    n: usize,
    name: &[u8],
) -> Result<(), Answer>
    requires few { length files.old + 1 < 2 ^ 32 }
    requires there { n < length desc.old.processes + length desc.old.segments }
    requires named { (name.now ≡ []) ⊎ (is_file name.now ≡ true) }
    requires image { is_process desc.old n ≡ true → name.now ≢ [] }
    requires partly { IsPartly n desc.old }
    ensures same { (S.shelf shelf.new).told ≡ (S.shelf shelf.old).told }
    ensures faults { (S.shelf shelf.old).faults ≤ (S.shelf shelf.new).faults }
    ensures cause { IfErr result (λ a. a.status ≡ ShelfFault → Rose (S.shelf shelf.old).faults (S.shelf shelf.new).faults) }
    ensures ends { IfErr result (λ a. EndsLoading a.status) }
    ensures few { OnOk result (length files.new ≤ length files.old + 1) }
    ensures processes { OnOk result (length desc.new.processes ≡ length desc.old.processes) }
    ensures segments { OnOk result (length desc.new.segments ≡ length desc.old.segments) }
    ensures partly { OnOk result (IsPartly (n + 1) desc.new) }
    ensures ok { (m : Map) → (S.shelf shelf.old).told ≡ Some m →
        OnOk result (PartsLoaded m n (name.now ∷ []) files.old desc.old files.new desc.new) }
    ensures named { IfErr result (λ a. name.now ≢ []) }
    ensures err { (m : Map) → (S.shelf shelf.old).told ≡ Some m →
        IfErr result (λ a. LoadStops a.status files.old (part_fault desc.old n) (m name.now)) }
    ensures line { IfErr result (λ a. IfOk a.text (IsLineOf a.status name.now)) }
{
    if name.is_empty() {
        return Ok(());
    }
    let name = file_name(name);
    match load_part(alloc, shelf, files, desc, n, name) {
        Ok(()) => Ok(()),
        Err(status) => Err(ended_by(alloc, status, name)),
    }
}

/// Loads and reads the files of a draft's parts in their order.
pub fn load_parts<S: Shelf>(
    alloc: Global,
    shelf: &mut S,
    files: &mut Items<Bytes>,
    draft: Draft,
) -> Result<MachineDesc, Answer>
    requires few { length files.old ≤ 1 }
    requires draft { IsDraft draft }
    ensures same { (S.shelf shelf.new).told ≡ (S.shelf shelf.old).told }
    ensures faults { (S.shelf shelf.old).faults ≤ (S.shelf shelf.new).faults }
    ensures cause { IfErr result (λ a. a.status ≡ ShelfFault → Rose (S.shelf shelf.old).faults (S.shelf shelf.new).faults) }
    ensures ends { IfErr result (λ a. EndsLoading a.status) }
    ensures few { OnOk result (length files.new ≤ 33) }
    ensures described { IfOk result IsDescription }
    ensures ok { (m : Map) → (S.shelf shelf.old).told ≡ Some m →
        IfOk result (PartsLoaded m 0 (names_of draft) files.old draft.desc files.new) }
    ensures err { (m : Map) → (S.shelf shelf.old).told ≡ Some m →
        IfErr result (λ a. PartsStop m (names_of draft) files.old draft.desc a.status a.text) }
    ensures line { IfErr result (λ a. (name : List ℕ) × IfOk a.text (IsLineOf a.status name)) }
{
    let parts = draft.images.len() + draft.firsts.len();
    let mut desc = draft.desc;
    for n in 0..parts {
        let name = part_name(&draft.images, &draft.firsts, n);
        if let Err(answer) = open_part(alloc, shelf, files, &mut desc, n, name) {
            return Err(answer);
        }
    }
    Ok(desc)
}
