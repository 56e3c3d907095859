// The commands of images: a source is assembled and stored, an image is listed.
ghost use Rattle.std.specs.Prelude.{◌≡◌, ◌≤◌, ℕ, List, [], Some, None, Option, OnOk, OnErr, IfOk, IfErr, IsErrOf};
ghost use Rattle.seq_shelf.specs.Causes.{Rose, HasCause};
ghost use Rattle.seq_shelf.specs.Told.{Map, Stores, KeepsOthers};
ghost use Rattle.seq_loader.specs.declared.image.Image.{Image};
ghost use Rattle.seq_loader.specs.Image.{IsImage, Spells};
ghost use Rattle.seq_loader.specs.Faults.{first_fault as image_fault};
ghost use Rattle.seq_asm.specs.Assembled.{Makes};
ghost use Rattle.seq_asm.specs.Rules.{first_fault as source_fault};
ghost use Rattle.seq_cli.specs.Commands.{asm, list};
ghost use Rattle.seq_cli.specs.Files.{made, listed};
ghost use Rattle.seq_cli.specs.Opening.{OpensForm, AsksImage};
ghost use Rattle.seq_cli.specs.Endings.{Stops, Answers, EndsStillFaultless};
ghost use Rattle.seq_cli.specs.Loads.{EndsLoading, EndsStill, Loads, LoadStops};
ghost use Rattle.seq_cli.specs.Stored.{StoresImage, LeavesImage, Leaves};
ghost use Rattle.seq_cli.specs.Texts.{IsLine, IsListing, IsText, NoReport};

use crate::answer::{Answer, ended_by, wanting};
use crate::files::{load, unread};
use seq_asm::assemble;
use seq_list::list;
use seq_loader::{Image, read_image, write_image};
use seq_report::{Status, assembled};
use seq_shelf::{Shelf, StoreError};
use seq_words::{Bytes, Items};
use std::alloc::Global;

// Loads and assembles a source.
#[tactic(auto, using(crate::proofs::Openings::text_stops))]
fn load_source<S: Shelf>(alloc: Global, shelf: &mut S, name: &str) -> Result<Image, Status>
    ensures same { (S.shelf shelf.new).told ≡ (S.shelf shelf.old).told }
    ensures faults { (S.shelf shelf.old).faults ≤ (S.shelf shelf.new).faults }
    ensures cause { IsErrOf result Status.ShelfFault → Rose (S.shelf shelf.old).faults (S.shelf shelf.new).faults }
    ensures ends { IfErr result EndsLoading }
    ensures image { IfOk result IsImage }
    ensures ok { (m : Map) → (S.shelf shelf.old).told ≡ Some m →
        IfOk result (λ i. (files : List (List ℕ)) × Loads source_fault Makes (m name.now) [] files i) }
    ensures err { (m : Map) → (S.shelf shelf.old).told ≡ Some m →
        IfErr result (λ s. LoadStops s [] source_fault (m name.now)) }
{
    let files = Items::new(alloc);
    let text = match load(shelf, &files, name) {
        Ok(text) => text,
        Err(status) => return Err(status),
    };
    match assemble(alloc, text.as_slice()) {
        Ok(image) => Ok(image),
        Err(error) => Err(unread(&files, error)),
    }
}

// Loads and reads an image.
#[tactic(auto, using(crate::proofs::Openings::text_stops))]
fn load_image<S: Shelf>(alloc: Global, shelf: &mut S, name: &str) -> Result<Image, Status>
    ensures same { (S.shelf shelf.new).told ≡ (S.shelf shelf.old).told }
    ensures cause { IsErrOf result Status.ShelfFault → Rose (S.shelf shelf.old).faults (S.shelf shelf.new).faults }
    ensures ends { IfErr result EndsLoading }
    ensures image { IfOk result IsImage }
    ensures ok { (m : Map) → (S.shelf shelf.old).told ≡ Some m →
        IfOk result (λ i. (files : List (List ℕ)) × Loads image_fault Spells (m name.now) [] files i) }
    ensures err { (m : Map) → (S.shelf shelf.old).told ≡ Some m →
        IfErr result (λ s. LoadStops s [] image_fault (m name.now)) }
{
    let files = Items::new(alloc);
    let text = match load(shelf, &files, name) {
        Ok(text) => text,
        Err(status) => return Err(status),
    };
    match read_image(alloc, text.as_slice()) {
        Ok(image) => Ok(image),
        Err(error) => Err(unread(&files, error)),
    }
}

// Stores the written form of an image.
#[tactic(auto, using(crate::proofs::Storing::others_stay))]
fn store_image<S: Shelf>(
    alloc: Global,
    shelf: &mut S,
    name: &str,
    image: &Image,
) -> Result<(), StoreError>
    requires { IsImage image.now }
    ensures ok { OnOk result ((file : List ℕ) × Spells file image.now ×
        Stores (S.shelf shelf.old).told (S.shelf shelf.new).told name.now file) }
    ensures err { OnErr result (KeepsOthers (S.shelf shelf.old).told (S.shelf shelf.new).told name.now) }
    ensures fault { HasCause StoreError.Failed (S.shelf shelf.old).faults (S.shelf shelf.new).faults result }
{
    match write_image(alloc, image) {
        Ok(file) => shelf.store(name, file.as_slice()),
        Err(_) => Err(StoreError::NoMemory),
    }
}

/// Assembles a source, and stores the image under a name.
pub fn assemble_file<S: Shelf>(
    alloc: Global,
    shelf: &mut S,
    source: &str,
    name: &str,
) -> Result<Image, Answer>
    ensures stored { IfOk result (λ i. StoresImage source.now name.now (S.shelf shelf.old).told (S.shelf shelf.new).told i) }
    ensures image { IfOk result IsImage }
    ensures kept { IfErr result (λ a. LeavesImage source.now name.now a.status (S.shelf shelf.old).told (S.shelf shelf.new).told) }
    ensures cause { IfErr result (λ a. a.status ≡ Status.ShelfFault → Rose (S.shelf shelf.old).faults (S.shelf shelf.new).faults) }
    ensures ends { IfErr result (λ a. EndsLoading a.status) }
    ensures ok { (m : Map) → (S.shelf shelf.old).told ≡ Some m →
        IfOk result (λ i. OpensForm m None (Some (asm source.now name.now)) (made i)) }
    ensures err { (m : Map) → (S.shelf shelf.old).told ≡ Some m →
        IfErr result (λ a. (failed : Option ℕ) × Stops (OpensForm m failed (Some (asm source.now name.now))) a.status) }
    ensures line { IfErr result (λ a. IfOk a.text (IsLine (Some (asm source.now name.now)) (S.shelf shelf.old).told a.status)) }
{
    let image = match load_source(alloc, shelf, source) {
        Ok(image) => image,
        Err(status) => return Err(ended_by(alloc, status, source)),
    };
    match store_image(alloc, shelf, name, &image) {
        Ok(()) => Ok(image),
        Err(StoreError::Failed) => Err(ended_by(alloc, Status::ShelfFault, name)),
        Err(StoreError::NoMemory) => Err(wanting()),
    }
}

/// The listing of an image.
pub fn list_file<S: Shelf>(alloc: Global, shelf: &mut S, name: &str) -> Result<Bytes, Answer>
    ensures same { (S.shelf shelf.new).told ≡ (S.shelf shelf.old).told }
    ensures cause { IfErr result (λ a. a.status ≡ Status.ShelfFault → Rose (S.shelf shelf.old).faults (S.shelf shelf.new).faults) }
    ensures ends { IfErr result (λ a. EndsLoading a.status) }
    ensures listing { IfOk result (IsListing name.now (S.shelf shelf.old).told) }
    ensures ok { (m : Map) → (S.shelf shelf.old).told ≡ Some m →
        OnOk result ((i : Image) × OpensForm m None (Some (list name.now)) (listed i)) }
    ensures err { (m : Map) → (S.shelf shelf.old).told ≡ Some m →
        IfErr result (λ a. (failed : Option ℕ) × Stops (OpensForm m failed (Some (list name.now))) a.status) }
    ensures line { IfErr result (λ a. IfOk a.text (IsLine (Some (list name.now)) (S.shelf shelf.old).told a.status)) }
{
    let image = match load_image(alloc, shelf, name) {
        Ok(image) => image,
        Err(status) => return Err(ended_by(alloc, status, name)),
    };
    match list(alloc, &image) {
        Ok(text) => Ok(text),
        Err(_) => Err(wanting()),
    }
}

/// Does `asm SOURCE IMAGE`.
pub fn assemble_command<S: Shelf>(alloc: Global, shelf: &mut S, source: &str, name: &str) -> Answer
    ensures leaves { Leaves (Some (asm source.now name.now)) result.status (S.shelf shelf.old).told (S.shelf shelf.new).told }
    ensures cause { result.status ≡ Status.ShelfFault → Rose (S.shelf shelf.old).faults (S.shelf shelf.new).faults }
    ensures ends { EndsStill result.status }
    ensures answers { (m : Map) → (S.shelf shelf.old).told ≡ Some m →
        (failed : Option ℕ) × Answers (OpensForm m failed (Some (asm source.now name.now))) result.status }
    ensures complete { (m : Map) → (S.shelf shelf.old).told ≡ Some m →
        AsksImage (OpensForm m None (Some (asm source.now name.now)))
        → ¬ Rose (S.shelf shelf.old).faults (S.shelf shelf.new).faults → EndsStillFaultless result.status }
    ensures text { IfOk result.text (IsText (Some (asm source.now name.now)) (S.shelf shelf.old).told (S.shelf shelf.new).told NoReport result.status) }
{
    let image = match assemble_file(alloc, shelf, source, name) {
        Ok(image) => image,
        Err(answer) => return answer,
    };
    Answer {
        status: Status::Done,
        text: assembled(alloc, image.bytes.as_slice().len() as u32),
    }
}

/// Does `list IMAGE`.
pub fn list_command<S: Shelf>(alloc: Global, shelf: &mut S, name: &str) -> Answer
    ensures leaves { Leaves (Some (list name.now)) result.status (S.shelf shelf.old).told (S.shelf shelf.new).told }
    ensures cause { result.status ≡ Status.ShelfFault → Rose (S.shelf shelf.old).faults (S.shelf shelf.new).faults }
    ensures ends { EndsStill result.status }
    ensures answers { (m : Map) → (S.shelf shelf.old).told ≡ Some m →
        (failed : Option ℕ) × Answers (OpensForm m failed (Some (list name.now))) result.status }
    ensures complete { (m : Map) → (S.shelf shelf.old).told ≡ Some m →
        AsksImage (OpensForm m None (Some (list name.now)))
        → ¬ Rose (S.shelf shelf.old).faults (S.shelf shelf.new).faults → EndsStillFaultless result.status }
    ensures text { IfOk result.text (IsText (Some (list name.now)) (S.shelf shelf.old).told (S.shelf shelf.new).told NoReport result.status) }
{
    match list_file(alloc, shelf, name) {
        Ok(text) => Answer {
            status: Status::Done,
            text: Ok(text),
        },
        Err(answer) => answer,
    }
}
