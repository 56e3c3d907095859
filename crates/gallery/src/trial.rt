// The trial of one command: it is given over files, lines, a history and a sink in memory, and what comes of it is compared.
ghost use Rattle.std.specs.Prelude.{◌≡◌, ℕ, List, length, map as list_map, string_bytes, Some, IfOk, slice_get};
ghost use Rattle.seq_shelf.specs.Outlets.{view, views, marks};
ghost use Rattle.seq_shelf.specs.Rows.{AreFresh};
ghost use Rattle.gallery.specs.declared.finding.Finding.TheVariants.{AsExpected};

use crate::examples::Example;
use crate::finding::Finding;
use seq_cli::{add_line, number, sequoia};
use seq_shelf::{Line, LoadError, Outlet, Shelf, SoundChronicle, SoundLine, SoundShelf, SoundSink};
use seq_words::{Bytes, NoMemory};
use std::alloc::{AllocError, AllocFailed, Global};

/// The number of lines of the largest machine.
const LINES: u8 = 16;

/// How many bytes a file of the gallery has at most.
const LIMIT: u64 = 1_000_000;

/// Why a trial can't go on.
#[derive(Clone, Copy)]
enum Trouble {
    NoMemory,
    NoFile(&'static str),
}

impl From<NoMemory> for Trouble {
    fn from(_error: NoMemory) -> Self {
        Trouble::NoMemory
    }
}

impl From<AllocError> for Trouble {
    fn from(_error: AllocError) -> Self {
        Trouble::NoMemory
    }
}

impl<T: Drop> From<AllocFailed<T>> for Trouble {
    fn from(_error: AllocFailed<T>) -> Self {
        Trouble::NoMemory
    }
}

// What a file of a folder has.
fn load<S: Shelf>(
    alloc: Global,
    gallery: &mut S,
    folder: &str,
    file: &'static str,
) -> Result<Bytes, Trouble> {
    let path = format!(in alloc; "{folder}/{file}")?;
    match gallery.load(path.as_str(), LIMIT) {
        Ok(bytes) => Ok(bytes),
        Err(LoadError::NoMemory) => Err(Trouble::NoMemory),
        Err(_) => Err(Trouble::NoFile(file)),
    }
}

// A shelf in memory with the files that the command may load.
fn shelf_of<S: Shelf>(
    alloc: Global,
    gallery: &mut S,
    folder: &str,
    files: &[&'static str],
) -> Result<SoundShelf, Trouble> {
    let mut shelf = SoundShelf::new(alloc);
    for file in files {
        let content = load(alloc, gallery, folder, file)?;
        shelf.put(file, content.as_slice())?;
    }
    Ok(shelf)
}

fn words_of(alloc: Global, words: &[&str]) -> Result<Vec<String>, AllocError>
    ensures { IfOk result (λ all. list_map string_bytes all.items ≡ list_map (λ w. w.now) words.now) }
{
    let mut all = Vec::new(alloc);
    for word in words {
        all.push(String::from_str(alloc, word)?)?;
    }
    Ok(all)
}

// What the command leaves, beside the bytes of its lines.
#[derive(Drop)]
struct Left {
    status: u8,
    printed: SoundSink,
    shelf: SoundShelf,
}

// Gives the command on these lines.
fn give<S: Shelf>(
    alloc: Global,
    gallery: &mut S,
    folder: &str,
    example: &Example,
    lines: &mut Vec<Outlet>,
) -> Result<Left, Trouble>
    requires sixteen { length lines.old.items ≡ 16 }
    requires fresh { AreFresh (views line lines.old.items) (marks lines.old.items) }
{
    let mut shelf = shelf_of(alloc, gallery, folder, example.files)?;
    let words = words_of(alloc, example.words)?;
    let mut chronicle = SoundChronicle::new(alloc);
    let mut printed = SoundSink::new(alloc);
    let status = sequoia(
        alloc,
        &words,
        &mut shelf,
        lines,
        &mut chronicle,
        &mut printed,
    );
    Ok(Left {
        status: number(&status),
        printed,
        shelf,
    })
}

// How many bytes a line has accepted.
fn accepted_on(outlet: &Outlet) -> u64
    ensures { (bytes : List ℕ) → (view (λ z. (⟦<dyn Line as Line>⟧ z.0).line z.1) outlet.now).told ≡ Some bytes →
        result ≡ length bytes }
{
    outlet.line.accepted()
}

// The accepted byte with that index.
fn byte_on(outlet: &Outlet, index: u64) -> Option<u8>
    ensures { (bytes : List ℕ) → (view (λ z. (⟦<dyn Line as Line>⟧ z.0).line z.1) outlet.now).told ≡ Some bytes →
        result ≡ slice_get bytes index }
{
    outlet.line.byte_at(index)
}

// The bytes that a line has accepted, where it tells them.
fn bytes_of(alloc: Global, outlet: &Outlet) -> Result<Bytes, NoMemory>
    ensures { IfOk result (λ all. (bytes : List ℕ) →
        (view (λ z. (⟦<dyn Line as Line>⟧ z.0).line z.1) outlet.now).told ≡ Some bytes → all ≡ bytes) }
{
    let mut all = Bytes::new(alloc);
    for n in 0..accepted_on(outlet) {
        if let Some(byte) = byte_on(outlet, n) {
            all.push(byte)?;
        }
    }
    Ok(all)
}

// The first line that has accepted other bytes than it should.
fn first_wrong(
    alloc: Global,
    lines: &Vec<Outlet>,
    wanted: &[&[u8]],
) -> Result<Option<usize>, NoMemory> {
    for n in 0..lines.len() {
        let bytes = bytes_of(alloc, &lines[n])?;
        if bytes.as_slice() != wanted.get(n).copied().unwrap_or(&[]) {
            return Ok(Some(n));
        }
    }
    Ok(None)
}

// A text with four spaces before each line.
fn append_indented(shown: &mut Bytes, text: &[u8]) -> Result<(), NoMemory> {
    let mut at_start = true;
    for byte in text {
        if at_start {
            shown.append(b"    ")?;
        }
        shown.push(*byte)?;
        at_start = *byte == b'\n';
    }
    Ok(())
}

// A command and its text, as a page shows them.
fn shown(alloc: Global, words: &[&str], text: &[u8]) -> Result<Bytes, NoMemory> {
    let mut shown = Bytes::new(alloc);
    shown.append(b"    $ sequoia")?;
    for word in words {
        shown.push(b' ')?;
        shown.append(word.as_bytes())?;
    }
    shown.push(b'\n')?;
    append_indented(&mut shown, text)?;
    Ok(shown)
}

// Whether the part stands somewhere in the page.
fn stands_in(page: &[u8], part: &[u8]) -> bool {
    for at in 0..page.len() {
        if page[at..].starts_with(part) {
            return true;
        }
    }
    false
}

// Whether the page has the command with its text, and behind it an empty line, another command, or nothing.
fn shows(alloc: Global, page: &mut Bytes, words: &[&str], text: &[u8]) -> Result<bool, NoMemory> {
    page.push(b'\n')?;
    let mut last = shown(alloc, words, text)?;
    let mut followed = shown(alloc, words, text)?;
    last.push(b'\n')?;
    followed.append(b"    $ ")?;
    Ok(
        stands_in(page.as_slice(), last.as_slice())
            || stands_in(page.as_slice(), followed.as_slice()),
    )
}

// Whether the image that was stored under this name, where one is asked for, is the folder's.
fn is_stored<S: Shelf>(
    alloc: Global,
    gallery: &mut S,
    folder: &str,
    stored: Option<&'static str>,
    shelf: &SoundShelf,
) -> Result<bool, Trouble> {
    let Some(name) = stored else {
        return Ok(true);
    };
    let wanted = load(alloc, gallery, folder, name)?;
    Ok(
        shelf
            .get(name)
            .is_some_and(|image| image == wanted.as_slice()),
    )
}

// Compares what the command leaves with the files of the folder.
fn compare<S: Shelf>(
    alloc: Global,
    gallery: &mut S,
    folder: &str,
    example: &Example,
    left: &Left,
    lines: &Vec<Outlet>,
) -> Result<Finding, Trouble>
    ensures status { IfOk result (λ finding. finding ≡ AsExpected → left.now.status ≡ example.now.status) }
{
    if left.status != example.status {
        return Ok(Finding::Status(left.status));
    }
    let text = load(alloc, gallery, folder, example.printed)?;
    if left.printed.bytes() != text.as_slice() {
        return Ok(Finding::Text);
    }
    if let Some(number) = first_wrong(alloc, lines, example.lines)? {
        return Ok(Finding::Line(number));
    }
    if !is_stored(alloc, gallery, folder, example.stored, &left.shelf)? {
        return Ok(Finding::Image);
    }
    let mut page = load(alloc, gallery, folder, "README.md")?;
    if !shows(alloc, &mut page, example.words, text.as_slice())? {
        return Ok(Finding::Page);
    }
    Ok(Finding::AsExpected)
}

// Gives the command on sixteen lines in memory, and compares.
fn try_out<S: Shelf>(
    alloc: Global,
    gallery: &mut S,
    folder: &str,
    example: &Example,
) -> Result<Finding, Trouble> {
    let mut lines = Vec::new(alloc);
    for n in 0..LINES {
        let line = SoundLine::new(alloc);
        add_line(&mut lines, Box::new(alloc, line)?)?;
    }
    let left = give(alloc, gallery, folder, example, &mut lines)?;
    compare(alloc, gallery, folder, example, &left, &lines)
}

/// Gives the command of an example, whose files the gallery has in this folder, and says what it came to.
pub fn find<S: Shelf>(alloc: Global, gallery: &mut S, folder: &str, example: &Example) -> Finding {
    match try_out(alloc, gallery, folder, example) {
        Ok(finding) => finding,
        Err(Trouble::NoMemory) => Finding::NoMemory,
        Err(Trouble::NoFile(name)) => Finding::NoFile(name),
    }
}
