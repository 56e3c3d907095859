//! The gallery: gives each command of the examples, and says whether it comes to what the examples' files and pages have.
//!
//! It runs in the folder `data`. The files that a command loads are copied from there into memory, and so are the lines, the history
//! and what is printed; so a command changes no file.
#![tactic(auto)]

mod examples;
mod finding;
mod trial;

ghost use Rattle.std.specs.Prelude.{◌≡◌, true, false};
ghost use Rattle.std.specs.Process.{exit_status};

use crate::examples::{
    ANSWERS, ASM_SOURCES, COUNT, ECHO, Example, FAILING, FIRST, MEMORIES, NUMBERS, QUANTUM,
    SMALL_CACHE, STRUCK, TRAP,
};
use crate::finding::Finding;
use crate::trial::find;
use seq_shelf::{FileShelf, Shelf};
use std::alloc::Global;
use std::io;
use std::process::ExitCode;

// Gives the command of an example, prints what was found, and answers whether all is as expected.
fn show<S: Shelf>(
    rt: &impl Print,
    alloc: Global,
    gallery: &mut S,
    folder: &str,
    example: &Example,
) -> io::Result<bool> {
    print!(rt; "{folder}:")?;
    for word in example.words {
        print!(rt; " {word}")?;
    }
    let finding = find(alloc, gallery, folder, example);
    println!(rt; ": {finding}")?;
    Ok(finding == Finding::AsExpected)
}

// The same for all examples of a folder.
fn show_folder<S: Shelf>(
    rt: &impl Print,
    alloc: Global,
    gallery: &mut S,
    folder: &str,
    examples: &[Example],
) -> io::Result<bool> {
    let mut all = true;
    for example in examples {
        let good = show(rt, alloc, gallery, folder, example)?;
        all = all && good;
    }
    Ok(all)
}

// The same for all folders, in the order in which they are to be read.
fn show_all(rt: &HostRuntime) -> io::Result<bool> {
    let alloc = rt.alloc();
    let mut gallery = FileShelf::new(rt, alloc);
    let mut all = true;
    all = show_folder(rt, alloc, &mut gallery, "first", &FIRST)? && all;
    all = show_folder(rt, alloc, &mut gallery, "quantum", &QUANTUM)? && all;
    all = show_folder(rt, alloc, &mut gallery, "small-cache", &SMALL_CACHE)? && all;
    all = show_folder(rt, alloc, &mut gallery, "trap", &TRAP)? && all;
    all = show_folder(rt, alloc, &mut gallery, "echo", &ECHO)? && all;
    all = show_folder(rt, alloc, &mut gallery, "count", &COUNT)? && all;
    all = show_folder(rt, alloc, &mut gallery, "numbers", &NUMBERS)? && all;
    all = show_folder(rt, alloc, &mut gallery, "failing", &FAILING)? && all;
    all = show_folder(rt, alloc, &mut gallery, "memories", &MEMORIES)? && all;
    all = show_folder(rt, alloc, &mut gallery, "struck", &STRUCK)? && all;
    all = show_folder(rt, alloc, &mut gallery, "answers", &ANSWERS)? && all;
    all = show_folder(rt, alloc, &mut gallery, "asm-sources", &ASM_SOURCES)? && all;
    Ok(all)
}

// Status 0 where all is as expected, and else 1.
fn exit_code(all: bool) -> ExitCode
    ensures good { all ≡ true → exit_status result ≡ 0 }
    ensures bad { all ≡ false → exit_status result ≡ 1 }
{
    if all {
        ExitCode::from(0)
    } else {
        ExitCode::from(1)
    }
}

fn main(rt: HostRuntime) -> io::Result<ExitCode> {
    let all = show_all(&rt)?;
    Ok(exit_code(all))
}

#[cfg(test)]
mod tests;
