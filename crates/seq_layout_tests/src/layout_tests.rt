// The layout of a machine of three memories, written out by hand.
use crate::bench::layout_of;
use seq_layout::{
    Extent, Layout, Unit, WordAt, extents_have_their_parts, line_has_its_owner, places_are_apart,
};
use seq_samples::three_memories;
use seq_words::{LineNo, Me, NoMemory, Pid, Seg};
use std::alloc::Global;
use std::process::Abort;

fn layout(alloc: Global) -> Result<Layout, NoMemory> {
    let desc = three_memories(alloc)?;
    layout_of(alloc, &desc)
}

/// An extent: its blocks, its words, the memories of its two copies, and the places there of its first block and of its
/// first word.
type Row = (u32, u32, u32, [u8; 2], [u32; 2], [u32; 2]);

const EXTENTS: [Row; 6] = [
    // the two processes
    (0, 10, 1, [0, 1], [0, 0], [0, 0]),
    (1, 25, 1, [1, 2], [10, 0], [1, 0]),
    // the two segments
    (2, 1, 1, [2, 0], [25, 10], [1, 1]),
    (3, 2, 1, [0, 1], [11, 35], [2, 2]),
    // the two lines
    (4, 3, 3, [1, 2], [37, 26], [3, 2]),
    (5, 3, 3, [2, 0], [29, 13], [5, 3]),
];

// A copy of an extent: its memory, and the places there of its first block and of its first word.
fn check_copy(
    rt: &impl Abort,
    layout: &Layout,
    extent: Extent,
    shadow: bool,
    (memory, place, word_place): (u8, u32, u32),
) {
    let first = WordAt { extent, word: 0 };
    assert!(rt; (extent.0 as usize) < layout.extents());
    assert!(rt; layout.blocks(extent) > 0 && layout.words(extent) > 0);
    assert_eq!(rt; layout.memory(extent, shadow), Me(memory));
    assert_eq!(rt; layout.place(extent, 0, shadow), (Me(memory), place));
    assert_eq!(rt; layout.word_place(first, shadow), (Me(memory), word_place));
}

fn check_extent(rt: &impl Abort, layout: &Layout, row: &Row) {
    let (number, blocks, words, memories, places, word_places) = row;
    let extent = Extent(*number);
    assert!(rt; (extent.0 as usize) < layout.extents());
    assert_eq!(rt;
        (layout.blocks(extent), layout.words(extent)),
        (*blocks, *words)
    );
    check_copy(
        rt,
        layout,
        extent,
        false,
        (memories[0], places[0], word_places[0]),
    );
    check_copy(
        rt,
        layout,
        extent,
        true,
        (memories[1], places[1], word_places[1]),
    );
}

fn check_extents(rt: &impl Abort, layout: &Layout, rows: &[Row]) {
    for row in rows {
        check_extent(rt, layout, row);
    }
}

#[test]
fn a_machine_of_three_memories(rt: HostRuntime) -> Result<(), NoMemory> {
    let layout = layout(rt.alloc())?;
    assert!(rt; layout.extents() == 6);
    check_extents(&rt, &layout, &EXTENTS);
    Ok(())
}

/// A memory, the number of a unit in it, and of the block or word that it is its extent and its number there.
type UnitRow = (u8, u32, u32, u32);

const BLOCKS: [UnitRow; 10] = [
    (0, 0, 0, 0),
    (0, 9, 0, 9),
    (0, 11, 2, 0),
    (0, 13, 3, 0),
    (0, 14, 3, 1),
    (0, 16, 5, 0),
    (0, 18, 5, 2),
    (1, 11, 1, 0),
    (2, 26, 2, 0),
    (2, 36, 5, 2),
];

const WORDS: [UnitRow; 10] = [
    (0, 10, 0, 0),
    (0, 12, 2, 0),
    (0, 15, 3, 0),
    (0, 19, 5, 0),
    (0, 21, 5, 2),
    (1, 10, 0, 0),
    (1, 36, 1, 0),
    (1, 45, 4, 2),
    (2, 25, 1, 0),
    (2, 39, 5, 2),
];

/// A memory, and a number past its last unit.
const PAST: [(u8, u32); 3] = [(0, 22), (1, 46), (2, u32::MAX)];

fn check_unit(rt: &impl Abort, layout: &Layout, memory: u8, next: u32, unit: Option<Unit>) {
    assert!(rt; memory < layout.memory_count());
    assert_eq!(rt; layout.unit(Me(memory), next), unit, "{memory} {next}");
}

fn check_blocks(rt: &impl Abort, layout: &Layout, rows: &[UnitRow]) {
    for (memory, next, extent, n) in rows {
        let block = Unit::Block(Extent(*extent), *n);
        check_unit(rt, layout, *memory, *next, Some(block));
    }
}

fn check_words(rt: &impl Abort, layout: &Layout, rows: &[UnitRow]) {
    for (memory, next, extent, word) in rows {
        let at = WordAt {
            extent: Extent(*extent),
            word: *word,
        };
        check_unit(rt, layout, *memory, *next, Some(Unit::Word(at)));
    }
}

fn check_past(rt: &impl Abort, layout: &Layout, rows: &[(u8, u32)]) {
    for (memory, next) in rows {
        check_unit(rt, layout, *memory, *next, None);
    }
}

#[test]
fn units_of_three_memories(rt: HostRuntime) -> Result<(), NoMemory> {
    let layout = layout(rt.alloc())?;
    check_blocks(&rt, &layout, &BLOCKS);
    check_words(&rt, &layout, &WORDS);
    check_past(&rt, &layout, &PAST);
    Ok(())
}

// The extents of the process, the segment and the line with a number below 2.
fn check_numbered(rt: &impl Abort, layout: &Layout, number: u8) {
    assert!(rt;
        number < layout.processes()
            && number < layout.segments()
            && usize::from(number) < layout.lines()
    );
    assert_eq!(rt; layout.process(Pid(number)), Extent(u32::from(number)));
    assert_eq!(rt;
        layout.segment(Seg(number)).0.checked_sub(2),
        Some(u32::from(number))
    );
    assert_eq!(rt;
        layout.line(LineNo(number)).0.checked_sub(4),
        Some(u32::from(number))
    );
    assert_eq!(rt; layout.owner(LineNo(number)), (Pid(1), number));
}

/// A memory, and how many blocks and words it keeps.
type Memory = (u8, u32, u32);

fn check_memory(rt: &impl Abort, layout: &Layout, (memory, blocks, words): &Memory) {
    assert!(rt; *memory < layout.memory_count());
    assert_eq!(rt; layout.block_count(Me(*memory)), *blocks);
    assert_eq!(rt; layout.word_count(Me(*memory)), *words);
}

fn check_memories(rt: &impl Abort, layout: &Layout, rows: &[Memory]) {
    for row in rows {
        check_memory(rt, layout, row);
    }
}

fn check_counts(rt: &impl Abort, layout: &Layout) {
    assert!(rt; layout.processes() == 2 && layout.segments() == 2 && layout.lines() == 2);
}

#[test]
fn processes_segments_and_lines(rt: HostRuntime) -> Result<(), NoMemory> {
    let layout = layout(rt.alloc())?;
    check_counts(&rt, &layout);
    check_numbered(&rt, &layout, 0);
    check_numbered(&rt, &layout, 1);
    check_memories(&rt, &layout, &[(0, 16, 6), (1, 40, 6), (2, 32, 8)]);
    Ok(())
}

#[test]
fn laws() {
    places_are_apart();
    line_has_its_owner();
    extents_have_their_parts();
}
