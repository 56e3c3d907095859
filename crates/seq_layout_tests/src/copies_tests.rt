// Each call on copies, at two memories.
use crate::bench::{Bench, new_bench};
use seq_memory::State;
use seq_words::{Block, Me, NoMemory};
use std::process::Abort;

const ZEROS: Block = Block { bytes: [0; 32] };

const SEVENS: Block = Block { bytes: [7; 32] };

const NINES: Block = Block { bytes: [9; 32] };

#[test]
fn one_copy_of_a_block_is_written(rt: HostRuntime) -> Result<(), NoMemory> {
    let mut bench = new_bench(rt.alloc())?;
    bench.write_block(8, true, &SEVENS);
    assert_eq!(rt; bench.first(), Some(Me(0)));
    assert_eq!(rt; bench.block(8, true), Some(SEVENS));
    assert_eq!(rt; bench.first_block(8), Some(ZEROS));
    Ok(())
}

// A copy that is away isn't written.
#[test]
fn the_shadow_is_first_after_a_failure(rt: HostRuntime) -> Result<(), NoMemory> {
    let mut bench = new_bench(rt.alloc())?;
    bench.fail(Me(0));
    bench.set_block(0, true, &SEVENS);
    bench.write_block(1, false, &NINES);
    assert!(rt; bench.first_is_shadow() && bench.serves(true));
    assert_eq!(rt; bench.first(), Some(Me(1)));
    assert_eq!(rt; bench.first_block(0), Some(SEVENS));
    assert_eq!(rt; bench.first_block(1), Some(ZEROS));
    Ok(())
}

#[test]
fn a_word_is_swapped_where_it_is_the_old_one(rt: HostRuntime) -> Result<(), NoMemory> {
    let mut bench = new_bench(rt.alloc())?;
    bench.write_status(false, 5);
    assert_eq!(rt; bench.swap_status(false, 4, 9), Some(Err(5)));
    assert_eq!(rt; bench.swap_status(false, 5, 9), Some(Ok(())));
    assert_eq!(rt; bench.first_status(), Some(9));
    Ok(())
}

#[test]
fn one_copy_of_a_word_is_set(rt: HostRuntime) -> Result<(), NoMemory> {
    let mut bench = new_bench(rt.alloc())?;
    bench.set_status(true, 3);
    assert_eq!(rt; bench.status(true), Some(3));
    assert_eq!(rt; bench.first_status(), Some(0));
    Ok(())
}

// The state of memory 0, and whether the primary of the process is read.
fn check_seen(rt: &impl Abort, bench: &Bench, state: State, serves: bool) {
    assert_eq!(rt; bench.state(Me(0)), Some(state));
    assert_eq!(rt; bench.serves(false), serves);
}

// Memory 0 fails.
fn check_failure(rt: &impl Abort, bench: &mut Bench) {
    check_seen(rt, bench, State::InService, true);
    bench.fail(Me(0));
    check_seen(rt, bench, State::Down, false);
}

// It returns, and its units are copied one after the other.
fn check_return(rt: &impl Abort, bench: &mut Bench) {
    bench.repair(Me(0));
    check_seen(rt, bench, State::Stale, false);
    bench.mark_copied(Me(0), 3);
    check_seen(rt, bench, State::Copying { next: 3 }, false);
    bench.enter_service(Me(0));
    check_seen(rt, bench, State::InService, true);
}

// What it lost is zero, and the other memory has it still.
#[test]
fn a_memory_is_copied_back(rt: HostRuntime) -> Result<(), NoMemory> {
    let mut bench = new_bench(rt.alloc())?;
    bench.write_block(8, false, &SEVENS);
    bench.write_block(8, true, &SEVENS);
    check_failure(&rt, &mut bench);
    check_return(&rt, &mut bench);
    assert_eq!(rt; bench.first_block(8), Some(ZEROS));
    assert_eq!(rt; bench.block(8, true), Some(SEVENS));
    Ok(())
}
