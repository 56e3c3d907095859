// Elements that fail, or are struck, at every moment of a small run on two processors, two memories and two I/O elements.
use super::*;
use crate::runs::comes_through;
use crate::tests::turns_and;
use std::test::Fail;

// Rounds, event by event, up to so many events, and what follows them.
fn events_and(alloc: Global, events: u64, then: &'static str) -> Result<Vec<u8>, AllocError> {
    let mut text = Vec::new(alloc);
    for event in 0..events {
        let turn = match event % 4 {
            0 => "turn p0\n",
            1 => "turn p1\n",
            2 => "turn i0\n",
            _ => "turn i1\n",
        };
        text.extend_from_slice(turn.as_bytes())?;
    }
    text.extend_from_slice(then.as_bytes())?;
    Ok(text)
}

// What follows some events of the run, which has at most 160: a memory fails and is copied again, or one or both of the I/O elements
// fail, one of them for good.
static FAILURES: [&str; 6] = [
    "fail m0\nrepair m0\nround 720\nfinish 10000\n",
    "fail m1\nrepair m1\nround 720\nfinish 10000\n",
    "fail i0\nfinish 10000\n",
    "fail i1\nfinish 10000\n",
    "fail i0\nrepair i0\nfinish 10000\n",
    "fail i0\nfail i1\nrepair i1\nfinish 10000\n",
];

// Runs one of the failures behind so many events.
fn outlives(alloc: Global, number: u64) -> Result<bool, Fail> {
    let failures = FAILURES[(number % 6) as usize];
    let schedule = events_and(alloc, number / 6, failures)?;
    comes_through(alloc, schedule.as_slice())
}

#[test]
fn memories_and_io_elements_fail_at_every_event(rt: HostRuntime) -> Result<(), Fail> {
    let alloc = rt.alloc();
    for number in 0u64..966 {
        assert!(rt; outlives(alloc, number)?, "{}", number);
    }
    Ok(())
}

// So many turns of processor 0, then a strike of one of the registers of a half, 32 being the pc, and the rest of the run.
fn strike_behind(alloc: Global, turns: u64, strike: u64) -> Result<Vec<u8>, AllocError> {
    let half = if strike < 32 { "a" } else { "b" };
    let register = strike % 32 + 1;
    let line = format!(in alloc; "upset p0 {half} {register} 0x1\nfinish 10000\n")?;
    turns_and(alloc, turns, &line)
}

// Runs one of the 64 strikes behind so many turns.
fn is_recovered(alloc: Global, number: u64) -> Result<bool, Fail> {
    let schedule = strike_behind(alloc, number / 64, number % 64)?;
    comes_through(alloc, schedule.as_slice())
}

// Alone a processor takes 36 turns: each of the strikes after each of them, and before the first.
#[test]
fn a_register_is_struck_at_every_turn(rt: HostRuntime) -> Result<(), Fail> {
    let alloc = rt.alloc();
    for number in 0u64..2368 {
        assert!(rt; is_recovered(alloc, number)?, "{}", number);
    }
    Ok(())
}
