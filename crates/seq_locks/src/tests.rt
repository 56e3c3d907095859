// Claims and releases of the status word of a process, on two memories of which either may be away.
ghost use Rattle.std.specs.Prelude.{◌≡◌, ◌≢◌, [], ◌∷◌, IfOk};
ghost use Rattle.std.proofs.Props.{props};
ghost use Rattle.seq_layout.specs.Places.{IsPlace};
ghost use Rattle.seq_layout.specs.Copies.{Matches};

use crate::{Claim, Claimed, Held, Release};
use seq_layout::{Extent, Layout, WordAt};
use seq_memory::Memories;
use seq_samples::lone_process;
use seq_words::NoMemory;
use std::alloc::Global;
use std::process::Abort;

const STATUS: WordAt = WordAt {
    extent: Extent(0),
    word: 0,
};

// The layout of two memories, and of one process of 32 bytes with no line.
fn layout(alloc: Global) -> Result<Layout, NoMemory>
    ensures memories { IfOk result (λ l. l.memories ≡ 2) }
    ensures blocks { IfOk result (λ l. l.blocks ≡ 9 ∷ []) }
    ensures words { IfOk result (λ l. l.words ≡ 1 ∷ []) }
{
    let desc = lone_process(alloc)?;
    let layout = Layout::new(alloc, &desc)?;
    Ok(layout)
}

// When the memory of a copy fails.
#[derive(Clone, Copy, PartialEq, Eq, Debug)]
enum When {
    Never,
    BeforeFirst,
    BeforeSecond,
}

// A layout with its memories, which keep both copies of the status word.
#[derive(Drop)]
struct Machine {
    layout: Layout,
    memories: Memories,
    ghost place: { IsPlace layout.words 0 0 } by { Prim.hlevel props },
    ghost matches: { Matches layout memories } by { Prim.hlevel props },
}

fn new_machine(alloc: Global) -> Result<Machine, NoMemory> {
    let layout = layout(alloc)?;
    let memories = layout.memories(alloc)?;
    Ok(Machine { layout, memories })
}

impl Machine {
    fn set(&mut self, shadow: bool, value: u64) {
        self.layout
            .write_word(&mut self.memories, STATUS, shadow, value);
    }

    // The memory of a copy fails, where it is time.
    fn fail_if(&mut self, shadow: bool, time: bool) {
        if time {
            let memory = self.layout.memory(STATUS.extent, shadow);
            self.layout.fail(&mut self.memories, memory);
        }
    }

    // Both turns of a claim, amid which the memory of a copy may fail.
    fn claim(&mut self, value: u64, shadow: bool, when: When) -> Claimed<Held>
        requires { value ≢ 0 }
    {
        self.fail_if(shadow, when == When::BeforeFirst);
        match Claim::start(STATUS, value).turn(&mut self.memories, &self.layout) {
            Claimed::Refused(seen) => Claimed::Refused(seen),
            Claimed::Got(claim) => {
                self.fail_if(shadow, when == When::BeforeSecond);
                claim.turn(&mut self.memories, &self.layout)
            }
        }
    }

    // Both turns of a release, amid which the memory of a copy may fail.
    fn release(&mut self, shadow: bool, when: When) {
        self.fail_if(shadow, when == When::BeforeFirst);
        let next = Release::start(STATUS).turn(&mut self.memories, &self.layout);
        self.fail_if(shadow, when == When::BeforeSecond);
        let _free = next.turn(&mut self.memories, &self.layout);
    }

    fn value(&self, shadow: bool) -> Option<u64> {
        if self.layout.serves(&self.memories, STATUS.extent, shadow) {
            Some(self.layout.read_word(&self.memories, STATUS, shadow))
        } else {
            None
        }
    }

    // What the copies of the word hold, the primary's first: none where a copy isn't in service.
    fn held(&self) -> (Option<u64>, Option<u64>) {
        (self.value(false), self.value(true))
    }
}

// A claim is refused, amid which the primary's memory may fail: which value it saw, and what the copies hold then.
fn check_refused(
    rt: &impl Abort,
    machine: &mut Machine,
    when: When,
    seen: u64,
    held: (Option<u64>, Option<u64>),
) {
    assert_eq!(rt; machine.claim(1, false, when), Claimed::Refused(seen));
    assert_eq!(rt; machine.held(), held);
}

#[test]
fn a_word_that_is_taken_refuses_a_claim(rt: HostRuntime) -> Result<(), NoMemory> {
    let mut machine = new_machine(rt.alloc())?;
    machine.set(false, 2);
    check_refused(&rt, &mut machine, When::Never, 2, (Some(2), Some(0)));

    machine.set(false, 0);
    machine.set(true, 3);
    check_refused(&rt, &mut machine, When::BeforeFirst, 3, (None, Some(3)));
    Ok(())
}

/// The memory of which copy fails, and when; and what both copies hold then.
type Case = (bool, When, (Option<u64>, Option<u64>));

const CLAIMS: [Case; 5] = [
    (false, When::Never, (Some(7), Some(7))),
    (false, When::BeforeFirst, (None, Some(7))),
    (false, When::BeforeSecond, (None, Some(7))),
    (true, When::BeforeFirst, (Some(7), None)),
    (true, When::BeforeSecond, (Some(7), None)),
];

// A copy that is in service holds 0.
fn check_free(rt: &impl Abort, (primary, second): (Option<u64>, Option<u64>)) {
    assert_eq!(rt; primary.unwrap_or(0), 0);
    assert_eq!(rt; second.unwrap_or(0), 0);
}

// What both copies hold after a claim, and after the release that follows.
fn check_claim(rt: &impl Abort, alloc: Global, case: &Case) -> Result<(), NoMemory> {
    let (shadow, when, claimed) = *case;
    let mut machine = new_machine(alloc)?;
    assert_eq!(rt; machine.claim(7, shadow, when), Claimed::Got(Held));
    assert_eq!(rt; machine.held(), claimed);
    machine.release(shadow, When::Never);
    check_free(rt, machine.held());
    Ok(())
}

fn check_claims(rt: &impl Abort, alloc: Global, cases: &[Case]) -> Result<(), NoMemory> {
    for case in cases {
        check_claim(rt, alloc, case)?;
    }
    Ok(())
}

// With no memory away, and with each memory away from each turn on.
#[test]
fn a_word_is_claimed_and_released(rt: HostRuntime) -> Result<(), NoMemory> {
    check_claims(&rt, rt.alloc(), &CLAIMS)
}

const RELEASES: [Case; 4] = [
    (false, When::BeforeFirst, (None, Some(0))),
    (false, When::BeforeSecond, (None, Some(0))),
    (true, When::BeforeFirst, (Some(0), None)),
    (true, When::BeforeSecond, (Some(0), None)),
];

fn check_release(rt: &impl Abort, alloc: Global, case: &Case) -> Result<(), NoMemory> {
    let (shadow, when, freed) = *case;
    let mut machine = new_machine(alloc)?;
    assert_eq!(rt; machine.claim(7, false, When::Never), Claimed::Got(Held));
    machine.release(shadow, when);
    assert_eq!(rt; machine.held(), freed);
    Ok(())
}

fn check_releases(rt: &impl Abort, alloc: Global, cases: &[Case]) -> Result<(), NoMemory> {
    for case in cases {
        check_release(rt, alloc, case)?;
    }
    Ok(())
}

#[test]
fn a_release_goes_on_where_a_memory_fails(rt: HostRuntime) -> Result<(), NoMemory> {
    check_releases(&rt, rt.alloc(), &RELEASES)
}
