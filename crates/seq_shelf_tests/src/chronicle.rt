// Both chronicles in memory.
use seq_shelf::{Chronicle, ChronicleError, MemChronicle, SoundChronicle};
use seq_words::{Bytes, Entry, Pid};
use std::test::Fail;

const PAIRS: [Entry; 4] = [
    Entry {
        pid: Pid(3),
        count: 8,
    },
    Entry {
        pid: Pid(4),
        count: 9,
    },
    Entry {
        pid: Pid(5),
        count: 1,
    },
    Entry {
        pid: Pid(15),
        count: 10_000,
    },
];

// The pairs that aren't taken, by their numbers' bits.
fn faults<C: Chronicle>(chronicle: &mut C, pairs: &[Entry]) -> u32 {
    let mut faults = 0u32;
    for pair in pairs {
        let fault = chronicle.append(pair.pid, pair.count) == Err(ChronicleError::Fault);
        faults = faults << 1 | u32::from(fault);
    }
    faults
}

#[test]
fn chronicles(rt: HostRuntime) -> Result<(), Fail> {
    let alloc = rt.alloc();
    let mut sound = SoundChronicle::new(alloc);
    let mut listed = MemChronicle::new(alloc, Bytes::copy_of(alloc, &[0, 2])?);
    assert_eq!(rt; faults(&mut sound, &PAIRS), 0);
    assert_eq!(rt; faults(&mut listed, &PAIRS), 0b1010);
    assert_eq!(rt; sound.pairs(), PAIRS.as_slice());
    assert_eq!(rt; listed.pairs(), [PAIRS[1], PAIRS[3]].as_slice());
    Ok(())
}
