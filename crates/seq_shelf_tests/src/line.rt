// Both lines in memory.
use seq_shelf::{Line, LineError, MemLine, SoundLine};
use seq_words::Bytes;
use std::test::Fail;

// The bytes that aren't taken, by their numbers' bits.
fn faults<L: Line>(line: &mut L, bytes: &[u8]) -> u32 {
    let mut faults = 0u32;
    for byte in bytes {
        let fault = line.send(line.accepted(), *byte) == Err(LineError::Fault);
        faults = faults << 1 | u32::from(fault);
    }
    faults
}

#[test]
fn lines(rt: HostRuntime) -> Result<(), Fail> {
    let alloc = rt.alloc();
    let mut sound = SoundLine::new(alloc);
    let mut listed = MemLine::new(alloc, Bytes::copy_of(alloc, &[1, 2, 4])?);
    assert_eq!(rt; faults(&mut sound, b"ABCDEF"), 0);
    assert_eq!(rt; faults(&mut listed, b"ABCDEF"), 0b011010);
    assert_eq!(rt; sound.bytes(), b"ABCDEF".as_slice());
    assert_eq!(rt; listed.bytes(), b"ADF".as_slice());
    assert_eq!(rt; (sound.accepted(), listed.accepted()), (6, 3));
    assert_eq!(rt; (sound.byte_at(5), sound.byte_at(6)), (Some(0x46), None));
    assert_eq!(rt; (listed.byte_at(2), listed.byte_at(3)), (Some(0x46), None));
    Ok(())
}
