// Both sinks in memory.
use seq_shelf::{MemSink, Sink, SinkError, SoundSink};
use seq_words::Bytes;
use std::test::Fail;

const PIECES: [&str; 4] = ["done\n", "history 1 8\n", "", "line 0 1\n"];

// The pieces that aren't written, by their numbers' bits.
fn failures<K: Sink>(sink: &mut K, pieces: &[&str]) -> u32 {
    let mut failures = 0u32;
    for piece in pieces {
        let failed = sink.write(piece.as_bytes()) == Err(SinkError::Failed);
        failures = failures << 1 | u32::from(failed);
    }
    failures
}

#[test]
fn sinks(rt: HostRuntime) -> Result<(), Fail> {
    let alloc = rt.alloc();
    let mut sound = SoundSink::new(alloc);
    let mut listed = MemSink::new(alloc, Bytes::copy_of(alloc, &[1])?);
    assert_eq!(rt; failures(&mut sound, &PIECES), 0);
    assert_eq!(rt; failures(&mut listed, &PIECES), 0b0100);
    assert_eq!(rt; sound.bytes(), b"done\nhistory 1 8\nline 0 1\n".as_slice());
    assert_eq!(rt; listed.bytes(), b"done\nline 0 1\n".as_slice());
    Ok(())
}
