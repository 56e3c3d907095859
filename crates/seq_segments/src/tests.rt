// The addresses of two processes, written out by hand.
use crate::map;
use seq_layout::Extent;
use seq_samples::three_memories;
use seq_words::{NoMemory, Pid};

// Of a process with these held segments, an address, and the extent and byte that it names.
#[test]
fn addresses_and_what_they_name(rt: HostRuntime) -> Result<(), NoMemory> {
    let desc = three_memories(rt.alloc())?;
    for (pid, held, address, named) in [
        (0u8, 0x0000u16, 0u32, Some((0, 256))),
        (0, 0x0000, 63, Some((0, 319))),
        (0, 0xffff, 64, None),
        (0, 0xffff, 0x3fff_ffff, None),
        (0, 0x0001, 0x4000_0000, Some((2, 0))),
        (0, 0x0001, 0x4000_001f, Some((2, 31))),
        (0, 0x0001, 0x4000_0020, None),
        (0, 0x0002, 0x4000_0000, None),
        (0, 0x0002, 0x4001_003f, Some((3, 63))),
        (0, 0x0002, 0x4001_0040, None),
        (0, 0xffff, 0x4002_0000, None),
        (0, 0xffff, 0xffff_ffff, None),
        (1, 0x0000, 0, Some((1, 768))),
        (1, 0x0000, 31, Some((1, 799))),
        (1, 0x0000, 32, None),
        (1, 0x0003, 0x4001_0000, Some((3, 0))),
    ] {
        if (pid as usize) < desc.processes.len() {
            let found = map(&desc, Pid(pid), held, address);
            let wanted = named.map(|(extent, byte)| (Extent(extent), byte));
            assert_eq!(rt; found, wanted, "{pid} {held} {address}");
        }
    }
    Ok(())
}
