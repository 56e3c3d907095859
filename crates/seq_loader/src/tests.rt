use super::*;
use seq_words::{Bytes, ReadError};
use std::test::Fail;

// A program of eight instructions and the byte that it sends, of 64 private bytes.
const HELLO: [u8; 49] = [
    0x53, 0x51, 0x49, 0x31, 0x40, 0x00, 0x00, 0x00, 0x21, 0x00, 0x00, 0x00, 0x00, 0x00, 0x00, 0x00,
    0x13, 0x05, 0x00, 0x00, 0x93, 0x05, 0x00, 0x02, 0x13, 0x06, 0x10, 0x00, 0x93, 0x08, 0x40, 0x00,
    0x73, 0x00, 0x00, 0x00, 0x13, 0x05, 0x00, 0x00, 0x93, 0x08, 0x00, 0x00, 0x73, 0x00, 0x00, 0x00,
    0x41,
];

#[test]
fn hello_is_read_and_written_again(rt: HostRuntime) -> Result<(), Fail> {
    let image = read_image(rt.alloc(), &HELLO).ok().ok_or("refused")?;
    assert_eq!(rt; image.size, 64);
    assert_eq!(rt; image.entry, 0);
    assert_eq!(rt; image.bytes.as_slice(), &HELLO[16..]);
    let file = write_image(rt.alloc(), &image).ok().ok_or("no memory")?;
    assert_eq!(rt; file.as_slice(), HELLO.as_slice());
    Ok(())
}

#[test]
fn the_largest_image_is_read(rt: HostRuntime) -> Result<(), Fail> {
    let header = b"SQI1\0\0\x01\0\0\0\x01\0\xfc\xff\0\0";
    let mut file = Bytes::copy_of(rt.alloc(), header).ok().ok_or("no memory")?;
    file.append(&[7; 65536]).ok().ok_or("no memory")?;
    let image = read_image(rt.alloc(), file.as_slice())
        .ok()
        .ok_or("refused")?;
    assert_eq!(rt; image.size, 65536);
    assert_eq!(rt; image.entry, 65532);
    assert_eq!(rt; image.bytes.as_slice().len(), 65536);
    Ok(())
}

// Files that violate a rule, with the place and the rule worked out by hand.
const FAULTY: [(&[u8], u64, u16); 30] = [
    // the mark, of which the bytes that are there are compared first
    (b"", 0, 21),
    (b"S", 1, 21),
    (b"SQI", 3, 21),
    (b"s", 0, 20),
    (b"SXI", 1, 20),
    (b"SQ1", 2, 20),
    (b"SQI2", 3, 20),
    (b"SQC1\x40\0\0\0\0\0\0\0\0\0\0\0", 2, 20),
    (b"SQI2\x01\0\0\0", 3, 20),
    // the header ends before its numbers are looked at
    (b"SQI1", 4, 21),
    (b"SQI1\x01\0\0\0", 8, 21),
    (b"SQI1\x01\0\0\0\xff\xff\xff\xff\0\0\0", 15, 21),
    // the private size
    (b"SQI1\0\0\0\0\0\0\0\0\0\0\0\0", 4, 22),
    (b"SQI1\x21\0\0\0\0\0\0\0\0\0\0\0", 4, 22),
    (b"SQI1\x20\0\x01\0\0\0\0\0\0\0\0\0", 4, 22),
    (b"SQI1\0\0\0\x80\0\0\0\0\0\0\0\0", 4, 22),
    (b"SQI1\x10\0\0\0\x11\0\0\0\x03\0\0\0", 4, 22),
    // the number of bytes
    (b"SQI1\x20\0\0\0\x21\0\0\0\0\0\0\0", 8, 23),
    (b"SQI1\x40\0\0\0\xff\xff\xff\xff\0\0\0\0", 8, 23),
    (b"SQI1\x40\0\0\0\0\x01\0\0\x41\0\0\0", 8, 23),
    // the entry
    (b"SQI1\x20\0\0\0\0\0\0\0\x02\0\0\0", 12, 24),
    (b"SQI1\x20\0\0\0\0\0\0\0\x20\0\0\0", 12, 24),
    (b"SQI1\x20\0\0\0\0\0\0\0\xfc\xff\xff\xff", 12, 24),
    (b"SQI1\x20\0\0\0\x04\0\0\0\x01\0\0\0", 12, 24),
    // the bytes end early
    (b"SQI1\x20\0\0\0\x04\0\0\0\0\0\0\0", 16, 21),
    (b"SQI1\x20\0\0\0\x04\0\0\0\x1c\0\0\0abc", 19, 21),
    (b"SQI1\0\0\x01\0\0\0\x01\0\0\0\0\0abcd", 20, 21),
    // a further byte
    (b"SQI1\x20\0\0\0\0\0\0\0\0\0\0\0\0", 16, 25),
    (b"SQI1\x20\0\0\0\x04\0\0\0\0\0\0\0abcde", 20, 25),
    (b"SQI1\x20\0\0\0\x04\0\0\0\0\0\0\0abcd\n\n\n", 20, 25),
];

#[test]
fn faulty_images_are_refused_at_their_first_fault(rt: HostRuntime) {
    for (file, place, rule) in FAULTY {
        assert_eq!(rt;
            read_image(rt.alloc(), file).err(),
            Some(ReadError::Refused { place, rule }),
            "rule {rule} at {place}"
        );
    }
    for (file, place) in [(&HELLO[..15], 15), (&HELLO[..48], 48)] {
        assert_eq!(rt;
            read_image(rt.alloc(), file).err(),
            Some(ReadError::Refused { place, rule: 21 }),
        );
    }
}
