ghost use Rattle.std.specs.Prelude.{◌<◌};

use crate::{Cache, Full};
use seq_layout::Extent;
use seq_words::{Block, NoMemory};

// A block whose bytes are all the same.
fn filled(byte: u8) -> Block {
    Block { bytes: [byte; 32] }
}

// The i-th of sixteen blocks of four extents, in an order that is not ascending.
fn place(i: u32) -> (Extent, u32) {
    let number = i % 16 * 7 % 16;
    (Extent(number / 4), number % 4)
}

#[test]
fn a_full_cache_refuses_a_further_block_and_takes_those_that_it_has(
    rt: HostRuntime,
) -> Result<(), NoMemory> {
    let mut cache = Cache::new(rt.alloc(), 16)?;
    for i in 0..16 {
        let (extent, n) = place(i);
        assert!(rt; cache.room(16 - i) && !cache.room(17 - i));
        assert!(rt; cache.admits(extent, n));
        assert_eq!(rt; cache.write(extent, n, &filled(i as u8)), Ok(()));
    }

    let (extent, n) = (Extent(2), 9);
    let full = Full {
        changed: 16,
        capacity: 16,
    };
    assert!(rt; !cache.admits(extent, n));
    assert_eq!(rt; cache.write(extent, n, &filled(99)), Err(full));
    assert!(rt; cache.find(extent, n).is_none());
    assert_eq!(rt; cache.dirty(), 16);
    for i in 0..16 {
        let (extent, n) = place(i);
        assert_eq!(rt; cache.find(extent, n).copied(), Some(filled(i as u8)));
    }

    let (extent, n) = place(5);
    assert_eq!(rt; cache.write(extent, n, &filled(77)), Ok(()));
    assert_eq!(rt; cache.dirty(), 16);
    assert_eq!(rt; cache.find(extent, n).copied(), Some(filled(77)));
    let (extent, n) = place(6);
    assert_eq!(rt; cache.find(extent, n).copied(), Some(filled(6)));

    cache.clear();
    assert_eq!(rt; cache.dirty(), 0);
    assert!(rt; cache.find(extent, n).is_none());
    assert!(rt; cache.room(16));
    Ok(())
}

#[test]
fn changes_stand_in_ascending_order(rt: HostRuntime) -> Result<(), NoMemory> {
    let mut cache = Cache::new(rt.alloc(), 4)?;
    for (extent, n) in [(3, 0), (1, 8), (1, 2), (0, 9)] {
        assert_eq!(rt; cache.write(Extent(extent), n, &filled(1)), Ok(()));
    }
    for (i, (extent, n)) in [(0, 9), (1, 2), (1, 8), (3, 0)].into_iter().enumerate() {
        let i = i as u32;
        assert!(rt; i < cache.dirty());
        assert_eq!(rt; cache.dirty_at(i).extent, Extent(extent));
        assert_eq!(rt; cache.dirty_at(i).place, n);
    }
    Ok(())
}

/// Puts 9 into a byte of a block of extent 1 that is changed.
fn put_nine(cache: &mut Cache, n: u32, at: usize) -> bool
    requires { at < 32 }
{
    match cache.find_mut(Extent(1), n) {
        Some(block) => {
            block.bytes[at] = 9;
            true
        }
        None => false,
    }
}

/// The first bytes of a block of extent 1 that is changed.
fn first_bytes(cache: &Cache, n: u32) -> Option<(u8, u8, u8)> {
    let block = cache.find(Extent(1), n)?;
    Some((block.bytes[0], block.bytes[1], block.bytes[2]))
}

#[test]
fn a_lent_block_is_changed_in_its_place(rt: HostRuntime) -> Result<(), NoMemory> {
    let mut cache = Cache::new(rt.alloc(), 4)?;
    assert_eq!(rt; cache.write(Extent(1), 3, &filled(1)), Ok(()));
    assert_eq!(rt; cache.write(Extent(1), 7, &filled(1)), Ok(()));
    assert!(rt; put_nine(&mut cache, 3, 0));
    assert!(rt; put_nine(&mut cache, 3, 1));
    assert!(rt; put_nine(&mut cache, 7, 0));
    assert!(rt; !put_nine(&mut cache, 5, 0));
    assert_eq!(rt; cache.dirty(), 2);
    assert_eq!(rt; first_bytes(&cache, 3), Some((9, 9, 1)));
    assert_eq!(rt; first_bytes(&cache, 7), Some((9, 1, 1)));
    Ok(())
}
