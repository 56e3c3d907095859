// Lists, each call once.
use super::*;
use std::test::Fail;

#[test]
fn lists(rt: HostRuntime) -> Result<(), Fail> {
    let alloc = rt.alloc();
    let mut bytes = Bytes::copy_of(alloc, b"ab")?;
    bytes.push(b'c')?;
    bytes.append(b"de")?;
    assert_eq!(rt; bytes.as_slice(), b"abcde".as_slice());
    bytes.set(1, b'x');
    assert_eq!(rt; bytes.as_slice(), b"axcde".as_slice());
    let mut items = Items::new(alloc);
    for number in [3u32, 5, 7] {
        items.push(number)?;
    }
    assert_eq!(rt; (items.len(), items.as_slice()), (3, [3, 5, 7].as_slice()));
    assert_eq!(rt; items.replace(1, 6), 5);
    items.set(0, 4);
    *items.at_mut(2) += 1;
    assert_eq!(rt; (items.get(0), *items.at(1), items.get(2)), (4, 6, 8));
    items.clear();
    assert_eq!(rt; items.len(), 0);
    Ok(())
}

#[test]
fn bits_of_masks(rt: HostRuntime) {
    for (mask, at, wanted) in [
        (0x0001, 0, true),
        (0x0001, 1, false),
        (0x8000, 15, true),
        (0x7fff, 15, false),
        (0x0024, 5, true),
        (0x0024, 4, false),
    ] {
        assert_eq!(rt; has_bit(mask, at), wanted, "{mask} {at}");
    }
}

#[test]
fn names_of_elements(rt: HostRuntime) {
    for (word, wanted) in [
        (b"p0".as_slice(), Some(Element::Processor(Pe(0)))),
        (b"p7".as_slice(), Some(Element::Processor(Pe(7)))),
        (b"p8".as_slice(), None),
        (b"m7".as_slice(), Some(Element::Memory(Me(7)))),
        (b"m8".as_slice(), None),
        (b"i3".as_slice(), Some(Element::Io(Ioe(3)))),
        (b"i4".as_slice(), None),
        (b"P0".as_slice(), None),
        (b"p".as_slice(), None),
        (b"p00".as_slice(), None),
        (b"p/".as_slice(), None),
        (b"p:".as_slice(), None),
    ] {
        assert_eq!(rt; element_named(word), wanted, "{:?}", word);
    }
    assert_eq!(rt; element_name(Element::Memory(Me(7))), *b"m7");
    assert_eq!(rt; half_named(b"b"), Some(Half::B));
    assert_eq!(rt; half_named(b"B"), None);
}
