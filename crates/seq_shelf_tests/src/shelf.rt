// Both shelves in memory.
use seq_shelf::{LoadError, MemShelf, Shelf, SoundShelf, StoreError};
use seq_words::Bytes;
use std::process::Abort;
use std::test::Fail;

/// A file and its content.
type Put = (&'static str, &'static str);

const PUTS: [Put; 3] = [("a", "one"), ("b", "two"), ("a", "three")];

fn put_all(sound: &mut SoundShelf, listed: &mut MemShelf, rows: &[Put]) -> Result<(), Fail> {
    for (name, content) in rows {
        sound.put(name, content.as_bytes())?;
        listed.put(name, content.as_bytes())?;
    }
    Ok(())
}

/// A file and the limit of a load of it; the length of what the sound shelf gives, and of what the other gives.
type Load = (
    &'static str,
    u64,
    Result<usize, LoadError>,
    Result<usize, LoadError>,
);

const LOADS: [Load; 6] = [
    ("a", 5, Ok(5), Ok(5)),
    ("a", 9, Ok(5), Err(LoadError::Failed)),
    ("a", 4, Err(LoadError::TooLong), Err(LoadError::TooLong)),
    ("b", 3, Ok(3), Ok(3)),
    ("c", 3, Err(LoadError::Absent), Err(LoadError::Absent)),
    ("", 0, Err(LoadError::Absent), Err(LoadError::Absent)),
];

fn length_of(loaded: Result<Bytes, LoadError>) -> Result<usize, LoadError> {
    match loaded {
        Ok(bytes) => Ok(bytes.as_slice().len()),
        Err(error) => Err(error),
    }
}

fn check_load<S: Shelf>(
    rt: &impl Abort,
    shelf: &mut S,
    (name, limit): (&str, u64),
    wanted: Result<usize, LoadError>,
) {
    let loaded = length_of(shelf.load(name, limit));
    assert_eq!(rt; loaded, wanted, "{name} {limit}");
}

fn check_loads(rt: &impl Abort, sound: &mut SoundShelf, listed: &mut MemShelf, rows: &[Load]) {
    for (name, limit, wanted, wanted_of_listed) in rows {
        check_load(rt, sound, (name, *limit), *wanted);
        check_load(rt, listed, (name, *limit), *wanted_of_listed);
    }
}

/// A file, what the sound shelf holds of it, and what the other holds.
type Kept = (&'static str, Option<&'static str>, Option<&'static str>);

const KEPT: [Kept; 4] = [
    ("a", Some("three"), Some("three")),
    ("b", Some("four"), Some("two")),
    ("c", Some(""), Some("")),
    ("d", None, None),
];

fn check_kept(
    rt: &impl Abort,
    sound: &SoundShelf,
    listed: &MemShelf,
    (name, content, content_of_listed): &Kept,
) {
    assert_eq!(rt; sound.get(name), content.map(str::as_bytes), "{name}");
    assert_eq!(rt;
        listed.get(name),
        content_of_listed.map(str::as_bytes),
        "{name}"
    );
}

fn check_all_kept(rt: &impl Abort, sound: &SoundShelf, listed: &MemShelf, rows: &[Kept]) {
    for row in rows {
        check_kept(rt, sound, listed, row);
    }
}

fn check_stores(rt: &impl Abort, sound: &mut SoundShelf, listed: &mut MemShelf) {
    assert_eq!(rt; sound.store("c", b""), Ok(()));
    assert_eq!(rt; listed.store("c", b""), Ok(()));
    assert_eq!(rt; sound.store("b", b"four"), Ok(()));
    assert_eq!(rt; listed.store("b", b"four"), Err(StoreError::Failed));
}

#[test]
fn shelves(rt: HostRuntime) -> Result<(), Fail> {
    let alloc = rt.alloc();
    let mut sound = SoundShelf::new(alloc);
    let mut listed = MemShelf::new(alloc, Bytes::copy_of(alloc, &[1, 7])?);
    put_all(&mut sound, &mut listed, &PUTS)?;
    check_loads(&rt, &mut sound, &mut listed, &LOADS);
    check_stores(&rt, &mut sound, &mut listed);
    check_all_kept(&rt, &sound, &listed, &KEPT);
    Ok(())
}
