// The shelf, the line and the sink over real files and standard output.
use seq_shelf::{
    FileLine, FileShelf, Line, LineError, LoadError, OutSink, Shelf, Sink, SinkError, StoreError,
    open_output,
};
use seq_words::Bytes;
use std::alloc::Global;
use std::cell::RefCell;
use std::fmt::Display;
use std::io::ErrorKind;
use std::rt::Stdout;
use std::test::Fail;
use std::{fs, io};

// Standard output that keeps what it takes, and takes no empty piece.
#[derive(Drop)]
struct Tape {
    taken: RefCell<Bytes>,
}

impl Print for Tape {
    fn print<D: Display + Drop>(&self, _value: D) -> io::Result<()> {
        Err(io::Error::from(ErrorKind::Unsupported))
    }

    fn println<D: Display + Drop>(&self, _value: D) -> io::Result<()> {
        Err(io::Error::from(ErrorKind::Unsupported))
    }

    fn write_all(&self, bytes: &[u8]) -> io::Result<()> {
        if bytes.is_empty() {
            return Err(io::Error::from(ErrorKind::WriteZero));
        }
        let Ok(mut taken) = self.taken.try_borrow_mut() else {
            return Err(io::Error::from(ErrorKind::ResourceBusy));
        };
        match taken.append(bytes) {
            Ok(()) => Ok(()),
            Err(_) => Err(io::Error::from(ErrorKind::OutOfMemory)),
        }
    }
}

// A load of a file, and the length of its content.
struct Load {
    name: &'static str,
    limit: u64,
    wanted: Result<usize, LoadError>,
}

const LOADS: [Load; 9] = [
    Load {
        name: "shelf_test",
        limit: 5000,
        wanted: Ok(5000),
    },
    Load {
        name: "shelf_test",
        limit: 5001,
        wanted: Ok(5000),
    },
    Load {
        name: "shelf_test",
        limit: 4999,
        wanted: Err(LoadError::TooLong),
    },
    Load {
        name: "shelf_test",
        limit: 4096,
        wanted: Err(LoadError::TooLong),
    },
    Load {
        name: "shelf_test",
        limit: 0,
        wanted: Err(LoadError::TooLong),
    },
    Load {
        name: "shelf_absent",
        limit: 5000,
        wanted: Err(LoadError::Absent),
    },
    Load {
        name: "shelf_test/in_a_file",
        limit: 5000,
        wanted: Err(LoadError::Failed),
    },
    Load {
        name: "shelf\0test",
        limit: 5000,
        wanted: Err(LoadError::Failed),
    },
    Load {
        name: ".",
        limit: 5000,
        wanted: Err(LoadError::Failed),
    },
];

fn length_of(loaded: Result<Bytes, LoadError>) -> Result<usize, LoadError> {
    match loaded {
        Ok(bytes) => Ok(bytes.as_slice().len()),
        Err(error) => Err(error),
    }
}

// The first of the loads that doesn't answer what is wanted.
fn first_wrong<S: Shelf>(shelf: &mut S, loads: &[Load]) -> Option<usize> {
    for n in 0..loads.len() {
        let loaded = shelf.load(loads[n].name, loads[n].limit);
        if length_of(loaded) != loads[n].wanted {
            return Some(n);
        }
    }
    None
}

#[test]
fn file_shelf(rt: HostRuntime) -> Result<(), Fail> {
    let mut shelf = FileShelf::new(&rt, rt.alloc());
    assert_eq!(rt; shelf.store("shelf_test", [7; 6000].as_slice()), Ok(()));
    assert_eq!(rt; shelf.store("shelf_test", [9; 5000].as_slice()), Ok(()));
    assert_eq!(rt; first_wrong(&mut shelf, &LOADS), None);
    let loaded = shelf.load("shelf_test", 5000);
    assert!(rt; loaded.is_ok_and(|bytes| bytes.as_slice() == [9; 5000].as_slice()));
    assert_eq!(rt; shelf.store(".", b"x"), Err(StoreError::Failed));
    fs::remove_file(&rt, "shelf_test")?;
    Ok(())
}

#[test]
fn file_line(rt: HostRuntime) -> Result<(), Fail> {
    let alloc = rt.alloc();
    fs::write(&rt, "line_test", "before")?;
    let mut line = FileLine::new(&rt, String::from_str(alloc, "line_test")?);
    assert_eq!(rt; fs::read_to_string(&rt, "line_test")?.as_str(), "before");
    assert_eq!(rt; line.send(0, 0x41), Ok(()));
    assert_eq!(rt; line.send(1, 0x42), Ok(()));
    assert_eq!(rt; fs::read_to_string(&rt, "line_test")?.as_str(), "AB");
    assert_eq!(rt; line.accepted(), 2);
    assert_eq!(rt; line.byte_at(0), None);
    fs::remove_file(&rt, "line_test")?;
    let mut lost = FileLine::new(&rt, String::from_str(alloc, "line_absent/file")?);
    assert_eq!(rt; lost.send(0, 0x41), Err(LineError::Fault));
    assert_eq!(rt; lost.accepted(), 0);
    Ok(())
}

// Stores so many bytes, the last another than all others, and loads them: whether all come back, and are too many for a
// limit one less.
fn comes_back<S: Shelf>(alloc: Global, shelf: &mut S, length: usize) -> Result<bool, Fail> {
    let mut content = vec![in alloc; 7u8; length]?;
    if let Some(last) = content.last_mut() {
        *last = 9;
    }
    if shelf.store("shelf_large", content.as_slice()).is_err() {
        return Ok(false);
    }
    let loaded = shelf.load("shelf_large", 5_000_001);
    let below = shelf.load("shelf_large", (length as u64).saturating_sub(1));
    Ok(
        loaded.is_ok_and(|bytes| bytes.as_slice() == content.as_slice())
            && below.is_err_and(|error| error == LoadError::TooLong),
    )
}

// A file is loaded whole whatever its size: above sixteen pieces, and above a thousand.
#[test]
fn large_files(rt: HostRuntime) -> Result<(), Fail> {
    let mut shelf = FileShelf::new(&rt, rt.alloc());
    assert!(rt; comes_back(rt.alloc(), &mut shelf, 65_536)?);
    assert!(rt; comes_back(rt.alloc(), &mut shelf, 65_553)?);
    assert!(rt; comes_back(rt.alloc(), &mut shelf, 69_633)?);
    assert!(rt; comes_back(rt.alloc(), &mut shelf, 5_000_001)?);
    fs::remove_file(&rt, "shelf_large")?;
    Ok(())
}

#[test]
fn out_sink(rt: HostRuntime) {
    assert!(rt; open_output(rt.stdout()).is_some());
    let mut closed: OutSink<Stdout> = OutSink::new(None);
    assert_eq!(rt; closed.write(b"a report\n"), Err(SinkError::Failed));
    let mut sink = OutSink::new(Some(&rt));
    assert_eq!(rt; sink.write(b"a report\n"), Ok(()));
    assert_eq!(rt; sink.write(b""), Ok(()));
    let tape = Tape {
        taken: RefCell::new(Bytes::new(rt.alloc())),
    };
    let mut sink = OutSink::new(Some(&tape));
    assert_eq!(rt; sink.write(b"done\n"), Ok(()));
    assert_eq!(rt; sink.write(b""), Err(SinkError::Failed));
    assert_eq!(rt; sink.write(b"history 1 8\n"), Ok(()));
    let Ok(taken) = tape.taken.try_borrow() else {
        assert!(rt; false);
        return;
    };
    assert_eq!(rt; taken.as_slice(), b"done\nhistory 1 8\n".as_slice());
}
