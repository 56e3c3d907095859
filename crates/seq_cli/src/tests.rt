// The files of a machine: several images, and files of segments.
use crate::Status;
use crate::files::load_draft;
use crate::images::{assemble_file, list_file};
use crate::parts::load_parts;
use seq_shelf::SoundShelf;
use seq_words::{Bytes, Items};
use std::alloc::Global;
use std::test::Fail;

const MACHINE: &str =
    "sequoia 1\nprocessors 2\nmemories 2\nios 1\ncache 16\nquantum 10\njournal 32\nsegment 64 table\nsegment 32\nsegment 32 more\nprocess a.sqi lines 0 segments 0\nprocess b.sqi lines 1,2 segments -\n";

// Private size 64, one byte, entry 4.
const IMAGE: [u8; 17] = [
    0x53, 0x51, 0x49, 0x31, 0x40, 0, 0, 0, 1, 0, 0, 0, 4, 0, 0, 0, 0x13,
];

// The names under which the image of process 1 and the file of segment 2 are stored, the image of process 0, the length of
// the file of segment 0, and what comes of it: where all is loaded, how many files there are, the size and entry of process
// 1, and the lengths of the first bytes of the first and the last segment.
#[derive(Clone, Copy)]
struct Row {
    second: &'static str,
    last: &'static str,
    first_image: &'static [u8],
    table: usize,
    wanted: Result<(usize, u32, u32, usize, usize), Status>,
}

const ROWS: [Row; 7] = [
    Row {
        second: "b.sqi",
        last: "more",
        first_image: &IMAGE,
        table: 64,
        wanted: Ok((5, 64, 4, 64, 3)),
    },
    Row {
        second: "b.sqi",
        last: "more",
        first_image: &IMAGE,
        table: 0,
        wanted: Ok((5, 64, 4, 0, 3)),
    },
    Row {
        second: "c.sqi",
        last: "other",
        first_image: &IMAGE,
        table: 65,
        wanted: Err(Status::Absent { file: 2 }),
    },
    Row {
        second: "c.sqi",
        last: "more",
        first_image: b"SQI2",
        table: 64,
        wanted: Err(Status::Refused {
            file: 1,
            place: 3,
            rule: 20,
        }),
    },
    Row {
        second: "b.sqi",
        last: "other",
        first_image: &IMAGE,
        table: 65,
        wanted: Err(Status::Refused {
            file: 3,
            place: 64,
            rule: 27,
        }),
    },
    Row {
        second: "b.sqi",
        last: "other",
        first_image: &IMAGE,
        table: 64,
        wanted: Err(Status::Absent { file: 4 }),
    },
    Row {
        second: "a.sqi",
        last: "more",
        first_image: &IMAGE,
        table: 64,
        wanted: Err(Status::Absent { file: 2 }),
    },
];

fn open(alloc: Global, row: Row) -> Result<Result<(usize, u32, u32, usize, usize), Status>, Fail> {
    let mut shelf = SoundShelf::new(alloc);
    shelf.put("machine", MACHINE.as_bytes())?;
    shelf.put("a.sqi", row.first_image)?;
    shelf.put(row.second, &IMAGE)?;
    let table = vec![in alloc; 7u8; row.table]?;
    shelf.put("table", table.as_slice())?;
    shelf.put(row.last, b"abc")?;
    let mut files = Items::new(alloc);
    let draft = match load_draft(alloc, &mut shelf, &mut files, "machine") {
        Ok(draft) => draft,
        Err(status) => return Ok(Err(status)),
    };
    let desc = match load_parts(alloc, &mut shelf, &mut files, draft) {
        Ok(desc) => desc,
        Err(answer) => return Ok(Err(answer.status)),
    };
    let Some(process) = desc.processes.as_slice().last() else {
        return Err(Fail::from("no process"));
    };
    let (Some(first), Some(last)) = (
        desc.segments.as_slice().first(),
        desc.segments.as_slice().last(),
    ) else {
        return Err(Fail::from("no segment"));
    };
    Ok(Ok((
        files.len(),
        process.size,
        process.entry,
        first.first.as_slice().len(),
        last.first.as_slice().len(),
    )))
}

#[test]
fn parts_are_loaded_in_their_order(rt: HostRuntime) -> Result<(), Fail> {
    let alloc = rt.alloc();
    for row in ROWS {
        assert_eq!(rt; open(alloc, row)?, row.wanted);
    }
    Ok(())
}

fn listed(alloc: Global, shelf: &mut SoundShelf) -> Result<Bytes, Status> {
    match list_file(alloc, shelf, "a.sqi") {
        Ok(text) => Ok(text),
        Err(answer) => Err(answer.status),
    }
}

fn listing(alloc: Global, source: &str) -> Result<Result<Bytes, Status>, Fail> {
    let mut shelf = SoundShelf::new(alloc);
    shelf.put("a.s", source.as_bytes())?;
    match assemble_file(alloc, &mut shelf, "a.s", "a.sqi") {
        Ok(_) => Ok(listed(alloc, &mut shelf)),
        Err(answer) => Ok(Err(answer.status)),
    }
}

// Sources with the listings of their images.
const LISTINGS: [(&str, &str); 2] = [
    (
        "addi x1, x0, 5\n.byte 0x41\n",
        "00000000 00500093 addi x1, x0, 5\n00000004 41 .byte 0x41\n",
    ),
    ("# nothing\n", ""),
];

#[test]
fn images_are_listed(rt: HostRuntime) -> Result<(), Fail> {
    let alloc = rt.alloc();
    for (source, wanted) in LISTINGS {
        match listing(alloc, source)? {
            Ok(text) => assert_eq!(rt; text.as_slice(), wanted.as_bytes()),
            Err(status) => assert_eq!(rt; status, Status::Done),
        }
    }
    Ok(())
}
