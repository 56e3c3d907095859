// That the gallery finds what differs: trials of examples whose files are in memory.
use crate::examples::Example;
use crate::finding::Finding;
use crate::trial::find;
use seq_shelf::SoundShelf;
use std::alloc::Global;
use std::test::Fail;

// A file of the folder.
type File = (&'static str, &'static [u8]);

const MACHINE: File = (
    "f/m.txt",
    b"sequoia 1\nprocessors 1\nmemories 2\nios 1\ncache 16\nquantum 1000\njournal 32\nprocess hello.sqi lines 0 segments -\n",
);

// Writes the byte 41 and exits.
const IMAGE: File = (
    "f/hello.sqi",
    &[
        0x53, 0x51, 0x49, 0x31, 0x40, 0, 0, 0, 0x21, 0, 0, 0, 0, 0, 0, 0, 0x13, 0x05, 0, 0, 0x93,
        0x05, 0, 0x02, 0x13, 0x06, 0x10, 0, 0x93, 0x08, 0x40, 0, 0x73, 0, 0, 0, 0x13, 0x05, 0, 0,
        0x93, 0x08, 0, 0, 0x73, 0, 0, 0, 0x41,
    ],
);

const SCHEDULE: File = ("f/s.txt", b"finish 10000\n");

const TEXT: File = (
    "f/s.expected",
    b"done\nhistory 1 8\nprocess 0 exited 0\nline 0 1\n",
);

const PAGE: File = (
    "f/README.md",
    b"# A page\n\n    $ sequoia run m.txt s.txt\n    done\n    history 1 8\n    process 0 exited 0\n    line 0 1\n",
);

const FILES: &[&str] = &["m.txt", "hello.sqi", "s.txt"];

// A file that is put into the folder after the others; the files, the status and the bytes that the example has; what is found.
#[derive(Clone, Copy)]
struct Row {
    file: File,
    files: &'static [&'static str],
    status: u8,
    lines: &'static [&'static [u8]],
    finding: Finding,
}

const ROWS: [Row; 12] = [
    Row {
        file: PAGE,
        files: FILES,
        status: 0,
        lines: &[b"A"],
        finding: Finding::AsExpected,
    },
    Row {
        file: PAGE,
        files: FILES,
        status: 1,
        lines: &[b"A"],
        finding: Finding::Status(0),
    },
    Row {
        file: ("f/s.txt", b"finish 3\n"),
        files: FILES,
        status: 0,
        lines: &[b"A"],
        finding: Finding::Status(5),
    },
    // The text lacks its last line, or has one more.
    Row {
        file: ("f/s.expected", b"done\nhistory 1 8\nprocess 0 exited 0\n"),
        files: FILES,
        status: 0,
        lines: &[b"A"],
        finding: Finding::Text,
    },
    Row {
        file: (
            "f/s.expected",
            b"done\nhistory 1 8\nprocess 0 exited 0\nline 0 1\nline 1 0\n",
        ),
        files: FILES,
        status: 0,
        lines: &[b"A"],
        finding: Finding::Text,
    },
    Row {
        file: PAGE,
        files: FILES,
        status: 0,
        lines: &[b"B"],
        finding: Finding::Line(0),
    },
    Row {
        file: PAGE,
        files: FILES,
        status: 0,
        lines: &[],
        finding: Finding::Line(0),
    },
    Row {
        file: PAGE,
        files: FILES,
        status: 0,
        lines: &[b"A", b"A"],
        finding: Finding::Line(1),
    },
    // A page with one line more in the report, and one on which another command stands behind it.
    Row {
        file: (
            "f/README.md",
            b"    $ sequoia run m.txt s.txt\n    done\n    history 1 8\n    process 0 exited 0\n    line 0 1\n    line 1 0\n",
        ),
        files: FILES,
        status: 0,
        lines: &[b"A"],
        finding: Finding::Page,
    },
    Row {
        file: (
            "f/README.md",
            b"    $ sequoia run m.txt s.txt\n    done\n    history 1 8\n    process 0 exited 0\n    line 0 1\n    $ sequoia\n",
        ),
        files: FILES,
        status: 0,
        lines: &[b"A"],
        finding: Finding::AsExpected,
    },
    // A file that the folder lacks, and one that isn't handed to the command.
    Row {
        file: PAGE,
        files: &["m.txt", "none.sqi", "s.txt"],
        status: 0,
        lines: &[b"A"],
        finding: Finding::NoFile("none.sqi"),
    },
    Row {
        file: PAGE,
        files: &["m.txt", "s.txt"],
        status: 0,
        lines: &[b"A"],
        finding: Finding::Status(3),
    },
];

// The files, the later in place of the earlier.
fn gallery_of(alloc: Global, files: &[File]) -> Result<SoundShelf, Fail> {
    let mut gallery = SoundShelf::new(alloc);
    for (name, content) in files {
        gallery.put(name, content)?;
    }
    Ok(gallery)
}

#[test]
fn differences_are_found(rt: HostRuntime) -> Result<(), Fail> {
    let alloc = rt.alloc();
    for row in ROWS {
        let files = [MACHINE, IMAGE, SCHEDULE, TEXT, PAGE, row.file];
        let mut gallery = gallery_of(alloc, &files)?;
        let example = Example {
            words: &["run", "m.txt", "s.txt"],
            files: row.files,
            status: row.status,
            printed: "s.expected",
            lines: row.lines,
            stored: None,
        };
        let finding = find(alloc, &mut gallery, "f", &example);
        assert_eq!(rt; finding, row.finding);
    }
    Ok(())
}

// Private size 1,056, four bytes, entry 0: addi x1, x0, 5; and what another addition has.
const ADD: File = (
    "f/a.sqi",
    &[
        0x53, 0x51, 0x49, 0x31, 0x20, 0x04, 0, 0, 4, 0, 0, 0, 0, 0, 0, 0, 0x93, 0x00, 0x50, 0x00,
    ],
);

const OTHER: File = (
    "f/a.sqi",
    &[
        0x53, 0x51, 0x49, 0x31, 0x20, 0x04, 0, 0, 4, 0, 0, 0, 0, 0, 0, 0, 0x93, 0x00, 0x60, 0x00,
    ],
);

const SOURCE: File = ("f/a.s", b"addi x1, x0, 5\n");

const SAID: File = ("f/a.expected", b"assembled 4 bytes\n");

const SHOWN: File = (
    "f/README.md",
    b"    $ sequoia asm a.s a.sqi\n    assembled 4 bytes\n",
);

#[test]
fn images_are_compared(rt: HostRuntime) -> Result<(), Fail> {
    let alloc = rt.alloc();
    for (image, wanted) in [(ADD, Finding::AsExpected), (OTHER, Finding::Image)] {
        let mut gallery = gallery_of(alloc, &[SOURCE, SAID, SHOWN, image])?;
        let example = Example {
            words: &["asm", "a.s", "a.sqi"],
            files: &["a.s"],
            status: 0,
            printed: "a.expected",
            lines: &[],
            stored: Some("a.sqi"),
        };
        assert_eq!(rt; find(alloc, &mut gallery, "f", &example), wanted);
    }
    Ok(())
}
