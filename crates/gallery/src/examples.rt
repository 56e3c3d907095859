// The examples: each command, and what is to come of it.

/// A command that is given in a folder, and what is to come of it.
#[derive(Clone, Copy)]
pub struct Example {
    pub words: &'static [&'static str],
    /// The files that the command may load, by their names as seen from the folder.
    pub files: &'static [&'static str],
    /// The exit status.
    pub status: u8,
    /// The file that has the text that is printed.
    pub printed: &'static str,
    /// The bytes of the lines, from line 0 on; all further lines have none.
    pub lines: &'static [&'static [u8]],
    /// The image that is stored, where that is to be looked at: the folder has it.
    pub stored: Option<&'static str>,
}

pub static FIRST: [Example; 6] = [
    Example {
        words: &["run", "a1.txt", "s.txt"],
        files: &["a1.txt", "hello.sqi", "s.txt"],
        status: 0,
        printed: "s.expected",
        lines: &[b"A"],
        stored: None,
    },
    Example {
        words: &["run", "a1.txt", "before.txt"],
        files: &["a1.txt", "hello.sqi", "before.txt"],
        status: 0,
        printed: "before.expected",
        lines: &[],
        stored: None,
    },
    Example {
        words: &["run", "a1.txt", "after.txt"],
        files: &["a1.txt", "hello.sqi", "after.txt"],
        status: 0,
        printed: "after.expected",
        lines: &[b"A"],
        stored: None,
    },
    Example {
        words: &["run", "a1.txt", "short.txt"],
        files: &["a1.txt", "hello.sqi", "short.txt"],
        status: 5,
        printed: "short.expected",
        lines: &[],
        stored: None,
    },
    Example {
        words: &["run", "a1.txt", "refused.txt"],
        files: &["a1.txt", "hello.sqi", "refused.txt"],
        status: 3,
        printed: "refused.expected",
        lines: &[],
        stored: None,
    },
    Example {
        words: &["list", "hello.sqi"],
        files: &["hello.sqi"],
        status: 0,
        printed: "hello.expected",
        lines: &[],
        stored: None,
    },
];

pub static QUANTUM: [Example; 3] = [
    Example {
        words: &["run", "m.txt", "s.txt"],
        files: &["m.txt", "hello.sqi", "s.txt"],
        status: 0,
        printed: "s.expected",
        lines: &[b"A"],
        stored: None,
    },
    Example {
        words: &["run", "endless.txt", "hundred.txt"],
        files: &["endless.txt", "loop.sqi", "hundred.txt"],
        status: 5,
        printed: "hundred.expected",
        lines: &[],
        stored: None,
    },
    Example {
        words: &["asm", "loop.s", "loop.sqi"],
        files: &["loop.s"],
        status: 0,
        printed: "loop.expected",
        lines: &[],
        stored: Some("loop.sqi"),
    },
];

pub static SMALL_CACHE: [Example; 2] = [
    Example {
        words: &["run", "m.txt", "s.txt"],
        files: &["m.txt", "spread.sqi", "s.txt"],
        status: 0,
        printed: "s.expected",
        lines: &[],
        stored: None,
    },
    Example {
        words: &["run", "m17.txt", "enough.txt"],
        files: &["m17.txt", "spread.sqi", "enough.txt"],
        status: 0,
        printed: "enough.expected",
        lines: &[],
        stored: None,
    },
];

pub static TRAP: [Example; 4] = [
    Example {
        words: &["run", "m.txt", "s.txt"],
        files: &["m.txt", "store.sqi", "s.txt"],
        status: 0,
        printed: "s.expected",
        lines: &[],
        stored: None,
    },
    Example {
        words: &["run", "eight.txt", "all.txt"],
        files: &["eight.txt", "kinds.sqi", "all.txt"],
        status: 0,
        printed: "all.expected",
        lines: &[],
        stored: None,
    },
    Example {
        words: &["asm", "store.s", "store.sqi"],
        files: &["store.s"],
        status: 0,
        printed: "store.expected",
        lines: &[],
        stored: Some("store.sqi"),
    },
    Example {
        words: &["asm", "kinds.s", "kinds.sqi"],
        files: &["kinds.s"],
        status: 0,
        printed: "kinds.expected",
        lines: &[],
        stored: Some("kinds.sqi"),
    },
];

pub static ECHO: [Example; 3] = [
    Example {
        words: &["run", "m.txt", "s.txt"],
        files: &["m.txt", "echo.sqi", "s.txt"],
        status: 0,
        printed: "s.expected",
        lines: &[b"AB"],
        stored: None,
    },
    Example {
        words: &["run", "m.txt", "waits.txt"],
        files: &["m.txt", "echo.sqi", "waits.txt"],
        status: 0,
        printed: "waits.expected",
        lines: &[b"AB"],
        stored: None,
    },
    Example {
        words: &["list", "echo.sqi"],
        files: &["echo.sqi"],
        status: 0,
        printed: "echo.expected",
        lines: &[],
        stored: None,
    },
];

pub static COUNT: [Example; 3] = [
    Example {
        words: &["run", "m.txt", "finish.txt"],
        files: &["m.txt", "count.sqi", "finish.txt"],
        status: 0,
        printed: "finish.expected",
        lines: &[&[200]],
        stored: None,
    },
    Example {
        words: &["run", "m.txt", "alone.txt"],
        files: &["m.txt", "count.sqi", "alone.txt"],
        status: 0,
        printed: "alone.expected",
        lines: &[&[200]],
        stored: None,
    },
    Example {
        words: &["run", "m.txt", "short.txt"],
        files: &["m.txt", "count.sqi", "short.txt"],
        status: 5,
        printed: "short.expected",
        lines: &[],
        stored: None,
    },
];

pub static NUMBERS: [Example; 4] = [
    Example {
        words: &["run", "m.txt", "s.txt"],
        files: &["m.txt", "take.sqi", "s.txt"],
        status: 0,
        printed: "s.expected",
        lines: &[&[1, 4, 7, 10], &[3, 6, 9, 12], &[2, 5, 8, 11]],
        stored: None,
    },
    Example {
        words: &["run", "m.txt", "first.txt"],
        files: &["m.txt", "take.sqi", "first.txt"],
        status: 0,
        printed: "first.expected",
        lines: &[&[1, 2, 3, 10], &[4, 5, 6, 12], &[7, 8, 9, 11]],
        stored: None,
    },
    Example {
        words: &["run", "m.txt", "fails.txt"],
        files: &["m.txt", "take.sqi", "fails.txt"],
        status: 0,
        printed: "fails.expected",
        lines: &[&[1, 4, 7, 10], &[5, 8, 11, 12], &[2, 3, 6, 9]],
        stored: None,
    },
    Example {
        words: &["asm", "take.s", "take.sqi"],
        files: &["take.s"],
        status: 0,
        printed: "take.expected",
        lines: &[],
        stored: Some("take.sqi"),
    },
];

pub static FAILING: [Example; 4] = [
    Example {
        words: &["run", "m.txt", "back.txt"],
        files: &["m.txt", "hello.sqi", "back.txt"],
        status: 0,
        printed: "back.expected",
        lines: &[b"A"],
        stored: None,
    },
    Example {
        words: &["run", "m.txt", "forward.txt"],
        files: &["m.txt", "hello.sqi", "forward.txt"],
        status: 0,
        printed: "forward.expected",
        lines: &[b"A"],
        stored: None,
    },
    Example {
        words: &["run", "m.txt", "both.txt"],
        files: &["m.txt", "hello.sqi", "both.txt"],
        status: 0,
        printed: "both.expected",
        lines: &[b"A"],
        stored: None,
    },
    Example {
        words: &["run", "m.txt", "nobody.txt"],
        files: &["m.txt", "hello.sqi", "nobody.txt"],
        status: 5,
        printed: "nobody.expected",
        lines: &[],
        stored: None,
    },
];

pub static MEMORIES: [Example; 4] = [
    Example {
        words: &["run", "m.txt", "copied.txt"],
        files: &["m.txt", "hello.sqi", "copied.txt"],
        status: 0,
        printed: "copied.expected",
        lines: &[b"A"],
        stored: None,
    },
    Example {
        words: &["run", "m.txt", "early.txt"],
        files: &["m.txt", "hello.sqi", "early.txt"],
        status: 4,
        printed: "early.expected",
        lines: &[],
        stored: None,
    },
    Example {
        words: &["run", "m.txt", "with_processor.txt"],
        files: &["m.txt", "hello.sqi", "with_processor.txt"],
        status: 4,
        printed: "with_processor.expected",
        lines: &[],
        stored: None,
    },
    Example {
        words: &["run", "m.txt", "awaiting.txt"],
        files: &["m.txt", "hello.sqi", "awaiting.txt"],
        status: 4,
        printed: "awaiting.expected",
        lines: &[],
        stored: None,
    },
];

pub static STRUCK: [Example; 4] = [
    Example {
        words: &["run", "m.txt", "unread.txt"],
        files: &["m.txt", "hello.sqi", "unread.txt"],
        status: 0,
        printed: "unread.expected",
        lines: &[b"A"],
        stored: None,
    },
    Example {
        words: &["run", "m.txt", "pc.txt"],
        files: &["m.txt", "hello.sqi", "pc.txt"],
        status: 0,
        printed: "pc.expected",
        lines: &[b"A"],
        stored: None,
    },
    Example {
        words: &["run", "m.txt", "both.txt"],
        files: &["m.txt", "hello.sqi", "both.txt"],
        status: 3,
        printed: "both.expected",
        lines: &[],
        stored: None,
    },
    Example {
        words: &["run", "m2.txt", "io.txt"],
        files: &["m2.txt", "hello2.sqi", "io.txt"],
        status: 0,
        printed: "io.expected",
        lines: &[b"AB"],
        stored: None,
    },
];

pub static ANSWERS: [Example; 7] = [
    Example {
        words: &["run", "cut.txt"],
        files: &["cut.txt"],
        status: 2,
        printed: "usage.expected",
        lines: &[],
        stored: None,
    },
    Example {
        words: &["run", "nothing.txt", "s.txt"],
        files: &["s.txt"],
        status: 3,
        printed: "nothing.expected",
        lines: &[],
        stored: None,
    },
    Example {
        words: &["run", "lost.txt", "s.txt"],
        files: &["lost.txt", "s.txt"],
        status: 3,
        printed: "lost.expected",
        lines: &[],
        stored: None,
    },
    Example {
        words: &["run", "zero.txt", "s.txt"],
        files: &["zero.txt", "cut.sqi", "s.txt"],
        status: 3,
        printed: "zero.expected",
        lines: &[],
        stored: None,
    },
    Example {
        words: &["run", "cut.txt", "s.txt"],
        files: &["cut.txt", "cut.sqi", "s.txt"],
        status: 3,
        printed: "cut.expected",
        lines: &[],
        stored: None,
    },
    Example {
        words: &["asm", "wrong.s", "wrong.sqi"],
        files: &["wrong.s"],
        status: 3,
        printed: "wrong.expected",
        lines: &[],
        stored: None,
    },
    Example {
        words: &["list", "s.txt"],
        files: &["s.txt"],
        status: 3,
        printed: "s.expected",
        lines: &[],
        stored: None,
    },
];

pub static ASM_SOURCES: [Example; 11] = [
    Example {
        words: &["asm", "hello.s", "../first/hello.sqi"],
        files: &["hello.s"],
        status: 0,
        printed: "hello.expected",
        lines: &[],
        stored: Some("../first/hello.sqi"),
    },
    Example {
        words: &["asm", "hello.s", "../quantum/hello.sqi"],
        files: &["hello.s"],
        status: 0,
        printed: "hello.expected",
        lines: &[],
        stored: Some("../quantum/hello.sqi"),
    },
    Example {
        words: &["asm", "hello.s", "../failing/hello.sqi"],
        files: &["hello.s"],
        status: 0,
        printed: "hello.expected",
        lines: &[],
        stored: Some("../failing/hello.sqi"),
    },
    Example {
        words: &["asm", "hello.s", "../memories/hello.sqi"],
        files: &["hello.s"],
        status: 0,
        printed: "hello.expected",
        lines: &[],
        stored: Some("../memories/hello.sqi"),
    },
    Example {
        words: &["asm", "hello.s", "../struck/hello.sqi"],
        files: &["hello.s"],
        status: 0,
        printed: "hello.expected",
        lines: &[],
        stored: Some("../struck/hello.sqi"),
    },
    Example {
        words: &["asm", "hello2.s", "../struck/hello2.sqi"],
        files: &["hello2.s"],
        status: 0,
        printed: "hello2.expected",
        lines: &[],
        stored: Some("../struck/hello2.sqi"),
    },
    Example {
        words: &["asm", "spread.s", "../small-cache/spread.sqi"],
        files: &["spread.s"],
        status: 0,
        printed: "spread.expected",
        lines: &[],
        stored: Some("../small-cache/spread.sqi"),
    },
    Example {
        words: &["asm", "echo.s", "../echo/echo.sqi"],
        files: &["echo.s"],
        status: 0,
        printed: "echo.expected",
        lines: &[],
        stored: Some("../echo/echo.sqi"),
    },
    Example {
        words: &["asm", "count.s", "../count/count.sqi"],
        files: &["count.s"],
        status: 0,
        printed: "count.expected",
        lines: &[],
        stored: Some("../count/count.sqi"),
    },
    Example {
        words: &["asm", "hello3.s", "hello3.sqi"],
        files: &["hello3.s"],
        status: 0,
        printed: "hello3.expected",
        lines: &[],
        stored: None,
    },
    Example {
        words: &["asm", "soak.s", "soak.sqi"],
        files: &["soak.s"],
        status: 0,
        printed: "soak.expected",
        lines: &[],
        stored: None,
    },
];
