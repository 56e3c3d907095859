ghost use Rattle.std.specs.Prelude.{◌≡◌, Err, IfOk};
ghost use Rattle.seq_cli.specs.Texts.{IsLineOf};

use seq_report::{Status, is_single, single};
use seq_words::{Bytes, NoMemory};
use std::alloc::Global;

/// How a command ended before it printed, and the text that it prints, where there was memory for it.
#[derive(Drop)]
pub struct Answer {
    pub status: Status,
    pub text: Result<Bytes, NoMemory>,
}

/// That memory is wanting, of which nothing is printed.
pub fn wanting() -> Answer
    ensures { result ≡ record { status = Status.NoMemory; text = Err (record {}) } }
{
    Answer {
        status: Status::NoMemory,
        text: Err(NoMemory),
    }
}

// The only line of a command that the file of this name ends.
fn line_of(alloc: Global, status: &Status, name: &str) -> Result<Bytes, NoMemory>
    ensures { IfOk result (IsLineOf status.now name.now) }
{
    if is_single(status) {
        single(alloc, status, name)
    } else {
        Err(NoMemory)
    }
}

/// The answer where the file of this name ends a command. Its text is one line.
pub fn ended_by(alloc: Global, status: Status, name: &str) -> Answer
    ensures status { result.status ≡ status }
    ensures line { IfOk result.text (IsLineOf status name.now) }
{
    Answer {
        status,
        text: line_of(alloc, &status, name),
    }
}
