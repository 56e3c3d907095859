// What a command came to.
use std::fmt;

/// What a command came to, beside what stands in the gallery: the first that differs.
#[derive(Clone, Copy, Debug, PartialEq, Eq)]
pub enum Finding {
    AsExpected,
    /// Memory was wanting for the trial.
    NoMemory,
    /// A file of the gallery can't be loaded.
    NoFile(&'static str),
    /// It ended with another status, which is this.
    Status(u8),
    /// It printed another text.
    Text,
    /// This line has accepted other bytes.
    Line(usize),
    /// It stored another image, or none.
    Image,
    /// The page doesn't show the command with its text.
    Page,
}

impl fmt::Display for Finding {
    fn fmt<W: fmt::Write>(&self, f: &mut fmt::Formatter<W>) -> fmt::Result {
        match *self {
            Finding::AsExpected => write!(f, "as expected"),
            Finding::NoMemory => write!(f, "want of memory"),
            Finding::NoFile(name) => write!(f, "the file {name} can't be loaded"),
            Finding::Status(status) => write!(f, "the status is {status}"),
            Finding::Text => write!(f, "another text is printed"),
            Finding::Line(number) => write!(f, "line {number} has other bytes"),
            Finding::Image => write!(f, "another image is stored"),
            Finding::Page => write!(f, "the page doesn't show the command with its text"),
        }
    }
}
