use seq_words::{Bytes, LineNo};

/// An I/O element: whether it works, and the line that it serves next.
#[derive(Clone, Copy, Debug, PartialEq, Eq)]
pub struct IoElement {
    pub up: bool,
    pub cursor: u8,
}

/// The outside end of a line. Its unread bytes are those of `store` from `taken` to `arrived`; `store` has as many places as the
/// line's journal.
#[derive(Drop)]
pub struct PortState {
    pub taken: u32,
    pub arrived: u32,
    pub store: Bytes,
    /// No further byte will arrive.
    pub closed: bool,
}

/// What a turn of an I/O element came to.
#[derive(Clone, Copy, Debug, PartialEq, Eq)]
pub enum IoNote {
    /// It rests, or has no duty at the line.
    Nothing,
    /// The byte was sent on the line.
    Sent(LineNo, u8),
    /// A copy of a word or of the journal of the line was changed.
    Moved(LineNo),
    /// The line's port gave up a byte.
    Taken(LineNo),
}
