use seq_kernel::Note;
use seq_turns::Hand;

/// What a turn of a processor leaves in its hand, with the turn's note; or the processor stops, since its halves differ.
#[derive(Drop)]
pub enum Turned {
    Moved(Hand, Note),
    Stopped,
}
