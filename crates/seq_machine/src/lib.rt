//! The machine: processors, memories, I/O elements and ports together, and what each event makes of them.
#![tactic(auto)]

mod causes;
mod checks;
mod claims;
mod copying;
mod elements;
mod event;
mod failures;
mod flushes;
mod going;
mod hardware;
mod io;
mod laws;
mod operations;
mod plainly;
mod ports;
mod processor;
mod recovers;
mod releases;
mod run;
mod runs;
mod seeks;
mod settled;
mod start;
mod strikes;
mod turned;

pub use hardware::{Hardware, Processor, Stop};
pub use laws::{local_turns_copy_nothing, operations_are_local, operations_move_or_stop};
pub use seq_io::{IoElement, PortState};
pub use seq_kernel::Note;
pub use seq_turns::{FlushAt, Hand, RecoveryAt, ReleaseAt};
