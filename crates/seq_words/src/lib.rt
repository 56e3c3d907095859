//! The words that every crate speaks of: the numbers of elements and processes, lists, registers, the description of a
//! machine, its events, and the entries of a history.
#![tactic(auto)]

mod block;
mod bytes;
mod description;
mod elements;
mod events;
mod half;
mod items;
mod kinds;
mod masks;
mod named;
mod names;
mod regs;

pub use block::{Block, block_word, set_block_byte, set_block_word};
pub use bytes::{Bytes, NoMemory};
pub use description::{MachineDesc, ProcessDesc, SegmentDesc};
pub use elements::Me;
pub use events::{Entry, Event, ReadError};
pub use half::Half;
pub use items::Items;
pub use kinds::{Blocker, Element};
pub use masks::has_bit;
pub use named::{
    MOST_IOS, MOST_MEMORIES, MOST_PROCESSORS, element_name, element_named, half_named,
};
pub use names::{Ioe, LineNo, Pe, Pid, Seg};
pub use regs::Regs;

#[cfg(test)]
mod tests;
