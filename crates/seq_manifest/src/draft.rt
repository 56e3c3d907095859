use seq_words::{Bytes, Items, MachineDesc};

/// A machine whose files aren't read yet.
#[derive(Drop)]
pub struct Draft {
    /// The machine. Sizes, entries and images of its processes are 0 and empty, and so are the first bytes of segments.
    pub desc: MachineDesc,
    /// For each process the name of its image's file, 1 to 255 bytes of UTF-8.
    pub images: Items<Bytes>,
    /// For each segment the name of the file of its first bytes, empty for none.
    pub firsts: Items<Bytes>,
}
