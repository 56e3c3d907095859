use seq_flat::End;
use seq_pair::Pair;
use seq_words::Pid;

/// A process as a processor runs it.
#[derive(Clone, Copy, Debug)]
pub struct Running {
    pub pid: Pid,
    pub pair: Pair,
    /// The segments that it holds: bit s stands for segment s.
    pub held: u16,
    pub end: End,
    /// Of each of its lines, in ascending order: how many bytes it has read. Unused ones are 0.
    pub reads: [u32; 4],
    /// Of each of its lines, in ascending order: how many bytes it has written. Unused ones are 0.
    pub writes: [u32; 4],
    /// How many checkpoints it has committed.
    pub commits: u64,
    /// The steps since its last checkpoint.
    pub steps: u32,
    /// The steps since its claim.
    pub used: u32,
}
