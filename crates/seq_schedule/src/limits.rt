// The limits of a schedule.

/// The most lines of a schedule.
pub const MOST_LINES: u64 = 1_000_000;

/// The most turns of a schedule. A `round` or `finish` counts n times the processors and I/O elements.
pub const MOST_TURNS: u64 = 200_000_000;

/// The most turns or rounds of one line.
pub const MOST_TIMES: u64 = 10_000_000;
