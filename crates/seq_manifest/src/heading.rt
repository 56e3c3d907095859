ghost use Rattle.std.specs.Prelude.{◌≡◌, ◌<◌};
ghost use Rattle.seq_manifest.specs.Statements.{heading_named};
ghost use Rattle.seq_manifest.specs.Faults.{place_of, is_within, is_allowed};

use seq_words::{MOST_IOS, MOST_MEMORIES, MOST_PROCESSORS};

/// One of the seven first lines.
#[derive(Clone, Copy)]
pub enum Heading {
    Version,
    Processors,
    Memories,
    Ios,
    Cache,
    Quantum,
    Journal,
}

/// Whether a number lies between two others, both included, and is a multiple of a unit.
pub fn is_within(least: u128, most: u128, unit: u128, number: u128) -> bool
    requires { 0 < unit }
    ensures { result ≡ is_within least most unit number }
{
    least <= number && number <= most && number % unit == 0
}

/// The first line that begins with a word.
pub fn heading_named(word: &[u8]) -> Option<Heading>
    ensures { result ≡ heading_named word.now }
{
    if word == b"sequoia".as_slice() {
        Some(Heading::Version)
    } else if word == b"processors".as_slice() {
        Some(Heading::Processors)
    } else if word == b"memories".as_slice() {
        Some(Heading::Memories)
    } else if word == b"ios".as_slice() {
        Some(Heading::Ios)
    } else if word == b"cache".as_slice() {
        Some(Heading::Cache)
    } else if word == b"quantum".as_slice() {
        Some(Heading::Quantum)
    } else if word == b"journal".as_slice() {
        Some(Heading::Journal)
    } else {
        None
    }
}

/// How many of the first lines stand before this one.
pub fn place_of(heading: Heading) -> usize
    ensures { result ≡ place_of heading }
{
    match heading {
        Heading::Version => 0,
        Heading::Processors => 1,
        Heading::Memories => 2,
        Heading::Ios => 3,
        Heading::Cache => 4,
        Heading::Quantum => 5,
        Heading::Journal => 6,
    }
}

/// Whether a number is within the limits of a first line.
pub fn is_allowed(heading: Heading, number: u128) -> bool
    ensures { result ≡ is_allowed heading number }
{
    match heading {
        Heading::Version => is_within(1, 1, 1, number),
        Heading::Processors => is_within(1, MOST_PROCESSORS as u128, 1, number),
        Heading::Memories => is_within(2, MOST_MEMORIES as u128, 1, number),
        Heading::Ios => is_within(1, MOST_IOS as u128, 1, number),
        Heading::Cache => is_within(16, 256, 1, number),
        Heading::Quantum => is_within(1, 10_000, 1, number),
        Heading::Journal => is_within(32, 65_536, 32, number),
    }
}
