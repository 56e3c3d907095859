// The header of an image: its mark, and three numbers of four bytes, the lowest byte first.
ghost use Rattle.std.specs.Prelude.{◌≡◌, ◌≤◌, ◌+◌, ℕ, None, Some, IfOk, IfErr, length};
ghost use Rattle.seq_loader.specs.Faults.{wrong_byte, number_at, size_of, length_of, entry_of, is_size, is_entry, first_fault, fault_behind_mark};

use byteorder::{ByteOrder, LittleEndian};

/// What an image begins with.
pub const MARK: [u8; 4] = *b"SQI1";

/// The bytes before those of the program.
pub const HEADER_BYTES: usize = 16;

// The rules of the format.
const WRONG_MARK: u16 = 20;

const ENDS_EARLY: u16 = 21;

const BAD_SIZE: u16 = 22;

const TOO_MANY_BYTES: u16 = 23;

const BAD_ENTRY: u16 = 24;

const FURTHER_BYTE: u16 = 25;

/// A rule that a file violates, and its place in bytes from 0.
#[derive(Clone, Copy)]
pub struct Fault {
    pub place: usize,
    pub rule: u16,
}

/// The numbers of a header that matter behind it.
#[derive(Clone, Copy)]
pub struct Header {
    pub size: u32,
    pub entry: u32,
}

fn refused(place: usize, rule: u16) -> Result<Header, Fault>
    ensures { result ≡ Err (record { place = place; rule = rule }) }
{
    Err(Fault { place, rule })
}

fn wrong_byte(file: &[u8]) -> Option<usize>
    ensures { result ≡ wrong_byte file.now }
{
    file.iter()
        .zip(MARK.iter())
        .position(|(byte, mark)| *byte != *mark)
}

fn number_at(file: &[u8], place: usize) -> u32
    requires { place + 4 ≤ length file.now }
    ensures { result ≡ number_at file.now place }
{
    LittleEndian::read_u32(&file[place..place + 4])
}

fn is_size(size: u32) -> bool
    ensures { result ≡ is_size size }
{
    (32..=65536).contains(&size) && size % 32 == 0
}

fn is_entry(size: u32, entry: u32) -> bool
    ensures { result ≡ is_entry size entry }
{
    entry % 4 == 0 && entry < size
}

impl Header {
    /// The header of a file that violates no rule, or the first rule that it violates.
    pub fn read(file: &[u8]) -> Result<Header, Fault>
        ensures ok { IfOk result (λ _. first_fault file.now ≡ None) }
        ensures size { IfOk result (λ h. h.size ≡ size_of file.now) }
        ensures entry { IfOk result (λ h. h.entry ≡ entry_of file.now) }
        ensures err { IfErr result (λ f. first_fault file.now ≡ Some (f.place, f.rule)) }
    {
        match wrong_byte(file) {
            Some(place) => refused(place, WRONG_MARK),
            None => Self::behind_mark(file),
        }
    }

    fn behind_mark(file: &[u8]) -> Result<Header, Fault>
        ensures ok { IfOk result (λ _. fault_behind_mark file.now ≡ None) }
        ensures size { IfOk result (λ h. h.size ≡ size_of file.now) }
        ensures entry { IfOk result (λ h. h.entry ≡ entry_of file.now) }
        ensures err { IfErr result (λ f. fault_behind_mark file.now ≡ Some (f.place, f.rule)) }
    {
        let there = file.len();
        if there < HEADER_BYTES {
            return refused(there, ENDS_EARLY);
        }
        let size = number_at(file, 4);
        if !is_size(size) {
            return refused(4, BAD_SIZE);
        }
        let length = number_at(file, 8);
        if length > size {
            return refused(8, TOO_MANY_BYTES);
        }
        let entry = number_at(file, 12);
        if !is_entry(size, entry) {
            return refused(12, BAD_ENTRY);
        }
        let end = HEADER_BYTES + length as usize;
        if there < end {
            return refused(there, ENDS_EARLY);
        }
        if end < there {
            return refused(end, FURTHER_BYTE);
        }
        Ok(Header { size, entry })
    }
}
