// Status words. Bits 0 to 7 are the kind, bits 8 to 15 the processor, bits 16 to 63 its incarnation; Idle is the word 0.
ghost use Rattle.std.specs.Prelude.{◌≡◌, ◌<◌, ◌^◌, ◌%◌, Some, IsSome, ◌↔◌};
ghost use Rattle.seq_status.specs.Words.{held_word, holder_in, word_of, status_of, IsStatus, IsStatusWord};

use seq_words::Pe;

/// Which processor holds a process, in which of its lives: its incarnation rises by one each time it stops.
#[derive(Clone, Copy, Debug, PartialEq, Eq)]
pub struct Holder {
    pub pe: Pe,
    /// Below 2^48.
    pub incarnation: u64,
}

/// How a process stands.
#[derive(Clone, Copy, Debug, PartialEq, Eq)]
pub enum Status {
    /// No processor holds it.
    Idle,
    /// It runs, or waits to be released.
    Run(Holder),
    /// It is amid a flush, before the commit.
    Pass1(Holder),
    /// It is amid a flush, after the commit.
    Pass2(Holder),
    /// It is being rolled back to its last checkpoint.
    Back(Holder),
    /// It is being rolled forward to the checkpoint that was committed.
    Forward(Holder),
}

// The word of a kind and a holder.
fn held(kind: u64, holder: &Holder) -> u64
    requires kind { kind < 256 }
    requires incarnation { holder.now.incarnation < 2 ^ 48 }
    ensures word { result ≡ held_word kind holder.now }
    ensures kind { result % 256 ≡ kind }
    ensures holder { holder_in result ≡ holder.now }
{
    kind | (holder.pe.0 as u64) << 8 | holder.incarnation << 16
}

/// The word of a status, whose incarnation is below 2^48. Reading it gives the status back.
pub fn to_word(s: &Status) -> u64
    requires { IsStatus s.now }
    ensures word { result ≡ word_of s.now }
    ensures read_back { status_of result ≡ Some s.now }
{
    match s {
        Status::Idle => 0,
        Status::Run(holder) => held(1, holder),
        Status::Pass1(holder) => held(2, holder),
        Status::Pass2(holder) => held(3, holder),
        Status::Back(holder) => held(4, holder),
        Status::Forward(holder) => held(5, holder),
    }
}

/// The status of a word: None exactly outside the format. No other word gives the same status.
pub fn of_word(w: u64) -> Option<Status>
    ensures value { result ≡ status_of w }
    ensures found { IsSome result ↔ IsStatusWord w }
    ensures one_word { (s : _) → result ≡ Some s → word_of s ≡ w }
{
    let holder = Holder {
        pe: Pe((w >> 8 & 0xff) as u8),
        incarnation: w >> 16,
    };
    match w & 0xff {
        0 if w == 0 => Some(Status::Idle),
        1 => Some(Status::Run(holder)),
        2 => Some(Status::Pass1(holder)),
        3 => Some(Status::Pass2(holder)),
        4 => Some(Status::Back(holder)),
        5 => Some(Status::Forward(holder)),
        _ => None,
    }
}
