//! Who is down is out. The function does nothing: what it says is in its contract.
ghost use Rattle.seq_covered.specs.Downs.{DownIsOut, StruckIsOut, DifferingIsOut};

/// After every list of events from the start, a processor that is down is out; so is one that has a process of which a half is struck,
/// and one whose next turn stops it.
pub fn who_is_down_is_out()
    ensures down { DownIsOut }
    ensures struck { StruckIsOut }
    ensures differ { DifferingIsOut }
{}
