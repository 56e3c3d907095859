//! A memory that isn't out is in service. The functions do nothing: what they say is in their contracts.
ghost use Rattle.seq_covered.specs.Memories.{OperationsTakeAQuarter, UnitsTakeAHalf, CopyingKeepsUpWhenCovered, MemoriesServeWhenCovered, ServiceLasts, MemoriesServeOn};

/// The turns that end an out are at least four times as many as an operation takes, and twice as many as a memory has units.
pub fn enough_turns_are_needed()
    ensures operations { OperationsTakeAQuarter }
    ensures units { UnitsTakeAHalf }
{}

/// A memory in service stays so until it fails.
pub fn service_lasts()
    ensures { ServiceLasts }
{}

/// Where the events are covered, operations end and units are copied as the first counts say; so a memory that isn't out is in
/// service, and stays so until its next failure.
pub fn memories_serve_when_covered()
    ensures copying { CopyingKeepsUpWhenCovered }
    ensures serve { MemoriesServeWhenCovered }
    ensures on { MemoriesServeOn }
{}
