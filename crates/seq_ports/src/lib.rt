//! What the ports of a machine show: just what has arrived. The function does nothing: what it says is in its contract.
#![tactic(auto)]

ghost use Rattle.seq_ports.specs.Inputs.{PortsShowArrivals};

/// The ports of the machine show just what arrived in the events that were made from the start.
pub fn ports_show_arrivals()
    ensures { PortsShowArrivals }
{}
