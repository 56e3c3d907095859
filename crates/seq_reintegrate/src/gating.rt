// The gate before the copying of a memory: it is shut while an operation is going on.
ghost use Rattle.std.specs.Prelude.{◌≡◌, ℕ, ◌≤◌, length, slice_index_or, false};
ghost use Rattle.std.specs.Option.{option_map};
ghost use Rattle.seq_words.specs.declared.description.MachineDesc.{MachineDesc};
ghost use Rattle.seq_turns.specs.Machines.{Machine};
ghost use Rattle.seq_turns.specs.Processors.{someone_amid};
ghost use Rattle.seq_ruling.specs.Lowest.{lowest};
ghost use Rattle.seq_reintegrate.specs.Gate.{is_marked, ShowAmid};

use seq_words::Pe;

/// The first processor that is amid an operation, of those that `hands` marks: it has one entry for each processor. None exactly
/// where no processor is amid one, so that a unit of a memory may be copied.
#[tactic(auto, using(seq_ruling::proofs::Lowest::lowest_none))]
pub fn gate(hands: &[bool]) -> Option<Pe>
    requires { length hands.now ≤ 8 }
    ensures first { result ≡ option_map (λ p. record { 0 = p }) (lowest (is_marked hands.now) (length hands.now)) }
    ensures row { (d : MachineDesc) (m : Machine) → ShowAmid d m hands.now → result ≡ option_map (λ p. record { 0 = p }) (someone_amid d m) }
{
    for at in 0..hands.len() {
        if hands[at] {
            return Some(Pe(at as u8));
        }
    }
    None
}
