ghost use Rattle.std.specs.Prelude.{◌≡◌};
ghost use Rattle.seq_schedule.specs.Faultless.{AreFaultless};
ghost use Rattle.seq_recount.specs.Rooms.{entries_for};

use seq_schedule::{Item, turns_in};
use seq_words::MachineDesc;

/// How many turns of a schedule there are for each entry of a history.
const TURNS_AN_ENTRY: u64 = 11;

/// How many entries there is to be room for: one for each eleven turns of a faultless schedule, a `finish` counted with all its
/// rounds.
pub fn entries_for(desc: &MachineDesc, items: &[Item]) -> usize
    requires { AreFaultless desc.now items.now }
    ensures { result ≡ entries_for desc.now items.now }
{
    let mut turns = 0;
    for item in items {
        turns += turns_in(desc, &item.script);
    }
    (turns / TURNS_AN_ENTRY) as usize
}
