// Tables of what is known of elements.
ghost use Rattle.std.specs.Prelude.{◌≡◌, ℕ, ◌≤◌, length, get_or};
ghost use Rattle.seq_schedule.specs.Below.{each_below, some_below, count_below};
ghost use Rattle.seq_schedule.specs.Tables.{works, has_turns, is_troubled, at_entry};
ghost use Rattle.seq_schedule.specs.Known.{fresh, settled, uncounted};

use crate::known::{Count, Known};

/// Whether one of so many elements isn't failed.
#[tactic(auto, using(crate::proofs::Below::some_none, crate::proofs::Below::some_more, crate::proofs::Below::some_found))]
pub fn someone_works(known: &[Known], number: u8) -> bool
    requires { number ≤ length known.now }
    ensures { result ≡ some_below (at_entry works known.now) number }
{
    for at in 0..number {
        if !known[at as usize].failed {
            return true;
        }
    }
    false
}

/// Whether each of so many elements that isn't failed has a count of so many turns.
#[tactic(auto, using(crate::proofs::Below::each_none, crate::proofs::Below::each_more, crate::proofs::Below::each_fails))]
pub fn each_has(known: &[Known], number: u8, count: Count, turns: u32) -> bool
    requires { number ≤ length known.now }
    ensures { result ≡ each_below (at_entry (has_turns count turns) known.now) number }
{
    for at in 0..number {
        if !known[at as usize].has(count, turns) {
            return false;
        }
    }
    true
}

/// How many of so many elements are out.
#[tactic(auto, using(crate::proofs::Below::count_none, crate::proofs::Below::count_more, crate::proofs::Below::count_few))]
pub fn count_out(known: &[Known], number: u8) -> u8
    requires { number ≤ length known.now }
    ensures { result ≡ count_below (at_entry is_troubled known.now) number }
{
    let mut count = 0;
    for at in 0..number {
        if known[at as usize].is_out() {
            count += 1;
        }
    }
    count
}

/// Ends the outs that the counts end, where they are met.
pub fn settle_all(known: &mut [Known], met: bool)
    ensures length { length known.new ≡ length known.old }
    ensures each { (k : ℕ) → get_or known.new k fresh ≡ settled met (get_or known.old k fresh) }
{
    for entry in known.iter_mut() {
        *entry = entry.settled(met);
    }
}

/// All counts begin anew.
pub fn uncount_all(known: &mut [Known])
    ensures length { length known.new ≡ length known.old }
    ensures each { (k : ℕ) → get_or known.new k fresh ≡ uncounted (get_or known.old k fresh) }
{
    for entry in known.iter_mut() {
        *entry = entry.uncounted();
    }
}
