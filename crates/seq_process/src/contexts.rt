// Contexts are loaded and saved.
ghost use Rattle.std.specs.Prelude.{◌≡◌, ◌≢◌, ℕ, ◌+◌, ◌-◌, ◌^◌, ◌<◌, ◌≤◌, ◌==◌, if◌then◌else◌, Some, None, IsSome, IfSome, ◌↔◌};
ghost use Rattle.seq_layout.specs.Contexts.{IsContext, HasLengths};
ghost use Rattle.seq_process.specs.Contexts.{end_of, end_kind, end_value, end_pc, started, saved, IsWhole, AreUnusedFrom};

use crate::Running;
use seq_flat::End;
use seq_layout::Context;
use seq_pair::Pair;
use seq_words::{Pid, Regs};

// How a process of this context stands.
fn end_of(c: &Context) -> End
    requires context { IsContext c.now }
    requires cause { c.now.end ≡ 2 → c.now.value ≤ 255 }
    ensures { result ≡ end_of c.now }
{
    match c.end {
        0 => End::Live,
        1 => End::Exited(c.value),
        _ => End::Trapped(c.value as u8, c.end_pc),
    }
}

/// A processor takes a process up from its context: both halves hold its registers, none is struck, and no step is taken
/// yet. Where the context says that a trap ended it, its cause is at most 255.
pub fn load(pid: Pid, c: &Context) -> Running
    requires context { IsContext c.now }
    requires cause { c.now.end ≡ 2 → c.now.value ≤ 255 }
    ensures value { result ≡ started pid c.now }
    ensures saves { c.now.commits < 2 ^ 64 - 1 → saved result c.now.regs ≡ record c.now { commits = c.now.commits + 1 } }
    ensures whole { IsWhole result }
    ensures unused { (n : ℕ) → AreUnusedFrom n c.now.reads c.now.writes → AreUnusedFrom n result.reads result.writes }
{
    Running {
        pid,
        pair: Pair::load(&c.regs),
        held: c.held,
        end: end_of(c),
        reads: c.reads,
        writes: c.writes,
        commits: c.commits,
        steps: 0,
        used: 0,
    }
}

// The three numbers by which a context says how a process stands.
fn end_numbers(end: End) -> (u8, u32, u32)
    ensures kind { result.0 ≡ end_kind end }
    ensures value { result.1 ≡ end_value end }
    ensures pc { result.2 ≡ end_pc end }
{
    match end {
        End::Live => (0, 0, 0),
        End::Exited(code) => (1, code, 0),
        End::Trapped(cause, pc) => (2, u32::from(cause), pc),
    }
}

/// The context at a checkpoint, with one commit more: None exactly where the halves differ.
pub fn save(r: &Running) -> Option<Context>
    requires { r.now.commits < 2 ^ 64 - 1 }
    ensures same { r.now.pair.a ≡ r.now.pair.b → result ≡ Some (saved r.now r.now.pair.a) }
    ensures differ { r.now.pair.a ≢ r.now.pair.b → result ≡ None }
    ensures whole { IfSome result HasLengths }
    ensures unused { (n : ℕ) → AreUnusedFrom n r.now.reads r.now.writes → IfSome result (λ c. AreUnusedFrom n c.reads c.writes) }
{
    let regs = r.pair.context()?;
    let (end, value, end_pc) = end_numbers(r.end);
    Some(Context {
        regs,
        end,
        value,
        end_pc,
        held: r.held,
        commits: r.commits + 1,
        reads: r.reads,
        writes: r.writes,
    })
}

/// The process after `at`, cyclically, of so many.
pub fn next_cursor(at: u8, processes: u8) -> u8
    requires { at < processes }
    ensures { result ≡ (if at + 1 == processes then 0 else at + 1) }
{
    if at + 1 == processes { 0 } else { at + 1 }
}
