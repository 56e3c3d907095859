// Rows of outlets: a byte is sent on one line of a row, and the others stay as they are.
ghost use Rattle.std.specs.Prelude.{◌≡◌, ◌<◌, [], ◌∷◌, length, OnOk, OnErr, IsErrOf};
ghost use Rattle.seq_shelf.specs.Causes.{Rose};
ghost use Rattle.seq_shelf.specs.Outlets.{view, views, marks};
ghost use Rattle.seq_shelf.specs.Rows.{Accepts, AllAccept, line_at, on_line};

use crate::line::{Line, LineError, Outlet};

// Sends a byte on an outlet's line.
fn send_on(outlet: &mut Outlet, byte: u8) -> Result<(), LineError>
    ensures ok { OnOk result (Accepts (view (λ z. (⟦<dyn Line as Line>⟧ z.0).line z.1) outlet.old) (view (λ z. (⟦<dyn Line as Line>⟧ z.0).line z.1) outlet.new) (byte ∷ [])) }
    ensures err { OnErr result (Accepts (view (λ z. (⟦<dyn Line as Line>⟧ z.0).line z.1) outlet.old) (view (λ z. (⟦<dyn Line as Line>⟧ z.0).line z.1) outlet.new) []) }
    ensures fault { IsErrOf result LineError.Fault → Rose (view (λ z. (⟦<dyn Line as Line>⟧ z.0).line z.1) outlet.old).faults (view (λ z. (⟦<dyn Line as Line>⟧ z.0).line z.1) outlet.new).faults }
    ensures memory { IsErrOf result LineError.NoMemory → Rose (view (λ z. (⟦<dyn Line as Line>⟧ z.0).line z.1) outlet.old).refusals (view (λ z. (⟦<dyn Line as Line>⟧ z.0).line z.1) outlet.new).refusals }
    ensures hung { outlet.new.hung ≡ outlet.old.hung }
{
    let index = outlet.line.accepted();
    outlet.line.send(index, byte)
}

/// Sends a byte on the line with the number `at`. After an error each line has accepted what it had.
pub fn send(lines: &mut Vec<Outlet>, at: usize, byte: u8) -> Result<(), LineError>
    requires { at < length lines.old.items }
    ensures ok { OnOk result (AllAccept (views (λ z. (⟦<dyn Line as Line>⟧ z.0).line z.1) lines.old.items) (views (λ z. (⟦<dyn Line as Line>⟧ z.0).line z.1) lines.new.items) (on_line at (byte ∷ []))) }
    ensures err { OnErr result (AllAccept (views (λ z. (⟦<dyn Line as Line>⟧ z.0).line z.1) lines.old.items) (views (λ z. (⟦<dyn Line as Line>⟧ z.0).line z.1) lines.new.items) (on_line at [])) }
    ensures fault { IsErrOf result LineError.Fault →
        Rose (line_at (views (λ z. (⟦<dyn Line as Line>⟧ z.0).line z.1) lines.old.items) at).faults (line_at (views (λ z. (⟦<dyn Line as Line>⟧ z.0).line z.1) lines.new.items) at).faults }
    ensures memory { IsErrOf result LineError.NoMemory →
        Rose (line_at (views (λ z. (⟦<dyn Line as Line>⟧ z.0).line z.1) lines.old.items) at).refusals (line_at (views (λ z. (⟦<dyn Line as Line>⟧ z.0).line z.1) lines.new.items) at).refusals }
    ensures hung { marks lines.new.items ≡ marks lines.old.items }
{
    let outlet = &mut lines[at];
    send_on(outlet, byte)
}

// How many bytes an outlet's line has accepted.
fn accepted_on(outlet: &Outlet) -> u64
    ensures { result ≡ (view (λ z. (⟦<dyn Line as Line>⟧ z.0).line z.1) outlet.now).count }
{
    outlet.line.accepted()
}

/// How many bytes the line with the number `at` has accepted.
pub fn accepted(lines: &[Outlet], at: usize) -> u64
    requires { at < length lines.now }
    ensures { result ≡ (line_at (views (λ z. (⟦<dyn Line as Line>⟧ z.0).line z.1) lines.now) at).count }
{
    accepted_on(&lines[at])
}
