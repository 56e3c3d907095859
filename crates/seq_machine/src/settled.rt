// Whether the machine is settled.
ghost use Rattle.std.specs.Prelude.{◌≡◌, ℕ, ◌<◌, ◌≤◌, ◌↔◌, ◌⊎◌, IsTrue, true, false, length};
ghost use Rattle.seq_words.specs.Description.{line_count};
ghost use Rattle.seq_shelf.specs.Outlets.{views, marks};
ghost use Rattle.seq_status.specs.declared.status.Status.{Status};
ghost use Rattle.seq_ruling.specs.Ruling.{NamesOneOf};
ghost use Rattle.seq_turns.specs.Reading.{ruling};
ghost use Rattle.seq_turns.specs.Duties.{accepted, written};
ghost use Rattle.seq_lines.specs.Settled.{steps_of, IsCalm, IsSettled};
ghost use Rattle.seq_stands.specs.Fit.{Fit};
ghost use Rattle.seq_machine.specs.Plain.{Outside, machine_of, IsOutside, IsHardware};
ghost use Rattle.seq_machine.specs.Starting.{no_outside};
ghost use Rattle.seq_machine.specs.Settling.{MayBeSettled, held_copies};

use crate::Hardware;
use seq_ruling::{live, ruling};
use seq_shelf::{Line, Outlet, accepted};
use seq_status::Status;
use seq_turns::Hand;
use seq_words::{LineNo, Pid};

// How many steps of a hand are uncommitted.
fn steps_of(hand: &Hand) -> u32
    ensures { result ≡ steps_of hand.now }
{
    match hand {
        Hand::Running(running) => running.steps,
        Hand::Acquiring(running, _, _) => running.steps,
        Hand::Flushing(running, _, _, _) => running.steps,
        Hand::Unlocking(running, _, _, _) => running.steps,
        Hand::Down => 0,
        Hand::Seek => 0,
        Hand::Claiming(_, _) => 0,
        Hand::Leaving(_, _) => 0,
        Hand::Recovering(_) => 0,
    }
}

impl Hardware {
    // Whether a process of this status is neither flushed nor recovered, and who runs it lives and has no uncommitted step.
    fn calm(&self, status: &Status) -> bool
        requires hardware { IsHardware self.now }
        requires named { NamesOneOf self.now.desc.processors status.now }
        ensures { (o : Outside) → IsTrue result ↔ IsCalm (machine_of self.now o) status.now }
    {
        match status {
            Status::Idle => true,
            Status::Run(holder) => {
                live(holder, self.incarnations.as_slice())
                    && steps_of(&self.processors.at(holder.pe.0 as usize).hand) == 0
            }
            Status::Pass1(_) => false,
            Status::Pass2(_) => false,
            Status::Back(_) => false,
            Status::Forward(_) => false,
        }
    }

    // Whether every process is calm.
    fn all_calm(&self) -> bool
        requires hardware { IsHardware self.now }
        requires readable { MayBeSettled self.now.desc (held_copies self.now) }
        ensures { (o : Outside) → IsTrue result ↔ ((q : ℕ) → q < length self.now.desc.processes → IsCalm (machine_of self.now o) (ruling self.now.desc (held_copies self.now) q)) }
    {
        for q in 0..self.layout.processes() {
            if !self.calm(&ruling(Pid(q), &self.memories, &self.layout)) {
                return false;
            }
        }
        true
    }

    // How many bytes of a line its owner's context says are written.
    fn written(&self, line: LineNo) -> u32
        requires hardware { IsHardware self.now }
        requires readable { MayBeSettled self.now.desc (held_copies self.now) }
        requires line { line.0 < line_count self.now.desc }
        ensures { result ≡ written self.now.desc (held_copies self.now) line.0 }
    {
        let (pid, index) = self.layout.owner(line);
        self.context(pid).writes[index as usize]
    }

    // Whether a line is hung up or has accepted all that is written.
    fn has_sent(&self, number: LineNo, lines: &Vec<Outlet>) -> bool
        requires hardware { IsHardware self.now }
        requires readable { MayBeSettled self.now.desc (held_copies self.now) }
        requires line { number.0 < line_count self.now.desc }
        requires lines { line_count self.now.desc ≤ length lines.now.items }
        ensures { (o : Outside) → IsOutside (views line lines.now.items) (marks lines.now.items) o → IsTrue result ↔ (o.hung number.0 ≡ false → length (o.sent number.0) ≡ written self.now.desc (held_copies self.now) number.0) }
    {
        let at = number.0 as usize;
        lines[at].hung || accepted(lines, at) == u64::from(self.written(number))
    }

    // Whether every line is hung up or has accepted all that is written.
    fn all_sent(&self, lines: &Vec<Outlet>) -> bool
        requires hardware { IsHardware self.now }
        requires readable { MayBeSettled self.now.desc (held_copies self.now) }
        requires lines { line_count self.now.desc ≤ length lines.now.items }
        ensures { (o : Outside) → IsOutside (views line lines.now.items) (marks lines.now.items) o → IsTrue result ↔ ((l : ℕ) → l < line_count self.now.desc → o.hung l ≡ false → length (o.sent l) ≡ written self.now.desc (held_copies self.now) l) }
    {
        for l in 0..self.ports.len() {
            if !self.has_sent(LineNo(l as u8), lines) {
                return false;
            }
        }
        true
    }

    /// Whether nothing is left to do: every process is calm, none can take a step, and each line that isn't hung up has accepted
    /// all that is written. It takes time in proportion to processes and lines.
    pub fn settled(&self, lines: &Vec<Outlet>) -> bool
        requires hardware { IsHardware self.now }
        requires fit { Fit self.now.desc (machine_of self.now no_outside) }
        requires lines { line_count self.now.desc ≤ length lines.now.items }
        ensures { (o : Outside) → IsOutside (views line lines.now.items) (marks lines.now.items) o → IsTrue result ↔ IsSettled self.now.desc (machine_of self.now o) }
    {
        self.all_calm() && self.is_quiet() && self.all_sent(lines)
    }
}
