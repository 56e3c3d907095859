// The rules of one line, behind those before it.
ghost use Rattle.std.specs.Prelude.{◌≡◌, ◌<◌, ◌≤◌, ◌+◌, ◌^◌, true, false, not, length, nat_lt, get_or, None};
ghost use Rattle.std.specs.List.{list_any};
ghost use Rattle.seq_words.specs.Description.{IsDescription};
ghost use Rattle.seq_words.specs.Masks.{has_bit};
ghost use Rattle.seq_words.specs.Names.{has_name};
ghost use Rattle.seq_schedule.specs.Rules.{is_element, is_line, is_absent_event, is_absent, turns_of_event, turns_in, other_half, upset_rule, event_rule, input_rule, state_rule, turns_rule, rule_of, place_rule};
ghost use Rattle.seq_schedule.specs.Tallying.{told, after_event, after_state, after};

use crate::limits::{MOST_LINES, MOST_TURNS};
use crate::script::Script;
use crate::tally::Tally;
use seq_words::{Element, Event, Half, Ioe, LineNo, MachineDesc, Me, Pe, ProcessDesc, has_bit};

const ABSENT: u16 = 32;

const WRONGLY_FAILED: u16 = 33;

const STRUCK_WHILE_FAILED: u16 = 34;

const STRUCK_TWICE: u16 = 35;

const CLOSED: u16 = 36;

const OVERFULL: u16 = 37;

const HUNG_UP: u16 = 38;

const TOO_LONG: u16 = 39;

fn is_element(desc: &MachineDesc, element: Element) -> bool
    ensures { result ≡ is_element desc.now element }
{
    match element {
        Element::Processor(Pe(number)) => number < desc.processors,
        Element::Memory(Me(number)) => number < desc.memories,
        Element::Io(Ioe(number)) => number < desc.ios,
    }
}

fn has_owner(processes: &[ProcessDesc], line: u8) -> bool
    requires { line < 16 }
    ensures { result ≡ list_any (λ p. has_bit p.lines line) processes.now }
{
    processes.iter().any(|process| has_bit(process.lines, line))
}

fn is_line(desc: &MachineDesc, line: LineNo) -> bool
    ensures { result ≡ is_line desc.now line }
{
    line.0 < 16 && has_owner(desc.processes.as_slice(), line.0)
}

fn is_absent_event(desc: &MachineDesc, event: Event) -> bool
    ensures { result ≡ is_absent_event desc.now event }
{
    match event {
        Event::Processor(pe) => !is_element(desc, Element::Processor(pe)),
        Event::Io(io) => !is_element(desc, Element::Io(io)),
        Event::Input(line, _) => !is_line(desc, line),
        Event::Close(line) => !is_line(desc, line),
        Event::Fail(element) => !is_element(desc, element),
        Event::Repair(element) => !is_element(desc, element),
        Event::Upset(pe, _, _, _) => !is_element(desc, Element::Processor(pe)),
        Event::Hangup(line) => !is_line(desc, line),
    }
}

fn is_absent(desc: &MachineDesc, script: &Script) -> bool
    ensures { result ≡ is_absent desc.now script.now }
{
    match script {
        Script::One(event) => is_absent_event(desc, *event),
        Script::Bytes(line, _) => !is_line(desc, *line),
        Script::Turns(element, _) => !is_element(desc, *element),
        Script::Rounds(_) => false,
        Script::Finish(_) => false,
    }
}

/// How many turns a script makes, where a `finish` makes all its rounds.
pub fn turns_in(desc: &MachineDesc, script: &Script) -> u64
    ensures value { result ≡ turns_in desc.now script.now }
    ensures bound { result < 2 ^ 48 }
{
    let elements = u64::from(desc.processors) + u64::from(desc.ios);
    match script {
        Script::One(event) => turns_of_event(*event),
        Script::Bytes(_, _) => 0,
        Script::Turns(_, number) => u64::from(*number),
        Script::Rounds(number) => u64::from(*number) * elements,
        Script::Finish(number) => u64::from(*number) * elements,
    }
}

fn turns_of_event(event: Event) -> u64
    ensures value { result ≡ turns_of_event event }
    ensures bound { result ≤ 1 }
{
    match event {
        Event::Processor(_) => 1,
        Event::Io(_) => 1,
        Event::Input(_, _) => 0,
        Event::Close(_) => 0,
        Event::Fail(_) => 0,
        Event::Repair(_) => 0,
        Event::Upset(_, _, _, _) => 0,
        Event::Hangup(_) => 0,
    }
}

fn other_half(half: Half) -> Half
    ensures { result ≡ other_half half }
{
    match half {
        Half::A => Half::B,
        Half::B => Half::A,
    }
}

/// The rule of the number of a line: there are at most 1,000,000.
pub fn place_rule(place: u64) -> Option<u16>
    ensures { result ≡ place_rule place }
{
    if place > MOST_LINES {
        Some(TOO_LONG)
    } else {
        None
    }
}

impl Tally {
    fn upset_rule(&self, pe: Pe, half: Half) -> Option<u16>
        requires { pe.0 < 8 }
        ensures { result ≡ upset_rule (told self.now) pe half }
    {
        if self.has_failed(Element::Processor(pe)) {
            Some(STRUCK_WHILE_FAILED)
        } else if self.is_struck(pe, other_half(half)) {
            Some(STRUCK_TWICE)
        } else {
            None
        }
    }

    fn fail_rule(&self, element: Element) -> Option<u16>
        requires { has_name element ≡ true }
        ensures { result ≡ event_rule (told self.now) (Event.Fail element) }
    {
        if self.has_failed(element) {
            Some(WRONGLY_FAILED)
        } else {
            None
        }
    }

    fn repair_rule(&self, element: Element) -> Option<u16>
        requires { has_name element ≡ true }
        ensures { result ≡ event_rule (told self.now) (Event.Repair element) }
    {
        if self.has_failed(element) {
            None
        } else {
            Some(WRONGLY_FAILED)
        }
    }

    fn close_rule(&self, line: LineNo) -> Option<u16>
        requires { line.0 < 16 }
        ensures { result ≡ event_rule (told self.now) (Event.Close line) }
    {
        if self.is_closed(line) {
            Some(CLOSED)
        } else {
            None
        }
    }

    fn hangup_rule(&self, line: LineNo) -> Option<u16>
        requires { line.0 < 16 }
        ensures { result ≡ event_rule (told self.now) (Event.Hangup line) }
    {
        if self.is_hung(line) {
            Some(HUNG_UP)
        } else {
            None
        }
    }

    #[tactic(auto, using(crate::proofs::Ranges::name_there, crate::proofs::Ranges::line_there, crate::proofs::Ranges::processor_there))]
    fn event_rule(&self, desc: &MachineDesc, event: Event) -> Option<u16>
        requires described { IsDescription desc.now }
        requires there { is_absent_event desc.now event ≡ false }
        ensures { result ≡ event_rule (told self.now) event }
    {
        match event {
            Event::Processor(_) => None,
            Event::Io(_) => None,
            Event::Input(_, _) => None,
            Event::Close(line) => self.close_rule(line),
            Event::Fail(element) => self.fail_rule(element),
            Event::Repair(element) => self.repair_rule(element),
            Event::Upset(pe, half, _, _) => self.upset_rule(pe, half),
            Event::Hangup(line) => self.hangup_rule(line),
        }
    }

    // The journal takes all bytes that arrive on a line.
    fn input_rule(&self, desc: &MachineDesc, line: LineNo, count: u64) -> Option<u16>
        requires { line.0 < 16 }
        ensures { result ≡ input_rule desc.now (told self.now) line count }
    {
        let journal = u64::from(desc.journal);
        if self.is_closed(line) {
            Some(CLOSED)
        } else if count > journal || self.arrived_on(line) > journal - count {
            Some(OVERFULL)
        } else {
            None
        }
    }

    #[tactic(auto, using(crate::proofs::Ranges::line_there))]
    fn state_rule(&self, desc: &MachineDesc, script: &Script) -> Option<u16>
        requires described { IsDescription desc.now }
        requires there { is_absent desc.now script.now ≡ false }
        ensures { result ≡ state_rule desc.now (told self.now) script.now }
    {
        match script {
            Script::One(event) => self.event_rule(desc, *event),
            Script::Bytes(line, bytes) => {
                self.input_rule(desc, *line, bytes.as_slice().len() as u64)
            }
            Script::Turns(_, _) => None,
            Script::Rounds(_) => None,
            Script::Finish(_) => None,
        }
    }

    fn turns_rule(&self, desc: &MachineDesc, script: &Script) -> Option<u16>
        ensures { result ≡ turns_rule desc.now (told self.now) script.now }
    {
        let turns = turns_in(desc, script);
        if turns > MOST_TURNS || self.turns > MOST_TURNS - turns {
            Some(TOO_LONG)
        } else {
            None
        }
    }

    /// The least rule that a script violates.
    #[tactic(auto, unfolding(crate::specs::Rules::rule_of))]
    pub fn rule(&self, desc: &MachineDesc, script: &Script) -> Option<u16>
        requires { IsDescription desc.now }
        ensures { result ≡ rule_of desc.now (told self.now) script.now }
    {
        if is_absent(desc, script) {
            return Some(ABSENT);
        }
        match self.state_rule(desc, script) {
            Some(rule) => Some(rule),
            None => self.turns_rule(desc, script),
        }
    }

    #[tactic(auto, using(crate::proofs::Ranges::name_there, crate::proofs::Ranges::line_there, crate::proofs::Ranges::processor_there))]
    fn note_event(&mut self, desc: &MachineDesc, event: Event)
        requires described { IsDescription desc.now }
        requires there { is_absent_event desc.now event ≡ false }
        ensures { self.new ≡ after_event self.old event }
    {
        match event {
            Event::Processor(_) => {}
            Event::Io(_) => {}
            Event::Input(_, _) => {}
            Event::Close(line) => self.close(line),
            Event::Fail(element) => self.fail(element),
            Event::Repair(element) => self.repair(element),
            Event::Upset(pe, half, _, _) => self.strike(pe, half),
            Event::Hangup(line) => self.hang_up(line),
        }
    }

    #[tactic(auto, using(crate::proofs::Ranges::line_there, crate::proofs::Ranges::room_there))]
    fn note_state(&mut self, desc: &MachineDesc, script: &Script)
        requires described { IsDescription desc.now }
        requires there { is_absent desc.now script.now ≡ false }
        requires fits { state_rule desc.now (told self.old) script.now ≡ None }
        ensures { self.new ≡ after_state self.old script.now }
    {
        match script {
            Script::One(event) => self.note_event(desc, *event),
            Script::Bytes(line, bytes) => self.arrive(*line, bytes.as_slice().len() as u64),
            Script::Turns(_, _) => {}
            Script::Rounds(_) => {}
            Script::Finish(_) => {}
        }
    }

    /// Notes a script that violates no rule.
    #[tactic(auto, unfolding(crate::specs::Tallying::after), using(crate::proofs::Ranges::present, crate::proofs::Ranges::state_none, crate::proofs::Ranges::turns_there))]
    pub fn note(&mut self, desc: &MachineDesc, script: &Script)
        requires described { IsDescription desc.now }
        requires fits { rule_of desc.now (told self.old) script.now ≡ None }
        ensures { self.new ≡ after desc.now self.old script.now }
    {
        let turns = turns_in(desc, script);
        self.note_state(desc, script);
        self.turns += turns;
    }
}
