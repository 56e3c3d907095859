// Kernel calls on the flat state. x17 holds the number of a call, x10 to x12 its arguments, and x10 gets the answer.
ghost use Rattle.std.specs.Prelude.{◌≡◌, ℕ, ◌+◌, ◌-◌, ◌^◌, ◌<◌, ◌≤◌, ◌==◌, List, length, take, drop, map, Ok, Err, OnOk, OnErr, IfErr, MatchResult, IsTrue, true, Some, None, slice_get, option_map, ◌++◌, IfSome};
ghost use Rattle.std.specs.List.{list_any};
ghost use Rattle.seq_words.specs.Masks.{has_bit};
ghost use Rattle.seq_flat.specs.State.{segment_at, line_at, input_at, process_at, with_segment, with_line};
ghost use Rattle.seq_flat.specs.Memory.{is_owner, seen, bytes_from};
ghost use Rattle.seq_flat.specs.Step.{Refuses};
ghost use Rattle.seq_flat.specs.Calls.{minus, argument, answered, given_up, ended, acquire, release, read, write, written, kernel_call};

use crate::memory::{gather, is_owner};
use crate::{End, FlatState, Inputs, Rights, SegmentState, StepError, Waits};
use seq_words::{Items, LineNo, NoMemory, Pid, Seg, has_bit};

/// Most bytes of one write.
const WRITE_LIMIT: u32 = 64;

/// Most bytes of a line's output.
const OUTPUT_LIMIT: usize = 1_048_576;

// Answers that refuse a call: -1 to -9 in two's complement.
const HELD_OR_NOT: u32 = u32::MAX;

const OUT_OF_ORDER: u32 = u32::MAX - 1;

const NO_SEGMENT: u32 = u32::MAX - 2;

const NOT_GRANTED: u32 = u32::MAX - 3;

const OUTPUT_FULL: u32 = u32::MAX - 4;

const NOT_OWNED: u32 = u32::MAX - 5;

const TOO_LONG: u32 = u32::MAX - 6;

const OUTSIDE: u32 = u32::MAX - 7;

const NO_CALL: u32 = u32::MAX - 8;

const END_OF_INPUT: u32 = u32::MAX;

// Whether a mask has the bit of a number, which may be any.
#[tactic(auto, using(crate::proofs::Masks::no_bit_above))]
fn allows(mask: u16, number: u32) -> bool
    ensures value { result ≡ has_bit mask number }
    ensures small { IsTrue result → number < 16 }
{
    number < 16 && has_bit(mask, number as u8)
}

// A process gives up a segment, if it holds it.
fn give_up_one(segment: &mut SegmentState, pid: Pid)
    ensures { segment.new ≡ given_up pid.0 segment.old }
{
    if is_owner(pid, segment.owner) {
        segment.owner = None;
    }
}

// A process gives up all that it holds.
fn give_up(segments: &mut Items<SegmentState>, pid: Pid)
    ensures { segments.new ≡ map (given_up pid.0) segments.old }
{
    for i in 0..segments.len() {
        give_up_one(segments.at_mut(i), pid);
    }
}

// Whether a process holds one of these segments.
fn any_held(segments: &[SegmentState], pid: Pid) -> bool
    ensures { result ≡ list_any (λ t. is_owner pid.0 t.owner) segments.now }
{
    segments.iter().any(|segment| is_owner(pid, segment.owner))
}

impl FlatState {
    // What a register of a process holds.
    fn argument(&self, pid: Pid, register: u8) -> u32
        requires there { pid.0 < length self.now.processes }
        requires first { 1 ≤ register }
        requires last { register < 32 }
        ensures { result ≡ argument self.now pid.0 register }
    {
        self.processes.at(pid.0 as usize).regs.x[register as usize]
    }

    // A process gets an answer in x10, and goes on with the next instruction.
    #[tactic(auto, unfolding(crate::specs::Calls::answered))]
    fn answer(&mut self, pid: Pid, answer: u32)
        requires { pid.0 < length self.old.processes }
        ensures { self.new ≡ answered self.old pid.0 answer }
    {
        let process = self.processes.at_mut(pid.0 as usize);
        process.regs.x[10] = answer;
        process.regs.pc = process.regs.pc.wrapping_add(4);
    }

    /// A process ends, and gives up what it holds.
    #[tactic(auto, unfolding(crate::specs::Calls::ended))]
    pub fn end_process(&mut self, pid: Pid, end: End)
        requires { pid.0 < length self.old.processes }
        ensures { self.new ≡ ended self.old pid.0 end }
    {
        let process = self.processes.at_mut(pid.0 as usize);
        process.end = end;
        give_up(&mut self.segments, pid);
    }
}

impl FlatState {
    // Whether a process holds a segment above this one.
    fn holds_above(&self, pid: Pid, segment: usize) -> bool
        requires { segment < length self.now.segments }
        ensures { result ≡ list_any (λ t. is_owner pid.0 t.owner) (drop (segment + 1) self.now.segments) }
    {
        any_held(&self.segments.as_slice()[segment + 1..], pid)
    }

    // Gives a segment to an owner or to none.
    fn set_owner(&mut self, segment: usize, owner: Option<Pid>)
        requires { segment < length self.old.segments }
        ensures { self.new ≡ with_segment self.old segment (record (segment_at self.old segment) { owner = owner }) }
    {
        self.segments.at_mut(segment).owner = owner;
    }

    // acquire(segment)
    #[tactic(auto, unfolding(crate::specs::Calls::acquire))]
    fn acquire(&mut self, rights: Rights, pid: Pid, segment: u32) -> Result<(), Waits>
        requires { pid.0 < length self.old.processes }
        ensures ok { OnOk result (acquire rights self.old pid.0 segment ≡ Ok self.new) }
        ensures waits { IfErr result (λ w. acquire rights self.old pid.0 segment ≡ Err w) }
        ensures same { OnErr result (self.new ≡ self.old) }
    {
        let at = segment as usize;
        if at >= self.segments.len() {
            self.answer(pid, NO_SEGMENT);
            return Ok(());
        }
        if !allows(rights.grants, segment) {
            self.answer(pid, NOT_GRANTED);
            return Ok(());
        }
        let owner = self.segments.at(at).owner;
        if is_owner(pid, owner) {
            self.answer(pid, HELD_OR_NOT);
            return Ok(());
        }
        if self.holds_above(pid, at) {
            self.answer(pid, OUT_OF_ORDER);
            return Ok(());
        }
        match owner {
            Some(holder) => Err(Waits::Lock(Seg(segment as u8), holder)),
            None => {
                self.set_owner(at, Some(pid));
                self.answer(pid, 0);
                Ok(())
            }
        }
    }

    // release(segment)
    #[tactic(auto, unfolding(crate::specs::Calls::release))]
    fn release(&mut self, pid: Pid, segment: u32)
        requires { pid.0 < length self.old.processes }
        ensures { self.new ≡ release self.old pid.0 segment }
    {
        let at = segment as usize;
        if at < self.segments.len() && is_owner(pid, self.segments.at(at).owner) {
            self.set_owner(at, None);
            self.answer(pid, 0);
        } else {
            self.answer(pid, HELD_OR_NOT);
        }
    }
}

// The next byte of a line's input.
fn next_input(inputs: &Inputs, line: usize, read: u64) -> Option<u8>
    ensures value { result ≡ slice_get (input_at inputs.now.lines line).bytes read }
    ensures room { IfSome result (λ _. read < 2 ^ 64 - 1) }
{
    let bytes = match inputs.lines.as_slice().get(line) {
        Some(input) => input.bytes.as_slice(),
        None => return None,
    };
    let at = read as usize;
    if at < bytes.len() {
        Some(bytes[at])
    } else {
        None
    }
}

// Whether a line's input is closed.
fn is_closed(inputs: &Inputs, line: usize) -> bool
    ensures { result ≡ (input_at inputs.now.lines line).closed }
{
    match inputs.lines.as_slice().get(line) {
        Some(input) => input.closed,
        None => false,
    }
}

impl FlatState {
    // How many bytes of a line's input were read.
    fn read_position(&self, line: usize) -> u64
        requires { line < length self.now.lines }
        ensures { result ≡ (line_at self.now line).read }
    {
        self.lines.at(line).read
    }

    // One byte more of a line's input was read.
    fn count_read(&mut self, line: usize)
        requires there { line < length self.old.lines }
        requires room { (line_at self.old line).read < 2 ^ 64 - 1 }
        ensures { self.new ≡ with_line self.old line (record (line_at self.old line) { read = (line_at self.old line).read + 1 }) }
    {
        self.lines.at_mut(line).read += 1;
    }

    // read(line)
    #[tactic(auto, unfolding(crate::specs::Calls::read), using(crate::proofs::CallCases::read_some, crate::proofs::CallCases::read_end, crate::proofs::CallCases::read_waits))]
    fn read(&mut self, rights: Rights, inputs: &Inputs, pid: Pid, line: u32) -> Result<(), Waits>
        requires there { pid.0 < length self.old.processes }
        requires lines { length self.old.lines ≡ 16 }
        ensures ok { OnOk result (read rights inputs.now.lines self.old pid.0 line ≡ Ok self.new) }
        ensures waits { IfErr result (λ w. read rights inputs.now.lines self.old pid.0 line ≡ Err w) }
        ensures same { OnErr result (self.new ≡ self.old) }
    {
        if !allows(rights.lines, line) {
            self.answer(pid, NOT_OWNED);
            return Ok(());
        }
        let at = line as usize;
        match next_input(inputs, at, self.read_position(at)) {
            Some(byte) => {
                self.count_read(at);
                self.answer(pid, u32::from(byte));
                Ok(())
            }
            None if is_closed(inputs, at) => {
                self.answer(pid, END_OF_INPUT);
                Ok(())
            }
            None => Err(Waits::Input(LineNo(line as u8))),
        }
    }

    // Adds bytes to a line's output.
    fn add_output(&mut self, line: usize, bytes: &[u8]) -> Result<(), NoMemory>
        requires { line < length self.old.lines }
        ensures ok { OnOk result (self.new ≡ with_line self.old line (record (line_at self.old line) { output = (line_at self.old line).output ++ bytes.now })) }
        ensures err { OnErr result (self.new ≡ self.old) }
    {
        self.lines.at_mut(line).output.append(bytes)
    }

    // The bytes of a write, which are at most 64, at the front of a buffer.
    fn written_bytes(&self, pid: Pid, address: u32, count: u32) -> Option<[u8; 64]>
        requires there { pid.0 < length self.now.processes }
        requires few { count ≤ 64 }
        ensures { bytes_from (seen (process_at self.now pid.0).bytes self.now.segments pid.0) address count ≡ option_map (λ b. take count b) result }
    {
        let process = self.processes.at(pid.0 as usize);
        gather(
            process.bytes.as_slice(),
            self.segments.as_slice(),
            pid,
            address,
            count as usize,
        )
    }

    // write(line, address, length)
    #[tactic(auto, unfolding(crate::specs::Calls::write), using(crate::proofs::CallCases::write_outside, crate::proofs::CallCases::write_found))]
    fn write(
        &mut self,
        rights: Rights,
        pid: Pid,
        line: u32,
        address: u32,
        count: u32,
    ) -> Result<(), NoMemory>
        requires there { pid.0 < length self.old.processes }
        requires lines { length self.old.lines ≡ 16 }
        ensures ok { OnOk result (self.new ≡ write rights self.old pid.0 line address count) }
        ensures err { OnErr result (self.new ≡ self.old) }
    {
        if !allows(rights.lines, line) {
            self.answer(pid, NOT_OWNED);
            return Ok(());
        }
        if count > WRITE_LIMIT {
            self.answer(pid, TOO_LONG);
            return Ok(());
        }
        match self.written_bytes(pid, address, count) {
            None => {
                self.answer(pid, OUTSIDE);
                Ok(())
            }
            Some(bytes) => self.write_bytes(pid, line as usize, &bytes[..count as usize]),
        }
    }

    // Writes bytes that were found, while there is room for them in the output.
    #[tactic(auto, unfolding(crate::specs::Calls::written))]
    fn write_bytes(&mut self, pid: Pid, line: usize, bytes: &[u8]) -> Result<(), NoMemory>
        requires there { pid.0 < length self.old.processes }
        requires line { line < length self.old.lines }
        requires few { length bytes.now ≤ 64 }
        ensures ok { OnOk result (self.new ≡ written self.old pid.0 line (Some bytes.now)) }
        ensures err { OnErr result (self.new ≡ self.old) }
    {
        if self.lines.at(line).output.as_slice().len() + bytes.len() > OUTPUT_LIMIT {
            self.answer(pid, OUTPUT_FULL);
            return Ok(());
        }
        self.add_output(line, bytes)?;
        self.answer(pid, bytes.len() as u32);
        Ok(())
    }
}

impl FlatState {
    /// A kernel call of a process, by the number in its x17.
    #[tactic(auto, unfolding(crate::specs::Calls::kernel_call))]
    pub fn call(&mut self, rights: Rights, inputs: &Inputs, pid: Pid) -> Result<(), StepError>
        requires there { pid.0 < length self.old.processes }
        requires lines { length self.old.lines ≡ 16 }
        ensures ok { OnOk result (kernel_call rights inputs.now.lines self.old pid.0 (argument self.old pid.0 17) ≡ Ok self.new) }
        ensures waits { IfErr result (Refuses (kernel_call rights inputs.now.lines self.old pid.0 (argument self.old pid.0 17))) }
        ensures same { OnErr result (self.new ≡ self.old) }
    {
        let first = self.argument(pid, 10);
        match self.argument(pid, 17) {
            0 => self.end_process(pid, End::Exited(first)),
            1 => return self.acquire(rights, pid, first).map_err(StepError::Waits),
            2 => self.release(pid, first),
            3 => return self
                .read(rights, inputs, pid, first)
                .map_err(StepError::Waits),
            4 => {
                let address = self.argument(pid, 11);
                let count = self.argument(pid, 12);
                return match self.write(rights, pid, first, address, count) {
                    Ok(()) => Ok(()),
                    Err(NoMemory) => Err(StepError::NoMemory),
                };
            }
            5 => self.answer(pid, u32::from(pid.0)),
            6 | 7 => self.answer(pid, 0),
            _ => self.answer(pid, NO_CALL),
        }
        Ok(())
    }
}
