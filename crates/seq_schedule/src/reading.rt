ghost use Rattle.std.specs.Prelude.{◌≡◌, ◌≢◌, ◌++◌, ℕ, [], Some, None, Err, OnOk, OnErr, IfOk, ◌⊎◌};
ghost use Rattle.seq_words.specs.Description.{IsDescription};
ghost use Rattle.seq_text.specs.Words.{words_of};
ghost use Rattle.seq_schedule.specs.declared.forms.Gate.TheVariants.{Built};
ghost use Rattle.seq_schedule.specs.Said.{said};
ghost use Rattle.seq_schedule.specs.Rules.{line_rule, item_at, items_of, first_fault};
ghost use Rattle.seq_schedule.specs.Tallying.{told, after_said};

use crate::forms::Gate;
use crate::lines::{Said, read_line};
use crate::rules::place_rule;
use crate::script::Item;
use crate::tally::Tally;
use seq_text::next_line;
use seq_words::{Items, MachineDesc, NoMemory, ReadError};
use std::alloc::Global;

// The rules of lines that say no script.
const UNBUILT: u16 = 0;

const NO_FORM: u16 = 30;

const MALFORMED: u16 = 31;

/// What was read of a schedule.
#[derive(Drop)]
pub struct Reader {
    pub tally: Tally,
    pub items: Items<Item>,
}

/// The least rule that a line violates, behind those before it.
#[tactic(auto, unfolding(crate::specs::Rules::line_rule))]
fn line_rule(tally: &Tally, desc: &MachineDesc, place: u64, said: &Said) -> Option<u16>
    requires { IsDescription desc.now }
    ensures { result ≡ line_rule desc.now (told tally.now) place said.now }
{
    match said {
        Said::Passed => place_rule(place),
        Said::Unbuilt => Some(UNBUILT),
        Said::NoForm => Some(NO_FORM),
        Said::Malformed => Some(MALFORMED),
        Said::Says(script) => match tally.rule(desc, script) {
            Some(rule) => Some(rule),
            None => place_rule(place),
        },
    }
}

impl Reader {
    #[tactic(auto, using(crate::proofs::Texts::says_none))]
    fn take(&mut self, desc: &MachineDesc, place: u64, said: Said) -> Result<(), NoMemory>
        requires described { IsDescription desc.now }
        requires fits { line_rule desc.now (told self.old.tally) place said ≡ None }
        ensures tally { OnOk result (self.new.tally ≡ after_said desc.now self.old.tally said) }
        ensures items { OnOk result (self.new.items ≡ self.old.items ++ item_at place said) }
        ensures refused { OnErr result (item_at place said ≢ []) }
    {
        match said {
            Said::Passed => Ok(()),
            Said::Unbuilt => Ok(()),
            Said::NoForm => Ok(()),
            Said::Malformed => Ok(()),
            Said::Says(script) => {
                self.tally.note(desc, &script);
                let item = Item {
                    line: place,
                    script,
                };
                match self.items.push(item) {
                    Ok(()) => Ok(()),
                    Err(_) => Err(NoMemory),
                }
            }
        }
    }

    /// Takes the line at a place.
    fn take_line(
        &mut self,
        alloc: Global,
        gate: Gate,
        desc: &MachineDesc,
        place: u64,
        line: &[u8],
    ) -> Result<(), ReadError>
        requires { IsDescription desc.now }
        ensures refused { (at rule : ℕ) → result ≡ Err (ReadError.Refused at rule) →
            (at ≡ place) × (line_rule desc.now (told self.old.tally) place (said gate (words_of line.now)) ≡ Some rule) }
        ensures none { OnOk result (line_rule desc.now (told self.old.tally) place (said gate (words_of line.now)) ≡ None) }
        ensures tally { OnOk result (self.new.tally ≡ after_said desc.now self.old.tally (said gate (words_of line.now))) }
        ensures items { OnOk result (self.new.items ≡ self.old.items ++ item_at place (said gate (words_of line.now))) }
        ensures memory { result ≡ Err ReadError.NoMemory → item_at place (said gate (words_of line.now)) ≢ [] }
    {
        let said = match read_line(alloc, gate, line) {
            Ok(said) => said,
            Err(_) => return Err(ReadError::NoMemory),
        };
        if let Some(rule) = line_rule(&self.tally, desc, place, &said) {
            return Err(ReadError::Refused { place, rule });
        }
        match self.take(desc, place, said) {
            Ok(()) => Ok(()),
            Err(_) => Err(ReadError::NoMemory),
        }
    }
}

fn read_lines(
    alloc: Global,
    gate: Gate,
    text: &[u8],
    desc: &MachineDesc,
) -> Result<Items<Item>, ReadError>
    requires { IsDescription desc.now }
    ensures items { IfOk result (λ items. items ≡ items_of gate text.now) }
    ensures none { OnOk result (first_fault gate desc.now text.now ≡ None) }
    ensures refused { (place rule : ℕ) → result ≡ Err (ReadError.Refused place rule) →
        first_fault gate desc.now text.now ≡ Some (place, rule) }
    ensures memory { result ≡ Err ReadError.NoMemory → items_of gate text.now ≢ [] }
{
    let mut reader = Reader {
        tally: Tally::new(),
        items: Items::new(alloc),
    };
    let mut place = 1;
    let mut rest = text;
    'lines: while !rest.is_empty() {
        let (line, after) = next_line(rest);
        match reader.take_line(alloc, gate, desc, place, line) {
            Ok(()) => {}
            Err(error) => return Err(error),
        }
        place += 1;
        rest = after;
    }
    Ok(reader.items)
}

/// Reads a schedule, where only what the gate lets through is taken. A place is a line from 1.
///
/// Rule 0: a line isn't let through. 30: a line is none of the forms. 31: a number, the hexadecimal digits or a
/// mask are malformed, or a number of times isn't 1 to 10,000,000, or a register isn't 1 to 32. 32: an element or line
/// isn't in the description. 33: an element fails that is failed, or is repaired and isn't failed. 34: a failed
/// processor is struck. 35: a half is struck while the other one was since the processor's last repair. 36: an input or
/// close of a closed line. 37: more bytes arrive on a line than its journal has. 38: a line is hung up again. 39: the
/// line's number is above 1,000,000, or the turns so far are above 200,000,000.
pub fn read(
    alloc: Global,
    gate: Gate,
    text: &[u8],
    desc: &MachineDesc,
) -> Result<Items<Item>, ReadError>
    requires { IsDescription desc.now }
    ensures items { IfOk result (λ items. items ≡ items_of gate text.now) }
    ensures faultless { first_fault gate desc.now text.now ≡ None →
        (result ≡ Ok (items_of gate text.now)) ⊎ (result ≡ Err ReadError.NoMemory) }
    ensures refused { (place rule : ℕ) → result ≡ Err (ReadError.Refused place rule) →
        first_fault gate desc.now text.now ≡ Some (place, rule) }
    ensures faulty { (place rule : ℕ) → first_fault gate desc.now text.now ≡ Some (place, rule) →
        (result ≡ Err (ReadError.Refused place rule)) ⊎ (result ≡ Err ReadError.NoMemory) }

    // Nothing but items takes memory.
    ensures memory { result ≡ Err ReadError.NoMemory → items_of gate text.now ≢ [] }
{
    read_lines(alloc, gate, text, desc)
}

/// Reads a schedule of what the machine runs. Places and rules are those of `read`; rule 0 is that the machine doesn't run
/// such a line yet: its first word is `hangup`.
pub fn parse(alloc: Global, text: &[u8], desc: &MachineDesc) -> Result<Items<Item>, ReadError>
    requires { IsDescription desc.now }
    ensures items { IfOk result (λ items. items ≡ items_of Built text.now) }
    ensures faultless { first_fault Built desc.now text.now ≡ None →
        (result ≡ Ok (items_of Built text.now)) ⊎ (result ≡ Err ReadError.NoMemory) }
    ensures refused { (place rule : ℕ) → result ≡ Err (ReadError.Refused place rule) →
        first_fault Built desc.now text.now ≡ Some (place, rule) }
    ensures faulty { (place rule : ℕ) → first_fault Built desc.now text.now ≡ Some (place, rule) →
        (result ≡ Err (ReadError.Refused place rule)) ⊎ (result ≡ Err ReadError.NoMemory) }
    ensures memory { result ≡ Err ReadError.NoMemory → items_of Built text.now ≢ [] }
{
    read(alloc, Gate::Built, text, desc)
}
