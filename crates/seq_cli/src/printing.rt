// The printing, which comes last: one write to the sink.
ghost use Rattle.std.specs.Prelude.{◌≡◌, ◌⊎◌, Ok};
ghost use Rattle.seq_shelf.specs.Causes.{Rose};
ghost use Rattle.seq_cli.specs.Printing.{MayBecome, Prints};
ghost use Rattle.seq_cli.specs.Texts.{usage_text};

use crate::answer::Answer;
use seq_report::Status;
use seq_shelf::{Sink, SinkError};
use seq_words::NoMemory;

/// The forms of the commands.
const USAGE: &str =
    "usage:\nsequoia run MACHINE SCHEDULE\nsequoia asm SOURCE IMAGE\nsequoia list IMAGE\n";

// Prints the text of a status. Answers the status, or what stands in its place.
#[tactic(auto, using(crate::proofs::Printed::prints_whole))]
fn print_text<K: Sink>(sink: &mut K, status: Status, text: &[u8]) -> Status
    ensures became { (result ≡ status) ⊎ (result ≡ Status.SinkFault) ⊎ (result ≡ Status.NoMemory) }
    ensures printed { Prints result (λ t. t ≡ text.now) (K.sink sink.old).told (K.sink sink.new).told }
    ensures fault { result ≡ Status.SinkFault → (status ≡ Status.SinkFault) ⊎ Rose (K.sink sink.old).faults (K.sink sink.new).faults }
{
    match sink.write(text) {
        Ok(()) => status,
        Err(SinkError::Failed) => Status::SinkFault,
        Err(SinkError::NoMemory) => Status::NoMemory,
    }
}

/// Prints the text of an answer. Answers its status, or what stands in its place: where there is no text, want of memory.
pub fn print<K: Sink>(sink: &mut K, answer: Answer) -> Status
    ensures became { (result ≡ answer.status) ⊎ (result ≡ Status.SinkFault) ⊎ (result ≡ Status.NoMemory) }
    ensures printed { Prints result (λ t. answer.text ≡ Ok t) (K.sink sink.old).told (K.sink sink.new).told }
    ensures fault { result ≡ Status.SinkFault → (answer.status ≡ Status.SinkFault) ⊎ Rose (K.sink sink.old).faults (K.sink sink.new).faults }
{
    let Answer { status, text } = answer;
    match text {
        Ok(text) => print_text(sink, status, text.as_slice()),
        Err(NoMemory) => Status::NoMemory,
    }
}

/// Answers words that are no form of a command: it prints the forms.
pub fn print_usage<K: Sink>(sink: &mut K) -> Status
    ensures became { MayBecome Status.Usage result }
    ensures printed { Prints result (λ t. t ≡ usage_text) (K.sink sink.old).told (K.sink sink.new).told }
    ensures fault { result ≡ Status.SinkFault → Rose (K.sink sink.old).faults (K.sink sink.new).faults }
{
    print_text(sink, Status::Usage, USAGE.as_bytes())
}
