ghost use Rattle.std.specs.Prelude.{◌≡◌};
ghost use Rattle.seq_cli.specs.Endings.{status_of};

use seq_course::Ending;
use seq_machine::Stop;
use seq_report::Status;

/// The status of a run, by how its course ended.
pub fn status_of(ending: &Ending) -> Status
    ensures { result ≡ status_of ending.now }
{
    match ending {
        Ending::Done => Status::Done,
        Ending::OutOfTurns { line } => Status::OutOfTurns { line: *line },
        Ending::Stopped {
            line,
            stop: Stop::Check(stopped, cause),
        } => Status::MachineCheck {
            line: *line,
            stopped: *stopped,
            cause: *cause,
        },
        Ending::Stopped {
            stop: Stop::Line(line),
            ..
        } => Status::LineFault { line: *line },
        Ending::Stopped {
            stop: Stop::Chronicle,
            ..
        } => Status::ChronicleFault,
        Ending::Stopped {
            stop: Stop::NoMemory,
            ..
        } => Status::NoMemory,
    }
}
