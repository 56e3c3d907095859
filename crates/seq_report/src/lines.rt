// Texts of one line.
ghost use Rattle.std.specs.Prelude.{◌≡◌, true, IfOk};
ghost use Rattle.seq_report.specs.Texts.{is_single, single_line, assembled_text};

use crate::Status;
use crate::put::put_numbered;
use seq_words::{Bytes, NoMemory};
use std::alloc::Global;

/// The line of a status that comes before any run: of a file that is refused or absent, by its name, or of a fault of the shelf.
pub fn single(alloc: Global, status: &Status, name: &str) -> Result<Bytes, NoMemory>
    requires { is_single status.now ≡ true }
    ensures { IfOk result (λ text. text ≡ single_line status.now name.now) }
{
    let mut text = Bytes::new(alloc);
    match *status {
        Status::Refused { place, rule, .. } => {
            text.append(b"refused ")?;
            text.append(name.as_bytes())?;
            put_numbered(&mut text, b" at ", u128::from(place))?;
            put_numbered(&mut text, b" rule ", u128::from(rule))?;
            text.push(b'\n')?;
        }
        Status::Absent { .. } => {
            text.append(b"absent ")?;
            text.append(name.as_bytes())?;
            text.push(b'\n')?;
        }
        Status::ShelfFault => text.append(b"shelf fault\n")?,
        _ => {}
    }
    Ok(text)
}

/// That an image of so many bytes was assembled.
pub fn assembled(alloc: Global, length: u32) -> Result<Bytes, NoMemory>
    ensures { IfOk result (λ text. text ≡ assembled_text length) }
{
    let mut text = Bytes::new(alloc);
    put_numbered(&mut text, b"assembled ", u128::from(length))?;
    text.append(b" bytes\n")?;
    Ok(text)
}
