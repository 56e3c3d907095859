// What texts are made of.
ghost use Rattle.std.specs.Prelude.{◌≡◌, ◌++◌, false, codes, decimal, IsOk, OnOk};
ghost use Rattle.seq_report.specs.Texts.{element_name, blocker_name, end_words, hung_words};

use itoa::Buffer;
use seq_flat::End;
use seq_words::{Blocker, Bytes, Element, NoMemory};

/// A number in decimal.
pub fn put_number(out: &mut Bytes, number: u128) -> Result<(), NoMemory>
    ensures { OnOk result (out.new ≡ out.old ++ decimal number) }
{
    let mut buffer = Buffer::new();
    out.append(buffer.format(number).as_bytes())
}

/// A number behind some words.
pub fn put_numbered(out: &mut Bytes, words: &[u8], number: u128) -> Result<(), NoMemory>
    ensures { OnOk result (out.new ≡ out.old ++ (words.now ++ decimal number)) }
{
    out.append(words)?;
    put_number(out, number)
}

/// The name of an element.
pub fn put_element(out: &mut Bytes, element: Element) -> Result<(), NoMemory>
    ensures { OnOk result (out.new ≡ out.old ++ element_name element) }
{
    match element {
        Element::Processor(processor) => put_numbered(out, b"p", u128::from(processor.0)),
        Element::Memory(memory) => put_numbered(out, b"m", u128::from(memory.0)),
        Element::Io(io) => put_numbered(out, b"i", u128::from(io.0)),
    }
}

/// What kept the machine from going on.
pub fn put_blocker(out: &mut Bytes, blocker: Blocker) -> Result<(), NoMemory>
    ensures { OnOk result (out.new ≡ out.old ++ blocker_name blocker) }
{
    match blocker {
        Blocker::Memory(memory) => put_numbered(out, b"m", u128::from(memory.0)),
        Blocker::Process(process) => put_numbered(out, b"process ", u128::from(process.0)),
    }
}

/// How a process stands.
pub fn put_end(out: &mut Bytes, end: End) -> Result<(), NoMemory>
    ensures { OnOk result (out.new ≡ out.old ++ end_words end) }
{
    match end {
        End::Live => out.append(b"live"),
        End::Exited(code) => put_numbered(out, b"exited ", u128::from(code)),
        End::Trapped(cause, pc) => {
            put_numbered(out, b"trapped ", u128::from(cause))?;
            put_numbered(out, b" at ", u128::from(pc))
        }
    }
}

/// That a line is hung up, where it is. Of a line that isn't, it writes nothing, and takes no memory.
pub fn put_hung(out: &mut Bytes, hung: bool) -> Result<(), NoMemory>
    ensures after { OnOk result (out.new ≡ out.old ++ hung_words hung) }
    ensures quiet { hung ≡ false → IsOk result }
{
    if hung {
        out.append(b" hung up")
    } else {
        Ok(())
    }
}
