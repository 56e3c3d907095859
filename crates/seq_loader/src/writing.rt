ghost use Rattle.std.specs.Prelude.{◌≡◌, ◌++◌, IfOk, OnOk};
ghost use Rattle.seq_loader.specs.Image.{IsImage, Spells, number};

use crate::Image;
use crate::header::MARK;
use byteorder::{ByteOrder, LittleEndian};
use seq_words::{Bytes, NoMemory};
use std::alloc::Global;

fn put_number(out: &mut Bytes, value: u32) -> Result<(), NoMemory>
    ensures { OnOk result (out.new ≡ out.old ++ number value) }
{
    let mut bytes = [0; 4];
    LittleEndian::write_u32(&mut bytes, value);
    out.append(&bytes)
}

/// Writes an image in the one form in which it is read.
pub fn write_image(alloc: Global, i: &Image) -> Result<Bytes, NoMemory>
    requires { IsImage i.now }
    ensures { IfOk result (λ file. Spells file i.now) }
{
    let mut out = Bytes::copy_of(alloc, &MARK)?;
    put_number(&mut out, i.size)?;
    put_number(&mut out, i.bytes.as_slice().len() as u32)?;
    put_number(&mut out, i.entry)?;
    out.append(i.bytes.as_slice())?;
    Ok(out)
}
