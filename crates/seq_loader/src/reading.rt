ghost use Rattle.std.specs.Prelude.{◌≡◌, ◌↔◌, ◌⊎◌, ℕ, Some, None, IfOk, IfErr};
ghost use Rattle.seq_loader.specs.Image.{Spells};
ghost use Rattle.seq_loader.specs.Faults.{first_fault};

use crate::Image;
use crate::header::{HEADER_BYTES, Header};
use seq_words::{Bytes, ReadError};
use std::alloc::Global;

/// Reads an image. A place is a byte from 0.
///
/// The rules are tried in the order of the fields: 20 at the first of the first four bytes that isn't the mark's; 21 at
/// the file's length, where the header or the program's bytes end early; 22 at 4, the private size isn't a multiple of
/// 32 from 32 to 65,536; 23 at 8, more bytes than that size; 24 at 12, the entry isn't a multiple of four below the
/// size; 25 at the first byte behind the program's.
pub fn read_image(alloc: Global, file: &[u8]) -> Result<Image, ReadError>
    ensures value { IfOk result (λ i. Spells file.now i) }
    ensures read { (i : Image) → Spells file.now i →
        (result ≡ Ok i) ⊎ (result ≡ Err ReadError.NoMemory) }
    ensures refused { (place rule : ℕ) →
        (result ≡ Err (ReadError.Refused place rule)) ↔ (first_fault file.now ≡ Some (place, rule)) }
{
    let header = match Header::read(file) {
        Ok(header) => header,
        Err(fault) => {
            return Err(ReadError::Refused {
                place: fault.place as u64,
                rule: fault.rule,
            });
        }
    };
    match Bytes::copy_of(alloc, &file[HEADER_BYTES..]) {
        Ok(bytes) => Ok(Image {
            size: header.size,
            entry: header.entry,
            bytes,
        }),
        Err(_) => Err(ReadError::NoMemory),
    }
}
