// Hexadecimal digits.
ghost use Rattle.std.specs.Prelude.{◌≡◌, ◌%◌, ◌++◌, ◌<◌, false, OnOk};
ghost use Rattle.std.specs.Fmt.{digit_glyph, digits};
ghost use Rattle.seq_list.specs.Lines.{hexadecimal};

use seq_words::{Bytes, NoMemory};

fn digit(value: u8) -> u8
    requires { value < 16 }
    ensures { result ≡ digit_glyph false value }
{
    if value < 10 {
        b'0' + value
    } else {
        b'a' + (value - 10)
    }
}

/// The two digits of a byte.
#[tactic(auto, unfolding(crate::specs::Lines::hexadecimal))]
pub fn byte_digits(byte: u8) -> [u8; 2]
    ensures { result ≡ hexadecimal 2 byte }
{
    [digit(byte >> 4), digit(byte & 15)]
}

fn last_digit(number: u32) -> u8
    ensures { result ≡ digit_glyph false (number % 16) }
{
    digit((number & 15) as u8)
}

/// The eight digits of a word.
#[tactic(auto, unfolding(crate::specs::Lines::hexadecimal))]
pub fn word_digits(word: u32) -> [u8; 8]
    ensures { result ≡ hexadecimal 8 word }
{
    [
        last_digit(word >> 28),
        last_digit(word >> 24),
        last_digit(word >> 20),
        last_digit(word >> 16),
        last_digit(word >> 12),
        last_digit(word >> 8),
        last_digit(word >> 4),
        last_digit(word),
    ]
}

/// The digits of a number without leading zeros.
#[tactic(auto, using(crate::proofs::Shortest::hexadecimal_last))]
pub fn put_hexadecimal(out: &mut Bytes, number: u32) -> Result<(), NoMemory>
    ensures { OnOk result (out.new ≡ out.old ++ digits 16 false number) }
{
    if number < 16 {
        return out.push(last_digit(number));
    }
    put_hexadecimal(out, number / 16)?;
    out.push(last_digit(number))
}
