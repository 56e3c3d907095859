ghost use Rattle.std.specs.Prelude.{◌≡◌, ◌<◌, ◌∷◌, length};
ghost use Rattle.std.specs.Str.Lines.{strip_carriage_return};
ghost use Rattle.seq_text.specs.Lines.{lines_of};

use crate::cut_at;

fn without_return(line: &[u8]) -> &[u8]
    ensures { result.now ≡ strip_carriage_return line.now }
{
    match line {
        [front @ .., b'\r'] => front,
        _ => line,
    }
}

/// The first line of a text that has one, and what follows it.
pub fn next_line(text: &[u8]) -> (&[u8], &[u8])
    requires { 0 < length text.now }
    ensures lines { lines_of text.now ≡ result.0.now ∷ lines_of result.1.now }
    ensures shorter { length result.1.now < length text.now }
{
    let (line, behind) = cut_at(b'\n', text);
    match behind {
        None => (line, &[]),
        Some(rest) => (without_return(line), rest),
    }
}
