// What a line of a source is read as.
ghost use Rattle.std.specs.Prelude.{◌≡◌};
ghost use Rattle.std.specs.Option.{option_map};
ghost use Rattle.seq_source.specs.Cuts.{label_of};
ghost use Rattle.seq_source.specs.Said.{HasWord};
ghost use Rattle.seq_asm.specs.Lines.{said_in, named_in};

use seq_source::{Said, cut_line, last_operand, read_words};

/// What a line is read as. No text is copied.
#[derive(Clone, Copy)]
pub struct Reading<'a> {
    pub label: Option<&'a [u8]>,
    pub said: Said,
    /// The last operand, which is a label where the line is a branch or `jal` to a label, or an `.entry`.
    pub named: &'a [u8],
}

/// Reads a line.
#[tactic(auto, unfolding(crate::specs::Lines::said_in, crate::specs::Lines::named_in))]
pub fn read_line(line: &[u8]) -> Reading<'_>
    ensures label { option_map (λ name. name.now) result.label ≡ label_of line.now }
    ensures said { result.said ≡ said_in line.now }
    ensures named { result.named.now ≡ named_in line.now }
    ensures word { HasWord result.said }
{
    let parts = cut_line(line);
    Reading {
        label: parts.label,
        said: read_words(parts.word, parts.operands),
        named: last_operand(parts.operands),
    }
}
