// What a whole line says.
ghost use Rattle.std.specs.Prelude.{◌≡◌, ◌+◌, ◌==◌, not, length};
ghost use Rattle.std.specs.List.{suffix_len};
ghost use Rattle.seq_source.specs.Said.{said_as, said, last_operand, HasWord};

use crate::cutting::without_front;
use crate::directives::{Directive, directive_named, directive_said};
use crate::instructions::instruction_said;
use crate::items::Said;
use seq_mnemonics::Mnemonic;

fn said_as(mnemonic: Option<Mnemonic>, directive: Option<Directive>, text: &[u8]) -> Said
    ensures value { result ≡ said_as mnemonic directive text.now }
    ensures word { HasWord result }
{
    if let Some(mnemonic) = mnemonic {
        return instruction_said(mnemonic, text);
    }
    match directive {
        None => Said::UnknownWord,
        Some(directive) => directive_said(directive, text),
    }
}

/// What a word with these operands says.
#[tactic(auto, unfolding(crate::specs::Said::said))]
pub fn read_words(word: &[u8], text: &[u8]) -> Said
    ensures value { result ≡ said word.now text.now }
    ensures word { HasWord result }
{
    if word.is_empty() {
        return Said::Nothing;
    }
    said_as(Mnemonic::named(word), directive_named(word), text)
}

fn behind_last_comma(text: &[u8]) -> usize
    ensures { result + suffix_len (λ byte. not (byte == 44)) text.now ≡ length text.now }
{
    let mut start = text.len();
    while start > 0 && text[start - 1] != b',' {
        start -= 1;
    }
    start
}

/// The last operand, which is a label where the line is a branch or `jal` to a label, or an `.entry`.
#[tactic(auto, unfolding(crate::specs::Said::last_operand))]
pub fn last_operand(text: &[u8]) -> &[u8]
    ensures { result.now ≡ last_operand text.now }
{
    without_front(&text[behind_last_comma(text)..])
}
