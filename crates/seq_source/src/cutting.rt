// Where a line is cut.
ghost use Rattle.std.specs.Prelude.{◌≡◌, ◌≤◌, ◌<◌, ◌==◌, not, length, position, IfSome};
ghost use Rattle.std.specs.List.{position_or_len};
ghost use Rattle.std.specs.Option.{option_map};
ghost use Rattle.seq_text.specs.Words.{is_blank};
ghost use Rattle.seq_source.specs.Cuts.{without_front, without_back, said_of, label_in, behind_label, word_in, tail_in, label_of, word_of, tail_of};

use crate::names::{is_blank, is_label};

/// The parts of a line. No text is copied.
#[derive(Clone, Copy)]
pub struct Line<'a> {
    /// The label that stands at the beginning.
    pub label: Option<&'a [u8]>,
    /// The word of an instruction or directive. It is empty where the line has none.
    pub word: &'a [u8],
    /// What follows that word, without blanks at both ends.
    pub operands: &'a [u8],
}

fn place_of(byte: u8, text: &[u8]) -> Option<usize>
    ensures value { result ≡ position (λ b. b == byte) text.now }
    ensures bound { IfSome result (λ at. at < length text.now) }
{
    text.iter().position(|b| *b == byte)
}

/// Where a byte first stands in a text, or the text's length where it doesn't.
pub fn first_place(byte: u8, text: &[u8]) -> usize
    ensures value { result ≡ position_or_len (λ b. b == byte) text.now }
    ensures bound { result ≤ length text.now }
{
    place_of(byte, text).unwrap_or(text.len())
}

fn blank(rest: &[u8]) -> Option<usize>
    ensures value { result ≡ position (λ byte. is_blank byte) rest.now }
    ensures bound { IfSome result (λ at. at < length rest.now) }
{
    rest.iter().position(|byte| is_blank(*byte))
}

fn first_blank(rest: &[u8]) -> usize
    ensures value { result ≡ position_or_len (λ byte. is_blank byte) rest.now }
    ensures bound { result ≤ length rest.now }
{
    blank(rest).unwrap_or(rest.len())
}

fn no_blank(line: &[u8]) -> Option<usize>
    ensures value { result ≡ position (λ byte. not (is_blank byte)) line.now }
    ensures bound { IfSome result (λ at. at < length line.now) }
{
    line.iter().position(|byte| !is_blank(*byte))
}

fn blanks_before(line: &[u8]) -> usize
    ensures value { result ≡ position_or_len (λ byte. not (is_blank byte)) line.now }
    ensures bound { result ≤ length line.now }
{
    no_blank(line).unwrap_or(line.len())
}

/// What is left without the blanks at the beginning.
pub fn without_front(line: &[u8]) -> &[u8]
    ensures { result.now ≡ without_front line.now }
{
    &line[blanks_before(line)..]
}

fn without_back(line: &[u8]) -> &[u8]
    ensures { result.now ≡ without_back line.now }
{
    let mut end = line.len();
    while end > 0 && is_blank(line[end - 1]) {
        end -= 1;
    }
    &line[..end]
}

#[tactic(auto, unfolding(crate::specs::Cuts::said_of))]
fn said_of(line: &[u8]) -> &[u8]
    ensures { result.now ≡ said_of line.now }
{
    without_back(without_front(&line[..first_place(b'#', line)]))
}

// The label, and what follows it.
#[tactic(auto, unfolding(crate::specs::Cuts::label_in, crate::specs::Cuts::behind_label))]
fn cut_label(said: &[u8]) -> (Option<&[u8]>, &[u8])
    ensures label { option_map (λ label. label.now) result.0 ≡ label_in said.now }
    ensures rest { result.1.now ≡ behind_label said.now }
{
    let colon = first_place(b':', said);
    if colon < said.len() && is_label(&said[..colon]) {
        (Some(&said[..colon]), without_front(&said[colon + 1..]))
    } else {
        (None, said)
    }
}

// The word, and what follows it.
#[tactic(auto, unfolding(crate::specs::Cuts::word_in, crate::specs::Cuts::tail_in))]
fn cut_word(rest: &[u8]) -> (&[u8], &[u8])
    ensures word { result.0.now ≡ word_in rest.now }
    ensures operands { result.1.now ≡ tail_in rest.now }
{
    let (word, behind) = rest.split_at(first_blank(rest));
    (word, without_front(behind))
}

/// Cuts a line into its parts.
pub fn cut_line(line: &[u8]) -> Line<'_>
    ensures label { option_map (λ label. label.now) result.label ≡ label_of line.now }
    ensures word { result.word.now ≡ word_of line.now }
    ensures operands { result.operands.now ≡ tail_of line.now }
{
    let (label, rest) = cut_label(said_of(line));
    let (word, operands) = cut_word(rest);
    Line {
        label,
        word,
        operands,
    }
}
