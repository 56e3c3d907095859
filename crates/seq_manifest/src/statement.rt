ghost use Rattle.std.specs.Prelude.{◌≡◌, ◌≢◌, ◌∷◌, ◌==◌, [], not, length, MatchOption};
ghost use Rattle.std.specs.Option.{option_map};
ghost use Rattle.std.specs.Str.{bytes_eq, is_utf8};
ghost use Rattle.seq_text.specs.Words.{words_of};
ghost use Rattle.seq_manifest.specs.Statements.{is_file, first_line_said, segment_said, process_said, said};
ghost use Rattle.seq_manifest.specs.Kept.{kept, seen};

use crate::heading::{Heading, heading_named};
use crate::lists::{NumberList, number_list};
use seq_text::{first_word, number};
use std::str;

/// What a line says.
#[derive(Clone, Copy)]
pub enum Statement<'a> {
    /// A first line, with its number.
    Heading(Heading, u128),
    /// A segment: its size, and the name of its file, empty for none.
    Segment(u128, &'a [u8]),
    /// A process: the name of its file, its lines and its segments.
    Process(&'a [u8], NumberList, NumberList),
}

fn is_text(word: &[u8]) -> bool
    ensures { result ≡ is_utf8 word.now }
{
    str::from_utf8(word).is_ok()
}

fn is_file(word: &[u8]) -> bool
    ensures { result ≡ is_file word.now }
{
    1 <= word.len() && word.len() <= 255 && is_text(word)
}

fn is_word(word: &[u8], text: &[u8]) -> bool
    ensures { result ≡ bytes_eq word.now text.now }
{
    word == text
}

fn has_words(line: &[u8]) -> bool
    ensures { result ≡ not (length (words_of line.now) == 0) }
{
    first_word(line).is_some()
}

// WORD NUMBER
#[tactic(auto, unfolding(crate::specs::Statements::first_line_said))]
fn first_line<'a>(key: &[u8], word: &[u8], rest: &[u8]) -> Option<Statement<'a>>
    ensures { option_map seen result ≡ option_map kept (first_line_said key.now word.now (words_of rest.now)) }
{
    if has_words(rest) {
        return None;
    }
    let Some(heading) = heading_named(key) else {
        return None;
    };
    let Some(number) = number(word) else {
        return None;
    };
    Some(Statement::Heading(heading, number))
}

// segment SIZE
#[tactic(auto, unfolding(crate::specs::Statements::segment_said))]
fn plain_segment<'a>(word: &[u8]) -> Option<Statement<'a>>
    ensures { option_map seen result ≡ option_map kept (segment_said word.now []) }
{
    let Some(size) = number(word) else {
        return None;
    };
    Some(Statement::Segment(size, &[]))
}

// segment SIZE FILE
#[tactic(auto, unfolding(crate::specs::Statements::segment_said))]
fn named_segment<'a>(word: &[u8], file: &'a [u8]) -> Option<Statement<'a>>
    ensures { option_map seen result ≡ option_map kept (segment_said word.now (file.now ∷ [])) }
{
    if !is_file(file) {
        return None;
    }
    let Some(size) = number(word) else {
        return None;
    };
    Some(Statement::Segment(size, file))
}

// segment SIZE [FILE]
#[tactic(auto, unfolding(crate::specs::Statements::segment_said))]
fn segment<'a>(word: &[u8], rest: &'a [u8]) -> Option<Statement<'a>>
    ensures { option_map seen result ≡ option_map kept (segment_said word.now (words_of rest.now)) }
{
    match first_word(rest) {
        None => plain_segment(word),
        Some((file, rest)) => {
            if has_words(rest) {
                None
            } else {
                named_segment(word, file)
            }
        }
    }
}

// Four words, and no further one.
fn four_words(line: &[u8]) -> Option<(&[u8], &[u8], &[u8], &[u8])>
    ensures { MatchOption result (length (words_of line.now) ≢ 4)
        (λ w. words_of line.now ≡ w.0.now ∷ w.1.now ∷ w.2.now ∷ w.3.now ∷ []) }
{
    let Some((first, rest)) = first_word(line) else {
        return None;
    };
    let Some((second, rest)) = first_word(rest) else {
        return None;
    };
    let Some((third, rest)) = first_word(rest) else {
        return None;
    };
    let Some((fourth, rest)) = first_word(rest) else {
        return None;
    };
    if has_words(rest) {
        return None;
    }
    Some((first, second, third, fourth))
}

// FILE lines LIST segments LIST
#[tactic(auto, unfolding(crate::specs::Statements::process_said))]
fn lists<'a>(
    file: &'a [u8],
    first: &[u8],
    lines: &[u8],
    second: &[u8],
    segments: &[u8],
) -> Option<Statement<'a>>
    ensures { option_map seen result
        ≡ option_map kept (process_said file.now (first.now ∷ lines.now ∷ second.now ∷ segments.now ∷ [])) }
{
    if !is_file(file) || !is_word(first, b"lines") || !is_word(second, b"segments") {
        return None;
    }
    let Some(lines) = number_list(lines) else {
        return None;
    };
    let Some(segments) = number_list(segments) else {
        return None;
    };
    Some(Statement::Process(file, lines, segments))
}

// process FILE lines LIST segments LIST
#[tactic(auto, unfolding(crate::specs::Statements::process_said), using(crate::proofs::Forms::process_said_none))]
fn process<'a>(file: &'a [u8], rest: &[u8]) -> Option<Statement<'a>>
    ensures { option_map seen result ≡ option_map kept (process_said file.now (words_of rest.now)) }
{
    match four_words(rest) {
        None => None,
        Some((first, lines_list, second, segments_list)) => {
            lists(file, first, lines_list, second, segments_list)
        }
    }
}

/// What a line says that begins with a word, if it is one of the forms.
#[tactic(auto, unfolding(crate::specs::Statements::said))]
pub fn said<'a>(key: &[u8], rest: &'a [u8]) -> Option<Statement<'a>>
    ensures { option_map seen result ≡ option_map kept (said (key.now ∷ words_of rest.now)) }
{
    match first_word(rest) {
        None => None,
        Some((word, rest)) => {
            if is_word(key, b"process") {
                process(word, rest)
            } else if is_word(key, b"segment") {
                segment(word, rest)
            } else {
                first_line(key, word, rest)
            }
        }
    }
}
