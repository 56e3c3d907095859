// What a line of a schedule says.
ghost use Rattle.std.specs.Prelude.{◌≡◌, ◌≢◌, ◌∷◌, ◌==◌, [], true, false, not, length, slice_index, take, drop, codes, MatchOption, IfOk, OnErr};
ghost use Rattle.std.specs.Str.{bytes_eq};
ghost use Rattle.seq_text.specs.Words.{words_of};
ghost use Rattle.seq_schedule.specs.Said.{with_one, with_two, with_four, turn_said, turns_said, round_said, finish_said, input_said, close_said, hangup_said, fail_said, repair_said, strike_of, upset_said, form_said, taken_said, said, says_bytes};
ghost use Rattle.seq_schedule.specs.Forms.{form_named};
ghost use Rattle.seq_schedule.specs.Numbers.{number_within, mask_of};

use crate::forms::{Form, Gate, form_named, is_taken};
use crate::limits::MOST_TIMES;
use crate::numbers::{bytes_of, line_named, mask_of, number_within};
use crate::script::Script;
use seq_text::first_word;
use seq_words::{Bytes, Element, Event, Half, NoMemory, Pe, element_named, half_named};
use std::alloc::Global;

/// What a line says.
#[derive(Drop)]
pub enum Said {
    /// Nothing: it has no word, or is a comment.
    Passed,
    /// Something that the machine doesn't run yet.
    Unbuilt,
    /// It is none of the forms.
    NoForm,
    /// A number, the hexadecimal digits or a mask are malformed.
    Malformed,
    Says(Script),
}

fn is_comment(word: &[u8]) -> bool
    ensures { result ≡ (slice_index word.now 0 == 35) }
{
    match word {
        [first, ..] => *first == b'#',
        [] => false,
    }
}

fn has_words(line: &[u8]) -> bool
    ensures { result ≡ not (length (words_of line.now) == 0) }
{
    first_word(line).is_some()
}

// One word, and no further one.
fn one_word(line: &[u8]) -> Option<&[u8]>
    ensures { MatchOption result (length (words_of line.now) ≢ 1) (λ w. words_of line.now ≡ w.now ∷ []) }
{
    let Some((word, rest)) = first_word(line) else {
        return None;
    };
    if has_words(rest) {
        return None;
    }
    Some(word)
}

// Two words, and no further one.
fn two_words(line: &[u8]) -> Option<(&[u8], &[u8])>
    ensures { MatchOption result (length (words_of line.now) ≢ 2)
        (λ w. words_of line.now ≡ w.0.now ∷ w.1.now ∷ []) }
{
    let Some((first, rest)) = first_word(line) else {
        return None;
    };
    let Some((second, rest)) = first_word(rest) else {
        return None;
    };
    if has_words(rest) {
        return None;
    }
    Some((first, second))
}

// Four words, and no further one.
fn four_words(line: &[u8]) -> Option<(&[u8], &[u8], &[u8], &[u8])>
    ensures { MatchOption result (length (words_of line.now) ≢ 4)
        (λ w. words_of line.now ≡ w.0.now ∷ w.1.now ∷ w.2.now ∷ w.3.now ∷ []) }
{
    let Some((first, rest)) = first_word(line) else {
        return None;
    };
    let Some((second, rest)) = first_word(rest) else {
        return None;
    };
    let Some((third, rest)) = first_word(rest) else {
        return None;
    };
    let Some((fourth, rest)) = first_word(rest) else {
        return None;
    };
    if has_words(rest) {
        return None;
    }
    Some((first, second, third, fourth))
}

#[tactic(auto, unfolding(crate::specs::Said::turn_said), using(crate::proofs::Arities::one_none))]
fn turn(line: &[u8]) -> Said
    ensures { result ≡ with_one turn_said (words_of line.now) }
{
    let Some(element) = one_word(line) else {
        return Said::NoForm;
    };
    match element_named(element) {
        None => Said::NoForm,
        Some(Element::Processor(pe)) => Said::Says(Script::One(Event::Processor(pe))),
        Some(Element::Memory(_)) => Said::NoForm,
        Some(Element::Io(io)) => Said::Says(Script::One(Event::Io(io))),
    }
}

fn times(word: &[u8]) -> Option<u32>
    ensures { result ≡ number_within 1 10000000 word.now }
{
    match number_within(1, MOST_TIMES, word) {
        None => None,
        Some(number) => Some(number as u32),
    }
}

#[tactic(auto, unfolding(crate::specs::Said::turns_said), using(crate::proofs::Arities::two_none))]
fn turns(line: &[u8]) -> Said
    ensures { result ≡ with_two turns_said (words_of line.now) }
{
    let Some((element, number)) = two_words(line) else {
        return Said::NoForm;
    };
    let Some(element) = element_named(element) else {
        return Said::NoForm;
    };
    match element {
        Element::Processor(_) => {}
        Element::Memory(_) => return Said::NoForm,
        Element::Io(_) => {}
    }
    match times(number) {
        None => Said::Malformed,
        Some(number) => Said::Says(Script::Turns(element, number)),
    }
}

#[tactic(auto, unfolding(crate::specs::Said::round_said), using(crate::proofs::Arities::one_none))]
fn round(line: &[u8]) -> Said
    ensures { result ≡ with_one round_said (words_of line.now) }
{
    let Some(number) = one_word(line) else {
        return Said::NoForm;
    };
    match times(number) {
        None => Said::Malformed,
        Some(number) => Said::Says(Script::Rounds(number)),
    }
}

#[tactic(auto, unfolding(crate::specs::Said::finish_said), using(crate::proofs::Arities::one_none))]
fn finish(line: &[u8]) -> Said
    ensures { result ≡ with_one finish_said (words_of line.now) }
{
    let Some(number) = one_word(line) else {
        return Said::NoForm;
    };
    match times(number) {
        None => Said::Malformed,
        Some(number) => Said::Says(Script::Finish(number)),
    }
}

#[tactic(auto, unfolding(crate::specs::Said::input_said), using(crate::proofs::Arities::two_none))]
fn input(alloc: Global, line: &[u8]) -> Result<Said, NoMemory>
    ensures value { IfOk result (λ s. s ≡ with_two input_said (words_of line.now)) }
    ensures refused { OnErr result (says_bytes (with_two input_said (words_of line.now)) ≡ true) }
{
    let Some((number, digits)) = two_words(line) else {
        return Ok(Said::NoForm);
    };
    let Some(line) = line_named(number) else {
        return Ok(Said::Malformed);
    };
    match bytes_of(alloc, digits)? {
        None => Ok(Said::Malformed),
        Some(bytes) => Ok(Said::Says(Script::Bytes(line, bytes))),
    }
}

#[tactic(auto, unfolding(crate::specs::Said::close_said), using(crate::proofs::Arities::one_none))]
fn close(line: &[u8]) -> Said
    ensures { result ≡ with_one close_said (words_of line.now) }
{
    let Some(number) = one_word(line) else {
        return Said::NoForm;
    };
    match line_named(number) {
        None => Said::Malformed,
        Some(line) => Said::Says(Script::One(Event::Close(line))),
    }
}

#[tactic(auto, unfolding(crate::specs::Said::hangup_said), using(crate::proofs::Arities::one_none))]
fn hangup(line: &[u8]) -> Said
    ensures { result ≡ with_one hangup_said (words_of line.now) }
{
    let Some(number) = one_word(line) else {
        return Said::NoForm;
    };
    match line_named(number) {
        None => Said::Malformed,
        Some(line) => Said::Says(Script::One(Event::Hangup(line))),
    }
}

#[tactic(auto, unfolding(crate::specs::Said::fail_said), using(crate::proofs::Arities::one_none))]
fn fail(line: &[u8]) -> Said
    ensures { result ≡ with_one fail_said (words_of line.now) }
{
    let Some(element) = one_word(line) else {
        return Said::NoForm;
    };
    match element_named(element) {
        None => Said::NoForm,
        Some(element) => Said::Says(Script::One(Event::Fail(element))),
    }
}

#[tactic(auto, unfolding(crate::specs::Said::repair_said), using(crate::proofs::Arities::one_none))]
fn repair(line: &[u8]) -> Said
    ensures { result ≡ with_one repair_said (words_of line.now) }
{
    let Some(element) = one_word(line) else {
        return Said::NoForm;
    };
    match element_named(element) {
        None => Said::NoForm,
        Some(element) => Said::Says(Script::One(Event::Repair(element))),
    }
}

// The mask's digits behind `0x`.
fn mask_digits(word: &[u8]) -> Option<&[u8]>
    ensures { MatchOption result (bytes_eq (take 2 word.now) (codes "0x") ≡ false)
        (λ digits. (bytes_eq (take 2 word.now) (codes "0x") ≡ true) × (digits.now ≡ drop 2 word.now)) }
{
    if word.len() < 2 {
        return None;
    }
    let (front, digits) = word.split_at(2);
    if front == b"0x".as_slice() {
        Some(digits)
    } else {
        None
    }
}

fn strike(pe: Pe, half: Half, register: &[u8], digits: &[u8]) -> Said
    ensures { result ≡ strike_of pe half (number_within 1 32 register.now) (mask_of digits.now) }
{
    let Some(register) = number_within(1, 32, register) else {
        return Said::Malformed;
    };
    match mask_of(digits) {
        None => Said::Malformed,
        Some(mask) => Said::Says(Script::One(Event::Upset(pe, half, register as u8, mask))),
    }
}

#[tactic(auto, unfolding(crate::specs::Said::upset_said))]
fn upset_words(element: &[u8], half: &[u8], register: &[u8], mask: &[u8]) -> Said
    ensures { result ≡ upset_said element.now half.now register.now mask.now }
{
    let Some(digits) = mask_digits(mask) else {
        return Said::NoForm;
    };
    let pe = match element_named(element) {
        None => return Said::NoForm,
        Some(Element::Memory(_)) => return Said::NoForm,
        Some(Element::Io(_)) => return Said::NoForm,
        Some(Element::Processor(pe)) => pe,
    };
    match half_named(half) {
        None => Said::NoForm,
        Some(half) => strike(pe, half, register, digits),
    }
}

#[tactic(auto, using(crate::proofs::Arities::four_none))]
fn upset(line: &[u8]) -> Said
    ensures { result ≡ with_four upset_said (words_of line.now) }
{
    match four_words(line) {
        None => Said::NoForm,
        Some((element, half, register, mask)) => upset_words(element, half, register, mask),
    }
}

// What the words behind the first say in a line of this form.
#[tactic(auto, unfolding(crate::specs::Said::form_said))]
fn form_said(alloc: Global, form: Form, line: &[u8]) -> Result<Said, NoMemory>
    ensures value { IfOk result (λ s. s ≡ form_said form (words_of line.now)) }
    ensures refused { OnErr result (says_bytes (form_said form (words_of line.now)) ≡ true) }
{
    match form {
        Form::Turn => Ok(turn(line)),
        Form::Turns => Ok(turns(line)),
        Form::Round => Ok(round(line)),
        Form::Finish => Ok(finish(line)),
        Form::Input => input(alloc, line),
        Form::Close => Ok(close(line)),
        Form::Fail => Ok(fail(line)),
        Form::Repair => Ok(repair(line)),
        Form::Upset => Ok(upset(line)),
        Form::Hangup => Ok(hangup(line)),
    }
}

fn taken_said(alloc: Global, gate: Gate, key: &[u8], rest: &[u8]) -> Result<Said, NoMemory>
    ensures value { IfOk result (λ s. s ≡ taken_said gate (form_named key.now) (words_of rest.now)) }
    ensures refused { OnErr result (says_bytes (taken_said gate (form_named key.now) (words_of rest.now)) ≡ true) }
{
    match form_named(key) {
        None => Ok(Said::NoForm),
        Some(form) => {
            if is_taken(gate, form) {
                form_said(alloc, form, rest)
            } else {
                Ok(Said::Unbuilt)
            }
        }
    }
}

/// What a line says, where only what the gate lets through is taken.
#[tactic(auto, unfolding(crate::specs::Said::said))]
pub fn read_line(alloc: Global, gate: Gate, line: &[u8]) -> Result<Said, NoMemory>
    ensures value { IfOk result (λ s. s ≡ said gate (words_of line.now)) }

    // Nothing but bytes takes memory.
    ensures refused { OnErr result (says_bytes (said gate (words_of line.now)) ≡ true) }
{
    let Some((key, rest)) = first_word(line) else {
        return Ok(Said::Passed);
    };
    if is_comment(key) {
        return Ok(Said::Passed);
    }
    taken_said(alloc, gate, key, rest)
}
