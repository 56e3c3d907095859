// The directives.
ghost use Rattle.std.specs.Prelude.{◌≡◌};
ghost use Rattle.seq_source.specs.Forms.{with_one, given, alone_said};
ghost use Rattle.seq_source.specs.Directives.{directive_named, number_in, word_said, byte_said, space_said, size_said, entry_said, directive_said};
ghost use Rattle.seq_source.specs.Operands.{operands_in};
ghost use Rattle.seq_source.specs.Said.{HasWord};

use crate::items::{Item, Said};
use crate::names::is_label;
use crate::numbers::{number_written, wrapped};
use crate::operands::one_operand;

/// A directive.
#[derive(Clone, Copy)]
pub enum Directive {
    Word,
    Byte,
    Space,
    Align,
    Entry,
    Size,
}

/// The directive that a word is.
pub fn directive_named(word: &[u8]) -> Option<Directive>
    ensures { result ≡ directive_named word.now }
{
    if word == b".word".as_slice() {
        Some(Directive::Word)
    } else if word == b".byte".as_slice() {
        Some(Directive::Byte)
    } else if word == b".space".as_slice() {
        Some(Directive::Space)
    } else if word == b".align".as_slice() {
        Some(Directive::Align)
    } else if word == b".entry".as_slice() {
        Some(Directive::Entry)
    } else if word == b".size".as_slice() {
        Some(Directive::Size)
    } else {
        None
    }
}

fn word_said(number: Option<i64>) -> Said
    ensures value { result ≡ given number word_said }
    ensures word { HasWord result }
{
    let Some(number) = number else {
        return Said::BadOperands;
    };
    match wrapped(1 << 31, number) {
        None => Said::OutOfRange,
        Some(word) => Said::Says(Item::Word(word)),
    }
}

fn byte_said(number: Option<i64>) -> Said
    ensures value { result ≡ given number byte_said }
    ensures word { HasWord result }
{
    let Some(number) = number else {
        return Said::BadOperands;
    };
    match wrapped(128, number) {
        None => Said::OutOfRange,
        Some(byte) => Said::Says(Item::Byte(byte as u8)),
    }
}

fn space_said(number: Option<i64>) -> Said
    ensures value { result ≡ given number space_said }
    ensures word { HasWord result }
{
    match number {
        None => Said::BadOperands,
        Some(number) => {
            if number < 0 {
                Said::OutOfRange
            } else {
                Said::Says(Item::Space(number as u64))
            }
        }
    }
}

fn size_said(number: Option<i64>) -> Said
    ensures value { result ≡ given number size_said }
    ensures word { HasWord result }
{
    match number {
        None => Said::BadOperands,
        Some(number) => Said::Says(Item::Size(if number < 0 { 0 } else { number as u64 })),
    }
}

#[tactic(auto, using(crate::proofs::Arities::one_none))]
fn entry_said(text: &[u8]) -> Said
    ensures value { result ≡ with_one entry_said (operands_in text.now) }
    ensures word { HasWord result }
{
    match one_operand(text) {
        Some(name) if is_label(name) => Said::Says(Item::Entry),
        _ => Said::BadOperands,
    }
}

/// A word without operands.
pub fn alone(item: Item, text: &[u8]) -> Said
    requires { HasWord (Said.Says item) }
    ensures value { result ≡ alone_said item text.now }
    ensures word { HasWord result }
{
    if text.is_empty() {
        Said::Says(item)
    } else {
        Said::BadOperands
    }
}

// The number of a text that lists one, and nothing else.
#[tactic(auto, using(crate::proofs::Arities::number_none))]
fn number_in(text: &[u8]) -> Option<i64>
    ensures { result ≡ number_in (operands_in text.now) }
{
    match one_operand(text) {
        None => None,
        Some(operand) => number_written(operand),
    }
}

/// What a directive with these operands says.
#[tactic(auto, unfolding(crate::specs::Directives::directive_said))]
pub fn directive_said(directive: Directive, text: &[u8]) -> Said
    ensures value { result ≡ directive_said directive text.now }
    ensures word { HasWord result }
{
    match directive {
        Directive::Word => word_said(number_in(text)),
        Directive::Byte => byte_said(number_in(text)),
        Directive::Space => space_said(number_in(text)),
        Directive::Align => alone(Item::Align, text),
        Directive::Entry => entry_said(text),
        Directive::Size => size_said(number_in(text)),
    }
}
