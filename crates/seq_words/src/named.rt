// The names of elements and halves in texts: one table for every reader and every printed text.
ghost use Rattle.std.specs.Prelude.{◌≡◌, ◌∷◌, [], ◌<◌, ◌≤◌, ◌+◌, true, IfSome, Some};
ghost use Rattle.seq_words.specs.Names.{is_digit_below, element_with, element_named, has_name, half_named};

use crate::{Element, Half, Ioe, Me, Pe};

/// The most processors of a machine.
pub const MOST_PROCESSORS: u8 = 8;

/// The most memory elements of a machine.
pub const MOST_MEMORIES: u8 = 8;

/// The most I/O elements of a machine.
pub const MOST_IOS: u8 = 4;

fn is_digit_below(most: u8, digit: u8) -> bool
    requires { most ≤ 10 }
    ensures { result ≡ is_digit_below most digit }
{
    b'0' <= digit && digit < b'0' + most
}

fn element_with(kind: u8, digit: u8) -> Option<Element>
    ensures { result ≡ element_with kind digit }
{
    if kind == b'p' && is_digit_below(MOST_PROCESSORS, digit) {
        Some(Element::Processor(Pe(digit - b'0')))
    } else if kind == b'm' && is_digit_below(MOST_MEMORIES, digit) {
        Some(Element::Memory(Me(digit - b'0')))
    } else if kind == b'i' && is_digit_below(MOST_IOS, digit) {
        Some(Element::Io(Ioe(digit - b'0')))
    } else {
        None
    }
}

/// The element that a word names: `p0` to `p7`, `m0` to `m7` or `i0` to `i3`.
#[tactic(auto, unfolding(crate::specs::Names::element_named))]
pub fn element_named(word: &[u8]) -> Option<Element>
    ensures { result ≡ element_named word.now }
{
    if word.len() == 2 {
        element_with(word[0], word[1])
    } else {
        None
    }
}

/// The name of an element, as `element_named` reads it.
#[tactic(auto, unfolding(crate::specs::Names::element_named))]
pub fn element_name(element: Element) -> [u8; 2]
    requires { has_name element ≡ true }
    ensures { element_named result ≡ Some element }
{
    match element {
        Element::Processor(Pe(number)) => [b'p', b'0' + number],
        Element::Memory(Me(number)) => [b'm', b'0' + number],
        Element::Io(Ioe(number)) => [b'i', b'0' + number],
    }
}

/// The half that a word names: `a` or `b`.
pub fn half_named(word: &[u8]) -> Option<Half>
    ensures { result ≡ half_named word.now }
{
    if word == b"a".as_slice() {
        Some(Half::A)
    } else if word == b"b".as_slice() {
        Some(Half::B)
    } else {
        None
    }
}
