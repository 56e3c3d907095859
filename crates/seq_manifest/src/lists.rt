ghost use Rattle.std.specs.Prelude.{◌≡◌, ◌<◌, ◌+◌, ◌^◌, ◌&&◌, ◌==◌, Bool, max};
ghost use Rattle.std.specs.List.{slice_split};
ghost use Rattle.std.specs.Option.{option_map};
ghost use Rattle.seq_manifest.specs.Statements.{list_of, numbers_of};
ghost use Rattle.seq_manifest.specs.Kept.{kept_list, with_bit};

use seq_text::{cut_at, is_below, number};

/// A list of numbers, as far as the rules look at it.
#[derive(Clone, Copy)]
pub struct NumberList {
    /// How many numbers there are.
    pub count: usize,
    /// Whether each is below the next.
    pub ascends: bool,
    /// Bit n says that n is there, for n below 16.
    pub mask: u16,
    /// One above the greatest number, as far as it is kept. 0 where there is none.
    pub end: u128,
}

const NO_NUMBER: NumberList = NumberList {
    count: 0,
    ascends: true,
    mask: 0,
    end: 0,
};

fn with_bit(mask: u16, number: u128) -> u16
    ensures { result ≡ with_bit mask number }
{
    if number < 16 {
        mask | (1 << number)
    } else {
        mask
    }
}

impl NumberList {
    // With one more number at its end, which ascends as it is told.
    fn with(self, number: u128, ascends: bool) -> NumberList
        requires few { self.count + 1 < 2 ^ 64 }
        requires small { number < 2 ^ 127 }
        ensures count { result.count ≡ self.count + 1 }
        ensures ascends { result.ascends ≡ (self.ascends && ascends) }
        ensures mask { result.mask ≡ with_bit self.mask number }
        ensures end { result.end ≡ max self.end (number + 1) }
    {
        NumberList {
            count: self.count + 1,
            ascends: self.ascends && ascends,
            mask: with_bit(self.mask, number),
            end: self.end.max(number + 1),
        }
    }
}

// Numbers between commas.
fn numbers(word: &[u8]) -> Option<NumberList>
    ensures { result ≡ option_map kept_list (numbers_of (slice_split (λ byte. byte == 44) word.now)) }
{
    let (mut part, mut rest) = cut_at(b',', word);
    let mut list = NO_NUMBER.with(number(part)?, true);
    'parts: while let Some(after) = rest {
        let (next, behind) = cut_at(b',', after);
        list = list.with(number(next)?, is_below(part, next));
        part = next;
        rest = behind;
    }
    Some(list)
}

/// The list that a word writes: `-` for none, or numbers between commas.
pub fn number_list(word: &[u8]) -> Option<NumberList>
    ensures { result ≡ option_map kept_list (list_of word.now) }
{
    if word == b"-".as_slice() {
        Some(NO_NUMBER)
    } else {
        numbers(word)
    }
}
