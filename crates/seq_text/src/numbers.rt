ghost use Rattle.std.specs.Prelude.{◌≡◌, ℕ, Some, IfSome, ◌≤◌, ◌<◌, ◌^◌, ◌==◌, true, not, ◌&&◌, ◌||◌, nat_lt, length};
ghost use Rattle.std.specs.List.{list_all};
ghost use Rattle.std.specs.Option.{option_map};
ghost use Rattle.std.specs.Str.Parse.{digits_value};
ghost use Rattle.seq_text.specs.Numbers.{is_digit, is_number, number_of, capped};

/// What a number is read as that has more than 64 bits. It is out of every limit.
pub const TOO_LARGE: u128 = 1 << 64;

// The most digits of a number of 64 bits.
const DIGITS: usize = 20;

fn is_digit(byte: u8) -> bool
    ensures { result ≡ is_digit byte }
{
    byte.is_ascii_digit()
}

fn are_digits(word: &[u8]) -> bool
    ensures { result ≡ list_all is_digit word.now }
{
    word.iter().all(|byte| is_digit(*byte))
}

fn is_number(word: &[u8]) -> bool
    ensures { result ≡ is_number word.now }
{
    are_digits(word) && !word.is_empty() && (word.len() < 2 || word[0] != b'0')
}

fn value(word: &[u8]) -> u128
    requires digits { is_number word.now ≡ true }
    requires few { length word.now < 21 }
    ensures value { result ≡ digits_value 10 word.now }
    ensures small { result < 10 ^ 20 }
{
    let mut value = 0;
    for byte in word {
        value = value * 10 + u128::from(*byte - b'0');
    }
    value
}

/// The number that a word writes in decimal digits, without sign and without leading zeros, however many there are. Each
/// number of 64 bits is read as it is.
pub fn number(word: &[u8]) -> Option<u128>
    ensures value { result ≡ option_map capped (number_of word.now) }
    ensures small { IfSome result (λ n. n ≤ 2 ^ 64) }
{
    if !is_number(word) {
        None
    } else if word.len() > DIGITS {
        Some(TOO_LARGE)
    } else {
        Some(value(word).min(TOO_LARGE))
    }
}

/// Whether a number is smaller than another, however large they are. It is meant for words that write numbers.
pub fn is_below(a: &[u8], b: &[u8]) -> bool
    ensures { (m n : ℕ) → number_of a.now ≡ Some m → number_of b.now ≡ Some n → result ≡ nat_lt m n }
{
    if a.len() != b.len() {
        return a.len() < b.len();
    }
    for at in 0..a.len() {
        if a[at] != b[at] {
            return a[at] < b[at];
        }
    }
    false
}
