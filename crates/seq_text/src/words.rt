ghost use Rattle.std.specs.Prelude.{◌≡◌, ◌≤◌, ◌+◌, ◌<◌, ◌∷◌, [], not, length, position, IfSome, MatchOption};
ghost use Rattle.seq_text.specs.Words.{is_blank, words_of};

fn is_blank(byte: u8) -> bool
    ensures { result ≡ is_blank byte }
{
    byte == b' ' || byte == b'\t'
}

fn word_start(line: &[u8]) -> Option<usize>
    ensures value { result ≡ position (λ byte. not (is_blank byte)) line.now }
    ensures bound { IfSome result (λ at. at < length line.now) }
{
    line.iter().position(|byte| !is_blank(*byte))
}

fn blank(line: &[u8]) -> Option<usize>
    ensures value { result ≡ position (λ byte. is_blank byte) line.now }
    ensures bound { IfSome result (λ at. at < length line.now) }
{
    line.iter().position(|byte| is_blank(*byte))
}

/// The first word of a line, and what follows it. There is none where the line has no word.
pub fn first_word(line: &[u8]) -> Option<(&[u8], &[u8])>
    ensures words { MatchOption result (words_of line.now ≡ [])
        (λ found. words_of line.now ≡ found.0.now ∷ words_of found.1.now) }
    ensures shorter { IfSome result (λ found. length found.1.now < length line.now) }
{
    let start = word_start(line)?;
    let (_, rest) = line.split_at(start);
    let end = blank(rest).unwrap_or(rest.len());
    Some(rest.split_at(end))
}
