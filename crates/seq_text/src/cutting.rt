ghost use Rattle.std.specs.Prelude.{◌≡◌, ◌≤◌, ◌<◌, ◌==◌, ◌∷◌, length, position, IfSome, None};
ghost use Rattle.std.specs.List.{slice_split};
ghost use Rattle.std.specs.Option.{option_map};
ghost use Rattle.seq_text.specs.Cuts.{parts_behind, left};

fn first_place(byte: u8, text: &[u8]) -> Option<usize>
    ensures value { result ≡ position (λ b. b == byte) text.now }
    ensures bound { IfSome result (λ at. at < length text.now) }
{
    text.iter().position(|b| *b == byte)
}

/// What stands before the first of these bytes, and what follows that byte, if there is one.
pub fn cut_at(byte: u8, text: &[u8]) -> (&[u8], Option<&[u8]>)
    ensures parts { slice_split (λ b. b == byte) text.now ≡
        result.0.now ∷ parts_behind byte (option_map (λ rest. rest.now) result.1) }
    ensures whole { result.1 ≡ None → result.0.now ≡ text.now }
    ensures shorter { left (option_map (λ rest. rest.now) result.1) ≤ length text.now }
{
    match first_place(byte, text) {
        None => (text, None),
        Some(end) => (&text[..end], Some(text.split_at(end + 1).1)),
    }
}
