// The operands of a line.
ghost use Rattle.std.specs.Prelude.{◌≡◌, ◌≢◌, ◌∷◌, [], length, MatchOption};
ghost use Rattle.std.specs.Option.{option_map};
ghost use Rattle.seq_source.specs.Operands.{operands_in, operands_left};

use crate::cutting::without_front;
use seq_text::cut_at;

// The first operand, and what follows its comma.
fn first_operand(text: &[u8]) -> (&[u8], Option<&[u8]>)
    ensures { operands_in text.now ≡ result.0.now ∷ operands_left (option_map (λ rest. rest.now) result.1) }
{
    let (first, behind) = cut_at(b',', text);
    (without_front(first), behind)
}

/// The operand of a text that lists one.
#[tactic(auto, using(crate::proofs::Listed::operands_some))]
pub fn one_operand(text: &[u8]) -> Option<&[u8]>
    ensures { MatchOption result (length (operands_in text.now) ≢ 1) (λ a. operands_in text.now ≡ a.now ∷ []) }
{
    let (a, behind) = first_operand(text);
    match behind {
        None => Some(a),
        Some(_) => None,
    }
}

/// The operands of a text that lists two.
pub fn two_operands(text: &[u8]) -> Option<(&[u8], &[u8])>
    ensures { MatchOption result (length (operands_in text.now) ≢ 2)
        (λ p. operands_in text.now ≡ p.0.now ∷ p.1.now ∷ []) }
{
    let (a, behind) = first_operand(text);
    let Some(rest) = behind else {
        return None;
    };
    let Some(b) = one_operand(rest) else {
        return None;
    };
    Some((a, b))
}

/// The operands of a text that lists three.
pub fn three_operands(text: &[u8]) -> Option<(&[u8], &[u8], &[u8])>
    ensures { MatchOption result (length (operands_in text.now) ≢ 3)
        (λ p. operands_in text.now ≡ p.0.now ∷ p.1.now ∷ p.2.now ∷ []) }
{
    let (a, behind) = first_operand(text);
    let Some(rest) = behind else {
        return None;
    };
    let Some((b, c)) = two_operands(rest) else {
        return None;
    };
    Some((a, b, c))
}
