// The bytes of a source: blanks, and those that labels are made of.
ghost use Rattle.std.specs.Prelude.{◌≡◌, ◌&&◌, nat_lt, length, slice_index};
ghost use Rattle.std.specs.List.{list_all};
ghost use Rattle.seq_text.specs.Words.{is_blank};
ghost use Rattle.seq_source.specs.Names.{is_letter, is_label_byte, is_label};

pub fn is_blank(byte: u8) -> bool
    ensures { result ≡ is_blank byte }
{
    byte == b' ' || byte == b'\t'
}

fn is_letter(byte: u8) -> bool
    ensures { result ≡ is_letter byte }
{
    (b'A' <= byte && byte <= b'Z') || (b'a' <= byte && byte <= b'z') || byte == b'_'
}

fn is_label_byte(byte: u8) -> bool
    ensures { result ≡ is_label_byte byte }
{
    is_letter(byte) || (b'0' <= byte && byte <= b'9')
}

fn begins_with_letter(name: &[u8]) -> bool
    ensures { result ≡ (nat_lt 0 (length name.now) && is_letter (slice_index name.now 0)) }
{
    !name.is_empty() && is_letter(name[0])
}

fn are_label_bytes(name: &[u8]) -> bool
    ensures { result ≡ list_all is_label_byte name.now }
{
    name.iter().all(|byte| is_label_byte(*byte))
}

/// Whether these bytes are a label: a letter or `_`, and then letters, digits and `_`.
#[tactic(auto, unfolding(crate::specs::Names::is_label))]
pub fn is_label(name: &[u8]) -> bool
    ensures { result ≡ is_label name.now }
{
    begins_with_letter(name) && are_label_bytes(name)
}
