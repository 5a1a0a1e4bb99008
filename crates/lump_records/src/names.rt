//! Which texts are names of textures and flats, and which are names of maps.
ghost use Rattle.std.specs.Prelude.{◌≡◌, ◌&&◌, nat_le, length};
ghost use Rattle.std.specs.List.{list_all};
ghost use Rattle.lump_records.specs.Names.{is_name, is_marker, is_name_byte};

/// Whether the text is a name of a texture or a flat: one to eight bytes of `A` to `Z`, `0` to `9`,
/// `_`, `-`, `[`, `]` and `\`.
pub fn is_name(text: &[u8]) -> bool
    ensures { result ≡ is_name text.now }
{
    has_name_length(text) && are_name_bytes(text)
}

/// Whether the text is a name of a map: `E1M1` to `E9M9`, or `MAP01` to `MAP99`.
pub fn is_marker(text: &[u8]) -> bool
    ensures { result ≡ is_marker text.now }
{
    match text {
        [b'E', b'1'..=b'9', b'M', b'1'..=b'9'] => true,
        [b'M', b'A', b'P', b'0', b'0'] => false,
        [b'M', b'A', b'P', b'0'..=b'9', b'0'..=b'9'] => true,
        _ => false,
    }
}

// Whether the text is one to eight bytes long.
fn has_name_length(text: &[u8]) -> bool
    ensures { result ≡ (nat_le 1 (length text.now) && nat_le (length text.now) 8) }
{
    1 <= text.len() && text.len() <= 8
}

// Whether a name may contain each of the bytes.
fn are_name_bytes(text: &[u8]) -> bool
    ensures { result ≡ list_all is_name_byte text.now }
{
    text.iter().all(|byte| is_name_byte(*byte))
}

// Whether a name may contain the byte.
fn is_name_byte(byte: u8) -> bool
    ensures { result ≡ is_name_byte byte }
{
    matches!(byte, b'A'..=b'Z' | b'0'..=b'9' | b'_' | b'-' | b'[' | b']' | b'\\')
}
