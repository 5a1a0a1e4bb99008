//! The names that a caller asks for.
ghost use Rattle.std.specs.Prelude.{◌≡◌, map, string_bytes};
ghost use Rattle.std.specs.List.{list_any};
ghost use Rattle.wad_file.specs.Fields.{same_bytes};
ghost use Rattle.wad_file.specs.Names.{is_asked};

// Whether the text is one of the names.
fn is_among(names: &[String], text: &[u8]) -> bool
    ensures { result ≡ list_any (λ name. same_bytes (string_bytes name) text.now) names.now }
{
    names.iter().any(|name| name.as_bytes() == text)
}

/// Whether the text is asked for: it is one of the names, or there are no names.
pub fn is_asked(names: &[String], text: &[u8]) -> bool
    ensures { result ≡ is_asked (map string_bytes names.now) text.now }
{
    if names.is_empty() {
        return true;
    }
    is_among(names, text)
}
