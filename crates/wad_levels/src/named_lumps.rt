//! Names in capitals, and the lumps that have a name.
ghost use Rattle.std.specs.Prelude.{◌≡◌};
ghost use Rattle.std.specs.Char.{to_ascii_uppercase};
ghost use Rattle.wad_levels.specs.NamedLumps.{capital_name, lump_of_name, stands_inside};

use lump_records::Name8;
use wad_file::Wad;

/// The name in capitals, padded with NUL.
pub(crate) fn capital_name(name: Name8) -> Name8
    ensures { result ≡ capital_name name }
{
    let padded = Name8::from_text(name.text());
    Name8 {
        bytes: padded.bytes.map(|byte| byte.to_ascii_uppercase()),
    }
}

/// Whether the last lump with the name, if there is one, lies inside the file.
pub(crate) fn stands_inside(wad: &Wad<'_>, name: &[u8]) -> bool
    ensures { result ≡ stands_inside wad.now name.now }
{
    match wad.last_named(name) {
        Some(k) => !wad.is_outside(wad.entry(k)),
        None => true,
    }
}

/// The bytes of the last lump with the name, or none.
pub(crate) fn lump_of_name<'a>(wad: &Wad<'a>, name: &[u8]) -> &'a [u8]
    ensures { result.now ≡ lump_of_name wad.now name.now }
{
    match wad.last_named(name) {
        Some(k) => wad.standing(k),
        None => &[],
    }
}
