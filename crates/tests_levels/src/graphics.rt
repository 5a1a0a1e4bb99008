//! A WAD's flats and textures.

use crate::wads::{bytes_of, wad_of};
use lump_records::Name8;
use lump_textures::Texture;
use std::alloc::Global;
use std::io::Write;
use std::test::Fail;
use tests_rows::{expect_rows, number, part, said};
use wad_levels::graphics_in;

// TWO is TEXTURE1 with two textures, at offsets 12 and 34, of 72 and of 128 rows. The second name is in small letters,
// with bytes after its NUL. ONE is one texture, at offset 8; PAST the same with its last byte outside the lump; and CUT
// a list without its second offset.
// Then one texture, 8 columns wide, with two patches, numbers 0 and 0, at column 0 and at column 4 if it is APART; at
// column 3 if it is SHARED; at 8 and 9, where the texture has ended, BEHIND; at -4 and -1, BEFORE; at column 3 with
// number 1, MISSING; the same with number 2, UNNAMED; and CUT_PATCH is the one at column 3 without its last byte.
// PATCHES are names of two patches, BARS in small letters, and NONE; and LISTED without the last byte of the second.
const VALUES: &str = "TWO|2 0 12 0 34 0 BRICK1 0 0 64 72 0 0 0 'step2\0xx 0 0 32 128 0 0 0\n\
    ONE|1 0 8 0 SKY4 0 0 256 128 0 0 0\n\
    PAST|1 0 9 0 SKY4 0 0 256 128 0 0 0\n\
    CUT|2 0 8 0\n\
    APART|1 0 8 0 GRATE 0 0 8 72 0 0 2 0 0 0 1 0 4 0 0 1 0\n\
    SHARED|1 0 8 0 GRATE 0 0 8 72 0 0 2 0 0 0 1 0 3 0 0 1 0\n\
    BEHIND|1 0 8 0 GRATE 0 0 8 72 0 0 2 8 0 0 1 0 9 0 0 1 0\n\
    BEFORE|1 0 8 0 GRATE 0 0 8 72 0 0 2 65532 0 0 1 0 65535 0 0 1 0\n\
    MISSING|1 0 8 0 GRATE 0 0 8 72 0 0 2 0 0 0 1 0 3 0 1 1 0\n\
    UNNAMED|1 0 8 0 GRATE 0 0 8 72 0 0 2 0 0 0 1 0 3 0 2 1 0\n\
    CUT_PATCH|1 0 8 0 GRATE 0 0 8 72 0 0 2 0 0 0 1 0 3 0 0 1 '\0\n\
    PATCHES|2 0 bars NONE\n\
    LISTED|2 0 BARS 'BARS\0\0\0";

// The lumps of a WAD; and the names of its flats, then those of its textures with their rows, each followed by a space,
// and by `patched` if patches of the texture share a column; or the refusal's number.
const NAMED: &str = "|; \n\
    BEFORE 'x;F_START;F1_START;FLOOR4_8 'x;F1_END;ceil3_5 'x;F_END;AFTER 'x;F_START;NUKAGE1 'x|\
    FLOOR4_8 CEIL3_5 NUKAGE1 ; \n\
    TEXTURE1 TWO;TEXTURE2 ONE|; BRICK1 72 STEP2 128 SKY4 128 \n\
    TEXTURE2 TWO;TEXTURE1 CUT;TEXTURE1 ONE|; SKY4 128 BRICK1 72 STEP2 128 \n\
    TEXTURE1;TEXTURE2 0 0|; \n\
    TEXTURE1 APART;PNAMES PATCHES;BARS 4|; GRATE 72 \n\
    TEXTURE1 SHARED;PNAMES PATCHES;BARS 4|; GRATE 72 patched \n\
    TEXTURE2 SHARED;PNAMES PATCHES;Bars\0x 4 'xx|; GRATE 72 patched \n\
    TEXTURE1 APART;PNAMES PATCHES;BARS 4;BARS 5|; GRATE 72 patched \n\
    TEXTURE1 APART;PNAMES PATCHES;BARS 5;BARS 4|; GRATE 72 \n\
    TEXTURE1 BEHIND;PNAMES PATCHES;BARS 4|; GRATE 72 \n\
    TEXTURE1 BEFORE;PNAMES PATCHES;BARS 4|; GRATE 72 \n\
    TEXTURE1 BEFORE;PNAMES PATCHES;BARS 5|; GRATE 72 patched \n\
    TEXTURE1 MISSING;PNAMES PATCHES;BARS 4|; GRATE 72 \n\
    TEXTURE1 UNNAMED;PNAMES PATCHES;BARS 4|; GRATE 72 \n\
    TEXTURE1 MISSING;PNAMES LISTED;BARS 4|; GRATE 72 \n\
    TEXTURE1 CUT_PATCH;PNAMES PATCHES;BARS 4|; GRATE 72 \n\
    TEXTURE1 SHARED;PNAMES PATCHES;BARS '\x04|; GRATE 72 \n\
    TEXTURE1 SHARED;PNAMES PATCHES;BARS 65535|; GRATE 72 \n\
    TEXTURE1 SHARED;PNAMES '\x02;BARS 4|; GRATE 72 \n\
    TEXTURE1 SHARED;BARS 4|; GRATE 72 \n\
    TEXTURE1 PAST|76\nTEXTURE1 CUT|76\nTEXTURE2 '\0\0\0|76";

// Bytes that are refused, and the refusal's number: a lump of 100 bytes in a file of 28, a directory beyond the file,
// and bytes that are no WAD.
const REFUSED: &str =
    "'IWAD 1 0 12 0 12 0 100 0 TEXTURE1|74\n'IWAD 1 0 12 0|71\n'PWAD 0 0 12 '\0|70";

// How many textures, all in the same bytes, how many columns and patches each has, and the refusal's number: at each
// limit, and one texture more or eight columns more. The lump of the first has 30 bytes, that of the third 710.
const CROWDED: &str =
    "1 3967 0|None\n1 3968 0|Some(76)\n71 8 40|None\n72 8 40|Some(76)\n0 0 40|None";

// Appends the names, each followed by a space.
fn put(names: &[Name8], text: &mut Vec<u8>) -> Result<(), Fail> {
    for name in names {
        text.extend_from_slice(name.text())?;
        text.push(b' ')?;
    }
    Ok(())
}

// Appends the textures: the name and the rows of each, each followed by a space, and whether patches share a column.
fn put_textures(textures: &[Texture], text: &mut Vec<u8>) -> Result<(), Fail> {
    for texture in textures {
        put(&[texture.name], text)?;
        let patched = if texture.is_patched { "patched " } else { "" };
        write!(text, "{} {patched}", texture.height)?;
    }
    Ok(())
}

// The names of flats, then the textures, or the refusal's number.
fn named(alloc: Global, wad: &[u8]) -> Result<String, Fail> {
    let mut text = Vec::new(alloc);
    match graphics_in(alloc, wad) {
        Ok(graphics) => {
            put(&graphics.flats, &mut text)?;
            text.extend_from_slice(b"; ")?;
            put_textures(&graphics.textures, &mut text)?;
        }
        Err(error) => write!(text, "{}", error.code())?,
    }
    Ok(String::from_utf8(text)?)
}

#[test]
fn names_flats_and_textures(rt: HostRuntime) -> Result<(), Fail> {
    expect_rows(rt.alloc(), NAMED, |alloc, lumps| {
        named(alloc, &wad_of(alloc, VALUES, lumps)?)
    })
}

#[test]
fn refuses_bytes_without_names(rt: HostRuntime) -> Result<(), Fail> {
    expect_rows(rt.alloc(), REFUSED, |alloc, bytes| {
        named(alloc, &bytes_of(alloc, bytes)?)
    })
}

// The lump of so many textures that stand in the same bytes, with so many columns and patches each.
fn texture_list(alloc: Global, row: &str) -> Result<String, Fail> {
    let mut left = row;
    let count = number(&mut left);
    let place = count.wrapping_mul(4).wrapping_add(4);
    let mut text = format!(in alloc; "TEXTURE2 {count} 0")?;
    for _ in 0..count {
        write!(text, " {place} 0")?;
    }
    let columns = part(&mut left, ' ');
    write!(text, " GRATE 0 0 {columns} 72 0 0 {left}")?;
    for _ in 0..number(&mut left) {
        text.push_str(" 0 0 0 0 0")?;
    }
    Ok(text)
}

// Whether a WAD of this lump alone is refused.
fn refused(alloc: Global, lump: &str) -> Result<String, Fail> {
    let wad = wad_of(alloc, "", lump)?;
    let code = graphics_in(alloc, &wad).err().map(|error| error.code());
    said(alloc, &code)
}

#[test]
fn refuses_crowded_lists_of_textures(rt: HostRuntime) -> Result<(), Fail> {
    expect_rows(rt.alloc(), CROWDED, |alloc, row| {
        refused(alloc, texture_list(alloc, row)?.as_str())
    })
}
