//! WADs that texts stand for.

use std::alloc::Global;
use std::test::Fail;
use tests_rows::{meant, part};

// A number as 32 bits, little-endian.
fn long(n: usize) -> [u8; 4] {
    ((n % 4_294_967_296) as u32).to_le_bytes()
}

// Appends a name, filled up with NULs to eight bytes.
fn put_name(bytes: &mut Vec<u8>, name: &str) -> Result<(), Fail> {
    for n in 0..8 {
        bytes.push(name.as_bytes().get(n).copied().unwrap_or(0))?;
    }
    Ok(())
}

// Appends characters, each of which is a byte.
fn put_raw(bytes: &mut Vec<u8>, text: &str) -> Result<(), Fail> {
    for character in text.chars() {
        bytes.push(u8::try_from(u32::from(character)).unwrap_or(0))?;
    }
    Ok(())
}

// Appends a word: a number as 16 bits, little-endian; behind a `'` characters as they are; or a name.
fn put_word(bytes: &mut Vec<u8>, word: &str) -> Result<(), Fail> {
    if let Ok(number) = word.parse::<u16>() {
        bytes.extend_from_slice(&number.to_le_bytes())?;
        return Ok(());
    }
    match word.strip_prefix('\'') {
        Some(text) => put_raw(bytes, text),
        None => put_name(bytes, word),
    }
}

// Appends words.
fn put_words(bytes: &mut Vec<u8>, words: &str) -> Result<(), Fail> {
    for word in words.split(' ') {
        if !word.is_empty() {
            put_word(bytes, word)?;
        }
    }
    Ok(())
}

// Appends words, some of which stand for what a table has for them.
fn put_meant(bytes: &mut Vec<u8>, table: &str, words: &str) -> Result<(), Fail> {
    for word in words.split(' ') {
        put_words(bytes, meant(table, word))?;
    }
    Ok(())
}

/// The bytes of words.
pub fn bytes_of(alloc: Global, words: &str) -> Result<Vec<u8>, Fail> {
    let mut bytes = Vec::new(alloc);
    put_words(&mut bytes, words)?;
    Ok(bytes)
}

// Appends a lump's words, and its entry to the directory.
fn put_lump(
    bytes: &mut Vec<u8>,
    directory: &mut Vec<u8>,
    table: &str,
    lump: &str,
) -> Result<(), Fail> {
    let mut words = lump;
    let name = part(&mut words, ' ');
    let start = bytes.len();
    put_meant(bytes, table, words)?;
    directory.extend_from_slice(&long(start))?;
    directory.extend_from_slice(&long(bytes.len().wrapping_sub(start)))?;
    put_name(directory, name)
}

// Appends lumps, which `;` divides, and their entries.
fn put_lumps(
    bytes: &mut Vec<u8>,
    directory: &mut Vec<u8>,
    table: &str,
    lumps: &str,
) -> Result<(), Fail> {
    for lump in lumps.split(';') {
        if !lump.is_empty() {
            put_lump(bytes, directory, table, lump)?;
        }
    }
    Ok(())
}

// Writes how many lumps there are and where the directory begins into the head, and appends the directory.
fn finish(bytes: &mut Vec<u8>, directory: &[u8]) -> Result<(), Fail> {
    let place = long(bytes.len());
    let count = long(directory.len() / 16);
    for n in 0..4 {
        if let Some(byte) = bytes.get_mut(4 + n) {
            *byte = count[n];
        }
        if let Some(byte) = bytes.get_mut(8 + n) {
            *byte = place[n];
        }
    }
    bytes.extend_from_slice(directory)?;
    Ok(())
}

/// The WAD with these lumps, which `;` divides. Each has its name and words, of which some stand for what the table has
/// for them.
pub fn wad_of(alloc: Global, table: &str, lumps: &str) -> Result<Vec<u8>, Fail> {
    let mut bytes = Vec::new(alloc);
    let mut directory = Vec::new(alloc);
    put_raw(&mut bytes, "IWAD\0\0\0\0\0\0\0\0")?;
    put_lumps(&mut bytes, &mut directory, table, lumps)?;
    finish(&mut bytes, &directory)?;
    Ok(bytes)
}
