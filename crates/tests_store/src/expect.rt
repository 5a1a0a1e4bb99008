//! Assertions as functions, and rows of a text. A test with many assertions or rows is proved faster with calls of
//! these than with macros and tables.
ghost use Rattle.std.specs.Prelude.{◌≡◌, true};

use std::alloc::Global;
use std::fmt::Debug;
use std::process::Abort;
use std::test::Fail;
use tests_rows::part;

// Fails the test if what was found isn't what was wanted.
pub fn same<T: PartialEq + Debug>(rt: &impl Abort, found: &T, wanted: &T) {
    assert_eq!(rt; *found, *wanted);
}

// Fails the test if the fact is false.
pub fn holds(rt: &impl Abort, fact: bool)
    ensures { fact ≡ true }
{
    assert!(rt; fact);
}

// The next word of a row, which must be a number.
pub fn number(rt: &impl Abort, left: &mut &str) -> u64 {
    let word = part(left, ' ');
    let read = word.parse::<u64>();
    same(rt, &(word, read.is_ok()), &(word, true));
    read.unwrap_or(0)
}

// The next word of a row, which must be a number of 32 bits.
pub fn small(rt: &impl Abort, left: &mut &str) -> u32 {
    let read = u32::try_from(number(rt, left));
    same(rt, &read.is_ok(), &true);
    read.unwrap_or(0)
}

// Bytes as a row has them: each is a character, of which those from `\u{80}` to `\u{ff}` are a byte too.
pub fn bytes_of(alloc: Global, text: &str) -> Result<Vec<u8>, Fail> {
    let mut bytes = Vec::new(alloc);
    for character in text.chars() {
        bytes.push(u8::try_from(u32::from(character)).unwrap_or(0))?;
    }
    Ok(bytes)
}

// Fails the test if what was found isn't printed as it is wanted in a row.
pub fn told<T: Debug>(
    rt: &impl Abort,
    alloc: Global,
    row: &str,
    found: &T,
    wanted: &str,
) -> Result<(), Fail> {
    let text = format!(in alloc; "{found:?}")?;
    same(rt, &(row, text.as_str()), &(row, wanted));
    Ok(())
}
