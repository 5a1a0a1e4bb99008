//! Tables of tests: a text of rows, each of which has what it asks before a mark, and what is wanted behind it. Each
//! literal lengthens the proof of the test that reads it, so a table is one. A row is a line with a `|`; in a table of
//! scripts, whose rows have lines of their own, it ends before a `^`, and `~` is its mark.

use std::alloc::Global;
use std::fmt::Debug;
use std::test::Fail;

// What divides a table into its rows, and a row into its halves.
#[derive(Clone, Copy)]
struct Marks {
    row: char,
    half: char,
}

// Those of a table with a row on each line.
const LINES: Marks = Marks {
    row: '\n',
    half: '|',
};

// Those of a table of scripts.
const SCRIPTS: Marks = Marks {
    row: '^',
    half: '~',
};

// What a row asks, and what is wanted.
fn halves_of(marks: Marks, row: &str) -> (&str, &str) {
    row.split_once(marks.half).unwrap_or((row, ""))
}

// What a table of names has for this name; any other text stands for itself.
fn meant_in<'a>(marks: Marks, table: &'a str, text: &'a str) -> &'a str {
    for row in table.split(marks.row) {
        let (name, meaning) = halves_of(marks, row);
        if name == text {
            return meaning;
        }
    }
    text
}

// Each row of a table is answered with its second half.
fn expect_table<F: Fn(Global, &str) -> Result<String, Fail>>(
    alloc: Global,
    marks: Marks,
    rows: &str,
    answer: F,
) -> Result<(), Fail>
    requires { F.IsAlwaysCallable answer }
{
    for row in rows.split(marks.row) {
        let (asked, wanted) = halves_of(marks, row);
        let found = answer(alloc, asked)?;
        expect_text(row, found.as_str(), wanted)?;
    }
    Ok(())
}

/// What a row asks, and what is wanted.
pub fn halves(row: &str) -> (&str, &str) {
    halves_of(LINES, row)
}

/// What a row of a table of scripts asks, and what is wanted.
pub fn script_halves(row: &str) -> (&str, &str) {
    halves_of(SCRIPTS, row)
}

/// What a table of names has for this name; any other text stands for itself.
pub fn meant<'a>(table: &'a str, text: &'a str) -> &'a str {
    meant_in(LINES, table, text)
}

/// The same in a table of scripts.
pub fn script_meant<'a>(table: &'a str, text: &'a str) -> &'a str {
    meant_in(SCRIPTS, table, text)
}

/// The part of a row before the next `mark`, or all of it; what stands behind the mark is left.
pub fn part<'a>(left: &mut &'a str, mark: char) -> &'a str {
    let (part, rest) = left.split_once(mark).unwrap_or((*left, ""));
    *left = rest;
    part
}

/// The next word of a row as a number; the greatest one if it is none.
pub fn number(left: &mut &str) -> u32 {
    part(left, ' ').parse::<u32>().unwrap_or(u32::MAX)
}

/// The `Debug` text of a value.
pub fn said<T: Debug>(alloc: Global, value: &T) -> Result<String, Fail> {
    Ok(format!(in alloc; "{value:?}")?)
}

/// Fails with the row if the text that was found isn't the one that is wanted.
pub fn expect_text(row: &str, found: &str, wanted: &str) -> Result<(), Fail> {
    if found == wanted {
        return Ok(());
    }
    Err(Fail::new(format_args!("{row}: found {found}")))
}

/// Each row of a table is answered with its second half.
pub fn expect_rows<F: Fn(Global, &str) -> Result<String, Fail>>(
    alloc: Global,
    rows: &str,
    answer: F,
) -> Result<(), Fail>
    requires { F.IsAlwaysCallable answer }
{
    expect_table(alloc, LINES, rows, answer)
}

/// Each row of a table of scripts is answered with its second half.
pub fn expect_scripts<F: Fn(Global, &str) -> Result<String, Fail>>(
    alloc: Global,
    rows: &str,
    answer: F,
) -> Result<(), Fail>
    requires { F.IsAlwaysCallable answer }
{
    expect_table(alloc, SCRIPTS, rows, answer)
}
