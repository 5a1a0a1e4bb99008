//! What the arguments ask for, and what clap answers in place of a request.

use crate::asked::asked;
use crate::words::split;
use std::alloc::Global;
use std::test::Fail;
use tests_rows::{expect_scripts, expect_text, part, script_halves};

// Arguments, and what they ask for. `--salvage` takes no names and no `--exact`.
const REQUESTS: &str = "\
    scratch~scratch^\
    help codes~codes^\
    help scripts~scripts^\
    dump --salvage dumps.lv MAP01~whole alone^\
    dump --salvage --exact dumps.lv~whole alone";

#[test]
fn reads_requests(rt: HostRuntime) -> Result<(), Fail> {
    expect_scripts(rt.alloc(), REQUESTS, |alloc, words| {
        asked(alloc, &split(alloc, words)?)
    })
}

// Arguments, the status with which clap answers them, and a part of its text.
const WORDS: &str = "\
    help~0 Usage: leveled <COMMAND>^\
    help lint~0 Usage: leveled lint [OPTIONS] <FILE>^\
    help bogus~2 unrecognized subcommand 'bogus'^\
    scratch x~2 unexpected argument 'x'^\
    --slot~2 unexpected argument '--slot'^\
    --help~0 Usage: leveled <COMMAND>^\
    --version~0 leveled 1.0.0";

// Clap's answer has the status and a text with the part that are wanted.
fn expect_answer(row: &str, found: &str, wanted: &str) -> Result<(), Fail> {
    let (mut left, mut text) = (wanted, found);
    if part(&mut text, ' ') == part(&mut left, ' ') && text.contains(left) {
        return Ok(());
    }
    expect_text(row, found, wanted)
}

// Clap answers the words of a row as it says.
fn expect_row(alloc: Global, row: &str) -> Result<(), Fail> {
    let (words, wanted) = script_halves(row);
    let found = asked(alloc, &split(alloc, words)?)?;
    expect_answer(row, found.as_str(), wanted)
}

#[test]
fn reads_words(rt: HostRuntime) -> Result<(), Fail> {
    for row in WORDS.split('^') {
        expect_row(rt.alloc(), row)?;
    }
    let found = asked(rt.alloc(), &["leveled"])?;
    expect_answer("no words", found.as_str(), "2 requires a subcommand")
}

// Options of `create`, and what they ask for, or the status if clap refuses them.
const LENGTHS: &str = "\
    --slot 32~2^\
    --slot 33~another request^\
    --slot 2007015~another request^\
    --slot 2007016~2^\
    --slot x~2^\
    --journal 511~2^\
    --journal 512~another request^\
    --journal 1048576~another request^\
    --journal 1048577~2";

// What `create` with this option asks for, or the status.
fn created_with(alloc: Global, option: &str) -> Result<String, Fail> {
    let words = format!(in alloc; "create f {option}")?;
    let found = asked(alloc, &split(alloc, words.as_str())?)?;
    if found.as_str().starts_with("2 ") {
        return Ok(format!(in alloc; "2")?);
    }
    Ok(found)
}

#[test]
fn reads_lengths_within_their_limits(rt: HostRuntime) -> Result<(), Fail> {
    expect_scripts(rt.alloc(), LENGTHS, created_with)
}
