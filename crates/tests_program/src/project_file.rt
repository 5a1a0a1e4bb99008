//! The subcommands over a project file.

use crate::calls::{called, expect_calls, performed, status_of};
use crate::expect::same;
use std::fs;
use std::test::Fail;
use store_disk::{Disk, FileDisk};
use tests_rows::{expect_text, script_halves};
use tests_runs::streams::{Input, Output};

// Calls over a file, which isn't there at first.
const FILE_ROWS: &str = "\
    edit leveled_project_run_file~vertex 0 0\n~1~~leveled: 30 Device\n\
    \x20 leveled_project_run_file: No such file or directory\n  `leveled create FILE` makes a project\n^\
    check leveled_project_run_file~~1~~leveled: 30 Device\n  leveled_project_run_file: No such file or directory\n^\
    dump leveled_project_run_file~~1~~leveled: 30 Device\n  leveled_project_run_file: No such file or directory\n^\
    lint leveled_project_run_file~~1~~leveled: 30 Device\n  leveled_project_run_file: No such file or directory\n^\
    create leveled_project_run_file~~0~created\n~^\
    create leveled_project_run_file~~1~~leveled: 43 NotEmpty\n  leveled_project_run_file: is a project\n^\
    check leveled_project_run_file~~3~no player start\nfindings 1\n~^\
    edit leveled_project_run_file~vertex 0 0\nvertex 128 0\nhex VERTEXES\n~0~ok 0\nok 1\n00 00 00 00 80 00 00 00\n~^\
    edit leveled_project_run_file~vertex 0 0\n~0~no 10\n~^\
    check leveled_project_run_file~~3~vertex 0 unused\nvertex 1 unused\nno player start\nfindings 3\n~^\
    dump leveled_project_run_file~~0~map MAP01\nvertex 0 0\nvertex 128 0\n~^\
    edit leveled_project_run_file~map MAP02\nmaps\n~0~ok 1\n0 MAP01\n1 MAP02\ncurrent 1\n~^\
    dump leveled_project_run_file~~0~map MAP01\nvertex 0 0\nvertex 128 0\nmap MAP02\n~^\
    edit leveled_project_run_file~maps\nbuild\ndrop-map MAP01\nmaps\n~0~0 MAP01\n1 MAP02\ncurrent 1\nno 60\nok 0\n\
    0 MAP02\ncurrent 0\n~";

// How long a file is, opened as a disk.
fn length_of(rt: &HostRuntime, path: &str) -> Result<u64, Fail> {
    let mut disk = FileDisk::open(rt, path, false)?;
    Ok(disk.len()?)
}

#[test]
fn makes_edits_and_checks_a_file(rt: HostRuntime) -> Result<(), Fail> {
    let path = "leveled_project_run_file";
    let _ = fs::remove_file(&rt, path);
    expect_calls(&rt, FILE_ROWS)?;
    let length = length_of(&rt, path)?;
    assert_eq!(rt; length, 589_841);
    fs::remove_file(&rt, path)?;
    Ok(())
}

// Calls over a file that isn't there.
const NO_CREATE: &str = "\
    edit leveled_project_run_missing;check leveled_project_run_missing;lint leveled_project_run_missing;\
    dump leveled_project_run_missing";

#[test]
fn makes_no_file_but_by_create(rt: HostRuntime) -> Result<(), Fail> {
    let path = "leveled_project_run_missing";
    let _ = fs::remove_file(&rt, path);
    for words in NO_CREATE.split(';') {
        let (found, _, _) = performed(&rt, words, b"")?;
        let is_none = FileDisk::open(&rt, path, false).is_err();
        same(&rt, &(words, found, is_none), &(words, 1, true));
    }
    Ok(())
}

// If `created` can't be written, the file stays.
#[test]
fn makes_a_file_that_it_could_not_tell_of(rt: HostRuntime) -> Result<(), Fail> {
    let path = "leveled_project_run_untold";
    let _ = fs::remove_file(&rt, path);
    let words = ["leveled", "create", path];
    let mut narrow = Output::of(rt.alloc(), 3);
    let (found, faults) = status_of(&rt, &words, &mut Input::of(b""), &mut narrow);
    let said = b"leveled: 38 WriterFailed\n".as_slice();
    same(&rt, &(found, faults.as_slice()), &(1, said));
    let (found, _, _) = performed(&rt, "edit leveled_project_run_untold", b"count")?;
    same(&rt, &found, &0);
    fs::remove_file(&rt, path)?;
    Ok(())
}

// An offset in the file of a project with one vertex, the bytes that are put there, and what `edit` then prints to
// standard error.
const DAMAGE: &str = "\
    158 !~leveled: 40 Damaged at 144\n^\
    16 \0~leveled: 41 Blank\n^\
    8  ~leveled: 44 BadGeometry\n^\
    0 P~leveled: 42 NotAProject\n  leveled_project_run_damaged: is no project, no WAD and no text\n";

// Makes the file of a small project with one vertex, and returns the output.
fn make_small(rt: &HostRuntime) -> Result<Vec<u8>, Fail> {
    let words = "create leveled_project_run_damaged --slot 64 --journal 512";
    let (_, mut out, _) = performed(rt, words, b"")?;
    let (_, answers, _) = performed(rt, "edit leveled_project_run_damaged", b"vertex 0 0")?;
    out.extend_from_slice(&answers)?;
    Ok(out)
}

// Puts bytes at an offset of the file.
fn damage(rt: &HostRuntime, at: u64, bytes: &[u8]) -> Result<(), Fail> {
    let mut disk = FileDisk::open(rt, "leveled_project_run_damaged", false)?;
    disk.write_at(at, bytes)?;
    Ok(())
}

// Damages the file as a row says, and calls `edit`, which prints nothing but the row's words to standard error.
fn expect_damage(rt: &HostRuntime, row: &str) -> Result<(), Fail> {
    let (asked, wanted) = script_halves(row);
    let (at, bytes) = asked.split_once(' ').unwrap_or((asked, ""));
    damage(rt, at.parse()?, bytes.as_bytes())?;
    let found = called(rt, "edit leveled_project_run_damaged", b"vertex 1 1")?;
    let wanted = format!(in rt.alloc(); "1~~{wanted}")?;
    expect_text(row, found.as_str(), wanted.as_str())
}

#[test]
fn says_why_a_file_is_no_project(rt: HostRuntime) -> Result<(), Fail> {
    let _ = fs::remove_file(&rt, "leveled_project_run_damaged");
    let made = make_small(&rt)?;
    same(&rt, &made.as_slice(), &b"created\nok 0\n".as_slice());
    for row in DAMAGE.split('^') {
        expect_damage(&rt, row)?;
    }
    fs::remove_file(&rt, "leveled_project_run_damaged")?;
    Ok(())
}
