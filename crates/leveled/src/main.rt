//! The program `leveled`: passes its arguments to `request`, and the request to `perform` or `perform_typed`.
#![tactic(auto)]

ghost use Rattle.std.specs.Prelude.{◌≡◌, ◌≤◌, IsTrue, MatchResult, map};
ghost use Rattle.leveled.specs.Answers.{AsksForHelp, EndsWords, IsAnswered, IsDoneAnyway};

mod finding;
mod output;

use crate::finding::with_found;
use crate::output::NotedOutput;
use clap::Error;
use clap::error::ErrorKind;
use cli_files::{Cause, Content, NotedFile, content_in, write_cause};
use cli_program::{perform, perform_typed, takes_lines};
use cli_words::{CODES, RULE_WORDS, Request, RequestError, SCRIPTS, Topic, request};
use lump_text::write_shown_lines;
use std::cell::Cell;
use std::env::{self, Env, FillError};
use std::fs::{self, File};
use std::io::{self, BufWriter, IsTerminal, Read, Write};
use std::process::ExitCode;
use store_disk::{Disk, FileDisk};

// The status of a request that was done.
const DONE: u8 = 0;

// The status of a request that was refused.
const REFUSED: u8 = 1;

// The status of arguments that are no request.
const NO_REQUEST: u8 = 2;

// How deep the stack may get in a build of a project or a rebuild, in bytes. The deepest was 148 KB, where a build
// follows a path of 1,020 nodes.
const BUILD_DEPTH: usize = 200_000;

// How deep it may get in any request, in bytes. The deepest was 687 KB, where `draw` tells a script's refused lines.
const DEPTH: usize = 1_000_000;

// Touches the stack as deep as a build may get, so that the system hands out its pages now, or ends the program before
// it has done anything. Where memory ends later, an allocation is refused (31), and no call lacks a page. No compiler
// knows that no byte of the array is written, so none leaves it out.
#[inline(never)]
fn touch_stack(rt: &HostRuntime) {
    let pages = [0; BUILD_DEPTH];
    let _ = rt.stderr().write(&pages[..0]);
}

// The same, as deep as any request may get.
#[inline(never)]
fn touch_deep_stack(rt: &HostRuntime) {
    let pages = [0; DEPTH];
    let _ = rt.stderr().write(&pages[..0]);
}

// Whether a regular file at the path holds a project.
fn holds_project(rt: &HostRuntime, path: &str) -> bool {
    match fs::metadata(rt, path) {
        Ok(facts) if facts.is_file() => {}
        _ => return false,
    }
    match fs::open(rt, path) {
        Ok(file) => matches!(content_in(&file), Ok(Content::Project)),
        Err(_) => false,
    }
}

// Touches the stack as deep as the request may get, unless it is a build of a project or a rebuild.
fn ready_stack(rt: &HostRuntime, request: &Request) {
    let is_shallow = match request {
        Request::Build { file, .. } => holds_project(rt, file.as_str()),
        Request::Rebuild { .. } => true,
        _ => false,
    };
    if !is_shallow {
        touch_deep_stack(rt);
    }
}

// How large a block is allocated and given back at the start, in bytes.
const KEPT: usize = 8_000_000;

// Allocates a large block, and gives it back untouched. glibc asks the system anew for each block that is larger than
// all that were given back before, and clears its pages; smaller ones it takes from a heap, which it keeps. No compiler
// knows that no byte of the block is read, so none leaves it out. Without memory for it all goes on as before.
#[inline(never)]
fn keep_heap(rt: &HostRuntime) {
    if let Ok(block) = Vec::<u8>::with_capacity(rt.alloc(), KEPT) {
        let _ = rt.stderr().write(&block);
    }
}

// Reports lack of memory. If standard error can't be written, that is ignored.
fn complain_of_memory(rt: &HostRuntime) {
    let _ = eprintln!(rt; "leveled: 31 Memory");
}

// The position of the first argument that isn't UTF-8; the program's name is at 0. An argument of more than 4,096
// bytes ends the search.
fn place_of_no_text(rt: &HostRuntime) -> Option<usize> {
    let mut bytes = [0; 4096];
    for place in 0..usize::MAX {
        match rt.arg(place, &mut bytes) {
            Ok(len) => {
                if str::from_utf8(&bytes[..len]).is_err() {
                    return Some(place);
                }
            }
            Err(FillError::NotPresent) | Err(FillError::TooLong) => return None,
        }
    }
    None
}

// Reports why the arguments can't be read, and returns the status.
fn refuse_unread(rt: &HostRuntime, error: &io::Error) -> u8
    ensures { result ≤ 2 }
{
    if error.kind() == io::ErrorKind::OutOfMemory {
        complain_of_memory(rt);
        return REFUSED;
    }
    let _ = match place_of_no_text(rt) {
        Some(place) => eprintln!(rt; "leveled: word {place} is no text"),
        None => eprintln!(rt; "leveled: a word is no text"),
    };
    NO_REQUEST
}

// Reports why standard output can't be written.
fn complain_of_output(rt: &HostRuntime, error: io::Error) {
    let cause = Cause::System(error);
    let _ = write_cause(rt.alloc(), "standard output", &cause, &mut rt.stderr());
}

// The status after an attempt to print to standard output what the arguments ask for.
fn after_printing(rt: &HostRuntime, printed: io::Result<()>) -> u8
    ensures { MatchResult printed (λ _. result ≡ 0) (λ _. result ≡ 1) }
{
    match printed {
        Ok(()) => DONE,
        Err(error) => {
            let _ = eprintln!(rt; "leveled: 38 WriterFailed");
            complain_of_output(rt, error);
            REFUSED
        }
    }
}

// Reports clap's answer to arguments that are no request. It may have any of their bytes.
fn complain_of_words(rt: &HostRuntime, error: &Error) {
    let Ok(told) = format!(in rt.alloc(); "{error}") else {
        complain_of_memory(rt);
        return;
    };
    let _ = write_shown_lines(told.as_bytes(), &mut rt.stderr());
}

// Prints clap's answer to the arguments, and returns the status. Help and the version are what was asked for, so they
// go to standard output.
fn answer_words(rt: &HostRuntime, error: &Error) -> u8
    ensures help { AsksForHelp error.now → result ≤ 1 }
    ensures other { ¬ AsksForHelp error.now → result ≡ 2 }
{
    if error.kind() == ErrorKind::OutOfMemory {
        complain_of_memory(rt);
        return NO_REQUEST;
    }
    if error.use_stderr() {
        complain_of_words(rt, error);
        return NO_REQUEST;
    }
    after_printing(rt, error.print(rt))
}

// Reports a word that no rule has. It may have any bytes.
fn complain_of_rule(rt: &HostRuntime, error: &RequestError) {
    let Ok(told) = format!(in rt.alloc(); "leveled: {error}; the words are:") else {
        complain_of_memory(rt);
        return;
    };
    let _ = write_shown_lines(told.as_bytes(), &mut rt.stderr());
}

// Reports a text that writes no box. It may have any bytes.
fn complain_of_box(rt: &HostRuntime, error: &RequestError) {
    let Ok(told) = format!(in rt.alloc(); "leveled: {error}") else {
        complain_of_memory(rt);
        return;
    };
    let _ = write_shown_lines(told.as_bytes(), &mut rt.stderr());
}

// Prints the words by which `lint` chooses rules, a line each.
fn print_rule_words(rt: &HostRuntime) {
    for word in RULE_WORDS {
        let _ = eprintln!(rt; "  {word}");
    }
}

// Prints what arguments that are no request ask for, or why they are none, and returns the status.
fn refuse(rt: &HostRuntime, error: &RequestError) -> u8
    ensures small { result ≤ 2 }
    ensures ends { EndsWords error.now result }
{
    match error {
        RequestError::Words(error) => answer_words(rt, error),
        RequestError::Help(Topic::Codes) => after_printing(rt, println!(rt; "{CODES}")),
        RequestError::Help(Topic::Scripts) => after_printing(rt, println!(rt; "{SCRIPTS}")),
        RequestError::Memory => {
            complain_of_memory(rt);
            NO_REQUEST
        }
        RequestError::NotARule(_) => {
            complain_of_rule(rt, error);
            print_rule_words(rt);
            NO_REQUEST
        }
        RequestError::NotABox(_) => {
            complain_of_box(rt, error);
            NO_REQUEST
        }
        RequestError::Number | RequestError::WholeAlone => {
            let _ = eprintln!(rt; "leveled: {error}");
            NO_REQUEST
        }
    }
}

// Whether a person types standard input and sees standard error.
fn is_at_terminal(rt: &HostRuntime) -> bool {
    rt.stdin().is_terminal() && rt.stderr().is_terminal()
}

// Whether a person types standard input and sees standard output.
fn is_typed(rt: &HostRuntime) -> bool {
    rt.stdin().is_terminal() && rt.stdout().is_terminal()
}

// Tells a person at a terminal how to give commands, before the first one is read.
fn greet(rt: &HostRuntime, request: &Request) {
    if !takes_lines(request) || !is_at_terminal(rt) {
        return;
    }
    let _ = if is_typed(rt) {
        eprintln!(rt; "one command a line; help lists them; quit or Ctrl-D ends")
    } else {
        eprintln!(rt; "one command a line; Ctrl-D ends; man leveled")
    };
}

// Does what a request asks for, with standard input, output and error passed in, and returns the status. Lines that a
// person types get help and reasons as well; what a pipe or a file gives or takes is the same each time.
fn done<R: Read, W: Write, F: Write>(
    rt: &HostRuntime,
    request: &Request,
    reader: &mut R,
    writer: &mut W,
    faults: &mut F,
) -> u8
    ensures status { result ≤ 3 }
    ensures done { IsDoneAnyway ⟦<FileDisk<&'static NotedFile<File>> as Disk>⟧ request.now result
        (R.remaining reader.old) (R.remaining reader.new)
        (W.contents writer.old) (W.contents writer.new)
        (F.contents faults.old) (F.contents faults.new) }
{
    if takes_lines(request) && is_typed(rt) {
        return perform_typed(rt, request, reader, writer, faults);
    }
    perform(rt, request, reader, writer, faults)
}

// Does what the arguments ask for, with standard input, output and error passed in, and returns the status: that of
// the request, or that of words which are no request.
fn answer<R: Read, W: Write, F: Write>(
    rt: &HostRuntime,
    words: &[&str],
    reader: &mut R,
    writer: &mut W,
    faults: &mut F,
) -> u8
    ensures status { result ≤ 3 }
    ensures answered { IsAnswered ⟦<FileDisk<&'static NotedFile<File>> as Disk>⟧
        (map (λ w. w.now) words.now) result
        (R.remaining reader.old) (R.remaining reader.new)
        (W.contents writer.old) (W.contents writer.new)
        (F.contents faults.old) (F.contents faults.new) }
{
    match request(rt.alloc(), words) {
        Ok(asked) => {
            let request = with_found(rt, asked);
            ready_stack(rt, &request);
            greet(rt, &request);
            done(rt, &request, reader, writer, faults)
        }
        Err(error) => refuse(rt, &error),
    }
}

// Opens /dev/null three times, for reading only. If a standard stream was closed, this file takes its number, so that
// no file which is opened later does and is then overwritten by answers. The caller must hold the result as long as the
// program runs.
fn fill_closed_streams(rt: &HostRuntime) -> [io::Result<File>; 3] {
    [
        fs::open(rt, "/dev/null"),
        fs::open(rt, "/dev/null"),
        fs::open(rt, "/dev/null"),
    ]
}

// Tells why a request was refused whose answers could not be written.
fn tell_fault(rt: &HostRuntime, status: u8, fault: Option<io::Error>) {
    if status != REFUSED {
        return;
    }
    if let Some(error) = fault {
        complain_of_output(rt, error);
    }
}

// Reads the arguments, does what they ask for, and returns the status.
fn run(rt: &HostRuntime) -> u8
    ensures { result ≤ 3 }
{
    touch_stack(rt);
    keep_heap(rt);
    let _held = fill_closed_streams(rt);
    let read = match env::args(rt) {
        Ok(read) => read,
        Err(error) => return refuse_unread(rt, &error),
    };
    let Ok(words) = read.collect::<Vec<String>>(rt.alloc()) else {
        complain_of_memory(rt);
        return REFUSED;
    };
    let Ok(texts) = words
        .iter()
        .map(|word| word.as_str())
        .collect::<Vec<&str>>(rt.alloc())
    else {
        complain_of_memory(rt);
        return REFUSED;
    };
    let fault = Cell::new(None);
    let output = NotedOutput::new(rt.stdout(), &fault);
    let Ok(mut out) = BufWriter::new(rt.alloc(), output) else {
        complain_of_memory(rt);
        return REFUSED;
    };
    let status = answer(
        rt,
        texts.as_slice(),
        &mut rt.stdin(),
        &mut out,
        &mut rt.stderr(),
    );
    tell_fault(rt, status, fault.get());
    status
}

fn main(rt: HostRuntime) -> ExitCode {
    ExitCode::from(run(&rt))
}
