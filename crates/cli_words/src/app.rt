//! The command line that clap reads: the program and its subcommands.
ghost use Rattle.std.specs.Prelude.{◌≡◌, IfOk, codes};
ghost use Rattle.clap.specs.Words.{App, Rule, app_of, new_app, with_rule, with_subcommand};
ghost use Rattle.cli_words.specs.App.{IsArg, IsCommand, build_app, check_app, create_app, draw_app, dump_app, flag_rule, inspect_app, journal_rule, last_rule, last_words_rule, leveled_app, lint_app, option_rule, path_rule, picture_app, rebuild_app, repeated_rule, slot_rule, with_subcommands, with_one_word, word_rule};

use crate::help;
use clap::{Arg, ArgAction, Command, value_parser};
use std::alloc::{AllocError, Global};

// A required argument, and its name in the help.
fn word<'a>(alloc: Global, id: &'a str, name: &'a str) -> Arg<'a>
    ensures { IsArg result (word_rule id.now) }
{
    Arg::new(alloc, id).required(true).value_name(name)
}

// A subcommand without arguments.
fn named<'a>(alloc: Global, name: &'a str, about: &'a str, help: &'a str) -> Command<'a>
    ensures { IsCommand result (new_app name.now) }
{
    Command::new(alloc, name).about(about).after_help(help)
}

// A subcommand whose first argument is a file.
fn over_file<'a>(
    alloc: Global,
    name: &'a str,
    about: &'a str,
    help: &'a str,
) -> Result<Command<'a>, AllocError>
    ensures { IfOk result (λ c. IsCommand c (with_one_word name.now (codes "file"))) }
{
    named(alloc, name, about, help).arg(word(alloc, "file", "FILE"))
}

// An optional argument, and its name in the help.
fn last_word<'a>(alloc: Global, id: &'a str, name: &'a str) -> Arg<'a>
    ensures { IsArg result (last_rule id.now) }
{
    Arg::new(alloc, id).value_name(name)
}

// Any number of arguments at the end, and their name in the help.
fn last_words<'a>(alloc: Global, id: &'a str, name: &'a str) -> Arg<'a>
    ensures { IsArg result (last_words_rule id.now) }
{
    last_word(alloc, id, name).action(ArgAction::Append)
}

// The option `--ID N`, and the default for N.
fn option<'a>(alloc: Global, id: &'a str, default: &'a str) -> Arg<'a>
    ensures { IsArg result (option_rule id.now default.now) }
{
    Arg::new(alloc, id)
        .long(id)
        .default_value(default)
        .value_name("N")
}

// The flag `--ID`.
fn flag<'a>(alloc: Global, id: &'a str) -> Arg<'a>
    ensures { IsArg result (flag_rule id.now) }
{
    Arg::new(alloc, id).long(id).action(ArgAction::SetTrue)
}

// The option `--ID NAME`.
fn path<'a>(alloc: Global, id: &'a str, name: &'a str) -> Arg<'a>
    ensures { IsArg result (path_rule id.now) }
{
    Arg::new(alloc, id).long(id).value_name(name)
}

// The option `--ID NAME`, which may be given any number of times.
fn repeated<'a>(alloc: Global, id: &'a str, name: &'a str) -> Arg<'a>
    ensures { IsArg result (repeated_rule id.now) }
{
    path(alloc, id, name).action(ArgAction::Append)
}

// `--slot N`.
fn slot<'a>(alloc: Global) -> Arg<'a>
    ensures { IsArg result slot_rule }
{
    option(alloc, "slot", "262144").value_parser(value_parser!(u32).range(33..=2007015))
}

// `--journal N`.
fn journal<'a>(alloc: Global) -> Arg<'a>
    ensures { IsArg result journal_rule }
{
    option(alloc, "journal", "65536").value_parser(value_parser!(u32).range(512..=1048576))
}

// The command with one more argument, if there was memory for both.
fn with_arg<'a>(
    command: Result<Command<'a>, AllocError>,
    arg: Arg<'a>,
) -> Result<Command<'a>, AllocError>
    ensures { (a : App) (r : Rule) → IfOk command.entry (λ c. IsCommand c a) → IsArg arg.entry r
        → IfOk result (λ c. IsCommand c (with_rule a r)) }
{
    match command {
        Ok(command) => command.arg(arg),
        Err(error) => {
            drop(arg);
            Err(error)
        }
    }
}

// `create`.
fn create<'a>(alloc: Global) -> Result<Command<'a>, AllocError>
    ensures { IfOk result (λ c. IsCommand c create_app) }
{
    let create = over_file(alloc, "create", "Makes a project file", help::CREATE);
    let create = with_arg(create, slot(alloc));
    with_arg(create, journal(alloc))
}

// `check`.
fn check<'a>(alloc: Global) -> Result<Command<'a>, AllocError>
    ensures { IfOk result (λ c. IsCommand c check_app) }
{
    let about = "Prints what is wrong in a map of a project or a level of a WAD";
    let check = over_file(alloc, "check", about, help::CHECK);
    with_arg(check, last_word(alloc, "map", "MAP"))
}

// `lint`.
fn lint<'a>(alloc: Global) -> Result<Command<'a>, AllocError>
    ensures { IfOk result (λ c. IsCommand c lint_app) }
{
    let about = "Prints what is wrong or doubtful in the maps of a project or the levels of a WAD";
    let lint = over_file(alloc, "lint", about, help::LINT);
    let lint = with_arg(lint, last_word(alloc, "map", "MAP"));
    let lint = with_arg(lint, path(alloc, "iwad", "WAD"));
    let lint = with_arg(lint, repeated(alloc, "only", "WORD"));
    with_arg(lint, repeated(alloc, "except", "WORD"))
}

// `draw`.
fn draw<'a>(alloc: Global) -> Result<Command<'a>, AllocError>
    ensures { IfOk result (λ c. IsCommand c draw_app) }
{
    let about = "Draws a script onto a project, if no line is refused";
    let draw = over_file(alloc, "draw", about, help::DRAW);
    let draw = with_arg(draw, last_word(alloc, "script", "SCRIPT"));
    let draw = with_arg(draw, flag(alloc, "check"));
    with_arg(draw, flag(alloc, "verbose"))
}

// `dump`.
fn dump<'a>(alloc: Global) -> Result<Command<'a>, AllocError>
    ensures { IfOk result (λ c. IsCommand c dump_app) }
{
    let about = "Prints commands that draw the maps of a project or the levels of a WAD";
    let dump = over_file(alloc, "dump", about, help::DUMP);
    let dump = with_arg(dump, last_words(alloc, "name", "NAME"));
    let dump = with_arg(dump, flag(alloc, "exact"));
    with_arg(dump, flag(alloc, "salvage"))
}

// `picture`.
fn picture<'a>(alloc: Global) -> Result<Command<'a>, AllocError>
    ensures { IfOk result (λ c. IsCommand c picture_app) }
{
    let about = "Draws a map of a project or a level of a WAD as a picture (SVG)";
    let picture = over_file(alloc, "picture", about, help::PICTURE);
    let picture = with_arg(picture, last_word(alloc, "map", "MAP"));
    let picture = with_arg(picture, path(alloc, "out", "OUT"));
    let picture = with_arg(picture, flag(alloc, "numbers"));
    let picture = with_arg(picture, flag(alloc, "nodes"));
    let picture = with_arg(picture, flag(alloc, "lint"));
    let picture = with_arg(picture, flag(alloc, "heights"));
    let picture = with_arg(picture, flag(alloc, "grid"));
    with_arg(picture, path(alloc, "crop", "X1,Y1,X2,Y2"))
}

// `build`.
fn build<'a>(alloc: Global) -> Result<Command<'a>, AllocError>
    ensures { IfOk result (λ c. IsCommand c build_app) }
{
    let about = "Builds a project's maps into a PWAD";
    let build = over_file(alloc, "build", about, help::BUILD);
    with_arg(build, word(alloc, "out", "OUT"))
}

// `rebuild`.
fn rebuild<'a>(alloc: Global) -> Result<Command<'a>, AllocError>
    ensures { IfOk result (λ c. IsCommand c rebuild_app) }
{
    let about = "Builds the nodes of a WAD's levels anew";
    let rebuild = named(alloc, "rebuild", about, help::REBUILD);
    let rebuild = rebuild.arg(word(alloc, "wad", "IN"));
    let rebuild = with_arg(rebuild, word(alloc, "out", "OUT"));
    with_arg(rebuild, repeated(alloc, "map", "NAME"))
}

// `inspect`.
fn inspect<'a>(alloc: Global) -> Result<Command<'a>, AllocError>
    ensures { IfOk result (λ c. IsCommand c inspect_app) }
{
    let about = "Prints whether a level of a WAD is sound, or lists the levels";
    let inspect = named(alloc, "inspect", about, help::INSPECT);
    let inspect = inspect.arg(word(alloc, "wad", "WAD"));
    with_arg(inspect, last_word(alloc, "name", "NAME"))
}

// The program with one more subcommand, if there was memory for both.
fn with<'a>(
    program: Result<Command<'a>, AllocError>,
    subcommand: Result<Command<'a>, AllocError>,
) -> Result<Command<'a>, AllocError>
    ensures { (a s : App) → IfOk program.entry (λ c. IsCommand c a)
        → IfOk subcommand.entry (λ c. IsCommand c s)
        → IfOk result (λ c. IsCommand c (with_subcommand a s.top)) }
{
    match program {
        Ok(program) => match subcommand {
            Ok(subcommand) => program.subcommand(subcommand),
            Err(error) => {
                // A call, because the code that drops a command is long and would be written out here.
                drop(program);
                Err(error)
            }
        },
        Err(error) => {
            drop(subcommand);
            Err(error)
        }
    }
}

// The program with its subcommands.
fn with_subcommands<'a>(alloc: Global) -> Result<Command<'a>, AllocError>
    ensures { IfOk result (λ c. IsCommand c with_subcommands) }
{
    let program = named(
        alloc,
        "leveled",
        "Draws Doom maps from text commands",
        help::PROGRAM,
    );
    let scratch = named(
        alloc,
        "scratch",
        "Answers commands, with maps in memory only",
        help::SCRATCH,
    );
    let edit = over_file(
        alloc,
        "edit",
        "Answers commands, and keeps the maps in a project file",
        help::EDIT,
    );
    let program = program.subcommand(scratch);
    let program = with(program, create(alloc));
    let program = with(program, edit);
    let program = with(program, check(alloc));
    let program = with(program, lint(alloc));
    let program = with(program, draw(alloc));
    let program = with(program, dump(alloc));
    let program = with(program, picture(alloc));
    let program = with(program, inspect(alloc));
    let program = with(program, build(alloc));
    with(program, rebuild(alloc))
}

/// The program's command line.
pub fn leveled<'a>(alloc: Global) -> Result<Command<'a>, AllocError>
    ensures { IfOk result (λ c. app_of c ≡ leveled_app) }
{
    match with_subcommands(alloc) {
        Ok(program) => Ok(
            program
                .version("1.0.0")
                .subcommand_required(true)
                .disable_help_subcommand(true),
        ),
        Err(error) => Err(error),
    }
}
