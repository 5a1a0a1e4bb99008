//! Draws a shape of a script: it is decided as a whole over the maps as they are, then its commands are done in turn,
//! which wait together if room for all of them can be made.
ghost use Rattle.std.specs.Prelude.{◌≡◌, ◌⊎◌, nat_le, List, All, map, vec_items, IfErr, IfOk, IsOkUnless, MatchResult, Ok, Err};
ghost use Rattle.map_commands.specs.declared.command.Command.{Command};
ghost use Rattle.map_commands.specs.Step.{InRange, growth_of, need_of};
ghost use Rattle.map_script.specs.Firsts.{counts_of, firsts_since};
ghost use Rattle.map_tables.specs.Projects.{current_map, project_of};
ghost use Rattle.run_script.specs.Shaped.{DrawsShape, EndsAll, IsPlanned, RefusesWhole, growth_of_all, has_room, command_lines};

use map_commands::{Command, CommandError, ProjectCommand, growth_of, need_of, print};
use map_script::{Numbers, counts_of, firsts_since};
use map_shapes::{answer_of, commands_of, read_shape};
use map_tables::Maps;
use run_canvas::Canvas;
use std::alloc::Global;

// The lines of a shape's commands, and the number that it answers.
#[derive(Drop)]
pub struct Plan {
    lines: Vec<Vec<u8>>,
    answer: u32,
}

// By how many bytes a command lengthens the body.
fn growth(command: &Command) -> u64
    ensures { result ≡ growth_of (need_of command.now) }
{
    growth_of(need_of(&ProjectCommand::Current(*command)))
}

// Whether so many bytes more have room for what commands add.
fn fits(commands: &[Command], left: u64) -> bool
    ensures { result ≡ nat_le (growth_of_all commands.now) left }
{
    let mut left = left;
    for command in commands {
        let growth = growth(command);
        if growth > left {
            return false;
        }
        left -= growth;
    }
    true
}

// Whether a body that may be so long has room for what commands add.
fn has_room(maps: &Maps, cap: u32, commands: &[Command]) -> bool
    ensures { result ≡ has_room (project_of maps.now) cap commands.now }
{
    let len = maps.body_len();
    len <= cap && fits(commands, u64::from(cap - len))
}

// The lines of commands. Only lack of memory refuses them.
fn command_lines(alloc: Global, commands: &[Command]) -> Result<Vec<Vec<u8>>, CommandError>
    requires { All InRange commands.now }
    ensures lines { IfOk result (λ lines. map vec_items lines.items ≡ command_lines commands.now) }
    ensures memory { IsOkUnless result CommandError.OutOfMemory }
{
    let mut lines = Vec::new(alloc);
    for command in commands {
        let line = match print(alloc, &ProjectCommand::Current(*command)) {
            Ok(line) => line,
            Err(error) => return Err(error),
        };
        match lines.push(line) {
            Ok(()) => {}
            Err(_) => return Err(CommandError::OutOfMemory),
        }
    }
    Ok(lines)
}

// Decides what a line of a shape is to do over the maps, or returns the code of its refusal.
fn planned(alloc: Global, maps: &Maps, cap: u32, text: &[u8]) -> Result<Plan, u16>
    ensures planned { IfOk result (λ p. (commands : List Command)
        × IsPlanned (project_of maps.now) cap text.now commands p.answer
        × (map vec_items p.lines.items ≡ command_lines commands)) }
    ensures refused { IfErr result (RefusesWhole (project_of maps.now) cap text.now) }
{
    let shape = match read_shape(alloc, text) {
        Ok(shape) => shape,
        Err(error) => return Err(error.code()),
    };
    let commands = match commands_of(alloc, maps.current(), &shape) {
        Ok(commands) => commands,
        Err(error) => return Err(error.code()),
    };
    if !has_room(maps, cap, &commands) {
        return Err(CommandError::ProjectFull.code());
    }
    let lines = match command_lines(alloc, &commands) {
        Ok(lines) => lines,
        Err(error) => return Err(error.code()),
    };
    let answer = answer_of(maps.current(), &shape);
    Ok(Plan { lines, answer })
}

// Does commands in turn, up to the first refused one. These are their lines.
fn change_all<C: Canvas>(canvas: &mut C, lines: &[Vec<u8>]) -> Result<(), u16>
    ensures { EndsAll C.Canvas (map vec_items lines.now) canvas.old result canvas.new }
{
    for i in 0..lines.len() {
        match canvas.change(&lines[i]) {
            Ok(_) => {}
            Err(code) => return Err(code),
        }
    }
    Ok(())
}

/// Draws a shape, and returns its numbers, or the code of its refusal.
pub fn draw_shape<C: Canvas>(alloc: Global, canvas: &mut C, text: &[u8]) -> Result<Numbers, u16>
    ensures { MatchResult result
        (λ n. DrawsShape C.Canvas text.now canvas.old (Ok n.answer) canvas.new
        × (n.firsts ≡ firsts_since (counts_of (current_map (C.Canvas.maps_in canvas.old)))
        (current_map (C.Canvas.maps_in canvas.new))))
        (λ code. DrawsShape C.Canvas text.now canvas.old (Err code) canvas.new) }
{
    let plan = match planned(alloc, canvas.maps(), canvas.cap(), text) {
        Ok(plan) => plan,
        Err(code) => return Err(code),
    };
    let before = counts_of(canvas.maps().current());
    if let Some(code) = canvas.make_room(&plan.lines) {
        return Err(code);
    }
    match change_all(canvas, &plan.lines) {
        Ok(()) => {
            let firsts = firsts_since(&before, canvas.maps().current());
            Ok(Numbers {
                answer: plan.answer,
                firsts,
            })
        }
        Err(code) => Err(code),
    }
}
