//! Maps in memory that keep the origins of their items: which line of a script added each.
ghost use Rattle.std.specs.Prelude.{◌≡◌, ◌≤◌, ◌<◌, ◌++◌, ◌∷◌, [], false, true, None, get_or, IfErr, IfOk, IsErrOf, MatchResult, length, map, remove, slice_set};
ghost use Rattle.arrayvec.specs.ArrayVec.{array_vec_len};
ghost use Rattle.map_commands.specs.ProjectCommands.{InProjectRange};
ghost use Rattle.map_commands.specs.ProjectReadiness.{EndsStep, project_need_of};
ghost use Rattle.map_commands.specs.ProjectStep.{map_faults, step};
ghost use Rattle.map_commands.specs.Step.{need_of};
ghost use Rattle.map_tables.specs.Outcomes.{Covers, least, no_need, nothing};
ghost use Rattle.map_tables.specs.Projects.{project_of};
ghost use Rattle.run_canvas.specs.OriginFields.{item_origins};
ghost use Rattle.run_canvas.specs.Origins.{all_origins_after, first_origins, no_origins, origin_of, origins_after};
ghost use Rattle.run_canvas.specs.Canvases.{is_query_line};

use crate::asking::{is_query_line, tell_of};
use crate::canvas::Canvas;
use crate::draft::outcome_of;
use crate::error::ScriptError;
use crate::map_origins::MapOrigins;
use arrayvec::ArrayVec;
use map_commands::{Command, CommandError, ProjectCommand, commit, parse, ready};
use map_tables::{Kind, MAP_LIMIT, Maps};
use run_edit::LONGEST_BODY;
use std::alloc::{AllocError, Global};
use std::io::Write;
use std::marker::Model;

/// The maps of a project in memory, how long their body may be, in bytes, and for each item of them the place of the
/// line that added it.
pub struct OriginDraft {
    maps: Maps,
    cap: u32,
    // the place of the line at hand
    place: usize,
    origins: ArrayVec<MapOrigins, MAP_LIMIT, Global>,
}

// A `drop` of its own, so that a function that owns one frees all its maps by one call.
impl Drop for OriginDraft {
    fn drop(self) {
        let OriginDraft {
            maps: _maps,
            cap: _,
            place: _,
            origins: _origins,
        } = self;
    }
}

impl Model for OriginDraft {
    ghost use Rattle.run_canvas.specs.Origins.{OriginMaps};

    ghost Value = { OriginMaps };

    ghost use Rattle.run_canvas.specs.OriginDrafts.{KeepsOrigins, origin_maps};

    ghost view = { origin_maps };

    ghost invariant = { KeepsOrigins };
}

// Notes what a command does to the items of the map with the number, if there is one.
fn note_current(
    origins: &mut ArrayVec<MapOrigins, MAP_LIMIT, Global>,
    number: usize,
    command: &Command,
    place: usize,
) -> Result<(), AllocError>
    ensures ok { IfOk result (λ _. map item_origins origins.new.items
        ≡ slice_set (map item_origins origins.old.items) number
        (origins_after (get_or (map item_origins origins.old.items) number no_origins)
        command.now place)) }
    ensures refused { IfErr result (λ _.
        map item_origins origins.new.items ≡ map item_origins origins.old.items) }
    ensures needed { need_of command.now ≡ no_need → IfErr result (λ _. ⊥) }
{
    match origins.get_mut(number) {
        Some(own) => own.note(command, place),
        None => Ok(()),
    }
}

// Notes a new map, which has no items.
fn add_map(origins: &mut ArrayVec<MapOrigins, MAP_LIMIT, Global>)
    requires { array_vec_len origins.old < 32 }
    ensures { map item_origins origins.new.items
        ≡ map item_origins origins.old.items ++ no_origins ∷ [] }
{
    let none = MapOrigins::new(*origins.allocator());
    origins.push(none);
}

// Notes that the map with the number is removed, if there is one.
fn remove_map(origins: &mut ArrayVec<MapOrigins, MAP_LIMIT, Global>, number: usize)
    ensures { map item_origins origins.new.items
        ≡ remove (map item_origins origins.old.items) number }
{
    if number < origins.len() {
        origins.remove(number);
    }
}

// Notes what a command of the line at a place does to the items of all maps. One that adds nothing to the current map
// never lacks memory.
fn note(
    origins: &mut ArrayVec<MapOrigins, MAP_LIMIT, Global>,
    maps: &Maps,
    command: &ProjectCommand,
    place: usize,
) -> Result<(), AllocError>
    requires long { length origins.old.items ≡ length (project_of maps.now).maps }
    requires accepted { least (map_faults (project_of maps.now) command.now) ≡ None }
    ensures ok { IfOk result (λ _. map item_origins origins.new.items
        ≡ all_origins_after (project_of maps.now) (map item_origins origins.old.items)
        command.now place) }
    ensures refused { IfErr result (λ _.
        map item_origins origins.new.items ≡ map item_origins origins.old.items) }
    ensures needed { project_need_of command.now ≡ no_need → IfErr result (λ _. ⊥) }
{
    match command {
        ProjectCommand::Current(change) => {
            note_current(origins, maps.current_number() as usize, change, place)
        }
        ProjectCommand::SelectMap(name) => {
            if maps.find(*name).is_none() {
                add_map(origins);
            }
            Ok(())
        }
        ProjectCommand::DropMap(name) => {
            if let Some(number) = maps.find(*name) {
                remove_map(origins, number as usize);
            }
            Ok(())
        }
    }
}

impl OriginDraft {
    /// The empty map MAP01 alone, which may grow as long as those of any project file.
    pub fn new(alloc: Global) -> Self
        ensures { result ≡ first_origins }
    {
        let mut origins = ArrayVec::new_in(alloc);
        origins.push(MapOrigins::new(alloc));
        OriginDraft {
            maps: Maps::new(alloc),
            cap: LONGEST_BODY,
            place: 0,
            origins,
        }
    }

    /// The origin of the item of a kind and a number in the map with a number, if there is one: the place of the line
    /// that added it.
    pub fn origin(&self, map: u32, kind: Kind, n: u32) -> Option<usize>
        ensures { result ≡ origin_of self.now.origins map kind n }
    {
        match self.origins.get(map as usize) {
            Some(own) => own.get(kind, n),
            None => None,
        }
    }

    // Does a command of the line at hand, and notes the origins of what it adds.
    fn apply(&mut self, command: &ProjectCommand) -> Result<u32, CommandError>
        requires range { InProjectRange command.now }
        ensures ends { EndsStep result (step self.old.draft.maps command.now self.old.draft.cap)
            self.old.draft.maps self.new.draft.maps }
        ensures cap { self.new.draft.cap ≡ self.old.draft.cap }
        ensures place { self.new.place ≡ self.old.place }
        ensures origins { MatchResult result
            (λ _. self.new.origins ≡ all_origins_after self.old.draft.maps self.old.origins
            command.now self.old.place)
            (λ _. self.new.origins ≡ self.old.origins) }
        ensures promised { Covers nothing (project_need_of command.now)
            → IsErrOf result CommandError.OutOfMemory → ⊥ }
    {
        let accepted = match ready(&mut self.maps, command, self.cap) {
            Ok(accepted) => accepted,
            Err(error) => return Err(error),
        };
        match note(&mut self.origins, &self.maps, command, self.place) {
            Ok(()) => Ok(commit(&mut self.maps, accepted)),
            Err(_) => Err(CommandError::OutOfMemory),
        }
    }
}

impl Canvas for OriginDraft {
    ghost use Rattle.std.proofs.Common.{◌∙◌, refl, sym};
    ghost use Rattle.std.proofs.lemmas.Bool.{true≢false};
    ghost use Rattle.run_canvas.specs.Origins.{ChangesOrigins, TellsOfOrigins};

    ghost changes = { ChangesOrigins };

    ghost maps_in = { λ d. d.draft.maps };

    ghost cap_in = { λ d. d.draft.cap };

    ghost is_query = { is_query_line };

    ghost tells = { TellsOfOrigins };

    ghost begins = { λ old place alone new. new ≡ record old { place = place } };

    ghost makes_room = { λ old lines refusal new. (refusal ≡ None) × (new ≡ old) };

    ghost settles = { λ old new. new ≡ old };

    ghost loses = { λ old new. ⊥ };

    ghost is_alone = { λ _. true };

    ghost holds_earlier = { λ _. false };

    ghost has_lost = { λ _. false };

    fn change(&mut self, line: &[u8]) -> Result<u32, u16> {
        let command = match parse(line) {
            Ok(command) => command,
            Err(error) => return Err(error.code()),
        };
        outcome_of(self.apply(&command))
    }

    fn maps(&self) -> &Maps {
        &self.maps
    }

    fn cap(&self) -> u32 {
        self.cap
    }

    fn is_query(line: &[u8]) -> bool {
        is_query_line(line)
    }

    fn tell<W: Write>(
        &mut self,
        alloc: Global,
        line: &[u8],
        writer: &mut W,
    ) -> Result<Option<u16>, ScriptError> {
        tell_of(alloc, &self.maps, line, writer)
    }

    fn begin_line(&mut self, place: usize, _alone: bool) -> bool {
        self.place = place;
        true
    }

    fn make_room(&mut self, _lines: &[Vec<u8>]) -> Option<u16> {
        None
    }

    fn settle(&mut self) -> bool {
        true
    }

    fn holds_earlier(&self) -> bool {
        false
    }

    fn has_lost(&self) -> bool {
        false
    }

    ghost loss_since = { λ old new last line outcome changed lost. absurd lost };

    ghost loss_within = { λ old new line code changed lost. absurd (true≢false (sym lost)) };

    ghost stays_alone = { λ old new line number changed. (refl, refl) };

    ghost room_made = { λ old new lines made. (refl, refl, λ last lost. absurd lost) };

    ghost room_refused = { λ old new lines code refused. (
      λ last lost. lost,
      λ lost. absurd (true≢false (sym lost)),
    ) };

    ghost told_all = { λ old new last line refusal u w told lost. lost };

    ghost loss_told = { λ old new line code u w told lost. absurd (true≢false (sym lost)) };

    ghost begun = { λ old new place alone is. (
      refl,
      λ together. absurd (true≢false together),
      λ last lost. absurd lost,
    ) };

    ghost lost_settled = { λ old new lost. absurd lost };

    ghost settled_again = { λ old mid new first then. then ∙ first };
}
