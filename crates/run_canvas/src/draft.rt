//! Maps in memory, on which a script is tried.
ghost use Rattle.std.specs.Prelude.{◌≡◌, ◌≤◌, IfOk, None, true, false};
ghost use Rattle.run_edit.specs.Answers.{outcome_of};
ghost use Rattle.map_tables.specs.Projects.{body_len, project_of};
ghost use Rattle.run_canvas.specs.Canvases.{ChangesDraft, Drafted, TellsOfDraft, first_draft, is_query_line};

use crate::asking::{is_query_line, tell_of};
use crate::canvas::Canvas;
use crate::error::ScriptError;
use map_commands::{CommandError, apply, parse};
use map_tables::Maps;
use run_edit::LONGEST_BODY;
use std::alloc::{AllocError, Global};
use std::io::Write;
use std::marker::Model;
use store_project::copy_of;

/// The maps of a project in memory, and how long their body may be, in bytes.
#[derive(Drop)]
pub struct Draft {
    maps: Maps,
    cap: u32,
}

impl Model for Draft {
    ghost Value = { Drafted };

    ghost view = { λ d. record { maps = project_of d.maps; cap = d.cap } };

    ghost invariant = { λ d. body_len (project_of d.maps) ≤ d.cap };
}

impl Draft {
    /// The empty map MAP01 alone, which may grow as long as those of any project file. Allocates nothing.
    pub fn new(alloc: Global) -> Self
        ensures { result ≡ first_draft }
    {
        Draft {
            maps: Maps::new(alloc),
            cap: LONGEST_BODY,
        }
    }

    /// A copy of these maps, whose body may be as long as `cap` says. Only lack of memory refuses it.
    pub fn over(alloc: Global, maps: &Maps, cap: u32) -> Result<Self, AllocError>
        requires { body_len (project_of maps.now) ≤ cap }
        ensures { IfOk result (λ d. d ≡ record { maps = project_of maps.now; cap = cap }) }
    {
        match copy_of(alloc, maps) {
            Ok(maps) => Ok(Draft { maps, cap }),
            Err(error) => Err(error),
        }
    }
}

/// The outcome of a command: its number, or the refusal's code.
pub(crate) fn outcome_of(ended: Result<u32, CommandError>) -> Result<u32, u16>
    ensures { result ≡ outcome_of ended }
{
    match ended {
        Ok(number) => Ok(number),
        Err(error) => Err(error.code()),
    }
}

impl Canvas for Draft {
    ghost use Rattle.std.proofs.Common.{◌∙◌, refl, sym};
    ghost use Rattle.std.proofs.lemmas.Bool.{true≢false};

    ghost changes = { ChangesDraft };

    ghost maps_in = { λ d. d.maps };

    ghost cap_in = { λ d. d.cap };

    ghost is_query = { is_query_line };

    ghost tells = { TellsOfDraft };

    ghost begins = { λ old place alone new. new ≡ old };

    ghost makes_room = { λ old lines refusal new. (refusal ≡ None) × (new ≡ old) };

    ghost settles = { λ old new. new ≡ old };

    ghost loses = { λ old new. ⊥ };

    ghost is_alone = { λ _. true };

    ghost holds_earlier = { λ _. false };

    ghost has_lost = { λ _. false };

    fn change(&mut self, line: &[u8]) -> Result<u32, u16> {
        let command = match parse(line) {
            Ok(command) => command,
            Err(error) => return Err(error.code()),
        };
        outcome_of(apply(&mut self.maps, &command, self.cap))
    }

    fn maps(&self) -> &Maps {
        &self.maps
    }

    fn cap(&self) -> u32 {
        self.cap
    }

    fn is_query(line: &[u8]) -> bool {
        is_query_line(line)
    }

    fn tell<W: Write>(
        &mut self,
        alloc: Global,
        line: &[u8],
        writer: &mut W,
    ) -> Result<Option<u16>, ScriptError> {
        tell_of(alloc, &self.maps, line, writer)
    }

    fn begin_line(&mut self, _place: usize, _alone: bool) -> bool {
        true
    }

    fn make_room(&mut self, _lines: &[Vec<u8>]) -> Option<u16> {
        None
    }

    fn settle(&mut self) -> bool {
        true
    }

    fn holds_earlier(&self) -> bool {
        false
    }

    fn has_lost(&self) -> bool {
        false
    }

    ghost loss_since = { λ old new last line outcome changed lost. absurd lost };

    ghost loss_within = { λ old new line code changed lost. absurd (true≢false (sym lost)) };

    ghost stays_alone = { λ old new line number changed. (refl, refl) };

    ghost told_all = { λ old new last line refusal u w told lost. lost };

    ghost loss_told = { λ old new line code u w told lost. absurd (true≢false (sym lost)) };

    ghost begun = { λ old new place alone is. (
      refl,
      λ together. absurd (true≢false together),
      λ last lost. absurd lost,
    ) };

    ghost room_made = { λ old new lines made. (refl, refl, λ last lost. absurd lost) };

    ghost room_refused = { λ old new lines code refused. (
      λ last lost. lost,
      λ lost. absurd (true≢false (sym lost)),
    ) };

    ghost lost_settled = { λ old new lost. absurd lost };

    ghost settled_again = { λ old mid new first then. then ∙ first };
}
