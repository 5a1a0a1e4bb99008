//! What a script is drawn onto.
ghost use Rattle.std.specs.Prelude.{◌≡◌, ◌⊎◌, ℕ, Bool, true, false, List, Option, Some, None, Result, Ok, Err, MatchResult, map, vec_items};
ghost use Rattle.std.specs.Io.KnownBytes.{Keeps};
ghost use Rattle.map_tables.specs.Projects.{ProjectMaps, project_of};
ghost use Rattle.run_canvas.specs.declared.error.ScriptError.TheVariants.{WriterFailed};

use crate::error::ScriptError;
use map_tables::Maps;
use std::alloc::Global;
use std::io::Write;

/// What a script is drawn onto. It takes commands and queries. Commands of several lines may wait, and go to the disk
/// together.
pub trait Canvas {
    // Which outcomes a command may have, a number or the code of a refusal, and the state after it.
    ghost changes: { Self → List ℕ → Result ℕ ℕ → Self → Type 0 };

    // The maps that a state has.
    ghost maps_in: { Self → ProjectMaps };

    // How long the body of all maps may be, in bytes.
    ghost cap_in: { Self → ℕ };

    // Whether a line is a query.
    ghost is_query: { List ℕ → Bool };

    // What may be written for a query, or the code of its refusal, with the state after it, and with what the writer
    // holds before and after. Nothing waits then.
    ghost tells: { Self → List ℕ → Option ℕ → Self → Option (List ℕ) → Option (List ℕ) → Type 0 };

    // The line at a place of the script is begun, and each of its commands is put by itself, or may wait. What waits
    // may be put before it.
    ghost begins: { Self → ℕ → Bool → Self → Type 0 };

    // Room was made for lines that are to wait together; or that was refused with this code. What waits may be put.
    ghost makes_room: { Self → List (List ℕ) → Option ℕ → Self → Type 0 };

    // What waits was put.
    ghost settles: { Self → Self → Type 0 };

    // What waits, with commands behind it or without, was put in vain, and is lost.
    ghost loses: { Self → Self → Type 0 };

    // Whether each command is put by itself.
    ghost is_alone: { Self → Bool };

    // Whether commands of lines before the one at hand wait.
    ghost holds_earlier: { Self → Bool };

    // Whether such commands were lost since the line at hand was begun.
    ghost has_lost: { Self → Bool };

    /// Applies a command, and returns its number or the refusal's code.
    fn change(&mut self, line: &[u8]) -> Result<u32, u16>
        ensures { changes self.old line.now result self.new };

    /// The maps as they are.
    fn maps(&self) -> &Maps
        ensures { project_of result.now ≡ maps_in self.now };

    /// How long the body of all maps may be, in bytes.
    fn cap(&self) -> u32
        ensures { result ≡ cap_in self.now };

    /// Whether a line is a query.
    fn is_query(line: &[u8]) -> bool
        ensures { result ≡ is_query line.now };

    /// Puts what waits, and writes the answer to a query, or returns the code of its refusal.
    ///
    /// # Errors
    ///
    /// Only `WriterFailed`.
    fn tell<W: Write>(
        &mut self,
        alloc: Global,
        line: &[u8],
        writer: &mut W,
    ) -> Result<Option<u16>, ScriptError>
        ensures { MatchResult result
            (λ refusal. tells self.old line.now refusal self.new (W.contents writer.old)
            (W.contents writer.new))
            (λ e. (e ≡ WriterFailed) × settles self.old self.new) };

    /// Begins the line of a script that stands at a place among its lines, from 0: it adds what is added from now on.
    /// Its commands are put by themselves if `alone`, or else may wait. Returns whether what waited before it could be
    /// put, if that was due.
    fn begin_line(&mut self, place: usize, alone: bool) -> bool
        ensures begun { result ≡ true → begins self.old place alone self.new }
        ensures lost { result ≡ false → loses self.old self.new };

    /// Makes room for lines that are to wait together, if it can be had. Returns the code of a refusal.
    fn make_room(&mut self, lines: &[Vec<u8>]) -> Option<u16>
        ensures { makes_room self.old (map vec_items lines.now) result self.new };

    /// Puts what waits, and returns whether it could.
    fn settle(&mut self) -> bool
        ensures settled { result ≡ true → settles self.old self.new }
        ensures lost { result ≡ false → loses self.old self.new };

    /// Whether commands of lines before the one at hand wait.
    fn holds_earlier(&self) -> bool
        ensures { result ≡ holds_earlier self.now };

    /// Whether such commands were lost since the line at hand was begun.
    fn has_lost(&self) -> bool
        ensures { result ≡ has_lost self.now };

    // What waits after a command and is lost then: it waited before; or the command is lost first.
    ghost loss_since: { (old new last : Self) (line : List ℕ) (outcome : Result ℕ ℕ)
        → changes old line outcome new → loses new last
        → ((holds_earlier new ≡ holds_earlier old) × loses old last)
        ⊎ ((holds_earlier new ≡ false) × (is_alone old ≡ false) × changes old line (Err 30) last) };

    // Where a refused command lost what earlier lines had, that is what was refused.
    ghost loss_within: { (old new : Self) (line : List ℕ) (code : ℕ)
        → changes old line (Err code) new → has_lost new ≡ true
        → (has_lost old ≡ true)
        ⊎ ((code ≡ 30) × (holds_earlier old ≡ true) × loses old new) };

    // An accepted command is put as those before it.
    ghost stays_alone: { (old new : Self) (line : List ℕ) (number : ℕ)
        → changes old line (Ok number) new
        → (is_alone new ≡ is_alone old) × (has_lost new ≡ has_lost old) };

    // Nothing waits behind a query.
    ghost told_all: { (old new last : Self) (line : List ℕ) (refusal : Option ℕ)
        (writer-old writer-new : Option (List ℕ))
        → tells old line refusal new writer-old writer-new → ¬ loses new last };

    // Where a refused query lost what earlier lines had, that is what was refused.
    ghost loss_told: { (old new : Self) (line : List ℕ) (code : ℕ)
        (writer-old writer-new : Option (List ℕ))
        → tells old line (Some code) new writer-old writer-new → has_lost new ≡ true
        → (has_lost old ≡ true)
        ⊎ ((code ≡ 30) × (holds_earlier old ≡ true) × loses old new
        × Keeps writer-old writer-new) };

    // What waits when a line is begun waited before.
    ghost begun: { (old new : Self) (place : ℕ) (is-alone : Bool) → begins old place is-alone new
        → (has_lost new ≡ false) × (is_alone new ≡ false → is-alone ≡ false)
        × ((last : Self) → loses new last → (holds_earlier new ≡ true)
        × ((other : Self) × loses old other × settles other last)) };

    // What waits when room was made waited before.
    ghost room_made: { (old new : Self) (lines : List (List ℕ)) → makes_room old lines None new
        → (is_alone new ≡ is_alone old) × (has_lost new ≡ has_lost old)
        × ((last : Self) → loses new last
        → (holds_earlier new ≡ holds_earlier old) × loses old last) };

    // Nothing waits where room was refused. If what earlier lines had was lost, that is what was refused.
    ghost room_refused: { (old new : Self) (lines : List (List ℕ)) (code : ℕ)
        → makes_room old lines (Some code) new
        → ((last : Self) → ¬ loses new last)
        × (has_lost new ≡ true → (has_lost old ≡ true)
        ⊎ ((code ≡ 30) × (holds_earlier old ≡ true) × loses old new)) };

    // Nothing waits behind what is lost.
    ghost lost_settled: { (old new : Self) → loses old new → settles new new };

    // Nothing waits behind what is put.
    ghost settled_again: { (old mid new : Self) → settles old mid → settles mid new
        → settles old new };
}
