//! The words of a line that are still to be read, and the leftmost fault so far.
use crate::bounded::number_in;
use crate::error::CommandError;
use crate::kinds::LAST_ITEM;
use crate::names::{FIRST_MAP, NO_TEXTURE, marker_in, name_in};
use lump_records::{NO_SIDE, Name8};
use map_words::{next_part, number_before};

/// The words of a line that are still to be read, and the fault so far: `NotACommand` if that was found anywhere,
/// otherwise the leftmost fault.
#[derive(Drop)]
pub struct UnreadWords<'a> {
    rest: Option<&'a [u8]>,
    fault: Option<CommandError>,
}

impl<'a> UnreadWords<'a> {
    ghost use Rattle.std.specs.Prelude.{◌≡◌, [], ◌∷◌, pos, ◌<◌, ◌≤◌, ◌≤ℤ◌, ◌||◌, ◌==◌, nat_le, length, drop, IsTrue, Some, None, IfOk, IfErr, IfNone, IfSome, MatchBool, MatchOption, decimal, option_copied};
    ghost use Rattle.std.specs.Fmt.{signed_decimal};
    ghost use Rattle.lump_records.specs.Drawing.{IsBetween};
    ghost use Rattle.lump_records.specs.Names.{IsNamed, is_marker, is_name, name_text};
    ghost use Rattle.lump_records.specs.Sides.{no_side};
    ghost use Rattle.map_commands.specs.Errors.{code_of};
    ghost use Rattle.map_commands.specs.Spelling.{left_word};
    ghost use Rattle.map_commands.specs.Places.{Named, Number, NumberOrNone, prior_fault};
    ghost use Rattle.map_words.specs.Words.{parts_behind};
    ghost use Rattle.map_commands.specs.Reading.{Reads, IsDone, fault_with};
    ghost use Rattle.map_commands.specs.Views.{reading};

    /// The words after the first.
    pub fn new(rest: Option<&'a [u8]>) -> Self
        ensures fault { (reading result).fault ≡ None }
        ensures words { (reading result).words ≡ parts_behind (option_copied rest.entry) }
    {
        UnreadWords { rest, fault: None }
    }

    /// Whether no word is left.
    pub fn is_empty(&self) -> bool
        ensures { MatchBool result ((reading self.now).words ≡ [])
            (0 < length (reading self.now).words) }
    {
        match self.rest {
            None => true,
            Some(_) => false,
        }
    }

    /// Takes the next word.
    pub fn next(&mut self) -> Option<&'a [u8]>
        ensures fault { (reading self.new).fault ≡ (reading self.old).fault }
        ensures words { MatchOption result
            (((reading self.old).words ≡ []) × ((reading self.new).words ≡ []))
            (λ w. (reading self.old).words ≡ w.now ∷ (reading self.new).words) }
    {
        match self.rest {
            None => None,
            Some(rest) => {
                let (word, behind) = next_part(rest);
                self.rest = behind;
                Some(word)
            }
        }
    }

    // Records a fault, if it takes precedence over the one so far.
    fn note(&mut self, error: CommandError)
        ensures fault { (reading self.new).fault
            ≡ prior_fault (reading self.old).fault (Some (code_of error)) }
        ensures words { (reading self.new).words ≡ (reading self.old).words }
    {
        match (self.fault, error) {
            (None, _) | (_, CommandError::NotACommand) => self.fault = Some(error),
            _ => {}
        }
    }

    // Reads the next number, if it is a short one between two bounds; else it reads nothing.
    fn short_number(&mut self, low: i16, high: i16) -> Option<i16>
        ensures none { IfNone result (self.new ≡ self.old) }
        ensures rest { IfSome result
            (λ _. (reading self.new).words ≡ drop 1 (reading self.old).words) }
        ensures reads { IfSome result (λ n. Reads (reading self.old) (reading self.new)
            (Number low high) (signed_decimal n)) }
        ensures range { IfSome result (IsBetween low high) }
    {
        let (n, behind) = number_before(self.rest?, low, high)?;
        self.rest = behind;
        Some(n)
    }

    // Reads the next word as a number between two bounds. After a fault it returns some number between them.
    fn any_number(&mut self, low: i16, high: i16) -> i16
        requires { low ≤ℤ high }
        ensures rest { (reading self.new).words ≡ drop 1 (reading self.old).words }
        ensures reads { Reads (reading self.old) (reading self.new) (Number low high)
            (signed_decimal result) }
        ensures range { IsBetween low high result }
    {
        match self.next() {
            None => {
                self.note(CommandError::NotACommand);
                low
            }
            Some(word) => match number_in(word, low, high) {
                Ok(n) => n,
                Err(error) => {
                    self.note(error);
                    low
                }
            },
        }
    }

    /// Reads a number between two bounds. After a fault it returns some number between them.
    pub fn number(&mut self, low: i16, high: i16) -> i16
        requires { low ≤ℤ high }
        ensures rest { (reading self.new).words ≡ drop 1 (reading self.old).words }
        ensures reads { Reads (reading self.old) (reading self.new) (Number low high)
            (signed_decimal result) }
        ensures range { IsBetween low high result }
    {
        match self.short_number(low, high) {
            Some(n) => n,
            None => self.any_number(low, high),
        }
    }

    /// Reads the number of an item.
    pub fn item(&mut self, last: u16) -> u16
        requires { last ≤ 32767 }
        ensures rest { (reading self.new).words ≡ drop 1 (reading self.old).words }
        ensures reads { Reads (reading self.old) (reading self.new) (Number (pos 0) (pos last))
            (decimal result) }
        ensures range { result ≤ last }
    {
        self.number(0, last as i16) as u16
    }

    /// Reads the number of a left side, or `-`. After a fault it returns `NO_SIDE`.
    pub fn left(&mut self) -> u16
        ensures reads { Reads (reading self.old) (reading self.new)
            (NumberOrNone (pos 0) (pos 32766)) (left_word result) }
        ensures range { IsTrue (nat_le result 32766 || (result == no_side)) }
    {
        match self.next() {
            None => {
                self.note(CommandError::NotACommand);
                NO_SIDE
            }
            Some(word) => {
                if word == b"-".as_slice() {
                    return NO_SIDE;
                }
                match number_in(word, 0, LAST_ITEM as i16) {
                    Ok(n) => n as u16,
                    Err(error) => {
                        self.note(error);
                        NO_SIDE
                    }
                }
            }
        }
    }

    /// Reads the name of a flat or a texture. After a fault it returns some name.
    #[inline]
    pub fn name(&mut self) -> Name8
        ensures rest { (reading self.new).words ≡ drop 1 (reading self.old).words }
        ensures reads { Reads (reading self.old) (reading self.new) (Named is_name)
            (name_text result) }
        ensures range { IsNamed is_name result }
    {
        match self.next() {
            None => {
                self.note(CommandError::NotACommand);
                NO_TEXTURE
            }
            Some(word) => match name_in(word) {
                Ok(name) => name,
                Err(error) => {
                    self.note(error);
                    NO_TEXTURE
                }
            },
        }
    }

    /// Reads the name of a map. After a fault it returns some name.
    pub fn marker(&mut self) -> Name8
        ensures reads { Reads (reading self.old) (reading self.new) (Named is_marker)
            (name_text result) }
        ensures range { IsNamed is_marker result }
    {
        match self.next() {
            None => {
                self.note(CommandError::NotACommand);
                FIRST_MAP
            }
            Some(word) => match marker_in(word) {
                Ok(name) => name,
                Err(error) => {
                    self.note(error);
                    FIRST_MAP
                }
            },
        }
    }

    /// Tests that the line ends here, and returns the fault, if there was one.
    pub fn finish(self) -> Result<(), CommandError>
        ensures ok { IfOk result (λ _. IsDone (reading self.entry)) }
        ensures fault { IfErr result (λ e. fault_with (reading self.entry) [] ≡ Some (code_of e)) }
    {
        match (self.rest, self.fault) {
            (Some(_), _) => Err(CommandError::NotACommand),
            (None, Some(error)) => Err(error),
            (None, None) => Ok(()),
        }
    }
}
