//! Why a line of a script can't be resolved to a command line, and the number of the refusal.
ghost use Rattle.std.specs.Prelude.{◌≡◌};
ghost use Rattle.map_script.specs.declared.error.DrawError.TheVariants.{OutOfMemory};

use std::alloc::{AllocError, AllocFailed};
use std::fmt;
use thiserror::Error;

/// Why a line of a script can't be resolved to a command line.
#[derive(Clone, Copy, Debug, PartialEq, Eq, Error)]
pub enum DrawError {
    /// Behind `let` stand no name and a word.
    NotALet,
    /// Behind `for` stand no name and two numbers.
    NotALoop,
    /// Behind `at` stand not two or three numbers.
    NotAnAt,
    /// Behind `define` stands no name.
    NotADefine,
    /// A shape is drawn with more or fewer words than it has parameters.
    NotItsWords,
    /// The place of an `at` is none of the map.
    OutsideMap,
    /// The angle of an `at` is no quarter turn, or two, three or none.
    NotAQuarter,
    /// In `NAME = COMMAND` the word before `=` is no name, or that of a `let`, a `for` or a `define` is none or a word
    /// of the language.
    NotAName,
    /// A word that begins with `$` isn't `$NAME`, `$NAME.KIND` or `$KIND(X,Y)`, with or without `+N` after it.
    NotAReference,
    /// A word is the number of an item of another kind than stands in its place.
    OtherKind,
    /// No earlier line has this name.
    UnknownName,
    /// The command of this name added no item of this kind.
    NothingAdded,
    /// The sum is greater than 32,767, the greatest number that a command may have.
    NumberTooLarge,
    /// No item of this kind is at this place.
    NothingThere,
    /// A part of a sum is no number.
    NotANumber,
    /// A quotient in a sum isn't whole, or divides by 0.
    NotWhole,
    /// A number of a sum has more than 64 bits.
    TooGreat,
    /// The parts of a sum nest more than 64 deep.
    TooDeep,
    /// A block has no end, an `end` has no block, a `define` stands in a block, or blocks stand within blocks more than
    /// 64 deep.
    OpenBlock,
    /// The turns of loops and the shapes draw more lines than a script may.
    TooManyLines,
    OutOfMemory,
}

impl fmt::Display for DrawError {
    ghost use Rattle.std.specs.Prelude.{Some};
    ghost use Rattle.map_script.specs.Errors.{message_of};

    ghost output = { λ e. Some (message_of e) };

    fn fmt<W: fmt::Write>(&self, f: &mut fmt::Formatter<W>) -> fmt::Result {
        let (_, text) = self.told();
        f.write_str(text)
    }
}

impl From<AllocError> for DrawError {
    ghost from_gives = { λ _ e. e ≡ OutOfMemory };

    fn from(_e: AllocError) -> DrawError {
        DrawError::OutOfMemory
    }
}

impl<T: Drop> From<AllocFailed<T>> for DrawError {
    ghost from_gives = { λ _ e. e ≡ OutOfMemory };

    fn from(_e: AllocFailed<T>) -> DrawError {
        DrawError::OutOfMemory
    }
}

impl DrawError {
    ghost use Rattle.map_script.specs.Errors.{code_of, message_of};

    /// The refusal's number.
    pub fn code(&self) -> u16
        ensures { result ≡ code_of self.now }
    {
        self.told().0
    }

    // The refusal's number and text.
    fn told(&self) -> (u16, &'static str)
        ensures code { result.0 ≡ code_of self.now }
        ensures text { result.1.now ≡ message_of self.now }
    {
        match self {
            DrawError::NotALet => (1, "a name and one or more words stand behind let"),
            DrawError::NotALoop => (1, "a name and two numbers stand behind for"),
            DrawError::NotAnAt => (1, "two or three numbers stand behind at"),
            DrawError::NotADefine => (1, "a name stands behind define"),
            DrawError::NotItsWords => (1, "a shape has as many words as its define names"),
            DrawError::OutsideMap => (2, "at moves 0 0 to a place from -16384 to 16383"),
            DrawError::NotAQuarter => (2, "ANGLE is 0, 90, 180 or 270"),
            DrawError::NotAName => (20, "a name is a letter, then letters, digits and _"),
            DrawError::NotAReference => (
                21,
                "a reference is $NAME or $NAME.KIND, with or without +N",
            ),
            DrawError::OtherKind => (21, "the number of an item of another kind stands here"),
            DrawError::UnknownName => (22, "no line before has this name"),
            DrawError::NothingAdded => (23, "the command of this name added no such item"),
            DrawError::NumberTooLarge => (24, "the sum is greater than 32767"),
            DrawError::NothingThere => (45, "nothing is at this place"),
            DrawError::NotANumber => (46, "a part of the sum isn't a number"),
            DrawError::NotWhole => (46, "a quotient of the sum isn't a whole number"),
            DrawError::TooGreat => (46, "a number of the sum has more than 64 bits"),
            DrawError::TooDeep => (46, "the parts of the sum nest more than 64 deep"),
            DrawError::OpenBlock => (
                47,
                "a block without its end, an end without a block, a define in a block, or blocks more than 64 deep",
            ),
            DrawError::TooManyLines => (48, "loops and shapes draw more than 1000000 lines"),
            DrawError::OutOfMemory => (31, "out of memory"),
        }
    }
}
