//! Lines that give words a name: `let NAME WORD ..`.
ghost use Rattle.std.specs.Prelude.{◌≡◌, IfErr, IfOk, MatchOption, None, Ok, OnErr, Some, option_copied};
ghost use Rattle.map_script.specs.Known.{scope_of};
ghost use Rattle.map_script.specs.Lines.{TellsScriptFault, let_words, names_after};
ghost use Rattle.map_script.specs.Words.{text_words};

use crate::error::DrawError;
use crate::kinds::only_kind;
use crate::names::Names;
use crate::own_words::is_own_word;
use crate::reference::is_name;
use crate::resolving::{defined_name, replaced};
use crate::words::next_word;
use map_tables::Map;
use std::alloc::Global;

/// The `NAME WORD ..` of a line `let NAME WORD ..`. A line that gives a name `let` by `=` is none.
pub fn let_words(line: &[u8]) -> Option<&[u8]>
    ensures { MatchOption result (let_words (text_words line.now) ≡ None)
        (λ rest. let_words (text_words line.now) ≡ Some (text_words rest.now)) }
{
    let (first, rest) = next_word(line)?;
    if first == b"let".as_slice() && defined_name(line).is_none() {
        Some(rest)
    } else {
        None
    }
}

/// Gives words their name: `text` is the NAME WORD .. of a `let`. The words are resolved first. A single word that is
/// the number of an item keeps the item's kind.
///
/// # Errors
///
/// `NotALet` without a name and a word, `NotAName` if the name is none or a word of the language, the error of the
/// leftmost word that stands for nothing, or `OutOfMemory`. The names are then unchanged.
pub fn give_words(alloc: Global, names: &mut Names, map: &Map, text: &[u8]) -> Result<(), DrawError>
    ensures ok { IfOk result (λ _.
        names_after (scope_of names.old) map.now.tables (text_words text.now)
        ≡ Ok (scope_of names.new)) }
    ensures fault { IfErr result (λ e. TellsScriptFault e
        (names_after (scope_of names.old) map.now.tables (text_words text.now))) }
    ensures unchanged { OnErr result (scope_of names.new ≡ scope_of names.old) }
{
    let Some((name, behind)) = next_word(text) else {
        return Err(DrawError::NotALet);
    };
    if next_word(behind).is_none() {
        return Err(DrawError::NotALet);
    }
    if !is_name(name) || is_own_word(name) {
        return Err(DrawError::NotAName);
    }
    let words = match replaced(alloc, names, map, behind) {
        Ok(words) => words,
        Err(error) => return Err(error),
    };
    let kind = only_kind(names, behind);
    names.define_words(alloc, name, &words, kind)
}
