//! Says what was wrong with a line that gives a name, opens a block or defines a shape.
use crate::calling::says;
use crate::reasons::reason_of_reference;
use map_script::{DrawError, Names, at_placing, resolve};
use map_tables::Map;
use std::alloc::{AllocError, Global};

/// Says what was wrong with the NAME WORD .. of a `let`.
pub fn reason_of_let(
    alloc: Global,
    map: &Map,
    names: &Names,
    words: &[u8],
    code: u16,
) -> Result<String, AllocError> {
    match code {
        1 => format!(in alloc; "this is its form: let NAME WORD .."),
        20 => format!(in alloc;
            "NAME is a letter, then letters, digits and _, and no word of the language"
        ),
        _ => match resolve(alloc, names, map, words) {
            Ok(_) => says(alloc, code),
            Err(error) => reason_of_reference(alloc, map, names, words, error),
        },
    }
}

/// Says what was wrong with the NAME FROM TO of a loop.
pub fn reason_of_loop(
    alloc: Global,
    map: &Map,
    names: &Names,
    words: &[u8],
    code: u16,
) -> Result<String, AllocError> {
    match code {
        1 => format!(in alloc; "this is its form: for NAME FROM TO"),
        20 => reason_of_let(alloc, map, names, words, code),
        _ => match resolve(alloc, names, map, words) {
            Ok(_) if code == 46 => format!(in alloc; "FROM and TO are whole numbers of 64 bits"),
            Ok(_) => says(alloc, code),
            Err(error) => reason_of_reference(alloc, map, names, words, error),
        },
    }
}

/// Says what was wrong with the X Y [ANGLE] of an `at`.
pub fn reason_of_at(
    alloc: Global,
    map: &Map,
    names: &Names,
    words: &[u8],
    code: u16,
) -> Result<String, AllocError> {
    match (code, at_placing(alloc, names, map, words)) {
        (1, _) => format!(in alloc; "this is its form: at X Y [ANGLE]"),
        (2, Err(error)) => format!(in alloc; "{error}"),
        _ => match resolve(alloc, names, map, words) {
            Ok(_) if code == 46 => format!(in alloc; "X, Y and ANGLE are whole numbers"),
            Ok(_) => says(alloc, code),
            Err(error) => reason_of_reference(alloc, map, names, words, error),
        },
    }
}

/// Says what was wrong with the NAME PARAM .. of a `define`.
pub fn reason_of_define(alloc: Global, code: u16) -> Result<String, AllocError> {
    match code {
        1 => format!(in alloc; "this is its form: define NAME PARAM .."),
        20 => format!(in alloc;
            "NAME and each PARAM is a letter, then letters, digits and _, and no word of the language"
        ),
        _ => says(alloc, code),
    }
}
