//! Where the items of maps come from, as it is written behind findings and warnings.
ghost use Rattle.std.specs.Prelude.{◌≡◌, ◌++◌, ◌∷◌, [], List, ℕ, IfErr, IfOk, MatchResult, filter, not};
ghost use Rattle.std.specs.List.{concat};
ghost use Rattle.std.specs.Str.{bytes_eq};
ghost use Rattle.std.specs.Io.KnownBytes.{Appends};
ghost use Rattle.lump_records.specs.Names.{name_text};
ghost use Rattle.map_tables.specs.declared.kind.Kind.{Kind};
ghost use Rattle.run_edit.specs.declared.error.EditorError.TheVariants.{OutOfMemory, WriterFailed};
ghost use Rattle.cli_print.specs.Origins.{items_in, origins_text};

use crate::items::{About, Item};
use lump_records::Name8;
use map_tables::Kind;
use run_edit::EditorError;
use std::alloc::Global;
use std::io::Write;

/// Says where the items of maps come from.
pub trait Origin {
    // What is written behind a finding about the item of a kind and a number, in the map with this name.
    ghost origin: { Self → List ℕ → Kind → ℕ → List ℕ };

    /// Writes where an item comes from, behind a blank; nothing if it isn't known.
    ///
    /// # Errors
    ///
    /// Only `WriterFailed`.
    fn write_origin<W: Write>(
        &self,
        map: &Name8,
        kind: Kind,
        n: u32,
        writer: &mut W,
    ) -> Result<(), EditorError>
        ensures { MatchResult result
            (λ _. Appends (W.contents writer.old) (W.contents writer.new)
            (origin self.now (name_text map.now) kind n))
            (λ e. e ≡ WriterFailed) };
}

/// For projects and WADs, which don't say where their items come from: writes nothing.
pub struct NoOrigin;

impl Origin for NoOrigin {
    ghost use Rattle.cli_print.specs.Origins.{no_origin};

    ghost origin = { λ _. no_origin };

    fn write_origin<W: Write>(
        &self,
        _map: &Name8,
        _kind: Kind,
        _n: u32,
        _writer: &mut W,
    ) -> Result<(), EditorError> {
        Ok(())
    }
}

/// Puts bytes behind a text.
pub(crate) fn put(more: &[u8], text: &mut Vec<u8>) -> Result<(), EditorError>
    ensures put { IfOk result (λ _. text.new.items ≡ text.old.items ++ more.now) }
    ensures memory { IfErr result (λ e. e ≡ OutOfMemory) }
{
    match text.extend_from_slice(more) {
        Ok(()) => Ok(()),
        Err(_) => Err(EditorError::OutOfMemory),
    }
}

// Puts where an item comes from behind a text.
fn put_origin<O: Origin>(
    map: &Name8,
    item: Item,
    origin: &O,
    text: &mut Vec<u8>,
) -> Result<(), EditorError>
    ensures put { IfOk result (λ _. text.new.items ≡ text.old.items
        ++ O.origin origin.now (name_text map.now) item.kind item.number) }
    ensures memory { IfErr result (λ e. e ≡ OutOfMemory) }
{
    match origin.write_origin(map, item.kind, item.number, text) {
        Ok(()) => Ok(()),
        Err(_) => Err(EditorError::OutOfMemory),
    }
}

// Puts where an item comes from behind a text, unless the same was told of another one.
fn put_another<O: Origin>(
    alloc: Global,
    map: &Name8,
    item: Item,
    told: &[u8],
    origin: &O,
    text: &mut Vec<u8>,
) -> Result<(), EditorError>
    ensures put { IfOk result (λ _. text.new.items ≡ text.old.items
        ++ concat (filter (λ t. not (bytes_eq t told.now))
        (O.origin origin.now (name_text map.now) item.kind item.number ∷ []))) }
    ensures memory { IfErr result (λ e. e ≡ OutOfMemory) }
{
    let mut other = Vec::new(alloc);
    put_origin(map, item, origin, &mut other)?;
    if other.as_slice() == told {
        return Ok(());
    }
    put(&other, text)
}

// Puts where two items come from behind a text, once if both come from there.
fn put_both<O: Origin>(
    alloc: Global,
    map: &Name8,
    first: Item,
    second: Item,
    origin: &O,
    text: &mut Vec<u8>,
) -> Result<(), EditorError>
    ensures put { IfOk result (λ _. text.new.items ≡ text.old.items
        ++ origins_text (O.origin origin.now) (name_text map.now) (first ∷ second ∷ [])) }
    ensures memory { IfErr result (λ e. e ≡ OutOfMemory) }
{
    let mut told = Vec::new(alloc);
    put_origin(map, first, origin, &mut told)?;
    put(&told, text)?;
    put_another(alloc, map, second, &told, origin, text)
}

/// Puts where the items come from behind a text.
pub(crate) fn put_origins<O: Origin>(
    alloc: Global,
    map: &Name8,
    about: About,
    origin: &O,
    text: &mut Vec<u8>,
) -> Result<(), EditorError>
    ensures put { IfOk result (λ _. text.new.items ≡ text.old.items
        ++ origins_text (O.origin origin.now) (name_text map.now) (items_in about)) }
    ensures memory { IfErr result (λ e. e ≡ OutOfMemory) }
{
    match about {
        About::WholeMap => Ok(()),
        About::One(item) => put_origin(map, item, origin, text),
        About::Two(first, second) => put_both(alloc, map, first, second, origin, text),
    }
}
