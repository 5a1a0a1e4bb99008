//! The words of BLOCKMAP: the header, the offsets and the lists.
ghost use Rattle.std.specs.Prelude.{◌≡◌, ◌≤◌, ◌<◌, ◌++◌, All, flat_map, length, map, slice_index};
ghost use Rattle.std.specs.Prelude.{IfOk, OnOk, IsOkUnless, IsErrOf};
ghost use Rattle.lump_records.specs.Fields.{unsigned};
ghost use Rattle.tree_blocks.specs.Blocks.{IsGrid};
ghost use Rattle.tree_blocks.specs.Layout.{OffsetsFit, blockmap_words, greatest_offset, header};
ghost use Rattle.tree_blocks.specs.Layout.{list_words, starts, word_bytes};

use crate::error::BlockmapError;
use crate::gather::gather;
use crate::grid::Grid;
use crate::lists::BlockList;
use std::alloc::Global;

// The greatest offset that is the same as a signed and as an unsigned word.
const GREATEST_OFFSET: usize = 32767;

// The word that ends a list.
const LIST_END: u16 = 0xffff;

// The offset, in words, of each of these lists, if they follow one another from `first` on.
fn starts_of(alloc: Global, first: usize, lists: &[&[u16]]) -> Result<Vec<u16>, BlockmapError>
    ensures ok { IfOk result (λ v. v.items ≡ starts first (map (λ l. l.now) lists.now)) }
    ensures fit { OnOk result
        (All (λ at. at ≤ greatest_offset) (starts first (map (λ l. l.now) lists.now))) }
    ensures too_large { IsErrOf result BlockmapError.BlockmapTooLarge
        → ¬ All (λ at. at ≤ greatest_offset) (starts first (map (λ l. l.now) lists.now)) }
    ensures some_line { ¬ IsErrOf result BlockmapError.NothingToBuild }
{
    let mut starts = Vec::with_capacity(alloc, lists.len())?;
    let mut at = first;
    for list in lists {
        if at > GREATEST_OFFSET {
            return Err(BlockmapError::BlockmapTooLarge);
        }
        starts.push(at as u16)?;
        at += 2 + list.len();
    }
    Ok(starts)
}

// Appends a word, its lower byte first.
fn put_word(bytes: &mut Vec<u8>, word: u16) -> Result<(), BlockmapError>
    ensures ok { OnOk result (bytes.new.items ≡ bytes.old.items ++ unsigned word) }
    ensures memory { IsOkUnless result BlockmapError.OutOfMemory }
{
    bytes.extend_from_slice(&word.to_le_bytes())?;
    Ok(())
}

// Appends words.
fn put_words(bytes: &mut Vec<u8>, words: &[u16]) -> Result<(), BlockmapError>
    ensures ok { OnOk result (bytes.new.items ≡ bytes.old.items ++ word_bytes words.now) }
    ensures memory { IsOkUnless result BlockmapError.OutOfMemory }
{
    for word in words {
        put_word(bytes, *word)?;
    }
    Ok(())
}

// Appends the header: the origin, and the numbers of columns and rows.
fn put_header(bytes: &mut Vec<u8>, grid: Grid) -> Result<(), BlockmapError>
    requires { IsGrid grid }
    ensures ok { OnOk result (bytes.new.items ≡ bytes.old.items ++ word_bytes (header grid)) }
    ensures memory { IsOkUnless result BlockmapError.OutOfMemory }
{
    put_words(
        bytes,
        &[
            grid.left.cast_unsigned(),
            grid.bottom.cast_unsigned(),
            grid.columns as u16,
            grid.rows as u16,
        ],
    )
}

// Appends the offset of each block: the start of its list, which is given by its index.
fn put_offsets(bytes: &mut Vec<u8>, places: &[usize], starts: &[u16]) -> Result<(), BlockmapError>
    requires { All (λ place. place < length starts.now) places.now }
    ensures ok { OnOk result (bytes.new.items
        ≡ bytes.old.items ++ word_bytes (map (λ place. slice_index starts.now place) places.now)) }
    ensures memory { IsOkUnless result BlockmapError.OutOfMemory }
{
    for place in places {
        put_word(bytes, starts[*place])?;
    }
    Ok(())
}

// Appends a list's words: 0, its lines, and the end.
fn put_list(bytes: &mut Vec<u8>, list: &[u16]) -> Result<(), BlockmapError>
    ensures ok { OnOk result (bytes.new.items
        ≡ bytes.old.items ++ word_bytes (list_words list.now)) }
    ensures memory { IsOkUnless result BlockmapError.OutOfMemory }
{
    put_word(bytes, 0)?;
    put_words(bytes, list)?;
    put_word(bytes, LIST_END)
}

// Appends the lists, one after another.
fn put_lists(bytes: &mut Vec<u8>, lists: &[&[u16]]) -> Result<(), BlockmapError>
    ensures ok { OnOk result (bytes.new.items
        ≡ bytes.old.items ++ word_bytes (flat_map list_words (map (λ l. l.now) lists.now))) }
    ensures memory { IsOkUnless result BlockmapError.OutOfMemory }
{
    for list in lists {
        put_list(bytes, list)?;
    }
    Ok(())
}

/// The bytes of BLOCKMAP for the blocks' lists, equal ones written once.
pub fn lay_out(alloc: Global, grid: Grid, lists: &[BlockList]) -> Result<Vec<u8>, BlockmapError>
    requires { IsGrid grid }
    ensures ok { IfOk result (λ v. v.items ≡ word_bytes (blockmap_words grid lists.now)) }
    ensures fit { OnOk result (OffsetsFit lists.now) }
    ensures too_large { IsErrOf result BlockmapError.BlockmapTooLarge → ¬ OffsetsFit lists.now }
    ensures some_line { ¬ IsErrOf result BlockmapError.NothingToBuild }
{
    let gathered = gather(alloc, lists)?;
    let written = gathered.written.as_slice();
    let starts = match starts_of(alloc, 4 + lists.len(), written) {
        Ok(starts) => starts,
        Err(error) => return Err(error),
    };
    let mut bytes = Vec::new(alloc);
    put_header(&mut bytes, grid)?;
    put_offsets(&mut bytes, &gathered.places, &starts)?;
    put_lists(&mut bytes, written)?;
    Ok(bytes)
}
