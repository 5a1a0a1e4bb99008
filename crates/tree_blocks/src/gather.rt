//! Gathers equal lists of blocks, so that each is written once.
ghost use Rattle.std.specs.Prelude.{◌≡◌, map, OnOk, IfOk, IsOkUnless};
ghost use Rattle.std.specs.List.{position_or_len};
ghost use Rattle.tree_blocks.specs.Layout.{noted, once, place_in, same_numbers};

use crate::error::BlockmapError;
use crate::lists::BlockList;
use indexmap::IndexSet;
use std::alloc::{AllocFailed, Global};

/// The different lists, in the order in which they first occur, and for each block the index of its list among
/// them.
#[derive(Drop)]
pub struct Gathered<'a> {
    pub written: IndexSet<&'a [u16]>,
    pub places: Vec<usize>,
}

// Appends the list if it isn't among them yet, and returns its index.
fn note<'a>(
    written: &mut IndexSet<&'a [u16]>,
    list: &'a [u16],
) -> Result<usize, AllocFailed<&'a [u16]>>
    ensures keys { OnOk result (map (λ l. l.now) written.new.keys
        ≡ noted (map (λ l. l.now) written.old.keys) list.now) }
    ensures place { IfOk result (λ place. place
        ≡ position_or_len (same_numbers list.now) (map (λ l. l.now) written.old.keys)) }
{
    let (place, _new) = written.insert_full(list)?;
    Ok(place)
}

/// Gathers the lists of the blocks, equal ones once.
pub fn gather<'a>(alloc: Global, lists: &'a [BlockList]) -> Result<Gathered<'a>, BlockmapError>
    ensures written { IfOk result (λ g. map (λ l. l.now) g.written.keys ≡ once lists.now) }
    ensures places { IfOk result (λ g. g.places.items ≡ map (place_in (once lists.now)) lists.now) }
    ensures memory { IsOkUnless result BlockmapError.OutOfMemory }
{
    let mut written = IndexSet::new(alloc);
    let mut places = Vec::with_capacity(alloc, lists.len())?;
    for n in 0..lists.len() {
        let place = note(&mut written, lists[n].numbers())?;
        places.push(place)?;
    }
    Ok(Gathered { written, places })
}
