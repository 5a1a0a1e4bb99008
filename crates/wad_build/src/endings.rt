//! Finds, in one pass, from which words on a list of a blockmap ends properly.
ghost use Rattle.std.specs.Prelude.{◌≡◌, ◌≤◌, ◌<◌, ◌+◌, ◌||◌, ◌&&◌, ◌==◌, IfOk, IsOkUnless, length, min};
ghost use Rattle.wad_build.specs.Endings.{AreEndings, is_line};

use std::alloc::Global;
use wad_levels::ReadError;

// The greatest offset of a block's list.
const PLACES: usize = 32768;

// Whether the words from this one on name lines up to an end: the word is the end, or it names a line and the words
// after it do so.
fn goes_on(word: u16, lines: usize, behind: bool) -> bool
    ensures { result ≡ ((word == 65535) || (is_line lines word && behind)) }
{
    word == 0xffff || ((word as usize) < lines && word <= 32767 && behind)
}

/// Returns for each of the first 32,768 words whether the words from it on name lines up to an end. It makes one
/// pass over the words.
pub fn flags_of(alloc: Global, words: &[u16], lines: usize) -> Result<Vec<bool>, ReadError>
    ensures each { IfOk result (λ v. AreEndings lines words.now 0 v.items) }
    ensures length { IfOk result (λ v. length v.items ≡ min (length words.now) 32768) }
    ensures memory { IsOkUnless result ReadError.OutOfMemory }
{
    let mut flags = vec![in alloc; false; words.len().min(PLACES)]?;
    let mut ends = false;
    for behind in 0..words.len() {
        let place = words.len() - 1 - behind;
        ends = goes_on(words[place], lines, ends);
        if place < flags.len() {
            flags[place] = ends;
        }
    }
    Ok(flags)
}
