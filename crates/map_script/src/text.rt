//! A line that is composed word by word, with a space before each word.
ghost use Rattle.std.specs.Prelude.{◌≡◌, IfOk, IsOkUnless, drop};
ghost use Rattle.map_script.specs.declared.error.DrawError.TheVariants.{OutOfMemory};
ghost use Rattle.map_script.specs.Texts.{with_word};

use crate::error::DrawError;
use std::alloc::Global;

/// Appends a space and a word.
pub fn put_word(text: &mut Vec<u8>, word: &[u8]) -> Result<(), DrawError>
    ensures ok { IfOk result (λ _. text.new.items ≡ with_word text.old.items word.now) }
    ensures memory { IsOkUnless result OutOfMemory }
{
    text.push(b' ')?;
    text.extend_from_slice(word)?;
    Ok(())
}

/// The line without its leading space.
pub fn without_first(mut text: Vec<u8>) -> Vec<u8>
    ensures { result.items ≡ drop 1 text.items }
{
    if !text.is_empty() {
        text.remove(0);
    }
    text
}

/// A copy of a text.
pub fn copied(alloc: Global, text: &[u8]) -> Result<Vec<u8>, DrawError>
    ensures ok { IfOk result (λ copy. copy.items ≡ text.now) }
    ensures memory { IsOkUnless result OutOfMemory }
{
    Ok(text.to_vec(alloc)?)
}
