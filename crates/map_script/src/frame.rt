//! The names of a script itself, or of a shape that is being drawn.
ghost use Rattle.std.specs.Prelude.{◌≡◌};

use crate::error::DrawError;
use crate::firsts::Firsts;
use crate::held::Held;
use crate::meaning::Meaning;
use crate::referent::Referent;
use crate::text::copied;
use indexmap::IndexMap;
use std::alloc::Global;

/// Names, and what they stand for. Those that open blocks hold hide the others, and go with their block.
#[derive(Drop)]
pub struct Frame {
    pub table: IndexMap<Vec<u8>, Meaning>,
    pub held: Held,
}

impl Frame {
    ghost use Rattle.std.specs.Prelude.{◌≡◌, ◌∷◌, [], length, IfOk, IsOkUnless, OnErr, option_copied};
    ghost use Rattle.map_script.specs.Frames.{layer_of, known_in};
    ghost use Rattle.map_script.specs.Layers.{first_layer, layer_given, layer_held, layer_less};
    ghost use Rattle.map_script.specs.Meant.{meant_by, meant_in};
    ghost use Rattle.map_script.specs.declared.error.DrawError.TheVariants.{OutOfMemory};

    /// Without any name. It allocates no memory.
    pub fn new(alloc: Global) -> Self
        ensures { layer_of result ≡ first_layer }
    {
        Frame {
            table: IndexMap::new(alloc),
            held: Held::new(alloc),
        }
    }

    /// What a name stands for, if it is one of these.
    pub fn find(&self, name: &[u8]) -> Option<&Meaning>
        ensures { meant_in (option_copied result) ≡ meant_by (known_in self.now) name.now }
    {
        match self.held.find(name) {
            Some(meaning) => Some(meaning),
            None => self.table.get(name),
        }
    }

    /// Defines a name by what it stands for, where it is held, else behind the others.
    ///
    /// # Errors
    ///
    /// `OutOfMemory`: the names are unchanged.
    pub fn give(
        &mut self,
        alloc: Global,
        name: &[u8],
        words: &[u8],
        referent: Referent,
        firsts: Firsts,
    ) -> Result<(), DrawError>
        ensures ok { IfOk result (λ _. layer_of self.new ≡ layer_given (layer_of self.old) name.now
            (record { words = words.now; referent = referent; firsts = firsts })) }
        ensures memory { IsOkUnless result OutOfMemory }
        ensures refused { OnErr result (layer_of self.new ≡ layer_of self.old) }
    {
        let key = copied(alloc, name)?;
        let words = copied(alloc, words)?;
        let meaning = Meaning {
            words,
            referent,
            firsts,
        };
        let Some(meaning) = self.held.replace(name, meaning) else {
            return Ok(());
        };
        match self.table.insert(key, meaning) {
            Ok(_) => Ok(()),
            Err(_) => Err(DrawError::OutOfMemory),
        }
    }

    /// Holds a name that stands for words, for the open block.
    ///
    /// # Errors
    ///
    /// `OutOfMemory`: the names are unchanged.
    pub fn hold(
        &mut self,
        alloc: Global,
        name: &[u8],
        words: &[u8],
        referent: Referent,
        firsts: Firsts,
    ) -> Result<(), DrawError>
        ensures ok { IfOk result (λ _. layer_of self.new ≡ layer_held (layer_of self.old) name.now
            (record { words = words.now; referent = referent; firsts = firsts })) }
        ensures memory { IsOkUnless result OutOfMemory }
        ensures refused { OnErr result (layer_of self.new ≡ layer_of self.old) }
    {
        let words = copied(alloc, words)?;
        let meaning = Meaning {
            words,
            referent,
            firsts,
        };
        self.held.push(alloc, name, meaning)
    }

    /// Lets go of the newest held names, but for so many.
    pub fn release(&mut self, held: usize)
        ensures { layer_of self.new ≡ layer_less (layer_of self.old) held }
    {
        self.held.truncate(held);
    }
}
