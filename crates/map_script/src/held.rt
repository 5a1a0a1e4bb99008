//! The names that open blocks hold, and where the newest of each stands.
ghost use Rattle.std.specs.Prelude.{◌≡◌};
ghost use Rattle.map_script.specs.Held.{held_place};

use crate::error::DrawError;
use crate::meaning::Meaning;
use crate::text::copied;
use indexmap::IndexMap;
use std::alloc::Global;
use std::marker::Model;

/// A held name, what it stands for, and where the newest one stands that it hides.
#[derive(Drop)]
pub struct Entry {
    pub name: Vec<u8>,
    pub meaning: Meaning,
    pub hidden: Option<usize>,
}

/// The names that blocks hold. A newer one hides an older one of the same name.
#[derive(Drop)]
pub struct Held {
    entries: Vec<Entry>,
    newest: IndexMap<Vec<u8>, Option<usize>>,
}

impl Model for Held {
    ghost use Rattle.std.specs.Prelude.{ℕ, List, []};
    ghost use Rattle.map_script.specs.Held.{HasNewest, in_front_of};
    ghost use Rattle.map_script.specs.Meant.{Meant};

    ghost Value = { List (List ℕ × Meant) };

    ghost view = { λ h. in_front_of h.entries.items [] };

    ghost invariant = { λ h. HasNewest h.entries.items h.newest.entries };
}

// Where the newest of a name stands.
fn held_place(newest: &IndexMap<Vec<u8>, Option<usize>>, name: &[u8]) -> Option<usize>
    ensures { result ≡ held_place newest.now.entries name.now }
{
    match newest.get(name) {
        Some(place) => *place,
        None => None,
    }
}

impl Held {
    ghost use Rattle.std.specs.Prelude.{◌≡◌, ◌-◌, ◌∷◌, [], drop, length, IfOk, IsOkUnless, OnErr, option_copied};
    ghost use Rattle.map_script.specs.Held.{Replaces};
    ghost use Rattle.map_script.specs.Meant.{meant, meant_by, meant_in};
    ghost use Rattle.map_script.specs.declared.error.DrawError.TheVariants.{OutOfMemory};

    /// Without any name. It allocates no memory.
    pub fn new(alloc: Global) -> Self
        ensures { result ≡ [] }
    {
        Held {
            entries: Vec::new(alloc),
            newest: IndexMap::new(alloc),
        }
    }

    /// How many names are held.
    pub fn len(&self) -> usize
        ensures { result ≡ length self.now }
    {
        self.entries.len()
    }

    /// What a name stands for, if it is held.
    pub fn find(&self, name: &[u8]) -> Option<&Meaning>
        ensures { meant_in (option_copied result) ≡ meant_by self.now name.now }
    {
        match held_place(&self.newest, name) {
            Some(place) => Some(&self.entries[place].meaning),
            None => None,
        }
    }

    /// Gives a held name another meaning. Returns the meaning if the name isn't held.
    pub fn replace(&mut self, name: &[u8], meaning: Meaning) -> Option<Meaning>
        ensures { Replaces self.old name.now meaning result self.new }
    {
        match held_place(&self.newest, name) {
            Some(place) => {
                self.entries[place].meaning = meaning;
                None
            }
            None => Some(meaning),
        }
    }

    /// Holds a name.
    ///
    /// # Errors
    ///
    /// `OutOfMemory`: the names are unchanged.
    pub fn push(&mut self, alloc: Global, name: &[u8], meaning: Meaning) -> Result<(), DrawError>
        ensures ok { IfOk result (λ _. self.new ≡ (name.now, meant meaning) ∷ self.old) }
        ensures memory { IsOkUnless result OutOfMemory }
        ensures refused { OnErr result (self.new ≡ self.old) }
    {
        let key = copied(alloc, name)?;
        let name = copied(alloc, name)?;
        let hidden = held_place(&self.newest, &name);
        let place = self.entries.len();
        self.entries.push(Entry {
            name,
            meaning,
            hidden,
        })?;
        match self.newest.insert(key, Some(place)) {
            Ok(_) => {}
            Err(_) => {
                self.entries.pop();
                return Err(DrawError::OutOfMemory);
            }
        }
        Ok(())
    }

    // Lets go of the newest name. The one that it hid is known again.
    fn pop(&mut self)
        ensures { self.new ≡ drop 1 self.old }
    {
        let Some(entry) = self.entries.pop() else {
            return;
        };
        match self.newest.insert(entry.name, entry.hidden) {
            Ok(_) => {}
            Err(_) => unreachable!(),
        }
    }

    /// Lets go of the newest names, but for so many.
    pub fn truncate(&mut self, len: usize)
        ensures { self.new ≡ drop (length self.old - len) self.old }
    {
        let count = self.len().saturating_sub(len);
        for _name in 0..count {
            self.pop();
        }
    }
}
