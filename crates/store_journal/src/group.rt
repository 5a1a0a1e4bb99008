//! A group of payloads in memory, which go to the disk together.
ghost use Rattle.std.specs.Prelude.{◌≡◌, ◌≤◌, ◌<◌, ◌+◌, ◌++◌, ℕ, List, [], ◌∷◌, length, false, true, IfOk, OnErr, OnOk};
ghost use Rattle.store_disk.specs.Gates.{open_gate};
ghost use Rattle.store_journal.specs.Groups.{IsGroup, IsGroupOf};

use crate::record::{BLOCK, put_block};
use std::alloc::{AllocError, Global};
use std::marker::Model;
use store_disk::{CLOSED_GATE, OPEN_GATE};

/// Payloads that go to the disk together: their records, one after another, and a closed gate.
#[derive(Drop)]
pub struct Group {
    bytes: Vec<u8>,
}

impl Model for Group {
    ghost use Rattle.std.specs.Prelude.{ℕ, List};

    ghost Value = { List ℕ };

    ghost view = { λ group. group.bytes.items };

    ghost use Rattle.store_journal.specs.Groups.{IsGroup};

    ghost invariant = { λ group. IsGroup group.bytes.items };
}

impl Group {
    /// A group of no payloads.
    pub fn new(alloc: Global) -> Result<Group, AllocError>
        ensures { IfOk result (IsGroupOf []) }
    {
        Ok(Group {
            bytes: vec![in alloc; CLOSED_GATE]?,
        })
    }

    /// How many bytes the records take, with the gate after them.
    pub fn len(&self) -> usize
        ensures { result ≡ length self.now }
    {
        self.bytes.len()
    }

    /// Whether there is no payload in it.
    pub fn is_empty(&self) -> bool
        ensures none { result ≡ true → IsGroupOf [] self.now }
        ensures some { result ≡ false → 1 < length self.now }
    {
        self.bytes.len() == 1
    }

    /// Adds a payload of at most 256 bytes. If memory runs out, the group stays as it was.
    pub fn push(&mut self, payload: &[u8]) -> Result<(), AllocError>
        requires short { length payload.now ≤ 256 }
        ensures pushed { OnOk result ((payloads : List (List ℕ)) → IsGroupOf payloads self.old
            → IsGroupOf (payloads ++ payload.now ∷ []) self.new) }
        ensures stays { OnErr result (self.new ≡ self.old) }
    {
        let mut block = [0; BLOCK];
        put_block(&mut block, payload);
        let gate = self.bytes.len() - 1;
        self.bytes.extend_from_slice(&block[..payload.len() + 5])?;
        self.bytes[gate] = OPEN_GATE;
        Ok(())
    }

    /// What stands in the area after the first gate.
    pub(crate) fn behind(&self) -> &[u8]
        requires some { 1 < length self.now }
        ensures all { self.now ≡ open_gate ∷ result.now }
        ensures group { IsGroup (open_gate ∷ result.now) }
    {
        &self.bytes[1..]
    }
}
