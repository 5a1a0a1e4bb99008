//! What a change writes into a slot.
ghost use Rattle.std.specs.Prelude.{◌≡◌, ◌<◌, ◌^◌, drop, length};
ghost use Rattle.store_slots.specs.Bodies.{content_bytes};

use crate::CheckpointError;
use crate::heads::head_of;
use std::alloc::Global;

/// A generation, the length of a body and the body, as bytes.
#[derive(Drop)]
pub struct Image {
    generation: u64,
    bytes: Vec<u8>,
    ghost whole: { bytes.items ≡ content_bytes generation (drop 12 bytes.items) },
    ghost number: { generation < 2 ^ 64 },
    ghost count: { length (drop 12 bytes.items) < 2 ^ 32 },
}

impl Image {
    ghost use Rattle.std.specs.Prelude.{◌≡◌, ◌<◌, ◌^◌, length, IfOk, IsOkUnless};
    ghost use Rattle.store_slots.specs.Bodies.{content_bytes};
    ghost use Rattle.store_slots.specs.Handles.{body_in, generation_in};

    pub fn write(alloc: Global, generation: u64, body: &[u8]) -> Result<Image, CheckpointError>
        requires { length body.now < 2 ^ 32 }
        ensures made { IfOk result (λ image.
            (generation_in image ≡ generation) × (body_in image ≡ body.now)) }
        ensures memory { IsOkUnless result CheckpointError.OutOfMemory }
    {
        let mut bytes = Vec::with_capacity(alloc, 12 + body.len())?;
        bytes.extend_from_slice(&head_of(generation, body.len() as u32))?;
        bytes.extend_from_slice(body)?;
        Ok(Image { generation, bytes })
    }

    // The bytes to write after the gate.
    pub fn bytes(&self) -> &[u8]
        ensures { result.now ≡ content_bytes (generation_in self.now) (body_in self.now) }
    {
        &self.bytes
    }
}
