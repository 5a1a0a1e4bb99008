//! The lumps that a build makes of a level, as bytes.
ghost use Rattle.std.specs.Prelude.{◌≡◌, IfOk, IsOkUnless};
ghost use Rattle.std.specs.Option.{option_map_or};
ghost use Rattle.wad_rebuild.specs.Made.{HasRecords};
ghost use Rattle.wad_build.specs.Reject.{reject_size};
ghost use Rattle.wad_rebuild.specs.Remade.{reject_over};

use crate::cause::Cause;
use crate::kept::KeptFault;
use lump_records::{encode_nodes, encode_segs, encode_subs, encode_vertices};
use std::alloc::Global;
use tree_nodes::Built;
use wad_build::reject;

/// The lumps that a build makes of a level, as bytes: VERTEXES, SEGS, SSECTORS, NODES, BLOCKMAP, and REJECT unless the
/// level keeps its own; and the faults of its lines that prevent no build, and so stay.
pub struct MadeLumps {
    pub vertices: Vec<u8>,
    pub segs: Vec<u8>,
    pub subs: Vec<u8>,
    pub nodes: Vec<u8>,
    pub reject: Option<Vec<u8>>,
    pub blockmap: Vec<u8>,
    pub kept: Vec<KeptFault>,
}

// Its own `drop`, so that an owner's proof has one call at each exit.
impl Drop for MadeLumps {
    fn drop(self) {
        let MadeLumps {
            vertices: _vertices,
            segs: _segs,
            subs: _subs,
            nodes: _nodes,
            reject: _reject,
            blockmap: _blockmap,
            kept: _kept,
        } = self;
    }
}

// The length of REJECT for this many sectors, in bytes.
fn reject_size(sectors: u16) -> u64
    ensures { result ≡ reject_size sectors }
{
    let pairs = u64::from(sectors) * u64::from(sectors);
    (pairs + 7) / 8
}

/// A new REJECT of zeros; none if the given bytes are enough for this many sectors, and stay.
pub fn new_reject(alloc: Global, sectors: u16, given: &[u8]) -> Result<Option<Vec<u8>>, Cause>
    ensures bytes { IfOk result (λ new. option_map_or (λ v. v.items) new given.now
        ≡ reject_over sectors given.now) }
    ensures memory { IsOkUnless result Cause.OutOfMemory }
{
    if reject_size(sectors) <= given.len() as u64 {
        return Ok(None);
    }
    match reject(alloc, sectors) {
        Ok(bytes) => Ok(Some(bytes)),
        Err(_) => Err(Cause::OutOfMemory),
    }
}

/// The lumps of a tree, the bytes of REJECT and BLOCKMAP, and the faults that stay.
pub fn lumps_of(
    alloc: Global,
    tree: &Built,
    reject: Option<Vec<u8>>,
    blockmap: Vec<u8>,
    kept: Vec<KeptFault>,
) -> Result<MadeLumps, Cause>
    ensures records { IfOk result (HasRecords tree.now) }
    ensures reject { IfOk result (λ m. m.reject ≡ reject) }
    ensures blockmap { IfOk result (λ m. m.blockmap.items ≡ blockmap.items) }
    ensures kept { IfOk result (λ m. m.kept.items ≡ kept.items) }
    ensures memory { IsOkUnless result Cause.OutOfMemory }
{
    Ok(MadeLumps {
        vertices: encode_vertices(alloc, &tree.vertices).map_err(|_| Cause::OutOfMemory)?,
        segs: encode_segs(alloc, &tree.segs).map_err(|_| Cause::OutOfMemory)?,
        subs: encode_subs(alloc, &tree.subs).map_err(|_| Cause::OutOfMemory)?,
        nodes: encode_nodes(alloc, &tree.nodes).map_err(|_| Cause::OutOfMemory)?,
        reject,
        blockmap,
        kept,
    })
}
