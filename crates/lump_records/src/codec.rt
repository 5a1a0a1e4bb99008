//! Encodes each record as its bytes in a lump, and decodes it.
ghost use Rattle.std.specs.Prelude.{◌≡◌, ◌+◌, ◌≤◌, length};
ghost use Rattle.lump_records.specs.Records.{bounds_at, line_at, line_record, node_at, node_record, sector_at, sector_record};
ghost use Rattle.lump_records.specs.Records.{seg_at, seg_record, side_at, side_record, sub_at, sub_record};
ghost use Rattle.lump_records.specs.Records.{thing_at, thing_record, vertex_at, vertex_record};

use crate::fields::{name_field, put_name, put_signed, put_unsigned, signed_field, unsigned_field};
use crate::records::{Bounds, Line, Node, Sector, Seg, Side, Sub, Thing, Vertex};

/// The thing's 10 bytes in THINGS.
pub fn thing_bytes(thing: &Thing) -> [u8; 10]
    ensures record { result ≡ thing_record thing.now }
    ensures inverse { thing_at result ≡ thing.now }
{
    let mut bytes = [0; 10];
    put_signed(&mut bytes, 0, thing.x);
    put_signed(&mut bytes, 2, thing.y);
    put_signed(&mut bytes, 4, thing.angle);
    put_signed(&mut bytes, 6, thing.kind);
    put_signed(&mut bytes, 8, thing.options);
    bytes
}

/// The thing that 10 bytes of THINGS hold.
pub fn thing_of(bytes: &[u8; 10]) -> Thing
    ensures value { result ≡ thing_at bytes.now }
    ensures inverse { thing_record result ≡ bytes.now }
{
    Thing {
        x: signed_field(bytes, 0),
        y: signed_field(bytes, 2),
        angle: signed_field(bytes, 4),
        kind: signed_field(bytes, 6),
        options: signed_field(bytes, 8),
    }
}

/// The line's 14 bytes in LINEDEFS.
pub fn line_bytes(line: &Line) -> [u8; 14]
    ensures record { result ≡ line_record line.now }
    ensures inverse { line_at result ≡ line.now }
{
    let mut bytes = [0; 14];
    put_unsigned(&mut bytes, 0, line.v1);
    put_unsigned(&mut bytes, 2, line.v2);
    put_unsigned(&mut bytes, 4, line.flags);
    put_unsigned(&mut bytes, 6, line.special);
    put_unsigned(&mut bytes, 8, line.tag);
    put_unsigned(&mut bytes, 10, line.right);
    put_unsigned(&mut bytes, 12, line.left);
    bytes
}

/// The line that 14 bytes of LINEDEFS hold.
pub fn line_of(bytes: &[u8; 14]) -> Line
    ensures value { result ≡ line_at bytes.now }
    ensures inverse { line_record result ≡ bytes.now }
{
    Line {
        v1: unsigned_field(bytes, 0),
        v2: unsigned_field(bytes, 2),
        flags: unsigned_field(bytes, 4),
        special: unsigned_field(bytes, 6),
        tag: unsigned_field(bytes, 8),
        right: unsigned_field(bytes, 10),
        left: unsigned_field(bytes, 12),
    }
}

/// The side's 30 bytes in SIDEDEFS.
pub fn side_bytes(side: &Side) -> [u8; 30]
    ensures record { result ≡ side_record side.now }
    ensures inverse { side_at result ≡ side.now }
{
    let mut bytes = [0; 30];
    put_signed(&mut bytes, 0, side.x_offset);
    put_signed(&mut bytes, 2, side.y_offset);
    put_name(&mut bytes, 4, &side.upper);
    put_name(&mut bytes, 12, &side.lower);
    put_name(&mut bytes, 20, &side.middle);
    put_unsigned(&mut bytes, 28, side.sector);
    bytes
}

/// The side that 30 bytes of SIDEDEFS hold.
pub fn side_of(bytes: &[u8; 30]) -> Side
    ensures value { result ≡ side_at bytes.now }
    ensures inverse { side_record result ≡ bytes.now }
{
    Side {
        x_offset: signed_field(bytes, 0),
        y_offset: signed_field(bytes, 2),
        upper: name_field(bytes, 4),
        lower: name_field(bytes, 12),
        middle: name_field(bytes, 20),
        sector: unsigned_field(bytes, 28),
    }
}

/// The vertex's 4 bytes in VERTEXES.
pub fn vertex_bytes(vertex: &Vertex) -> [u8; 4]
    ensures record { result ≡ vertex_record vertex.now }
    ensures inverse { vertex_at result ≡ vertex.now }
{
    let mut bytes = [0; 4];
    put_signed(&mut bytes, 0, vertex.x);
    put_signed(&mut bytes, 2, vertex.y);
    bytes
}

/// The vertex that 4 bytes of VERTEXES hold.
pub fn vertex_of(bytes: &[u8; 4]) -> Vertex
    ensures value { result ≡ vertex_at bytes.now }
    ensures inverse { vertex_record result ≡ bytes.now }
{
    Vertex {
        x: signed_field(bytes, 0),
        y: signed_field(bytes, 2),
    }
}

/// The seg's 12 bytes in SEGS.
pub fn seg_bytes(seg: &Seg) -> [u8; 12]
    ensures record { result ≡ seg_record seg.now }
    ensures inverse { seg_at result ≡ seg.now }
{
    let mut bytes = [0; 12];
    put_unsigned(&mut bytes, 0, seg.first);
    put_unsigned(&mut bytes, 2, seg.second);
    put_unsigned(&mut bytes, 4, seg.angle);
    put_unsigned(&mut bytes, 6, seg.line);
    put_unsigned(&mut bytes, 8, seg.side);
    put_unsigned(&mut bytes, 10, seg.offset);
    bytes
}

/// The seg that 12 bytes of SEGS hold.
pub fn seg_of(bytes: &[u8; 12]) -> Seg
    ensures value { result ≡ seg_at bytes.now }
    ensures inverse { seg_record result ≡ bytes.now }
{
    Seg {
        first: unsigned_field(bytes, 0),
        second: unsigned_field(bytes, 2),
        angle: unsigned_field(bytes, 4),
        line: unsigned_field(bytes, 6),
        side: unsigned_field(bytes, 8),
        offset: unsigned_field(bytes, 10),
    }
}

/// The subsector's 4 bytes in SSECTORS.
pub fn sub_bytes(sub: &Sub) -> [u8; 4]
    ensures record { result ≡ sub_record sub.now }
    ensures inverse { sub_at result ≡ sub.now }
{
    let mut bytes = [0; 4];
    put_unsigned(&mut bytes, 0, sub.count);
    put_unsigned(&mut bytes, 2, sub.first);
    bytes
}

/// The subsector that 4 bytes of SSECTORS hold.
pub fn sub_of(bytes: &[u8; 4]) -> Sub
    ensures value { result ≡ sub_at bytes.now }
    ensures inverse { sub_record result ≡ bytes.now }
{
    Sub {
        count: unsigned_field(bytes, 0),
        first: unsigned_field(bytes, 2),
    }
}

/// The node's 28 bytes in NODES.
pub fn node_bytes(node: &Node) -> [u8; 28]
    ensures record { result ≡ node_record node.now }
    ensures inverse { node_at result ≡ node.now }
{
    let mut bytes = [0; 28];
    put_signed(&mut bytes, 0, node.x);
    put_signed(&mut bytes, 2, node.y);
    put_signed(&mut bytes, 4, node.dx);
    put_signed(&mut bytes, 6, node.dy);
    put_signed(&mut bytes, 8, node.right_box.top);
    put_signed(&mut bytes, 10, node.right_box.bottom);
    put_signed(&mut bytes, 12, node.right_box.left);
    put_signed(&mut bytes, 14, node.right_box.right);
    put_signed(&mut bytes, 16, node.left_box.top);
    put_signed(&mut bytes, 18, node.left_box.bottom);
    put_signed(&mut bytes, 20, node.left_box.left);
    put_signed(&mut bytes, 22, node.left_box.right);
    put_unsigned(&mut bytes, 24, node.right);
    put_unsigned(&mut bytes, 26, node.left);
    bytes
}

/// The node that 28 bytes of NODES hold.
pub fn node_of(bytes: &[u8; 28]) -> Node
    ensures value { result ≡ node_at bytes.now }
    ensures inverse { node_record result ≡ bytes.now }
{
    Node {
        x: signed_field(bytes, 0),
        y: signed_field(bytes, 2),
        dx: signed_field(bytes, 4),
        dy: signed_field(bytes, 6),
        right_box: bounds_field(bytes, 8),
        left_box: bounds_field(bytes, 16),
        right: unsigned_field(bytes, 24),
        left: unsigned_field(bytes, 26),
    }
}

// The box that starts at byte `at` of a node: four signed fields.
fn bounds_field(bytes: &[u8], at: usize) -> Bounds
    requires { at + 8 ≤ length bytes.now }
    ensures { result ≡ bounds_at at bytes.now }
{
    Bounds {
        top: signed_field(bytes, at),
        bottom: signed_field(bytes, at + 2),
        left: signed_field(bytes, at + 4),
        right: signed_field(bytes, at + 6),
    }
}

/// The sector's 26 bytes in SECTORS.
pub fn sector_bytes(sector: &Sector) -> [u8; 26]
    ensures record { result ≡ sector_record sector.now }
    ensures inverse { sector_at result ≡ sector.now }
{
    let mut bytes = [0; 26];
    put_signed(&mut bytes, 0, sector.floor);
    put_signed(&mut bytes, 2, sector.ceiling);
    put_name(&mut bytes, 4, &sector.floor_name);
    put_name(&mut bytes, 12, &sector.ceiling_name);
    put_signed(&mut bytes, 20, sector.light);
    put_signed(&mut bytes, 22, sector.special);
    put_signed(&mut bytes, 24, sector.tag);
    bytes
}

/// The sector that 26 bytes of SECTORS hold.
pub fn sector_of(bytes: &[u8; 26]) -> Sector
    ensures value { result ≡ sector_at bytes.now }
    ensures inverse { sector_record result ≡ bytes.now }
{
    Sector {
        floor: signed_field(bytes, 0),
        ceiling: signed_field(bytes, 2),
        floor_name: name_field(bytes, 4),
        ceiling_name: name_field(bytes, 12),
        light: signed_field(bytes, 20),
        special: signed_field(bytes, 22),
        tag: signed_field(bytes, 24),
    }
}
