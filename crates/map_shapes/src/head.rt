//! The first words of shapes.
ghost use Rattle.std.specs.Prelude.{◌≡◌, IfSome, bytes_eq};
ghost use Rattle.map_shapes.specs.Shapes.{is_shape_line, shape_head_of, shape_word};

use map_words::next_part;

/// The first word of a shape, which decides what follows it.
#[derive(Clone, Copy)]
pub enum ShapeHead {
    Area,
    Pillar,
    Door,
    Change,
}

// All first words.
const HEADS: [ShapeHead; 4] = [
    ShapeHead::Area,
    ShapeHead::Pillar,
    ShapeHead::Door,
    ShapeHead::Change,
];

// The spelling of a first word.
fn shape_text(head: ShapeHead) -> &'static str
    ensures { result.now ≡ shape_word head }
{
    match head {
        ShapeHead::Area => "area",
        ShapeHead::Pillar => "pillar",
        ShapeHead::Door => "door",
        ShapeHead::Change => "change",
    }
}

// Whether the word is this first word.
fn is_head(word: &[u8], head: ShapeHead) -> bool
    ensures { result ≡ bytes_eq word.now (shape_word head) }
{
    word == shape_text(head).as_bytes()
}

/// Which first word this is, if it is one.
pub fn shape_head_in(word: &[u8]) -> Option<ShapeHead>
    ensures value { result ≡ shape_head_of word.now }
    ensures text { IfSome result (λ h. shape_word h ≡ word.now) }
{
    HEADS.iter().copied().find(|head| is_head(word, *head))
}

/// Whether the first word of a line is that of a shape.
pub fn is_shape_line(line: &[u8]) -> bool
    ensures { result ≡ is_shape_line line.now }
{
    let (word, _) = next_part(line);
    shape_head_in(word).is_some()
}

/// The form of a shape's line, as people see it: its first word, then a name for each further word.
pub fn form_text(head: ShapeHead) -> &'static str {
    match head {
        ShapeHead::Area => "area F C FN CN WALL LIGHT X Y X Y X Y ..",
        ShapeHead::Pillar => "pillar WALL X Y X Y X Y ..",
        ShapeHead::Door => "door SECTOR FACE TRACK [SPECIAL]",
        ShapeHead::Change => "change KIND NUMBER NAME=VALUE ..",
    }
}
