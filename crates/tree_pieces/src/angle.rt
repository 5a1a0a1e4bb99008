//! The angle of a vector, bit by bit: the vector is squared as a complex number again and again, which doubles its
//! angle. Each square is shifted right until 62 bits hold it. The code may find the shift in another way, but another
//! shift would give other angles.
ghost use Rattle.std.specs.Prelude.{◌≡◌, ◌≢◌, ℕ, ℤ, ◌+◌, ◌/◌, ◌^◌, ◌<◌, ◌≤◌, ◌⊎◌, ◌↔◌, IsTrue, pos, neg_ℤ, ◌≤ℤ◌, ◌*ℤ◌};
ghost use Rattle.tree_pieces.specs.Angle.{IsAngle, IsIn62Bits, quadrant_of, flat_bits};

// A vector; both coordinates are below 2^62 in size.
#[derive(Clone, Copy)]
struct Vector {
    x: i64,
    y: i64,
}

// The square of a vector as a complex number. It has twice the angle.
#[derive(Clone, Copy)]
struct Square {
    x: i128,
    y: i128,
}

// All numbers that are multiplied are below this in size.
const LIMIT: i64 = 1 << 62;

impl Vector {
    ghost use Rattle.std.specs.Prelude.{◌≡◌, ◌↔◌, ◌^◌, IsTrue, pos, neg_ℤ, ◌≤ℤ◌, ◌-ℤ◌, ◌*ℤ◌};
    ghost use Rattle.tree_pieces.specs.Angle.{IsIn62Bits, in_lower_half};

    // Whether the vector points down, or straight to the left: half a turn or more.
    fn is_lower(self) -> bool
        ensures { result ≡ in_lower_half self.x self.y }
    {
        self.y < 0 || (self.y == 0 && self.x < 0)
    }

    fn is_small(self) -> bool
        ensures { IsTrue result ↔ (IsIn62Bits self.x × IsIn62Bits self.y) }
    {
        is_small(self.x) && is_small(self.y)
    }

    // The vector at twice the angle, before it is brought back into 62 bits.
    fn squared(self) -> Square
        requires x { IsIn62Bits self.x }
        requires y { IsIn62Bits self.y }
        ensures x { result.x ≡ self.x *ℤ self.x -ℤ self.y *ℤ self.y }
        ensures y { result.y ≡ pos 2 *ℤ (self.x *ℤ self.y) }
        ensures x_low { neg_ℤ (pos (2 ^ 125)) ≤ℤ result.x }
        ensures x_high { result.x ≤ℤ pos (2 ^ 125) }
        ensures y_low { neg_ℤ (pos (2 ^ 125)) ≤ℤ result.y }
        ensures y_high { result.y ≤ℤ pos (2 ^ 125) }
    {
        let xx = product(self.x, self.x);
        let yy = product(self.y, self.y);
        let xy = product(self.x, self.y);
        Square {
            x: xx - yy,
            y: 2 * xy,
        }
    }
}

impl Square {
    ghost use Rattle.std.specs.Prelude.{◌≡◌, ◌+◌, ◌<◌, ◌≤◌, ◌^◌, pos, neg_ℤ, ◌≤ℤ◌, unsigned_abs, max};
    ghost use Rattle.std.specs.Int.{int_shr};
    ghost use Rattle.tree_pieces.specs.Angle.{IsShrunk};

    // The size of the greater number.
    fn size(self) -> u128
        ensures { result ≡ max (unsigned_abs self.x) (unsigned_abs self.y) }
    {
        let x = self.x.unsigned_abs();
        let y = self.y.unsigned_abs();
        x.max(y)
    }

    // Both numbers shifted right until 63 bits hold them.
    fn shifted(self, shift: u32) -> Vector
        requires shift { shift ≤ 65 }
        requires x { unsigned_abs self.x < 2 ^ (62 + shift) }
        requires y { unsigned_abs self.y < 2 ^ (62 + shift) }
        ensures x { result.x ≡ int_shr self.x shift }
        ensures y { result.y ≡ int_shr self.y shift }
    {
        Vector {
            x: (self.x >> shift) as i64,
            y: (self.y >> shift) as i64,
        }
    }

    // The vector shifted right by the least amount that makes both numbers small.
    fn shrunk(self) -> Vector
        requires x_low { neg_ℤ (pos (2 ^ 125)) ≤ℤ self.x }
        requires x_high { self.x ≤ℤ pos (2 ^ 125) }
        requires y_low { neg_ℤ (pos (2 ^ 125)) ≤ℤ self.y }
        requires y_high { self.y ≤ℤ pos (2 ^ 125) }
        ensures { IsShrunk self.x self.y result.x result.y }
    {
        let shift = excess(self.size());
        let near = self.shifted(shift);
        // 62 bits of a number below zero may still be -2^62
        if near.is_small() {
            near
        } else {
            self.shifted(shift + 1)
        }
    }
}

// How far the highest bit of a size lies above the 62 that a small number may have.
fn excess(size: u128) -> u32
    requires { size ≤ 2 ^ 125 }
    ensures most { result ≤ 64 }
    ensures enough { size < 2 ^ (62 + result) }
    ensures none_less { (less : ℕ) → less < result → 2 ^ (less + 62) ≤ size }
{
    let bits = u128::BITS - size.leading_zeros();
    bits.saturating_sub(62)
}

fn is_small(z: i64) -> bool
    ensures { IsTrue result ↔ IsIn62Bits z }
{
    -LIMIT < z && z < LIMIT
}

// The product of two small numbers, which 128 bits hold.
fn product(a: i64, b: i64) -> i128
    requires a { IsIn62Bits a }
    requires b { IsIn62Bits b }
    ensures value { result ≡ a *ℤ b }
    ensures low { neg_ℤ (pos (2 ^ 124)) ≤ℤ result }
    ensures high { result ≤ℤ pos (2 ^ 124) }
{
    a as i128 * b as i128
}

// The bits of a vector along the x axis: half a turn where it points left, and nothing below.
fn flat_bits(left: u32, x: i64) -> u32
    requires { left ≤ 16 }
    ensures { result ≡ flat_bits left x }
{
    if left > 0 && x < 0 {
        1 << (left - 1)
    } else {
        0
    }
}

/// The angle of the vector (x, y), 65,536 to the turn, counterclockwise from the vector that points straight to the
/// right. The highest bit says whether the vector points down or straight to the left. The bits below it are those of
/// the vector at twice the angle, with its coordinates shifted right until they are below 2^62 in size.
///
/// This rule is the project's own choice: it uses only whole numbers, so every machine finds the same bits. The
/// contract doesn't say how close the angle is to the true one.
pub fn angle16(x: i32, y: i32) -> u16
    requires not_zero { (x ≢ pos 0) ⊎ (y ≢ pos 0) }
    requires x_low { neg_ℤ (pos 32767) ≤ℤ x }
    requires x_high { x ≤ℤ pos 32767 }
    requires y_low { neg_ℤ (pos 32767) ≤ℤ y }
    requires y_high { y ≤ℤ pos 32767 }
    ensures turns { IsAngle x y result }
    ensures only { (angle : ℕ) → IsAngle x y angle → angle ≡ result }
    ensures quadrant { result / 16384 ≡ quadrant_of x y }

    // The angle of the reversed vector is half a turn away.
    ensures reversed { (angle : ℕ) → IsAngle (neg_ℤ x) (neg_ℤ y) angle →
        (angle ≡ result + 32768) ⊎ (result ≡ angle + 32768) }
{
    let mut vector = Vector {
        x: x as i64,
        y: y as i64,
    };
    let mut angle = 0;
    let mut left = u16::BITS;
    // a vector along the x axis stays there, so no later bit is set
    while left > 0 && vector.y != 0 {
        left -= 1;
        angle = 2 * angle + vector.is_lower() as u32;
        vector = vector.squared().shrunk();
    }
    ((angle << left) + flat_bits(left, vector.x)) as u16
}

/// The angle of the reversed vector: half a turn away.
pub fn reversed_angle(angle: u16) -> u16
    ensures { (x : ℤ) → (y : ℤ) → (x ≢ pos 0) ⊎ (y ≢ pos 0) → IsAngle x y angle →
        IsAngle (neg_ℤ x) (neg_ℤ y) result }
{
    angle.wrapping_add(32768)
}
