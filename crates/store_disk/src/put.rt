//! Overwrites bytes in a list.
ghost use Rattle.std.specs.Prelude.{◌≡◌, ◌≤◌, ◌+◌, ◌++◌, length, take, drop};

// Overwrites the bytes from `at` on.
pub fn put(bytes: &mut Vec<u8>, at: usize, from: &[u8])
    requires { at + length from.now ≤ length bytes.old.items }
    ensures { bytes.new.items ≡ take at bytes.old.items
        ++ (from.now ++ drop (length from.now) (drop at bytes.old.items)) }
{
    put_over(bytes, at, from);
}

fn put_over(bytes: &mut [u8], at: usize, from: &[u8])
    requires { at + length from.now ≤ length bytes.old }
    ensures { bytes.new ≡ take at bytes.old ++
        (from.now ++ drop (length from.now) (drop at bytes.old)) }
{
    bytes[at..at + from.len()].copy_from_slice(from);
}
