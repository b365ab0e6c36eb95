// Bytes in lent memory: cleared, copied, stored, moved, and compared with zeros.
//
// A function that has a `requires` is for the crates above, which call it only with numbers that they have tested against the slices' lengths.
#![tactic(auto)]

ghost use Rattle.std.specs.Prelude.{◌≡◌, ◌+◌, ◌-◌, ◌≤◌, length, take, drop};
ghost use Rattle.fields.specs.Bytes.{put, zeros};
ghost use Rattle.fields.specs.Lists.{same};
ghost use Rattle.pod.specs.Written.{bytes};

// Zeros from index `from` up to, not including, index `to`: one memset.
pub fn clear(a: &mut [u8], from: usize, to: usize)
    requires { (from ≤ to) × (to ≤ length a.old) }
    ensures { a.new ≡ put from (zeros (to - from)) a.old }
{
    a[from..to].fill(0);
}

// All of `b` over the bytes of `a` from `at` on: one memcpy.
pub fn copy_at(a: &mut [u8], at: usize, b: &[u8])
    requires { at + length b.now ≤ length a.old }
    ensures { a.new ≡ put at b.now a.old }
{
    let end = at + b.len();
    a[at..end].copy_from_slice(b);
}

pub fn put_u8(a: &mut [u8], at: usize, v: u8)
    requires { at + 1 ≤ length a.old }
    ensures { a.new ≡ put at (bytes 1 v) a.old }
{
    a[at] = v;
}

pub fn put_u32(a: &mut [u8], at: usize, v: u32)
    requires { at + 4 ≤ length a.old }
    ensures { a.new ≡ put at (bytes 4 v) a.old }
{
    copy_at(a, at, &v.to_le_bytes());
}

pub fn put_u64(a: &mut [u8], at: usize, v: u64)
    requires { at + 8 ≤ length a.old }
    ensures { a.new ≡ put at (bytes 8 v) a.old }
{
    copy_at(a, at, &v.to_le_bytes());
}

// The `n` bytes from `from` go over those from `to`; the two parts may overlap either way. The library's move takes 32 bytes a turn, in either direction.
pub fn move_within(a: &mut [u8], from: usize, to: usize, n: usize)
    requires { (from + n ≤ length a.old) × (to + n ≤ length a.old) }
    ensures { a.new ≡ put to (take n (drop from a.old)) a.old }
{
    a.copy_within(from..from + n, to);
}

// Whether every byte from `from` on is 0: eight at a time, since each call on a book tests all that lies behind its routine, and then the few that are left.
pub fn is_zero(a: &[u8], from: usize) -> bool
    ensures { result ≡ same (drop from a.now) (zeros (length a.now - from)) }
{
    if a.len() <= from {
        return true;
    }
    let eights = (a.len() - from) / 8;
    for passed in 0..eights {
        if fields::eight(a, from + 8 * passed) != 0 {
            return false;
        }
    }
    for i in from + 8 * eights..a.len() {
        if a[i] != 0 {
            return false;
        }
    }
    true
}
