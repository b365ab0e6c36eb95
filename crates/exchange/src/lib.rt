// Two parts of lent memory change places.
//
// A function that has a `requires` is for the crates above, which call it only with numbers that they have tested against the slice's length.
#![tactic(auto)]

ghost use Rattle.std.specs.Prelude.{◌≡◌, ◌≤◌, length};
ghost use Rattle.exchange.specs.Parts.{exchanged};

// The parts [s, b) and [c, e) change places, and [b, c) stays between them: all is reversed, and then each of the three parts again. The library's
// `rotate_left`, twice, would do the same, and takes longer.
pub fn exchange(a: &mut [u8], s: usize, b: usize, c: usize, e: usize)
    requires { (s ≤ b) × ((b ≤ c) × ((c ≤ e) × (e ≤ length a.old))) }
    ensures { a.new ≡ exchanged s b c e a.old }
{
    let q = s + (e - c);
    let p = e - (b - s);
    a[s..e].reverse();
    a[s..q].reverse();
    a[q..p].reverse();
    a[p..e].reverse();
}
