// The order of rows: at the first differing setting the greater value decides.
ghost use Rattle.std.specs.Prelude.{◌≡◌, length};
ghost use Rattle.std.specs.Ordering.{nat_cmp};
ghost use Rattle.std.specs.Cmp.Lexicographic.{slice_cmp};

use std::cmp::Ordering;

// How row `a` stands to row `b`, of the same length. By hand, since the library's `cmp` of slices goes by groups of values, which
// costs more than it saves on rows this short.
pub fn order(a: &[u8], b: &[u8]) -> Ordering
    requires { length a.now ≡ length b.now }
    ensures { result ≡ slice_cmp nat_cmp a.now b.now }
{
    for (x, y) in a.iter().zip(b) {
        if x < y {
            return Ordering::Less;
        }
        if y < x {
            return Ordering::Greater;
        }
    }
    Ordering::Equal
}
