// What differs from a row before a setting.
ghost use Rattle.std.specs.Prelude.{◌≡◌, ◌++◌, ◌+◌, ◌≤◌, length};
ghost use Rattle.meaning.specs.General.{differs, earlier};

use crate::slots::apart;
use literals::Sign;
use reducing::Hand;

// Adds to the rule that setting i, of n values, differs from v: it is at most v-1, where v is above 0, or at least v+1, where
// v is below n-1.
pub fn differ(rule: &mut Hand, i: u8, n: u8, v: u8)
    requires { length rule.old + 2 ≤ 32 }
    ensures { rule.new ≡ rule.old ++ differs i n v }
{
    if 0 < v {
        rule.push(i, Sign::AtMost, v - 1);
    }
    if apart(v, n) {
        rule.push(i, Sign::AtLeast, v + 1);
    }
}

// Differs from the row at every setting before `end`.
pub fn differs_before(sizes: &[u8], row: &[u8], end: usize) -> Hand
    requires { (end ≤ length sizes.now) × (end ≤ length row.now) × (end ≤ 16) }
    ensures { result ≡ earlier sizes.now row.now end }
{
    let mut rule = Hand::empty();
    for i in 0..end {
        differ(&mut rule, i as u8, sizes[i], row[i]);
    }
    rule
}
