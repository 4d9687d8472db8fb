// Rows combined setting by setting, and whether the result is a row of the table.
ghost use Rattle.std.specs.Prelude.{◌≡◌, ◌≤◌, ◌<◌, get_or, length};
ghost use Rattle.meaning.specs.Rows.{is_row};
ghost use Rattle.meaning.specs.Families.{mid};
ghost use Rattle.tables.specs.Inner.{pair_of, median_of};
ghost use Rattle.literals.specs.Kinds.{side_of};
ghost use Rattle.tables.specs.Rows.{rows_in};

use crate::rows::Rows;
use literals::Side;

// The middle of three values.
fn middle(u: u8, v: u8, w: u8) -> u8
    ensures { result ≡ mid u v w }
{
    u.min(v).max(u.max(v).min(w))
}

// The values for settings 0, 1, .., l of them, with zeros behind.
fn filled<F: Fn(usize) -> u8>(l: usize, value: F) -> [u8; 16]
    requires narrow { l ≤ 16 }
    requires callable { (k : _) → k < l → F.pre value k }
    ensures { (k : _) → k < l → F.post value k (get_or result k 0) }
{
    let mut out = [0; 16];
    for k in 0..l {
        out[k] = value(k);
    }
    out
}

// Is the minimum of rows i and j, or for the high side the maximum, a row too?
pub fn pair_is_row(rows: Rows, side: Side, i: usize, j: usize) -> bool
    requires { (i < length (rows_in rows)) × (j < length (rows_in rows)) }
    ensures { result ≡ is_row (pair_of (side_of side) (rows_in rows.entry) i j) (rows_in rows.entry) }
{
    let (a, b) = (rows.row(i), rows.row(j));
    let x = filled(rows.l, |k| side.pick(a[k], b[k]));
    rows.has(&x[..rows.l])
}

// Is the median of rows i, j and m a row too? It and the one for pairs are what may change alone when either search does.
pub fn median_is_row(rows: Rows, i: usize, j: usize, m: usize) -> bool
    requires { (i < length (rows_in rows)) × (j < length (rows_in rows)) × (m < length (rows_in rows)) }
    ensures { result ≡ is_row (median_of (rows_in rows.entry) i j m) (rows_in rows.entry) }
{
    let (a, b, c) = (rows.row(i), rows.row(j), rows.row(m));
    let x = filled(rows.l, |k| middle(a[k], b[k], c[k]));
    rows.has(&x[..rows.l])
}
