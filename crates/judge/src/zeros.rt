// "Bytes not named are zero."
ghost use Rattle.std.specs.Prelude.{◌≡◌, true, ◌+◌, ◌<◌, ◌≤◌};
ghost use Rattle.paper.specs.Record.{zeros};
ghost use Rattle.paper.specs.Table.{rooms, rec};

use crate::read::{byte_of, eight_of, four_of};

// How many of the n bytes of record i from place j on are passed by reading four zeros at once.
fn count_zeros(t: &[u8], i: usize, j: usize, n: usize) -> usize
    requires { (i < rooms t.now) × (j + n ≤ 32) }
    ensures { (result ≤ n) × (zeros j result (rec t.now i) ≡ true) }
{
    for k in 0..n / 4 {
        if four_of(t, i, j + 4 * k) != 0 {
            return 4 * k;
        }
    }
    n / 4 * 4
}

// Whether the n bytes of record i from place j on are zero.
pub(crate) fn are_zeros(t: &[u8], i: usize, j: usize, n: usize) -> bool
    requires { (i < rooms t.now) × (j + n ≤ 32) }
    ensures { result ≡ zeros j n (rec t.now i) }
{
    for m in count_zeros(t, i, j, n)..n {
        if byte_of(t, i, j + m) != 0 {
            return false;
        }
    }
    true
}

// Whether record i is all zero: four reads.
pub(crate) fn is_free(t: &[u8], i: usize) -> bool
    requires { i < rooms t.now }
    ensures { result ≡ zeros 0 32 (rec t.now i) }
{
    eight_of(t, i, 0) == 0
        && eight_of(t, i, 8) == 0
        && eight_of(t, i, 16) == 0
        && eight_of(t, i, 24) == 0
}

// Whether the n bytes of record i from place j on are zero, where they are nine to sixteen: two reads, which may share some of them.
pub(crate) fn are_zeros_by_two(t: &[u8], i: usize, j: usize, n: usize) -> bool
    requires { (i < rooms t.now) × (8 < n) × (n ≤ 16) × (j + n ≤ 32) }
    ensures { result ≡ zeros j n (rec t.now i) }
{
    eight_of(t, i, j) == 0 && eight_of(t, i, j + (n - 8)) == 0
}
