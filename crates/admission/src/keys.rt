// Keys told apart: cards, and timestamps.
ghost use Rattle.std.specs.Prelude.{◌≤◌, ◌<◌, ℕ};
ghost use Rattle.refusals.specs.Limits.{most_records};
ghost use Rattle.admission.specs.Key.{ToldApart};

use distinct::{CELLS, Seat};
use refusals::limit::RECORDS;

// The question below by sorting. At each turn the keys of the records before s are gathered.
fn by_order<F: Fn(usize) -> u32>(n: usize, key_of: F) -> bool
    requires few { n ≤ most_records }
    requires callable { (s : ℕ) → s < n → F.pre key_of s }
    ensures { ToldApart n (F.post key_of) result }
{
    let mut keys = [0u32; RECORDS];
    for s in 0..n {
        keys[s] = key_of(s);
    }
    distinct::by_order(&keys[..n])
}

// Have no two of the n records the same key, 0 aside? At each turn the keys of the records before s are different, and
// the cells hold just those. A key that finds no seat sends the whole question to the sort, so that no choice of keys
// makes this slow. It stands apart: written out where it is called, the room for the cells is asked for even where the
// pass refuses the table.
#[inline(never)]
pub fn keys_distinct<F: Fn(usize) -> u32>(n: usize, key_of: F) -> bool
    requires few { n ≤ most_records }
    requires callable { (s : ℕ) → s < n → F.pre key_of s }
    ensures { ToldApart n (F.post key_of) result }
{
    let mut cells = [0u32; CELLS];
    for s in 0..n {
        match distinct::seat_key(&mut cells, key_of(s)) {
            Seat::Fresh => {}
            Seat::Seen => return false,
            Seat::Crowded => return by_order(n, key_of),
        }
    }
    true
}
