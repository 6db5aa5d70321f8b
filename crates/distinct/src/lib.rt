// Keys told apart, near linear and without heap: a key is seated among cells, and where that fails all keys are sorted.
#![tactic(auto)]

ghost use Rattle.std.specs.Prelude.{◌≡◌, ◌≤◌, ◌<◌, length, get_or};
ghost use Rattle.refusals.specs.Limits.{most_records};
ghost use Rattle.distinct.specs.Distinct.{distinct_to};
ghost use Rattle.distinct.specs.Seat.{Seated, cell_count, start_of, seated};

use refusals::limit::RECORDS;

// How many cells there are, four for a key, and how many of them a key looks at.
pub const CELLS: usize = 4096;

const PROBES: usize = 32;

// What comes of seating a key: it took an empty cell, it was there before, or too many other keys stood in its way.
#[derive(Clone, Copy)]
pub enum Seat {
    Fresh,
    Seen,
    Crowded,
}

// Where a key's cells begin: a multiplicative hash, which spreads keys that lie close together.
fn start(key: u32) -> usize
    ensures { (result ≡ start_of key) × (result < cell_count) }
{
    (u64::from(key) * 2654435769 / 1048576) as usize % CELLS
}

// Seats a key in the first empty one of its cells. At each turn the d cells passed hold other keys.
// A key of 0 leaves the empty cell empty, so that it needs no test of its own, which would be hard to predict.
// Written out where it is called: with a call for each key, judging a full table took 18 % longer.
#[inline(always)]
pub fn seat_key(cells: &mut [u32; CELLS], key: u32) -> Seat
    ensures { record { seat = result; cells = cells.new } ≡ seated cells.old key }
{
    let first = start(key);
    for d in 0..PROBES {
        let at = (first + d) % CELLS;
        let cell = cells[at];
        if cell == 0 {
            cells[at] = key;
            return Seat::Fresh;
        }
        if cell == key {
            return Seat::Seen;
        }
    }
    Seat::Crowded
}

// Are the keys all different, 0 aside? By sorting: at each turn the first m kept are those of the keys so far that are
// not 0.
pub fn by_order(keys: &[u32]) -> bool
    requires { length keys.now ≤ most_records }
    ensures { result ≡ distinct_to (length keys.now) (λ i. get_or keys.now i 0) }
{
    let mut kept = [0u64; RECORDS];
    let mut m = 0;
    for &key in keys {
        if key != 0 {
            kept[m] = u64::from(key);
            m += 1;
        }
    }
    order::all_different(&mut kept[..m])
}
