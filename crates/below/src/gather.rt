// The slots at or below a record, as keys in age order.
ghost use Rattle.std.specs.Prelude.{◌≡◌, ◌+◌, ◌≤◌, length, take};
ghost use Rattle.refusals.specs.Limits.{most_records};
ghost use Rattle.table.specs.Record.{record_of, largest_table};
ghost use Rattle.table.specs.Stands.{Stands, Walkable};
ghost use Rattle.below.specs.Loop.Gather.{Gathered, slots_under, keys_under, gathered};

use age::{note_key, oldest_first};

// Writes the keys of slot a and of all below it from place m on, and returns the place after the last; `left` is the
// depth left. At each turn the keys of a and of what stands at or below its first k children are written.
fn gather(t: &[u8], a: usize, keys: &mut [u64], m: usize, left: usize) -> usize
    requires { Walkable t.now × Stands t.now a × (length t.now ≤ largest_table)
        × (m + length (slots_under (record_of t.now) left a) ≤ length keys.old) }
    ensures { ◌≡◌ {A = Gathered} (record { keys = keys.new; at = result })
        (gathered (record_of t.now) keys.old m (slots_under (record_of t.now) left a)) }
{
    if left == 0 {
        return m;
    }
    note_key(t, a, keys, m);
    let mut at = m + 1;
    for k in 0..table::children_of(t, a) {
        let c = table::child_of(t, a, k);
        at = gather(t, c, keys, at, left - 1);
    }
    at
}

// The keys of slot v and of all below it, in age order: v's own comes first, since all below it are younger. Returns
// how many.
pub fn in_age_order(t: &[u8], v: usize, used: usize, keys: &mut [u64]) -> usize
    requires { Walkable t.now × Stands t.now v × (length t.now ≤ largest_table)
        × (length (slots_under (record_of t.now) used v) ≤ length keys.old) × (length keys.old ≤ most_records) }
    ensures { (result ≡ length (slots_under (record_of t.now) used v))
        × (take result keys.new ≡ keys_under (record_of t.now) used v) }
{
    let m = gather(t, v, keys, 0, used);
    oldest_first(&mut keys[..m]);
    m
}
