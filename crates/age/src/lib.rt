// Age order: a slot's key is its record's timestamp and then the slot, so keys in order are slots oldest first.
#![tactic(auto)]

ghost use Rattle.std.specs.Prelude.{◌≡◌, ◌≤◌, ◌<◌, length, set};
ghost use Rattle.order.specs.Order.{in_order};
ghost use Rattle.table.specs.Record.{record_of, largest_table};
ghost use Rattle.table.specs.Stands.{Stands};
ghost use Rattle.age.specs.Key.{key_of, slot_in};

// A key is a timestamp and a slot: the timestamp counts in steps of this many.
pub const SLOTS: u64 = 65536;

// Writes the key of slot s at place m.
pub fn note_key(t: &[u8], s: usize, keys: &mut [u64], m: usize)
    requires { Stands t.now s × (length t.now ≤ largest_table) × (m < length keys.old) }
    ensures { keys.new ≡ set keys.old m (key_of (record_of t.now) s) }
{
    keys[m] = u64::from(table::timestamp_of(t, s)) * SLOTS + s as u64;
}

// The slot that a key tells.
pub fn slot_of_key(key: u64) -> usize
    ensures { result ≡ slot_in key }
{
    (key % SLOTS) as usize
}

// The keys in rising order: the slots in them, oldest first.
pub fn oldest_first(keys: &mut [u64])
    ensures { keys.new ≡ in_order keys.old }
{
    order::sort(keys);
}
