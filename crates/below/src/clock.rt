// The largest timestamp among the records that stay.
ghost use Rattle.std.specs.Prelude.{◌≡◌, ℕ, ◌≤◌, ◌<◌, length, get_or};
ghost use Rattle.refusals.specs.Limits.{most_records};
ghost use Rattle.table.specs.Record.{record_of};
ghost use Rattle.table.specs.Stands.{Stands, StandTo};
ghost use Rattle.survey.specs.Survey.{largest_timestamp};
ghost use Rattle.age.specs.Key.{slot_in};
ghost use Rattle.below.specs.Loop.Clock.{no_marks, marked, unmarked, timestamp_in};

use age::slot_of_key;
use refusals::limit::RECORDS;

// Marks the slots in these keys. At each turn those in the keys so far are. A mark is the number 1, as `marked` has it,
// of which the theorems of deletion speak.
fn mark(keys: &[u64], marks: &mut [u8])
    requires { (i : ℕ) → i < length keys.now → slot_in (get_or keys.now i 0) < length marks.old }
    ensures { marks.new ≡ marked keys.now marks.old }
{
    for &key in keys {
        marks[slot_of_key(key)] = 1;
    }
}

// The timestamp of the record in slot s, or 0, which adds nothing to the largest, if the slot is marked or free.
fn staying_timestamp(t: &[u8], marks: &[u8], s: usize) -> u32
    requires { Stands t.now s × (s < length marks.now) }
    ensures { result ≡ timestamp_in (unmarked marks.now (record_of t.now) s) }
{
    if marks[s] != 0 || table::card_of(t, s) == 0 {
        return 0;
    }
    table::timestamp_of(t, s)
}

// The largest timestamp of the records whose slots are not marked, 0 if there is none. At each turn it is that of the
// first s.
fn largest_staying(t: &[u8], marks: &[u8], n: usize) -> u32
    requires { StandTo t.now n × (n ≤ length marks.now) }
    ensures { result ≡ largest_timestamp n (unmarked marks.now (record_of t.now)) }
{
    let mut largest = 0;
    for s in 0..n {
        largest = staying_timestamp(t, marks, s).max(largest);
    }
    largest
}

// The largest timestamp of the n records whose slots are not in these keys, 0 if there is none.
pub fn last_staying(t: &[u8], keys: &[u64], n: usize) -> u32
    requires { StandTo t.now n × (n ≤ most_records)
        × ((i : ℕ) → i < length keys.now → slot_in (get_or keys.now i 0) < most_records) }
    ensures { result
        ≡ largest_timestamp n (unmarked (marked keys.now no_marks) (record_of t.now)) }
{
    let mut marks = [0u8; RECORDS];
    mark(keys, &mut marks);
    largest_staying(t, &marks, n)
}
