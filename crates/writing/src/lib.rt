// The fields of the record in slot s, written where they stand; and records made free, one or all. The attribute names
// what the proofs rest on: a slot that stands has its 64 bytes, and what each write is; few then need a file.
#![tactic(auto, using(table::specs::Stands::stands_place), unfolding(crate::specs::Put::put_card, crate::specs::Put::put_timestamp, crate::specs::Put::put_radius, crate::specs::Put::put_parent, crate::specs::Put::put_count, crate::specs::Put::put_kind, crate::specs::Put::put_slot, crate::specs::Put::put_signature, crate::specs::Put::freed))]

ghost use Rattle.std.specs.Prelude.{◌≡◌, ◌+◌, ◌≤◌, ◌<◌, length};
ghost use Rattle.number.specs.Number.{with_number};
ghost use Rattle.refusals.specs.Limits.{most_children, signature_length};
ghost use Rattle.refusals.specs.Told.{told};
ghost use Rattle.table.specs.Record.{record_length, place_of};
ghost use Rattle.table.specs.Stands.{Stands};
ghost use Rattle.writing.specs.Put.{put_card, put_timestamp, put_radius, put_parent, put_count, put_kind, put_slot};
ghost use Rattle.writing.specs.Put.{put_readings, put_signature, zeroed, freed};
ghost use Rattle.writing.specs.Clear.{cleared, clear_of};

use distance::Signature;
use number::LowByteFirst;
use refusals::Refusal;
use table::layout::{COUNT, KIND, PARENT, RADIUS, RECORD, SIGNATURE, SLOTS, TIMESTAMP};

// Writes a number that starts `from` bytes into the record.
fn put_field<const N: usize, T: LowByteFirst<N>>(t: &mut [u8], s: usize, from: usize, v: T)
    requires { Stands t.old s × (from + N ≤ record_length) }
    ensures { t.new ≡ with_number N t.old (place_of s + from) (T.value v) }
{
    number::put(t, s * RECORD + from, v);
}

pub fn put_card(t: &mut [u8], s: usize, v: u32)
    requires { Stands t.old s }
    ensures { t.new ≡ put_card t.old s v }
{
    put_field(t, s, 0, v);
}

pub fn put_timestamp(t: &mut [u8], s: usize, v: u32)
    requires { Stands t.old s }
    ensures { t.new ≡ put_timestamp t.old s v }
{
    put_field(t, s, TIMESTAMP, v);
}

pub fn put_radius(t: &mut [u8], s: usize, v: u32)
    requires { Stands t.old s }
    ensures { t.new ≡ put_radius t.old s v }
{
    put_field(t, s, RADIUS, v);
}

pub fn put_parent(t: &mut [u8], s: usize, v: u16)
    requires { Stands t.old s }
    ensures { t.new ≡ put_parent t.old s v }
{
    put_field(t, s, PARENT, v);
}

pub fn put_count(t: &mut [u8], s: usize, v: u8)
    requires { Stands t.old s }
    ensures { t.new ≡ put_count t.old s v }
{
    t[s * RECORD + COUNT] = v;
}

pub fn put_kind(t: &mut [u8], s: usize, v: u8)
    requires { Stands t.old s }
    ensures { t.new ≡ put_kind t.old s v }
{
    t[s * RECORD + KIND] = v;
}

// Child slot i, counted from 0.
pub fn put_slot(t: &mut [u8], s: usize, i: usize, v: u16)
    requires { Stands t.old s × (i < most_children) }
    ensures { t.new ≡ put_slot t.old s i v }
{
    put_field(t, s, SLOTS + 2 * i, v);
}

// A signature's bytes from `at` on. At each turn the first k readings are written.
pub fn put_readings(l: &mut [u8], at: usize, v: Signature)
    requires { at + signature_length ≤ length l.old }
    ensures { l.new ≡ put_readings 16 l.old at v.readings }
{
    for (k, reading) in v.readings.iter().enumerate() {
        number::put(l, at + 2 * k, *reading);
    }
}

pub fn put_signature(t: &mut [u8], s: usize, v: Signature)
    requires { Stands t.old s }
    ensures { t.new ≡ put_signature t.old s v.readings }
{
    put_readings(t, s * RECORD + SIGNATURE, v)
}

// Makes n bytes from `from` on zero.
fn zero(t: &mut [u8], from: usize, n: usize)
    requires { from + n ≤ length t.old }
    ensures { t.new ≡ zeroed n t.old from }
{
    t[from..from + n].fill(0);
}

// Makes the record free.
pub fn clear_record(t: &mut [u8], s: usize)
    requires { Stands t.old s }
    ensures { t.new ≡ freed t.old s }
{
    zero(t, s * RECORD, RECORD);
}

// Makes every record free; a table of the wrong size is refused and left as it was.
pub fn clear(t: &mut [u8]) -> Result<(), Refusal>
    ensures { cleared (told result) t.new ≡ clear_of t.old }
{
    if !table::right_size(t) {
        return Err(Refusal::Size);
    }
    let n = t.len();
    zero(t, 0, n);
    Ok(())
}
