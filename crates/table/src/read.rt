// The fields of the record in slot s, read where they stand. Each has a reader of one line under its own name, which
// reads plainer at a call than the generic one, and than a struct of the bytes and the slot; such a struct could not be
// held over a write either.
ghost use Rattle.std.specs.Prelude.{◌≡◌, ◌+◌, ◌≤◌, ◌<◌, IfSome, eqb};
ghost use Rattle.number.specs.Number.{number_at};
ghost use Rattle.places.specs.Decides.{Decides};
ghost use Rattle.distance.specs.Signature.{word_of};
ghost use Rattle.distance.specs.Laws.{farthest};
ghost use Rattle.distance.specs.Kind.{apart};
ghost use Rattle.refusals.specs.Limits.{most_children};
ghost use Rattle.table.specs.Record.{record_of, slot, slot_told, no_slot, free, record_length, place_of};
ghost use Rattle.table.specs.Stands.{Stands};

use super::layout::{COUNT, KIND, NO_SLOT, PARENT, RADIUS, RECORD, SIGNATURE, SLOTS, TIMESTAMP};
use distance::{Query, Signature};
use number::LowByteFirst;

// The number that starts `from` bytes into the record.
fn field<const N: usize, T: LowByteFirst<N>>(t: &[u8], s: usize, from: usize) -> T
    requires { Stands t.now s × (from + N ≤ record_length) }
    ensures { T.value result ≡ number_at N t.now (place_of s + from) }
{
    number::get(t, s * RECORD + from)
}

pub fn card_of(t: &[u8], s: usize) -> u32
    requires { Stands t.now s }
    ensures { result ≡ (record_of t.now s).card }
{
    field(t, s, 0)
}

pub fn timestamp_of(t: &[u8], s: usize) -> u32
    requires { Stands t.now s }
    ensures { result ≡ (record_of t.now s).timestamp }
{
    field(t, s, TIMESTAMP)
}

pub fn radius_of(t: &[u8], s: usize) -> u32
    requires { Stands t.now s }
    ensures { result ≡ (record_of t.now s).radius }
{
    field(t, s, RADIUS)
}

// The parent's slot; a root has none, and then its two bytes are 65,535.
pub fn parent_of(t: &[u8], s: usize) -> Option<usize>
    requires { Stands t.now s }
    ensures { (slot_told result ≡ (record_of t.now s).parent) × IfSome result (λ p. p < no_slot) }
{
    let parent: u16 = field(t, s, PARENT);
    if parent == NO_SLOT {
        None
    } else {
        Some(usize::from(parent))
    }
}

// Is the record in slot p its parent? One comparison, in the pass that looks at every child.
pub fn is_child_of(t: &[u8], s: usize, p: usize) -> bool
    requires { Stands t.now s }
    ensures { result ≡ eqb (record_of t.now s).parent p }
{
    let parent: u16 = field(t, s, PARENT);
    usize::from(parent) == p
}

pub fn count_of(t: &[u8], s: usize) -> u8
    requires { Stands t.now s }
    ensures { result ≡ (record_of t.now s).count }
{
    t[s * RECORD + COUNT]
}

pub fn kind_of(t: &[u8], s: usize) -> u8
    requires { Stands t.now s }
    ensures { result ≡ (record_of t.now s).kind }
{
    t[s * RECORD + KIND]
}

// Child slot i, counted from 0.
pub fn slot_of(t: &[u8], s: usize, i: usize) -> u16
    requires { Stands t.now s × (i < most_children) }
    ensures { result ≡ slot (record_of t.now s) i }
{
    field(t, s, SLOTS + 2 * i)
}

// How many children the record has, as a number of turns.
pub fn children_of(t: &[u8], s: usize) -> usize
    requires { Stands t.now s }
    ensures { result ≡ (record_of t.now s).count }
{
    usize::from(count_of(t, s))
}

// Child slot i as a slot to read on from.
pub fn child_of(t: &[u8], s: usize, i: usize) -> usize
    requires { Stands t.now s × (i < most_children) }
    ensures { result ≡ slot (record_of t.now s) i }
{
    usize::from(slot_of(t, s, i))
}

// Child slots 4k to 4k + 3 as one number, the first lowest.
pub fn four_slots(t: &[u8], s: usize, k: usize) -> u64
    requires { Stands t.now s × (k < 2) }
    ensures { result ≡ word_of (record_of t.now s).slots k }
{
    field(t, s, SLOTS + 8 * k)
}

pub fn signature_of(t: &[u8], s: usize) -> Signature
    requires { Stands t.now s }
    ensures { result.readings ≡ (record_of t.now s).readings }
{
    distance::signature_at(t, s * RECORD + SIGNATURE)
}

// The distance of the record to q: the one place where a stored signature is compared.
pub fn away_from(t: &[u8], s: usize, q: Query) -> u32
    requires { Stands t.now s }
    ensures { (result ≡ apart q.kind (record_of t.now s).readings q.signature.readings)
        × (result ≤ farthest) }
{
    distance::apart(q.kind, signature_of(t, s), q.signature)
}

// Whether the record is free, that is, all zero. At each turn its first k words of eight bytes are zero.
pub fn is_free(t: &[u8], s: usize) -> bool
    requires { Stands t.now s }
    ensures { Decides result (record_of t.now s ≡ free) }
{
    for k in 0..8 {
        if field::<8, u64>(t, s, 8 * k) != 0 {
            return false;
        }
    }
    true
}
