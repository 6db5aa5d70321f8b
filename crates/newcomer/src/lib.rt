// What a newcomer changes in one record: a radius on the way, the host's children, and its own record.
#![tactic(auto)]

ghost use Rattle.std.specs.Prelude.{◌≡◌, ◌+◌, ◌*◌, ◌≤◌, ◌<◌};
ghost use Rattle.std.specs.Option.{ForSome};
ghost use Rattle.refusals.specs.Limits.{most_children};
ghost use Rattle.table.specs.Record.{record_of, slot_told};
ghost use Rattle.table.specs.Stands.{Stands};
ghost use Rattle.writing.specs.Laws.{Became};
ghost use Rattle.newcomer.specs.Newcomer.{raised, adopting, fresh, brought, named, slotless};

use distance::Signature;
use table::NO_SLOT;

// 1. The covering radius of the record in slot a becomes the larger of itself and the distance.
pub fn raise(t: &mut [u8], a: usize, away: u32)
    requires { Stands t.old a }
    ensures { Became t.old a (raised away (record_of t.old a)) t.new }
{
    let radius = table::radius_of(t, a).max(away);
    writing::put_radius(t, a, radius);
}

// 3. Slot s becomes the last child of the record in slot a, which has room for it.
#[tactic(auto, using(table::specs::Stands::stands_same))]
pub fn adopt(t: &mut [u8], a: usize, s: usize)
    requires { Stands t.old a × (s < 65536) × ((record_of t.old a).count < most_children) }
    ensures { Became t.old a (adopting s (record_of t.old a)) t.new }
{
    let n = table::count_of(t, a);
    writing::put_slot(t, a, usize::from(n), s as u16);
    writing::put_count(t, a, n + 1);
}

// Card, kind and signature of the newcomer are written into slot s.
#[tactic(auto, using(table::specs::Stands::stands_same))]
pub fn name(t: &mut [u8], s: usize, card: u32, kind: u8, signature: Signature)
    requires { Stands t.old s }
    ensures { Became t.old s
        (named card kind signature.readings (record_of t.old s)) t.new }
{
    writing::put_card(t, s, card);
    writing::put_kind(t, s, kind);
    writing::put_signature(t, s, signature);
}

// The eight child slots of the record in slot s become 65,535. At each turn the first i of them are.
#[tactic(auto, using(table::specs::Stands::stands_same))]
fn clear_slots(t: &mut [u8], s: usize)
    requires { Stands t.old s }
    ensures { Became t.old s (slotless (record_of t.old s)) t.new }
{
    for i in 0..8usize {
        writing::put_slot(t, s, i, NO_SLOT);
    }
}

// A parent's slot as the record's two bytes tell it, 65,535 if there is none.
fn told(parent: Option<usize>) -> u16
    requires { ForSome parent (λ p. p < 65536) }
    ensures { result ≡ slot_told parent }
{
    parent.map_or(NO_SLOT, |p| p as u16)
}

// "with radius 0 and no child": the newcomer whose card, kind and signature stand in slot s gets timestamp and parent.
#[tactic(auto, using(table::specs::Stands::stands_same))]
pub fn seat(t: &mut [u8], s: usize, timestamp: u32, parent: Option<usize>)
    requires { Stands t.old s × ForSome parent (λ p. p < 65536) }
    ensures { Became t.old s
        (fresh (brought (record_of t.old s)) timestamp (slot_told parent)) t.new }
{
    writing::put_timestamp(t, s, timestamp);
    writing::put_radius(t, s, 0);
    writing::put_parent(t, s, told(parent));
    writing::put_count(t, s, 0);
    clear_slots(t, s);
}
