// A record leaves its parent, and its slot becomes free.
#![tactic(auto)]

ghost use Rattle.std.specs.Prelude.{◌≡◌, ◌≤◌, set};
ghost use Rattle.refusals.specs.Limits.{most_children};
ghost use Rattle.table.specs.Record.{record_of, free};
ghost use Rattle.table.specs.Stands.{Stands};
ghost use Rattle.table.specs.Table.{records_of};
ghost use Rattle.writing.specs.Put.{with_slots};
ghost use Rattle.writing.specs.Laws.{Became};
ghost use Rattle.removal.specs.Removal.{disowning, unhung};
ghost use Rattle.removal.specs.Leaving.{Held};
ghost use Rattle.removal.specs.Loop.Closing.{closing, Hosts};

use table::NO_SLOT;

// The first n child slots of the record in slot p are closed up without v. At each turn those of the first k that stay
// stand first, w of them, and the other slots are as they were.
#[tactic(auto, using(table::specs::Stands::stands_same, crate::specs::Loop::Closed::kept_few))]
fn close_up(t: &mut [u8], p: usize, v: usize, n: usize)
    requires { Stands t.old p × (n ≤ most_children) }
    ensures { Became t.old p
        (with_slots (record_of t.old p) (closing v (record_of t.old p).slots n)) t.new }
{
    let mut w = 0;
    for k in 0..n {
        let c = table::slot_of(t, p, k);
        if usize::from(c) != v {
            writing::put_slot(t, p, w, c);
            w += 1;
        }
    }
}

// "the parent's later children move up one place": v leaves the children of the record in slot p.
#[tactic(auto, using(table::specs::Stands::stands_same))]
fn disown(t: &mut [u8], p: usize, v: usize)
    requires { Stands t.old p × Hosts v (record_of t.old p) }
    ensures { Became t.old p (disowning v (record_of t.old p)) t.new }
{
    let n = table::count_of(t, p);
    close_up(t, p, v, usize::from(n));
    writing::put_slot(t, p, usize::from(n - 1), NO_SLOT);
    writing::put_count(t, p, n - 1);
}

// The record in slot v leaves its parent, if it has one, and becomes free.
pub fn unhang(t: &mut [u8], v: usize)
    requires { Held (records_of t.old) v }
    ensures { records_of t.new ≡ set (unhung v (records_of t.old)) v free }
{
    if let Some(p) = table::parent_of(t, v) {
        disown(t, p, v);
    }
    writing::clear_record(t, v);
}
