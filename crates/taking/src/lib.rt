// Records that wait are taken one after the other, and their children compared (02, #101): the loops of a search for
// the nearest cards, over the rows of `waiting`.
#![tactic(auto)]

ghost use Rattle.std.specs.Prelude.{◌≡◌, ◌+◌, ◌≤◌, MatchOption};
ghost use Rattle.distance.specs.Laws.{farthest};
ghost use Rattle.refusals.specs.Limits.{most_records};
ghost use Rattle.table.specs.Record.{record_of};
ghost use Rattle.table.specs.Table.{records_in};
ghost use Rattle.table.specs.Stands.{Stands, Walkable};
ghost use Rattle.waiting.specs.Front.{meet_children, finish};
ghost use Rattle.waiting.specs.Rows.{front_of, Known};
ghost use Rattle.taking.specs.Next.{Over, Taken};

use distance::{FARTHEST, Query};
use waiting::keys::{first_in, slot_in};
use waiting::{Front, exceeds};

// The children of the record in slot s, whose bound is p, are compared, oldest first. At each turn the first j are, and
// near is the smallest distance among them; it starts from one that no distance exceeds.
fn meet_children(t: &[u8], q: Query, s: usize, p: u64, front: &mut Front)
    requires walkable { Walkable t.now × Stands t.now s × (p ≤ farthest) }
    requires room { front.old.count + (record_of t.now s).count ≤ most_records }
    ensures { (front_of front.new
        ≡ meet_children (record_of t.now) q.kind q.signature.readings front.old.k s p
        (front_of front.old))
        × (front.new.k ≡ front.old.k) }
{
    let mut near = u64::from(FARTHEST);
    for j in 0..table::children_of(t, s) {
        let child = table::child_of(t, s, j);
        let away = u64::from(table::away_from(t, child, q));
        front.meet(t, child, away, p, near);
        near = near.min(away);
    }
}

// The key of the record that is taken next, and waits no longer; none if the work is over.
fn next(front: &mut Front) -> Option<u64>
    ensures { MatchOption result
        (Over front.old.k (front_of front.old) × (front_of front.new ≡ front_of front.old))
        (λ x. Taken front.old.k x (front_of front.old) (front_of front.new))
        × (front.new.k ≡ front.old.k) }
{
    let last = front.waiting.checked_sub(1)?;
    let key = front.waits[last];
    if exceeds(front.held(), front.k, first_in(key)) {
        return None;
    }
    front.waiting = last;
    Some(key)
}

// Takes those that wait, one after the other, until the work is over, but no more than `most`.
pub fn take_all(t: &[u8], q: Query, most: usize, front: &mut Front)
    requires walkable { Walkable t.now × (records_in t.now ≤ most_records) }
    requires rows { Known t.now (front_of front.old).waits
        × ((finish (record_of t.now) q.kind q.signature.readings front.old.k most (front_of front.old)).count
        ≤ most_records) }
    ensures { (front_of front.new
        ≡ finish (record_of t.now) q.kind q.signature.readings front.old.k most
        (front_of front.old))
        × (front.new.k ≡ front.old.k) }
{
    for _ in 0..most {
        let Some(key) = next(front) else {
            return;
        };
        meet_children(t, q, slot_in(key), first_in(key), front);
    }
}
