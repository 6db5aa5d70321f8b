// Records that wait and cards that are held, as rows of keys in order (02, #101): what is asked of one record in a
// search for the nearest cards.
#![tactic(auto)]

ghost use Rattle.std.specs.Prelude.{◌≡◌, ◌≤◌, ◌<◌, [], take};
ghost use Rattle.order.specs.Order.{Rising};
ghost use Rattle.distance.specs.Laws.{farthest};
ghost use Rattle.refusals.specs.Limits.{most_records, most_nearest};
ghost use Rattle.table.specs.Record.{record_of};
ghost use Rattle.table.specs.Stands.{Stands};
ghost use Rattle.waiting.specs.Front.{exceeds as Exceeds, lower_from};
ghost use Rattle.waiting.specs.Rising.{rising_prop};

use keys::{first_in, key};
pub use keys::{FIRST, SECOND};
use refusals::limit::{NEAREST, RECORDS};

pub mod keys;

// How far the work for the k nearest has come: the first `waiting` of one row wait, the next to be taken last, so that
// taking it moves nothing; the first `holding` of the other row are held, the nearest first; `count` distances were
// worked out. Each record that waits was counted.
#[derive(Clone, Copy)]
pub struct Front {
    pub k: usize,
    pub count: usize,
    pub waiting: usize,
    pub holding: usize,
    pub waits: [u64; RECORDS],
    pub held: [u64; NEAREST],
    pub ghost one: { 1 ≤ k },
    pub ghost most: { k ≤ most_nearest },
    pub ghost within: { count ≤ most_records },
    pub ghost counted: { waiting ≤ count },
    pub ghost few: { holding ≤ k },
    pub ghost rise: { Rising (take holding held) } by { rising_prop (take holding held) },
}

// Whether k are held, and the bound exceeds the k-th distance.
pub fn exceeds(held: &[u64], k: usize, bound: u64) -> bool
    requires { 1 ≤ k }
    ensures { result ≡ Exceeds k held.now bound }
{
    held.get(k - 1).is_some_and(|last| first_in(*last) < bound)
}

// The lower bound of the record in slot s at the distance `away`: p is its parent's, near the smallest distance of its
// older siblings.
fn lower_bound(t: &[u8], s: usize, p: u64, near: u64, away: u64) -> u64
    requires { Stands t.now s × (p ≤ farthest) × (away ≤ farthest) }
    ensures { (result ≡ lower_from (record_of t.now s) p near away) × (result ≤ farthest) }
{
    let radius = u64::from(table::radius_of(t, s));
    let half = (away.saturating_sub(near) + 1) / 2;
    p.max(away.saturating_sub(radius).max(half))
}

impl Front {
    ghost use Rattle.waiting.specs.Front.{state, holds, waits_with, meet_one};
    ghost use Rattle.waiting.specs.Rows.{front_of};

    // Nothing waits, and nothing is held.
    pub fn new(k: usize) -> Front
        requires { (1 ≤ k) × (k ≤ most_nearest) }
        ensures { (front_of result ≡ state [] [] 0) × (result.k ≡ k) }
    {
        Front {
            k,
            count: 0,
            waiting: 0,
            holding: 0,
            waits: [0; RECORDS],
            held: [0; NEAREST],
        }
    }

    // The keys that are held.
    pub fn held(&self) -> &[u64]
        ensures { result.now ≡ (front_of self.now).held }
    {
        &self.held[..self.holding]
    }

    // The first k of those held and one more.
    fn hold(&mut self, key: u64)
        ensures { (front_of self.new
            ≡ state (front_of self.old).waits (holds self.old.k key (front_of self.old).held) self.old.count)
            × (self.new.k ≡ self.old.k)
            × (self.new.waiting ≡ self.old.waiting) }
    {
        if self.holding < self.k {
            order::slip(&mut self.held, self.holding, key);
            self.holding += 1;
        } else if key < self.held[self.k - 1] {
            order::slip(&mut self.held, self.k - 1, key);
        }
    }

    // The record in slot s, at the distance `away` under a parent's bound p, waits if it need. Most have no children,
    // and need no lower bound.
    fn wait(&mut self, t: &[u8], s: usize, away: u64, p: u64, near: u64)
        requires stands { Stands t.now s × (away ≤ farthest) × (p ≤ farthest) }
        requires room { self.old.waiting < self.old.count }
        ensures { (front_of self.new
            ≡ state (waits_with (record_of t.now) self.old.k s (lower_from (record_of t.now s) p near away)
            (front_of self.old).held (front_of self.old).waits) (front_of self.old).held self.old.count)
            × (self.new.k ≡ self.old.k) }
    {
        if table::children_of(t, s) == 0 {
            return;
        }
        let lower = lower_bound(t, s, p, near, away);
        if exceeds(self.held(), self.k, lower) {
            return;
        }
        order::climb(
            &mut self.waits,
            self.waiting,
            key(lower, table::timestamp_of(t, s), s),
        );
        self.waiting += 1;
    }

    // The record in slot s is compared, at the distance `away`, under a parent's bound p; near is the smallest distance
    // of its older siblings.
    pub fn meet(&mut self, t: &[u8], s: usize, away: u64, p: u64, near: u64)
        requires stands { Stands t.now s × (away ≤ farthest) × (p ≤ farthest) }
        requires room { self.old.count < most_records }
        ensures { (front_of self.new
            ≡ meet_one (record_of t.now) self.old.k s away (lower_from (record_of t.now s) p near away)
            (front_of self.old))
            × (self.new.k ≡ self.old.k) }
    {
        self.count += 1;
        self.hold(key(away, table::card_of(t, s), s));
        self.wait(t, s, away, p, near);
    }
}
