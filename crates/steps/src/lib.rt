// The steps of "visiting a with bound t" (001, Algorithm 2), each a function of its own: what is asked of one record,
// and of the children of one.
#![tactic(auto)]

ghost use Rattle.std.specs.Prelude.{◌≡◌, List, ℕ, ◌+◌, ◌≤◌, ◌<◌, length, get_or};
ghost use Rattle.std.proofs.lemmas.List.Edits.{sets};
ghost use Rattle.distance.specs.Laws.{farthest};
ghost use Rattle.table.specs.Record.{record_of};
ghost use Rattle.table.specs.Stands.{Stands, Walkable};
ghost use Rattle.steps.specs.Step.{asked, is_covered, is_entered, card_within};
ghost use Rattle.steps.specs.Loop.Children.{Compared, child_bound};

use distance::Query;

// What a search asks of the records: which are within the radius of the query.
#[derive(Clone, Copy)]
pub struct Asked {
    pub query: Query,
    pub radius: u32,
}

// One visit: the slot, its record's distance to the query, and the bound.
#[derive(Clone, Copy)]
pub struct Visit {
    pub slot: usize,
    pub away: u64,
    pub bound: u64,
}

impl Asked {
    // The part of step 1 that asks for no bound: whether the distance `away` is at most the covering radius plus r.
    pub fn covers(self, t: &[u8], s: usize, away: u64) -> bool
        requires { Stands t.now s }
        ensures { result ≡ is_covered (record_of t.now s) away self.radius }
    {
        let covered = u64::from(table::radius_of(t, s)) + u64::from(self.radius);
        away <= covered
    }

    // Step 1: whether the record is entered.
    pub fn enters(self, t: &[u8], visit: Visit) -> bool
        requires { Stands t.now visit.slot }
        ensures { result ≡ is_entered (record_of t.now visit.slot) visit.away self.radius visit.bound }
    {
        let timestamp = u64::from(table::timestamp_of(t, visit.slot));
        timestamp < visit.bound && self.covers(t, visit.slot, visit.away)
    }

    // Step 3: all n children of the record in slot s are compared, each once. At each turn the first k distances stand.
    pub fn distances(self, t: &[u8], s: usize, n: usize) -> [u64; 8]
        requires { Walkable t.now × Stands t.now s × (n ≡ (record_of t.now s).count) }
        ensures { Compared (record_of t.now) self.query.kind self.query.signature.readings s n result }
    {
        let mut ds = [0u64; 8];
        for k in 0..n {
            ds[k] = u64::from(table::away_from(t, table::child_of(t, s, k), self.query));
        }
        ds
    }

    // Step 3: the bound of child k of the record visited, at the distances ds of the children. At each turn it has met
    // the siblings before j.
    pub fn bound_of(self, t: &[u8], visit: Visit, ds: &[u64], k: usize) -> u64
        requires walkable { Walkable t.now × Stands t.now visit.slot
            × (length ds.now ≡ (record_of t.now visit.slot).count) }
        requires child { (k < length ds.now) × ((j : ℕ) → get_or ds.now j 0 ≤ farthest) }
        ensures { (kind : ℕ) (q : List ℕ)
            → Compared (record_of t.now) kind q visit.slot (length ds.now) ds.now
            → result ≡ child_bound (asked (record_of t.now) kind q self.radius) visit.slot k visit.bound }
    {
        let margin = 2 * u64::from(self.radius);
        let mut lowest = visit.bound;
        for j in k + 1..ds.len() {
            if ds[j] + margin < ds[k] {
                let sibling = table::child_of(t, visit.slot, j);
                lowest = lowest.min(u64::from(table::timestamp_of(t, sibling)));
            }
        }
        lowest
    }
}

// Step 2: the card of the record in slot s, at the distance `away`, is listed if that is at most the radius.
// Returns how many cards are listed then. What it promises holds of every radius, and not only of one in four bytes,
// so it is told the number alone.
#[tactic(auto, unfolding(tree::specs::Slots::keep))]
pub fn note(t: &[u8], s: usize, away: u64, radius: u64, list: &mut [u32], found: usize) -> usize
    requires { Stands t.now s
        × (found + length (card_within (record_of t.now s) away radius) ≤ length list.old) }
    ensures { (list.new ≡ sets list.old found (card_within (record_of t.now s) away radius))
        × (result ≡ found + length (card_within (record_of t.now s) away radius)) }
{
    if away <= radius {
        list[found] = table::card_of(t, s);
        found + 1
    } else {
        found
    }
}
