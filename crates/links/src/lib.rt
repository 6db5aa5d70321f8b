// One pass over the records: what it asks of each, and the numbers that it brings back.
#![tactic(auto)]

ghost use Rattle.std.specs.Prelude.{◌≡◌, ◌&&◌, ◌*◌, ◌≤◌, ◌<◌};
ghost use Rattle.refusals.specs.Limits.{most_records, most_children};
ghost use Rattle.table.specs.Record.{record_of};
ghost use Rattle.table.specs.Stands.{Stands, StandTo};
ghost use Rattle.judge.specs.WellFormed.{is_filled, past_count};
ghost use Rattle.judge.specs.Counted.{all_linked};
ghost use Rattle.links.specs.Loop.Seen.{SeenBefore, Looked, Ended, with_free, with_used, largest_byte};

use refusals::limit::CHILDREN;

// By the count of children: the least number that the first four child slots make if those past the count are 65,535.
static FIRST_FLOORS: [u64; 9] = [
    0xffffffffffffffff,
    0xffffffffffff0000,
    0xffffffff00000000,
    0xffff000000000000,
    0,
    0,
    0,
    0,
    0,
];

// The same of the last four.
static LAST_FLOORS: [u64; 9] = [
    0xffffffffffffffff,
    0xffffffffffffffff,
    0xffffffffffffffff,
    0xffffffffffffffff,
    0xffffffffffffffff,
    0xffffffffffff0000,
    0xffffffff00000000,
    0xffff000000000000,
    0,
];

// Are the child slots past the count 65,535? Four at a time and by a row of floors, so that the count is no loop's
// end and decides no branch, which would be hard to predict.
fn past_ok(t: &[u8], s: usize) -> bool
    requires { Stands t.now s × ((record_of t.now s).count ≤ most_children) }
    ensures { result ≡ past_count (record_of t.now s) }
{
    let count = table::children_of(t, s);
    let some = FIRST_FLOORS[count] <= table::four_slots(t, s, 0);
    let others = LAST_FLOORS[count] <= table::four_slots(t, s, 1);
    some & others
}

// Is each child in the table, does it name s as its parent, and is it younger than the one before it, the first than
// the record itself? At each turn the i children passed are, and `before` is the last one's timestamp.
#[tactic(auto, using(table::specs::Stands::stands_below))]
fn children_ok(t: &[u8], n: usize, s: usize) -> bool
    requires { StandTo t.now n × (s < n) × ((record_of t.now s).count ≤ most_children) }
    ensures { result ≡ all_linked n (record_of t.now) s }
{
    let mut before = table::timestamp_of(t, s);
    for i in 0..table::children_of(t, s) {
        let c = table::child_of(t, s, i);
        if c >= n {
            return false;
        }
        let younger = table::timestamp_of(t, c);
        if !table::is_child_of(t, c, s) | (younger <= before) {
            return false;
        }
        before = younger;
    }
    true
}

// Has the used record in slot s every field as it should be, and each of its children linked to it?
#[tactic(auto, using(table::specs::Stands::stands_below))]
fn record_ok(t: &[u8], n: usize, s: usize) -> bool
    requires { StandTo t.now n × (s < n) × (1 ≤ (record_of t.now s).card) }
    ensures { result ≡ is_filled (record_of t.now s) && all_linked n (record_of t.now) s }
{
    let timestamp = table::timestamp_of(t, s);
    let kind = table::kind_of(t, s);
    let count = table::count_of(t, s);
    if (timestamp == 0) | !distance::known_kind(kind) | (count > CHILDREN) {
        return false;
    }
    past_ok(t, s) && children_ok(t, n, s)
}

// What a pass has seen of the records before a slot, all of which fit: the kind of the last used one, how many of all
// records were not found free, how many children they count, and whether timestamps rise with the slots, so that they
// need not be told apart; and for the calls the lowest free slot, the largest timestamp and the slot of the root. What
// is used counts down from all records: counted up, judging a full table took up to a fifth longer.
#[derive(Clone, Copy)]
pub struct Seen {
    pub kind: Option<u8>,
    pub used: usize,
    pub children: usize,
    pub rising: bool,
    pub lowest: Option<usize>,
    pub largest: u32,
    pub root: Option<usize>,
}

impl Seen {
    // What is seen with the free record in slot s besides.
    fn with_free(self, s: usize) -> Seen
        requires { 1 ≤ self.used }
        ensures { result ≡ with_free self s }
    {
        Seen {
            used: self.used - 1,
            lowest: self.lowest.or(Some(s)),
            ..self
        }
    }

    // What is seen with the used record in slot s besides, which fits; this is then the root.
    fn with_used(self, t: &[u8], s: usize, root: Option<usize>) -> Seen
        requires stands { Stands t.now s }
        requires few { self.children ≤ largest_byte * most_records }
        ensures { result ≡ with_used self (record_of t.now s) root }
    {
        let timestamp = table::timestamp_of(t, s);
        Seen {
            kind: Some(table::kind_of(t, s)),
            children: self.children + table::children_of(t, s),
            rising: self.rising & (self.largest < timestamp),
            largest: timestamp.max(self.largest),
            root,
            ..self
        }
    }
}

// What the pass has seen, with the record in slot s besides; none if that does not fit or is a second root, so that the
// table cannot be well formed.
#[tactic(auto, using(table::specs::Stands::stands_below))]
fn look(t: &[u8], n: usize, s: usize, seen: Seen) -> Option<Seen>
    requires { StandTo t.now n × (n ≤ most_records) × (s < n) × SeenBefore n (record_of t.now) s seen }
    ensures { Looked n (record_of t.now) s result }
{
    if table::card_of(t, s) == 0 {
        if !table::is_free(t, s) {
            return None;
        }
        return Some(seen.with_free(s));
    }
    let kind = table::kind_of(t, s);
    if seen.kind.unwrap_or(kind) != kind {
        return None;
    }
    if !record_ok(t, n, s) {
        return None;
    }
    if table::parent_of(t, s).is_some() {
        return Some(seen.with_used(t, s, seen.root));
    }
    if seen.root.is_some() {
        return None;
    }
    Some(seen.with_used(t, s, Some(s)))
}

// The whole pass; none if a record does not fit or is a second root. At each turn it has seen the records before s.
pub fn links(t: &[u8], n: usize) -> Option<Seen>
    requires { StandTo t.now n × (n ≤ most_records) }
    ensures { Ended n (record_of t.now) result }
{
    let mut seen = Seen {
        kind: None,
        used: n,
        children: 0,
        rising: true,
        lowest: None,
        largest: 0,
        root: None,
    };
    for s in 0..n {
        seen = look(t, n, s, seen)?;
    }
    Some(seen)
}
