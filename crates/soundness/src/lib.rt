// The check call: whether a table is sound. Each used record x climbs to the root by the parent links, and is compared
// with each record above it and with that record's older siblings. So a record and one above it meet once: a tree of
// small depth costs some distances for each record, and the worst case, a chain of 1,024 records, half a million
// distances, some milliseconds. To walk down from each record would meet the same pairs, but needs a stack.
#![tactic(auto)]

ghost use Rattle.std.specs.Prelude.{◌≡◌, ◌<◌};
ghost use Rattle.distance.specs.Kind.{apart};
ghost use Rattle.table.specs.Record.{record_of, slot_told};
ghost use Rattle.table.specs.Table.{records_in};
ghost use Rattle.table.specs.Stands.{Stands};
ghost use Rattle.refusals.specs.Told.{told};
ghost use Rattle.soundness.specs.Soundness.{check_of};
ghost use Rattle.soundness.specs.Climb.{sibling_passes, siblings_pass, passes, climb, record_passes, route};
ghost use Rattle.soundness.specs.HoldsCard.{FormedTable, HoldsCard, CardIfAny};

use distance::Query;
use refusals::Refusal;
use table::RECORD;

// The record that climbs: what it is compared by, and its timestamp.
#[derive(Clone, Copy)]
struct Climber {
    query: Query,
    timestamp: u32,
}

// If c is older than x, is x no farther from b than from c? From b it is `far`, so b itself costs no second distance.
fn sibling_ok(t: &[u8], x: Climber, far: u32, b: usize, c: usize) -> bool
    requires { Stands t.now c
        × (far ≡ apart x.query.kind x.query.signature.readings (record_of t.now b).readings) }
    ensures { result ≡ sibling_passes (record_of t.now) x.query.kind x.query.signature.readings x.timestamp b c }
{
    if c == b {
        true
    } else if table::timestamp_of(t, c) < x.timestamp {
        far <= table::away_from(t, c, x.query)
    } else {
        true
    }
}

// Is x no farther from b than from any child of p that is older than x? The first i children are looked at.
fn siblings_ok(t: &[u8], x: Climber, far: u32, b: usize, p: usize) -> bool
    requires { FormedTable t.now
        × HoldsCard t.now p
        × (far ≡ apart x.query.kind x.query.signature.readings (record_of t.now b).readings) }
    ensures { result ≡ siblings_pass (record_of t.now) x.query.kind x.query.signature.readings x.timestamp b p }
{
    let count = table::children_of(t, p);
    for i in 0..count {
        let c = table::child_of(t, p, i);
        if !sibling_ok(t, x, far, b, c) {
            return false;
        }
    }
    true
}

// What soundness asks of x and a record b above it: the radius of b, and the siblings of b unless it is the root.
fn above_ok(t: &[u8], x: Climber, b: usize) -> bool
    requires { FormedTable t.now × HoldsCard t.now b }
    ensures { result ≡ passes (record_of t.now) x.query.kind x.query.signature.readings x.timestamp b }
{
    let far = table::away_from(t, b, x.query);
    if far <= table::radius_of(t, b) {
        match table::parent_of(t, b) {
            None => true,
            Some(p) => siblings_ok(t, x, far, b, p),
        }
    } else {
        false
    }
}

// The climb from b to the root. No way up has more steps than the table has records, so the levels never run out.
fn climb_ok(t: &[u8], x: Climber, from: Option<usize>, levels: usize) -> bool
    requires { FormedTable t.now × CardIfAny t.now from }
    ensures { result
        ≡ climb (record_of t.now) x.query.kind x.query.signature.readings x.timestamp levels (slot_told from) }
{
    let mut b = from;
    for _ in 0..levels {
        let Some(above) = b else {
            return true;
        };
        if !above_ok(t, x, above) {
            return false;
        }
        b = table::parent_of(t, above);
    }
    true
}

// The climb from the record in slot x, if it is used. Its signature is read once; all kinds are equal, so its own is
// the table's.
fn record_ok(t: &[u8], x: usize) -> bool
    requires { FormedTable t.now × (x < records_in t.now) }
    ensures { result ≡ record_passes (records_in t.now) (record_of t.now) x }
{
    if table::card_of(t, x) == 0 {
        true
    } else {
        let climber = Climber {
            query: Query {
                kind: table::kind_of(t, x),
                signature: table::signature_of(t, x),
            },
            timestamp: table::timestamp_of(t, x),
        };
        climb_ok(t, climber, table::parent_of(t, x), t.len() / RECORD)
    }
}

// Every used record: the first x slots have passed.
fn all_ok(t: &[u8]) -> bool
    requires { FormedTable t.now }
    ensures { result ≡ route (records_in t.now) (record_of t.now) }
{
    let n = t.len() / RECORD;
    for x in 0..n {
        if !record_ok(t, x) {
            return false;
        }
    }
    true
}

// Whether the table is sound. It never writes.
pub fn check(t: &[u8]) -> Result<(), Refusal>
    ensures { told result ≡ check_of t.now }
{
    admission::admit(t)?;
    if !all_ok(t) {
        return Err(Refusal::Loose);
    }
    Ok(())
}
