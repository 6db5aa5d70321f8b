// Delete: a card's record leaves with all below it, and those below go back by the insert rule. All tests come before
// any write.
#![tactic(auto)]

ghost use Rattle.std.specs.Prelude.{◌≡◌, ◌+◌, ◌≤◌, length};
ghost use Rattle.refusals.specs.Limits.{most_children, last_timestamp};
ghost use Rattle.refusals.specs.Outcome.{Outcome};
ghost use Rattle.refusals.specs.Told.{told, count_in};
ghost use Rattle.table.specs.Table.{records_of};
ghost use Rattle.placing.specs.Hangable.{leaves};
ghost use Rattle.delete.specs.Delete.{deleted, delete_of};
ghost use Rattle.delete.specs.Call.{outcome_at};
ghost use Rattle.delete.specs.Plan.{Deletable, Planned};

use admission::query::known_change;
use below::{in_age_order, last_staying};
use descent::Tree;
use refusals::Refusal;
use refusals::limit::{RECORDS, TIMESTAMP};
use survey::Findings;
use table::RECORD;

// The card in slot v leaves; those below it, whose keys follow its own, go back after the timestamp `last`, that of the
// youngest that stays. A record is used, so there is a root. Returns the distances worked out.
fn carry_out(t: &mut [u8], v: usize, keys: &[u64], found: Findings, arity: u8, last: u32) -> u32
    requires { Planned t.old v found keys.now last × (arity ≤ most_children)
        × (last + length keys.now ≤ last_timestamp + 1) }
    ensures { leaves t.new result ≡ deleted arity (records_of t.old) v }
{
    let root = found.root.unwrap();
    removal::unhang(t, v);
    let tree = Tree {
        kind: found.kind,
        arity: usize::from(arity),
        root,
        depth: found.used - keys.len(),
    };
    back::put_back(t, &keys[1..], tree, last)
}

// The card in slot v leaves a well-formed table, unless a fresh timestamp would pass the last: those that go back are
// more than the timestamps left. Returns the distances worked out.
fn delete_at(t: &mut [u8], v: usize, found: Findings, arity: u8) -> Result<u32, Refusal>
    requires { Deletable t.old v found × (arity ≤ most_children) }
    ensures { ◌≡◌ {A = Outcome} (record { refusal = told result; count = count_in result; table = t.new })
        (outcome_at t.old v arity) }
{
    let mut room = [0u64; RECORDS];
    let m = in_age_order(t, v, found.used, &mut room);
    let keys = &room[..m];
    let last = last_staying(t, keys, t.len() / RECORD);
    if TIMESTAMP - last < m as u32 - 1 {
        return Err(Refusal::Clock);
    }
    Ok(carry_out(t, v, keys, found, arity, last))
}

// Deletes the card. Returns the distances worked out. A refused call leaves the table as it was.
pub fn delete(t: &mut [u8], card: u32, arity: u8) -> Result<u32, Refusal>
    ensures { ◌≡◌ {A = Outcome} (record { refusal = told result; count = count_in result; table = t.new })
        (delete_of t.old card arity) }
{
    let there = admission::admit(t)?;
    if !known_change(card, arity) {
        return Err(Refusal::Argument);
    }
    let n = t.len() / RECORD;
    let v = survey::slot_of_card(t, n, card).ok_or(Refusal::Absent)?;
    delete_at(t, v, there, arity)
}
