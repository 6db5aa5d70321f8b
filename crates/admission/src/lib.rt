// What every call does first: the table that it is lent is judged, and what calls ask of a table is found.
#![tactic(auto)]

ghost use Rattle.std.specs.Prelude.{◌≡◌, ◌*◌, ◌≤◌};
ghost use Rattle.refusals.specs.Limits.{most_records};
ghost use Rattle.table.specs.Record.{record_of};
ghost use Rattle.table.specs.Stands.{StandTo};
ghost use Rattle.judge.specs.WellFormed.{well_formed};
ghost use Rattle.links.specs.Loop.Seen.{largest_byte};
ghost use Rattle.admission.specs.Verdict.{numbers_agree, Judged};
ghost use Rattle.admission.specs.Admission.{Admits};

mod keys;
pub mod query;

use keys::keys_distinct;
use links::Seen;
use refusals::Refusal;
use survey::Findings;
use table::RECORD;

// Is there a root if any record is used, and is every other used record counted as a child?
fn numbers_agree(seen: Seen) -> bool
    requires { seen.children ≤ largest_byte * most_records }
    ensures { result ≡ numbers_agree seen }
{
    let any = usize::from(seen.used != 0);
    let roots = usize::from(seen.root.is_some());
    (roots == any) & (seen.children + roots == seen.used)
}

// What the pass has seen of the n records, if they are a well-formed table. Timestamps that rise with the slots, as
// they do until a card is deleted, are told apart by the pass itself.
#[tactic(auto, using(table::specs::Stands::stands_below))]
fn formed(t: &[u8], n: usize) -> Option<Seen>
    requires { StandTo t.now n × (n ≤ most_records) }
    ensures { Judged n (record_of t.now) result }
{
    let seen = links::links(t, n)?;
    if !numbers_agree(seen) {
        return None;
    }
    if !keys_distinct(n, |s| table::card_of(t, s)) {
        return None;
    }
    if seen.rising {
        return Some(seen);
    }
    keys_distinct(n, |s| table::timestamp_of(t, s)).then_some(seen)
}

// Judges the table, and answers what calls ask of it: one pass over the records, and their keys told apart.
pub fn admit(t: &[u8]) -> Result<Findings, Refusal>
    ensures { Admits t.now result }
{
    if !table::right_size(t) {
        return Err(Refusal::Size);
    }
    let n = t.len() / RECORD;
    let seen = formed(t, n).ok_or(Refusal::Table)?;
    Ok(Findings {
        used: seen.used,
        lowest: seen.lowest,
        largest: seen.largest,
        root: seen.root,
        kind: seen.kind.unwrap_or(0),
    })
}
