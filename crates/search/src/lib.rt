// Range search (001, Algorithm 2): the call, with its refusals.
#![tactic(auto)]

ghost use Rattle.std.specs.Prelude.{◌≡◌, List, ℕ, ◌≤◌, length};
ghost use Rattle.table.specs.Record.{record_of};
ghost use Rattle.table.specs.Table.{records_in};
ghost use Rattle.survey.specs.Survey.{used_in, root_of};
ghost use Rattle.judge.specs.Readable.{Readable};
ghost use Rattle.refusals.specs.Refusal.{first_of, done};
ghost use Rattle.refusals.specs.Told.{told, distances_in, found_in};
ghost use Rattle.survey.specs.Answers.{Answers};
ghost use Rattle.admission.specs.Admission.{admission_tests};
ghost use Rattle.search.specs.Search.{outcome, refusal_of, listing_of, search_of};

use admission::query::{known_query, other_kind};
use distance::Query;
use refusals::{Found, Refusal};
use steps::{Asked, Visit};
use survey::Findings;
use walk::Reached;

// "No bound on time": above every timestamp that four bytes hold.
const NO_BOUND: u64 = 4294967296;

// Nothing is compared and nothing found in a free table.
const NOTHING: Found = Found { count: 0, found: 0 };

// The refusals of an admitted table, in their order, each call's own since each has a wrong version of its own: by what
// the search is told, by the table's kind, and by the room in the list.
fn own_tests(there: Findings, kind: u8, signature: &[u8], room: usize) -> Result<(), Refusal>
    ensures { (l : List ℕ)
        → first_of (admission_tests l) ≡ done
        → Answers (records_in l) (record_of l) there
        → told result ≡ refusal_of l kind signature.now room }
{
    if !known_query(kind, signature) {
        return Err(Refusal::Argument);
    }
    if other_kind(there, kind) {
        return Err(Refusal::Kind);
    }
    if room < there.used {
        return Err(Refusal::Short);
    }
    Ok(())
}

// The search of a used table that no test refuses, from its root on.
fn accepted(t: &[u8], asked: Asked, list: &mut [u32], used: usize, root: usize) -> Found
    requires readable { Readable t.now × (used ≤ length list.old) }
    requires there { (1 ≤ used) × (used ≡ used_in (records_in t.now) (record_of t.now))
        × (root ≡ root_of (records_in t.now) (record_of t.now)) }
    ensures { outcome done result.count result.found list.new
        ≡ listing_of t.now asked.query.kind asked.query.signature.readings asked.radius list.old }
{
    let visit = Visit {
        slot: root,
        away: u64::from(table::away_from(t, root, asked.query)),
        bound: NO_BOUND,
    };
    let start = Reached { found: 0, count: 1 };
    let r = walk::walk(t, &asked, list, visit, start, used);
    Found {
        count: r.count as u32,
        found: r.found as u32,
    }
}

// Lists the cards at most `radius` from the signature, from the list's start; later entries stay. A refused call leaves
// the list.
pub fn search(
    t: &[u8],
    kind: u8,
    signature: &[u8],
    radius: u32,
    list: &mut [u32],
) -> Result<Found, Refusal>
    ensures { outcome (told result) (distances_in result) (found_in result) list.new
        ≡ search_of t.now kind signature.now radius list.old }
{
    let there = admission::admit(t)?;
    own_tests(there, kind, signature, list.len())?;
    let Some(root) = there.root else {
        return Ok(NOTHING);
    };
    let query = Query {
        kind,
        signature: distance::signature_at(signature, 0),
    };
    Ok(accepted(t, Asked { query, radius }, list, there.used, root))
}
