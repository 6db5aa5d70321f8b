// Insert (001, Algorithm 1): the call, its refusals in their order and then the placing.
#![tactic(auto)]

ghost use Rattle.std.specs.Prelude.{◌≡◌, IfOk};
ghost use Rattle.refusals.specs.Refusal.{first_of};
ghost use Rattle.refusals.specs.Outcome.{Outcome};
ghost use Rattle.refusals.specs.Told.{told, count_in};
ghost use Rattle.table.specs.Record.{record_of};
ghost use Rattle.table.specs.Table.{records_in};
ghost use Rattle.survey.specs.Answers.{Answers};
ghost use Rattle.survey.specs.Survey.{lowest_free};
ghost use Rattle.insert.specs.Insert.{insert_of};
ghost use Rattle.insert.specs.Groups.{own_tests};

use admission::query::{known_change, known_query, other_kind};
use distance::Query;
use refusals::Refusal;
use refusals::limit::TIMESTAMP;
use survey::Findings;
use table::RECORD;

// The slot that the card goes into. The refusals of an admitted table, in their order: by the arguments, and by what
// the table holds.
fn slot_for(
    t: &[u8],
    there: Findings,
    card: u32,
    kind: u8,
    arity: u8,
    signature: &[u8],
) -> Result<usize, Refusal>
    requires { Answers (records_in t.now) (record_of t.now) there }
    ensures refusal_is { told result ≡ first_of (own_tests t.now card kind arity signature.now) }
    ensures lowest { IfOk result (λ slot. slot ≡ lowest_free (records_in t.now) (record_of t.now)) }
{
    if !(known_change(card, arity) & known_query(kind, signature)) {
        return Err(Refusal::Argument);
    }
    if other_kind(there, kind) {
        return Err(Refusal::Kind);
    }
    if survey::slot_of_card(t, t.len() / RECORD, card).is_some() {
        return Err(Refusal::Twice);
    }
    let Some(slot) = there.lowest else {
        return Err(Refusal::Full);
    };
    let spent = TIMESTAMP <= there.largest;
    if spent {
        return Err(Refusal::Clock);
    }
    Ok(slot)
}

// Inserts the card with its kind and its signature of 32 bytes. Returns the distances worked out. A refused call leaves
// the table as it was.
pub fn insert(
    t: &mut [u8],
    card: u32,
    kind: u8,
    arity: u8,
    signature: &[u8],
) -> Result<u32, Refusal>
    ensures { ◌≡◌ {A = Outcome} (record { refusal = told result; count = count_in result; table = t.new })
        (insert_of t.old card kind arity signature.now) }
{
    let there = admission::admit(t)?;
    let slot = slot_for(t, there, card, kind, arity, signature)?;
    let signature = distance::signature_at(signature, 0);
    Ok(placing::place(t, slot, there, card, arity, Query { kind, signature }))
}
