// The nearest few cards (02, #101): the call, with its refusals. The work is on numbers alone, and its pairs
// are laid over the lent list in the end.
#![tactic(auto)]

ghost use Rattle.std.specs.Prelude.{◌≡◌, List, [], map, ℕ, ◌≤◌, length, take, IfOk};
ghost use Rattle.std.proofs.lemmas.List.Edits.{sets};
ghost use Rattle.refusals.specs.Limits.{most_nearest};
ghost use Rattle.pairs.specs.declared.Pair.{Pair};
ghost use Rattle.table.specs.Record.{record_of};
ghost use Rattle.table.specs.Table.{records_in};
ghost use Rattle.survey.specs.Survey.{used_in, root_of};
ghost use Rattle.judge.specs.Readable.{Readable};
ghost use Rattle.refusals.specs.Refusal.{first_of, done};
ghost use Rattle.refusals.specs.Told.{told, distances_in, found_in};
ghost use Rattle.pairs.specs.declared.Answer.{Answer};
ghost use Rattle.survey.specs.Answers.{Answers};
ghost use Rattle.admission.specs.Admission.{admission_tests};
ghost use Rattle.nearest.specs.Laid.{distances_told, cards_told, laid};
ghost use Rattle.waiting.specs.Front.{state};
ghost use Rattle.waiting.specs.Rows.{front_of};
ghost use Rattle.nearest.specs.Nearest.{outcome, right_arguments, refusal_of, listing_of, nearest_of, distances};
ghost use Rattle.nearest.specs.Keys.{pair_in, keys_held};

use admission::query::{known_query, other_kind};
use distance::{FARTHEST, Query};
use pairs::{Answer, Pair};
use refusals::limit::NEAREST;
use refusals::{Found, Refusal};
use survey::Findings;
use waiting::Front;
use waiting::keys::{first_in, second_in};

// Whether kind and signature are known, and k is 1 to 64; if not, the call is refused with ARGUMENT.
fn right_arguments(kind: u8, signature: &[u8], k: u32) -> bool
    ensures { result ≡ right_arguments kind signature.now k }
{
    known_query(kind, signature) & ((1 <= k) & (k as usize <= NEAREST))
}

// The refusals of an admitted table, in their order: by what the call is told, by the table's kind, and by the room in
// the list.
fn own_tests(
    there: Findings,
    kind: u8,
    signature: &[u8],
    k: u32,
    room: usize,
) -> Result<(), Refusal>
    ensures { (l : List ℕ)
        → first_of (admission_tests l) ≡ done
        → Answers (records_in l) (record_of l) there
        → told result ≡ refusal_of l kind signature.now k room }
{
    if !right_arguments(kind, signature, k) {
        return Err(Refusal::Argument);
    }
    if other_kind(there, kind) {
        return Err(Refusal::Kind);
    }
    if room < k as usize {
        return Err(Refusal::Short);
    }
    Ok(())
}

// The work in a used table, from its root on: the first k are held in the front, and this is how far it came.
fn search_from(t: &[u8], q: Query, used: usize, root: usize, front: &mut Front)
    requires readable { Readable t.now }
    requires begins { front_of front.old ≡ state [] [] 0 }
    requires there { (1 ≤ used) × (used ≡ used_in (records_in t.now) (record_of t.now))
        × (root ≡ root_of (records_in t.now) (record_of t.now)) }
    ensures held { (front_of front.new).held
        ≡ keys_held (records_in t.now) (record_of t.now) q.kind q.signature.readings front.old.k }
    ensures count { front.new.count
        ≡ distances (records_in t.now) (record_of t.now) q.kind q.signature.readings front.old.k }
    ensures same_k { front.new.k ≡ front.old.k }
{
    let away = u64::from(table::away_from(t, root, q));
    front.meet(t, root, away, 0, u64::from(FARTHEST));
    taking::take_all(t, q, used, front);
}

// The card and the distance in a key.
fn pair_in(key: u64) -> Pair
    ensures { result ≡ pair_in key }
{
    Pair {
        card: second_in(key),
        distance: first_in(key) as u32,
    }
}

// The pairs of the keys: at each turn the first i stand.
fn pairs_of(held: &[u64]) -> [Pair; NEAREST]
    requires { length held.now ≤ most_nearest }
    ensures { (take (length held.now) result ≡ map pair_in held.now) × (length result ≡ most_nearest) }
{
    let mut pairs = [Pair {
        card: 0,
        distance: 0,
    }; NEAREST];
    for (i, key) in held.iter().enumerate() {
        pairs[i] = pair_in(*key);
    }
    pairs
}

// No pair, and nothing counted: in a free table.
fn nothing() -> Answer
    ensures { (result.n ≡ 0) × (result.count ≡ 0) }
{
    Answer {
        pairs: [Pair {
            card: 0,
            distance: 0,
        }; NEAREST],
        n: 0,
        count: 0,
    }
}

// The nearest cards of a used table that no test refuses.
fn accepted(t: &[u8], q: Query, k: usize, used: usize, root: usize) -> Answer
    requires readable { Readable t.now × (1 ≤ k) × (k ≤ most_nearest) }
    requires there { (1 ≤ used) × (used ≡ used_in (records_in t.now) (record_of t.now))
        × (root ≡ root_of (records_in t.now) (record_of t.now)) }
    ensures { ((list : List Pair)
        → outcome done result.count result.n (sets list 0 (take result.n result.pairs))
        ≡ listing_of t.now q.kind q.signature.readings k list)
        × (result.n ≤ k) }
{
    let mut front = Front::new(k);
    search_from(t, q, used, root, &mut front);
    let held = front.held();
    Answer {
        pairs: pairs_of(held),
        n: held.len(),
        count: front.count as u32,
    }
}

// The k nearest cards of the table to the signature: their pairs, nearest first, for a list of `room` entries, and the
// distances worked out. Right for each list of that length; a refused call has no pair.
pub fn nearest(t: &[u8], kind: u8, signature: &[u8], k: u32, room: usize) -> Result<Answer, Refusal>
    ensures pairs { (list : List Pair)
        → length list ≡ room
        → outcome (told result) (distances_told result) (cards_told result) (laid result list)
        ≡ nearest_of t.now kind signature.now k list }
    ensures few { IfOk result (λ (a : Answer). (a.n ≤ room) × (a.n ≤ most_nearest)) }
{
    let there = admission::admit(t)?;
    own_tests(there, kind, signature, k, room)?;
    let Some(root) = there.root else {
        return Ok(nothing());
    };
    let q = Query {
        kind,
        signature: distance::signature_at(signature, 0),
    };
    Ok(accepted(t, q, k as usize, there.used, root))
}

// What an answer counts: the distances worked out, and the cards found.
pub fn counts_of(answer: &Result<Answer, Refusal>) -> Result<Found, Refusal>
    requires { IfOk answer.now (λ (a : Answer). a.n ≤ most_nearest) }
    ensures { (told result ≡ told answer.now)
        × (distances_in result ≡ distances_told answer.now)
        × (found_in result ≡ cards_told answer.now) }
{
    match answer {
        Ok(a) => Ok(Found {
            count: a.count,
            found: a.n as u32,
        }),
        Err(why) => Err(*why),
    }
}

// Lays an answer's pairs over the list, from its start; later entries stay. A refusal leaves the list.
pub fn lay(answer: Result<Answer, Refusal>, list: &mut [Pair])
    requires { IfOk answer (λ (a : Answer). (a.n ≤ length list.old) × (a.n ≤ most_nearest)) }
    ensures { list.new ≡ laid answer list.old }
{
    if let Ok(a) = answer {
        pairs::fill(list, a);
    }
}

// Lays the pairs of the k nearest cards over the list, from its start; later entries stay. A refused call leaves the
// list.
pub fn lay_nearest(
    t: &[u8],
    kind: u8,
    signature: &[u8],
    k: u32,
    list: &mut [Pair],
) -> Result<Found, Refusal>
    ensures { outcome (told result) (distances_in result) (found_in result) list.new
        ≡ nearest_of t.now kind signature.now k list.old }
{
    let answer = nearest(t, kind, signature, k, list.len());
    let counts = counts_of(&answer);
    lay(answer, list);
    counts
}
