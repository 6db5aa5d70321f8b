// The library's doors: the calls as C functions over lent bytes and numbers. include/plotvuga.h says what a C
// caller needs to know. Each returns the paper's refusal number, 0 if it was done; counts go to where the caller
// points.
#![tactic(auto)]

ghost use Rattle.std.specs.Prelude.{◌≡◌};
ghost use Rattle.writing.specs.Clear.{Cleared, clear_of};
ghost use Rattle.insert.specs.Insert.{insert_of};
ghost use Rattle.refusals.specs.Outcome.{Outcome};
ghost use Rattle.refusals.specs.Told.{told, count_in, distances_in, found_in};
ghost use Rattle.delete.specs.Delete.{delete_of};
ghost use Rattle.search.specs.Search.{search_of};
ghost use Rattle.search.specs.Search.{Outcome as Listing};
ghost use Rattle.nearest.specs.Nearest.{nearest_of};
ghost use Rattle.nearest.specs.Nearest.{Outcome as Nearest};
ghost use Rattle.soundness.specs.Soundness.{check_of};
ghost use Rattle.inventory.specs.Cards.{all_cards_of};
ghost use Rattle.inventory.specs.Cards.{Outcome as Cards};
ghost use Rattle.inventory.specs.Card.{one_card_of};
ghost use Rattle.inventory.specs.Card.{Outcome as Card};

use pairs::Pair;
use refusals::{Found, Refusal};

// Tells what a call counts where the caller points, 0 if it is refused, and answers its number.
fn tell_count(answer: Result<u32, Refusal>, count: &mut u32) -> u32
    ensures { (result ≡ told answer) × (count.new ≡ count_in answer) }
{
    *count = refusals::count_in(answer);
    u32::from(refusals::told(answer))
}

// Tells what a search counts, likewise.
fn tell_counts(answer: Result<Found, Refusal>, count: &mut u32, found: &mut u32) -> u32
    ensures { (result ≡ told answer) × (count.new ≡ distances_in answer) × (found.new ≡ found_in answer) }
{
    let counts = refusals::counts_in(answer);
    *count = counts.count;
    *found = counts.found;
    u32::from(refusals::told(answer))
}

#[unsafe(no_mangle)]
pub extern "C" fn plotvuga_clear(table: &mut [u8]) -> u32
    ensures { ◌≡◌ {A = Cleared} (record { refusal = result; table = table.new }) (clear_of table.old) }
{
    u32::from(refusals::told(writing::clear(table)))
}

#[unsafe(no_mangle)]
pub extern "C" fn plotvuga_insert(
    table: &mut [u8],
    card: u32,
    kind: u8,
    arity: u8,
    signature: &[u8],
    count: &mut u32,
) -> u32
    ensures { ◌≡◌ {A = Outcome}
        (record { refusal = result; count = count.new; table = table.new })
        (insert_of table.old card kind arity signature.now) }
{
    tell_count(insert::insert(table, card, kind, arity, signature), count)
}

#[unsafe(no_mangle)]
pub extern "C" fn plotvuga_delete(table: &mut [u8], card: u32, arity: u8, count: &mut u32) -> u32
    ensures { ◌≡◌ {A = Outcome}
        (record { refusal = result; count = count.new; table = table.new })
        (delete_of table.old card arity) }
{
    tell_count(delete::delete(table, card, arity), count)
}

#[unsafe(no_mangle)]
pub extern "C" fn plotvuga_search(
    table: &[u8],
    kind: u8,
    signature: &[u8],
    radius: u32,
    list: &mut [u32],
    count: &mut u32,
    found: &mut u32,
) -> u32
    ensures { ◌≡◌ {A = Listing}
        (record { refusal = result; count = count.new; found = found.new; list = list.new })
        (search_of table.now kind signature.now radius list.old) }
{
    tell_counts(
        search::search(table, kind, signature, radius, list),
        count,
        found,
    )
}

#[unsafe(no_mangle)]
pub extern "C" fn plotvuga_nearest(
    table: &[u8],
    kind: u8,
    signature: &[u8],
    k: u32,
    list: &mut [Pair],
    count: &mut u32,
    found: &mut u32,
) -> u32
    ensures { ◌≡◌ {A = Nearest}
        (record { refusal = result; count = count.new; found = found.new; list = list.new })
        (nearest_of table.now kind signature.now k list.old) }
{
    let answer = nearest::nearest(table, kind, signature, k, list.len());
    let refusal = tell_counts(nearest::counts_of(&answer), count, found);
    nearest::lay(answer, list);
    refusal
}

#[unsafe(no_mangle)]
pub extern "C" fn plotvuga_check(table: &[u8]) -> u32
    ensures { result ≡ check_of table.now }
{
    u32::from(refusals::told(soundness::check(table)))
}

#[unsafe(no_mangle)]
pub extern "C" fn plotvuga_cards(table: &[u8], list: &mut [u32], found: &mut u32) -> u32
    ensures { ◌≡◌ {A = Cards}
        (record { refusal = result; found = found.new; list = list.new })
        (all_cards_of table.now list.old) }
{
    tell_count(inventory::cards(table, list), found)
}

#[unsafe(no_mangle)]
pub extern "C" fn plotvuga_card(table: &[u8], card: u32, row: &mut [u8], kind: &mut u8) -> u32
    ensures { ◌≡◌ {A = Card}
        (record { refusal = result; kind = kind.new; row = row.new })
        (one_card_of table.now card row.old) }
{
    let answer = inventory::card(table, card, row);
    *kind = answer.unwrap_or(0);
    u32::from(refusals::told(answer))
}
