// All stored cards in slot order: the call, with its refusals.
ghost use Rattle.std.specs.Prelude.{◌≡◌, ◌≤◌, length};
ghost use Rattle.std.proofs.lemmas.List.Edits.{sets};
ghost use Rattle.refusals.specs.Told.{told, count_in};
ghost use Rattle.table.specs.Record.{record_of};
ghost use Rattle.table.specs.Table.{records_in};
ghost use Rattle.survey.specs.Survey.{used_in};
ghost use Rattle.inventory.specs.Cards.{cards_in, outcome, all_cards_of};

use refusals::Refusal;

// Lists the cards of the `used` records. At each turn those of the first s slots are listed, `found` of them. The entry
// after them is written whether slot s is used or not: a used record is still to come, and its card goes there.
fn list_cards(t: &[u8], list: &mut [u32], used: usize)
    requires { (used ≡ used_in (records_in t.now) (record_of t.now)) × (used ≤ length list.old) }
    ensures { list.new
        ≡ sets list.old 0 (cards_in (records_in t.now) (record_of t.now)) }
{
    let mut found: usize = 0;
    for s in 0..table::records_in(t) {
        if found == used {
            return;
        }
        let card = table::card_of(t, s);
        list[found] = card;
        found += usize::from(card != 0);
    }
}

// Lists every stored card from the list's start on, and answers how many; later entries stay. A refused call leaves the
// list.
pub fn cards(t: &[u8], list: &mut [u32]) -> Result<u32, Refusal>
    ensures { outcome (told result) (count_in result) list.new
        ≡ all_cards_of t.now list.old }
{
    let there = admission::admit(t)?;
    if list.len() < there.used {
        return Err(Refusal::Short);
    }
    list_cards(t, list, there.used);
    Ok(there.used as u32)
}
