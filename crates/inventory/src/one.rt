// What one card was stored with: the call, with its refusals.
ghost use Rattle.std.specs.Prelude.{◌≡◌};
ghost use Rattle.refusals.specs.Told.{told, count_in};
ghost use Rattle.table.specs.Record.{record_of};
ghost use Rattle.table.specs.Stands.{Stands};
ghost use Rattle.inventory.specs.Card.{outcome, one_card_of};
ghost use Rattle.inventory.specs.Tests.{telling_at};

use refusals::Refusal;
use refusals::limit::SIGNATURE;
use table::RECORD;

// What the record in slot s was stored with, if the row has room for it.
fn tell(t: &[u8], s: usize, row: &mut [u8]) -> Result<u8, Refusal>
    requires { Stands t.now s }
    ensures { outcome (told result) (count_in result) row.new
        ≡ telling_at (record_of t.now s) row.old }
{
    if row.len() < SIGNATURE {
        return Err(Refusal::Short);
    }
    writing::put_readings(row, 0, table::signature_of(t, s));
    Ok(table::kind_of(t, s))
}

// Tells the card's kind, and puts its signature into the row's first 32 bytes; later bytes stay. A refused call leaves
// the row.
pub fn card(t: &[u8], card: u32, row: &mut [u8]) -> Result<u8, Refusal>
    ensures { outcome (told result) (count_in result) row.new
        ≡ one_card_of t.now card row.old }
{
    admission::admit(t)?;
    if card == 0 {
        return Err(Refusal::Argument);
    }
    let Some(s) = survey::slot_of_card(t, t.len() / RECORD, card) else {
        return Err(Refusal::Absent);
    };
    tell(t, s, row)
}
