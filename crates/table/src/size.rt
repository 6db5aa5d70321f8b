// The table as a whole: its size.
ghost use Rattle.std.specs.Prelude.{◌≡◌, length};
ghost use Rattle.table.specs.Table.{right_size, records_in};

use super::layout::{LARGEST, RECORD};

// Whether the table's length is a multiple of 64 from 64 to 65,536.
pub fn right_size(t: &[u8]) -> bool
    ensures { result ≡ right_size (length t.now) }
{
    let n = t.len();
    ((RECORD <= n) & (n <= LARGEST)) & (n % RECORD == 0)
}

// How many records the table has.
pub fn records_in(t: &[u8]) -> usize
    ensures { result ≡ records_in t.now }
{
    t.len() / RECORD
}
