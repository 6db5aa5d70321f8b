// One number for a record that waits and for a card that is held: a number that decides first, one that decides among
// equals, and a slot, which decides nothing and is there to be read back.
ghost use Rattle.std.specs.Prelude.{◌≡◌, ◌^◌, ◌<◌};
ghost use Rattle.waiting.specs.Key.{key as Key, first_in, second_in, slot_in, second_span};

// The first counts in steps of FIRST, the second in steps of SECOND.
pub const FIRST: u64 = 4398046511104;

pub const SECOND: u64 = 1024;

pub(crate) fn key(first: u64, second: u32, slot: usize) -> u64
    requires { Key first second slot < 2 ^ 64 }
    ensures { result ≡ Key first second slot }
{
    first * FIRST + u64::from(second) * SECOND + slot as u64
}

pub fn first_in(key: u64) -> u64
    ensures { result ≡ first_in key }
{
    key / FIRST
}

pub fn second_in(key: u64) -> u32
    ensures { result ≡ second_in key }
{
    (key / SECOND % 4294967296) as u32
}

pub fn slot_in(key: u64) -> usize
    ensures { (result ≡ slot_in key) × (result < second_span) }
{
    (key % SECOND) as usize
}
