// Numbers in lent bytes, low byte first.
#![tactic(auto, unfolding(crate::specs::Number::number_at))]

ghost use Rattle.std.specs.Prelude.{ℕ, ◌≡◌, ◌+◌, ◌≤◌, length};
ghost use Rattle.number.specs.Number.{number_at, with_number, digits};

// A number that takes N bytes, lowest first. Its clauses cite `value`, at each type here the number as it is.
pub trait LowByteFirst<const N: usize>: Copy {
    ghost value: { Self → ℕ };

    fn from_bytes(bytes: &[u8; N]) -> Self
        ensures { value result ≡ number_at N bytes.now 0 };

    fn to_bytes(self) -> [u8; N]
        ensures { result ≡ digits N (value self) };
}

// An instance for each width, by its type's own conversion: an impl that a macro writes is refused.
impl LowByteFirst<2> for u16 {
    ghost value = { λ v. v };

    fn from_bytes(bytes: &[u8; 2]) -> u16 {
        u16::from_le_bytes(*bytes)
    }

    fn to_bytes(self) -> [u8; 2] {
        u16::to_le_bytes(self)
    }
}

impl LowByteFirst<4> for u32 {
    ghost value = { λ v. v };

    fn from_bytes(bytes: &[u8; 4]) -> u32 {
        u32::from_le_bytes(*bytes)
    }

    fn to_bytes(self) -> [u8; 4] {
        u32::to_le_bytes(self)
    }
}

impl LowByteFirst<8> for u64 {
    ghost value = { λ v. v };

    fn from_bytes(bytes: &[u8; 8]) -> u64 {
        u64::from_le_bytes(*bytes)
    }

    fn to_bytes(self) -> [u8; 8] {
        u64::to_le_bytes(self)
    }
}

// The number in the N bytes from `at` on. The copy compiles to one load, where taking the array by `first_chunk` leaves
// a test of the length.
pub fn get<const N: usize, T: LowByteFirst<N>>(t: &[u8], at: usize) -> T
    requires { at + N ≤ length t.now }
    ensures { T.value result ≡ number_at N t.now at }
{
    let mut bytes = [0; N];
    bytes.copy_from_slice(&t[at..at + N]);
    T::from_bytes(&bytes)
}

// Writes v into the N bytes from `at` on, which compiles to one store.
pub fn put<const N: usize, T: LowByteFirst<N>>(t: &mut [u8], at: usize, v: T)
    requires { at + N ≤ length t.old }
    ensures { t.new ≡ with_number N t.old at (T.value v) }
{
    t[at..at + N].copy_from_slice(&v.to_bytes());
}
