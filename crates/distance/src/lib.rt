// Signatures and their two distances.
#![tactic(auto, unfolding(crate::specs::Signature::word_of, places::specs::Sum::sum_to))]

ghost use Rattle.std.specs.Prelude.{ℕ, List, ◌≡◌, ◌+◌, ◌≤◌, ◌<◌, length, get_or};
ghost use Rattle.distance.specs.Laws.{farthest};
ghost use Rattle.distance.specs.Signature.{readings_at, word_of};
ghost use Rattle.distance.specs.Readings.{gap, readings_apart};
ghost use Rattle.distance.specs.Mask.{bits_apart, masks_apart};
ghost use Rattle.distance.specs.Kind.{apart, known_kind};

// The fourth law's bound: no distance exceeds it.
pub const FARTHEST: u32 = 1048560;

// Sixteen readings, or a fault mask in the same 32 bytes, taken as four words: wherever they stand.
pub trait Readings: Copy {
    ghost readings: { Self → List ℕ };

    fn reading(&self, i: usize) -> u16
        requires { i < 16 }
        ensures { result ≡ get_or (readings self.now) i 0 };

    // Word k of the mask: readings 4k to 4k + 3, lowest first.
    fn word(&self, k: usize) -> u64
        requires { k < 4 }
        ensures { result ≡ word_of (readings self.now) k };
}

// Sixteen readings held together and passed as one.
#[derive(Clone, Copy)]
pub struct Signature {
    pub readings: [u16; 16],
}

impl Readings for Signature {
    ghost readings = { λ s. s.readings };

    fn reading(&self, i: usize) -> u16 {
        self.readings[i]
    }

    fn word(&self, k: usize) -> u64 {
        let first = 4 * k;
        u64::from(self.readings[first])
            + 0x10000 * u64::from(self.readings[first + 1])
            + 0x100000000 * u64::from(self.readings[first + 2])
            + 0x1000000000000 * u64::from(self.readings[first + 3])
    }
}

// What stored cards are compared with: a kind, and a signature of that kind.
#[derive(Clone, Copy)]
pub struct Query {
    pub signature: Signature,
    pub kind: u8,
}

// The signature in the 32 bytes from `at` on. At each turn the first k readings stand in their places; of the library's
// `from_fn` the closure's states stay open.
pub fn signature_at(t: &[u8], at: usize) -> Signature
    requires { at + 32 ≤ length t.now }
    ensures { result.readings ≡ readings_at t.now at }
{
    let mut readings = [0; 16];
    for k in 0..16usize {
        readings[k] = number::get(t, at + 2 * k);
    }
    Signature { readings }
}

// The absolute difference of two readings. One part is 0, and the sum of both compiles to eight readings at a time;
// `abs_diff`, of signatures passed by value, to one at a time, which takes three times as long.
pub fn reading_gap(x: u16, y: u16) -> u32
    ensures { (result ≡ gap x y) × (result ≤ 65535) }
{
    u32::from(x.saturating_sub(y)) + u32::from(y.saturating_sub(x))
}

// Kind 1. At each turn the sum is that of the first i differences; of a chain the bound of the sum stays open. Both are
// lent: of copies, compiled code takes one reading at a time.
pub fn readings_apart<S: Readings>(a: &S, b: &S) -> u32
    ensures { (result ≡ readings_apart (S.readings a.now) (S.readings b.now)) × (result ≤ farthest) }
{
    let mut sum = 0;
    for i in 0..16usize {
        sum += reading_gap(a.reading(i), b.reading(i));
    }
    sum
}

// How many bits of two words differ.
#[tactic(auto, using(crate::specs::Mask::bits_at_most), unfolding(crate::specs::Mask::bits_apart))]
pub fn bits_apart(x: u64, y: u64) -> u32
    ensures { (result ≡ bits_apart x y) × (result ≤ 64) }
{
    (x ^ y).count_ones()
}

// Kind 2. At each turn the sum is that of the first k words.
pub fn masks_apart<S: Readings>(a: &S, b: &S) -> u32
    ensures { (result ≡ masks_apart (S.readings a.now) (S.readings b.now)) × (result ≤ 256) }
{
    let mut sum = 0;
    for k in 0..4usize {
        sum += bits_apart(a.word(k), b.word(k));
    }
    sum
}

// Whether there is such a kind. A kind stays a number: any byte may be asked for and may stand in a record, and the
// laws hold of each.
pub fn known_kind(kind: u8) -> bool
    ensures { result ≡ known_kind kind }
{
    matches!(kind, 1 | 2)
}

// The distance of the kind.
pub fn apart<S: Readings>(kind: u8, a: S, b: S) -> u32
    ensures { (result ≡ apart kind (S.readings a) (S.readings b)) × (result ≤ farthest) }
{
    if kind == 1 {
        readings_apart(&a, &b)
    } else {
        masks_apart(&a, &b)
    }
}
