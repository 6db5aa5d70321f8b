// The distance of two signatures where they stand, each in 32 of the bytes lent: nothing is copied on the way. Its
// definition is that of signatures passed by value (crate `distance`), of the readings that stand there. No call takes
// it yet.
#![tactic(auto, using(distance::specs::Signature::reading_at, distance::specs::Signature::word_at))]

ghost use Rattle.std.specs.Prelude.{◌≡◌, ◌+◌, ◌≤◌, length};
ghost use Rattle.distance.specs.Laws.{farthest};
ghost use Rattle.distance.specs.Signature.{readings_at};
ghost use Rattle.distance.specs.Kind.{apart};

use distance::Readings;

// A signature where it stands, in the 32 bytes from `at` on.
#[derive(Clone, Copy)]
struct Standing<'a> {
    bytes: &'a [u8],
    at: usize,
    ghost inside: { at + 32 ≤ length bytes.now },
}

impl<'a> Readings for Standing<'a> {
    ghost readings = { λ s. readings_at s.bytes.now s.at };

    fn reading(&self, i: usize) -> u16 {
        number::get(self.bytes, self.at + 2 * i)
    }

    fn word(&self, k: usize) -> u64 {
        number::get(self.bytes, self.at + 8 * k)
    }
}

// The distance of the kind: of the signature from `at` on in t, and of the one from `from` on in q.
pub fn apart(kind: u8, t: &[u8], at: usize, q: &[u8], from: usize) -> u32
    requires { (at + 32 ≤ length t.now) × (from + 32 ≤ length q.now) }
    ensures { (result ≡ apart kind (readings_at t.now at) (readings_at q.now from))
        × (result ≤ farthest) }
{
    let table = Standing { bytes: t, at };
    let query = Standing { bytes: q, at: from };
    distance::apart(kind, table, query)
}
