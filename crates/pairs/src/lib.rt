// A list of pairs that a caller lends: what a search for the nearest cards answers is laid over its first entries.
#![tactic(auto)]

ghost use Rattle.std.specs.Prelude.{◌≡◌, ◌≤◌, length, take};
ghost use Rattle.std.proofs.lemmas.List.Edits.{sets};
ghost use Rattle.refusals.specs.Limits.{most_nearest};

use refusals::limit::NEAREST;

// A card with its distance from the query, as a C caller sees it.
#[repr(C)]
#[derive(Clone, Copy)]
pub struct Pair {
    pub card: u32,
    pub distance: u32,
}

// What a search answers: its pairs, in a row of fixed memory of which the first n count, and the distances worked out.
#[derive(Clone, Copy)]
pub struct Answer {
    pub pairs: [Pair; NEAREST],
    pub n: usize,
    pub count: u32,
}

// "From the list's start; later entries stay".
pub fn fill(list: &mut [Pair], answer: Answer)
    requires { (answer.n ≤ length list.old) × (answer.n ≤ most_nearest) }
    ensures { list.new ≡ sets list.old 0 (take answer.n answer.pairs) }
{
    let n = answer.n;
    list[..n].copy_from_slice(&answer.pairs[..n]);
}
