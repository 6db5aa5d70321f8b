// The walk of a newcomer (001, Algorithm 1): from the root to the record that it is to hang on.
#![tactic(auto)]

ghost use Rattle.std.specs.Prelude.{◌≡◌, ◌+◌, ◌*◌, ◌≤◌, None, eqb};
ghost use Rattle.refusals.specs.Limits.{most_records, most_children};
ghost use Rattle.places.specs.Choice.{pick};
ghost use Rattle.table.specs.Record.{record_of, children};
ghost use Rattle.table.specs.Stands.{Stands, Walkable};
ghost use Rattle.distance.specs.Kind.{apart};
ghost use Rattle.table.specs.Table.{records_of};
ghost use Rattle.descent.specs.Descent.{descent, descended};
ghost use Rattle.descent.specs.Loop.Nearest.{scanned};

use distance::{Query, Signature};
use newcomer::raise;

// The tree that newcomers hang on: the kind of its cards, the children that a record may have, the root's slot, and how
// many records deep a walk goes at most. An empty tree has depth 0, and its root may be any number: callers promise
// nothing of it.
#[derive(Clone, Copy)]
pub struct Tree {
    pub kind: u8,
    pub arity: usize,
    pub root: usize,
    pub depth: usize,
}

impl Tree {
    // The tree with one record more, in slot s: the first is the root.
    pub fn with_record(self, s: usize) -> Tree
        requires { self.depth ≤ most_records }
        ensures kind { result.kind ≡ self.kind }
        ensures arity { result.arity ≡ self.arity }
        ensures root { result.root ≡ pick (eqb self.depth 0) s self.root }
        ensures depth { result.depth ≡ self.depth + 1 }
    {
        let root = if self.depth == 0 { s } else { self.root };
        Tree {
            root,
            depth: self.depth + 1,
            ..self
        }
    }
}

// Where the newcomer hangs, and the distances worked out.
#[derive(Clone, Copy)]
pub struct Attach {
    pub slot: usize,
    pub count: u32,
}

// A record, and its distance to the newcomer.
#[derive(Clone, Copy)]
struct Near {
    slot: usize,
    away: u32,
}

// The nearest child of the record in slot a, the oldest if several are equally near; none where it has no child. At
// each turn `nearest` is that of the first k.
fn nearest_child(t: &[u8], a: usize, query: Query) -> Option<Near>
    requires { Walkable t.now × Stands t.now a }
    ensures { result ≡ scanned (λ c. apart query.kind (record_of t.now c).readings query.signature.readings) None
        (children (record_of t.now a)) }
{
    let mut nearest: Option<Near> = None;
    for k in 0..table::children_of(t, a) {
        let slot = table::child_of(t, a, k);
        let away = table::away_from(t, slot, query);
        if nearest.is_none_or(|near| away < near.away) {
            nearest = Some(Near { slot, away });
        }
    }
    nearest
}

// The walk from the root, at most the tree's depth. At each turn what is left of it leads on from the record `here` to
// the same end. A loop that breaks with the slot: a `for` over the depth would need an answer for its end, which no
// walk reaches.
#[tactic(auto, using(crate::proofs::Descending::still_here, crate::proofs::Descending::few))]
pub fn descend(t: &mut [u8], tree: Tree, x: Signature) -> Attach
    requires { Walkable t.old × Stands t.old tree.root × (1 ≤ tree.depth) × (tree.depth ≤ most_records) }
    ensures { (descent (records_of t.new) result.slot result.count
        ≡ descended (apart tree.kind) x.readings tree.arity (records_of t.old) tree.depth tree.root 1)
        × (result.count ≤ 1 + most_children * tree.depth) }
{
    let query = Query {
        kind: tree.kind,
        signature: x,
    };
    let mut here = Near {
        slot: tree.root,
        away: table::away_from(t, tree.root, query),
    };
    let mut left = tree.depth;
    let mut count: u32 = 1;
    let slot = loop {
        raise(t, here.slot, here.away);
        left -= 1;
        let n = table::children_of(t, here.slot);
        count += n as u32;
        let Some(next) = nearest_child(t, here.slot, query) else {
            break here.slot;
        };
        // the depth left never runs out in a well-formed table
        if (left == 0) | ((here.away < next.away) & (n < tree.arity)) {
            break here.slot;
        }
        here = next;
    };
    Attach { slot, count }
}
