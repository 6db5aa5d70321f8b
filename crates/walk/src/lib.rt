// "Visiting a with bound t" (001, Algorithm 2): the walk, over the paper's steps.
#![tactic(auto)]

ghost use Rattle.std.specs.Prelude.{◌≡◌};
ghost use Rattle.table.specs.Stands.{Stands, Walkable};
ghost use Rattle.steps.specs.Step.{asked_of, away_in};
ghost use Rattle.walk.specs.State.{state_of, walked, Fits};

use distance::FARTHEST;
use steps::{Asked, Visit};

// How far a search has come: the cards listed, and the distances worked out.
#[derive(Clone, Copy)]
pub struct Reached {
    pub found: usize,
    pub count: usize,
}

// The walk from the record visited; `left` is the depth left. Cards go into the list after those found. At each turn
// list, cards and count are those of this record and of the walks from its first k children, and `near` is the smallest
// distance among them; it starts from one that no distance exceeds, so that the first child is always visited.
pub fn walk(
    t: &[u8],
    asked: &Asked,
    list: &mut [u32],
    visit: Visit,
    start: Reached,
    left: usize,
) -> Reached
    requires walkable { Walkable t.now × Stands t.now visit.slot
        × (visit.away ≡ away_in (asked_of t.now asked.now) visit.slot) }
    requires fits { Fits list.old
        (walked (asked_of t.now asked.now) left visit.slot visit.bound (state_of list.old start)) }
    ensures { state_of list.new result
        ≡ walked (asked_of t.now asked.now) left visit.slot visit.bound (state_of list.old start) }
{
    if left == 0 {
        return start;
    }
    if !asked.enters(t, visit) {
        return start;
    }
    let n = table::children_of(t, visit.slot);
    let compared = asked.distances(t, visit.slot, n);
    let ds = &compared[..n];
    // Read whole, by which the radius is known to fit four bytes.
    let _whole = *asked;
    let radius = u64::from(asked.radius);
    let found = steps::note(t, visit.slot, visit.away, radius, list, start.found);
    let mut reached = Reached {
        found,
        count: start.count + n,
    };
    let mut near = u64::from(FARTHEST);
    for (k, &away) in ds.iter().enumerate() {
        if away <= near + 2 * radius {
            let child = table::child_of(t, visit.slot, k);
            if asked.covers(t, child, away) {
                let bound = asked.bound_of(t, visit, ds, k);
                let next = Visit {
                    slot: child,
                    away,
                    bound,
                };
                reached = walk(t, asked, list, next, reached, left - 1);
            }
        }
        near = near.min(away);
    }
    reached
}
