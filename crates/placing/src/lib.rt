// Placing one newcomer by the insert rule (001, Algorithm 1): insert places one, delete hangs again those that stood
// below the deleted card.
#![tactic(auto)]

ghost use Rattle.std.specs.Prelude.{◌≡◌, ◌+◌, ◌*◌, ◌≤◌};
ghost use Rattle.refusals.specs.Limits.{most_children};
ghost use Rattle.distance.specs.Kind.{apart};
ghost use Rattle.table.specs.Table.{records_of};
ghost use Rattle.placing.specs.Place.{placed};
ghost use Rattle.newcomer.specs.Newcomer.{newcomer};
ghost use Rattle.placing.specs.Hangable.{Hangable, leaves, hung_in};
ghost use Rattle.placing.specs.Placeable.{Placeable};

use descent::{Tree, descend};
use distance::Query;
use newcomer::{adopt, name, seat};
use survey::Findings;

// The newcomer whose card, kind and signature stand in slot s. Returns the distances worked out.
pub fn hang(t: &mut [u8], s: usize, tree: Tree, timestamp: u32) -> u32
    requires { Hangable t.old tree.kind tree.arity s tree.root tree.depth }
    ensures { (leaves t.new result
        ≡ hung_in t.old tree.kind tree.arity s tree.root tree.depth timestamp)
        × (result ≤ 1 + most_children * tree.depth) }
{
    let x = table::signature_of(t, s);
    let host = descend(t, tree, x);
    adopt(t, host.slot, s);
    seat(t, s, timestamp, Some(host.slot));
    host.count
}

// The newcomer in a free slot of the table that was surveyed: the root of a free table, hung in a used one. Returns the
// distances worked out.
pub fn place(t: &mut [u8], s: usize, found: Findings, card: u32, arity: u8, x: Query) -> u32
    requires { Placeable t.old s found (newcomer card x.kind x.signature.readings) arity }
    ensures { leaves t.new result
        ≡ placed (apart x.kind) arity s (newcomer card x.kind x.signature.readings) (records_of t.old) }
{
    let timestamp = found.largest + 1;
    name(t, s, card, x.kind, x.signature);
    match found.root {
        None => {
            seat(t, s, timestamp, None);
            0
        }
        Some(root) => {
            let tree = Tree {
                kind: x.kind,
                arity: usize::from(arity),
                root,
                depth: found.used,
            };
            hang(t, s, tree, timestamp)
        }
    }
}
