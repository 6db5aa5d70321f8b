// Records that wait go back over a table's records, one at a time by the insert rule, oldest first.
#![tactic(auto)]

ghost use Rattle.std.specs.Prelude.{◌≡◌, map};
ghost use Rattle.table.specs.Stands.{Stands};
ghost use Rattle.placing.specs.Hangable.{Hangable, leaves};
ghost use Rattle.age.specs.Key.{slot_in};
ghost use Rattle.back.specs.Loop.Puts.{puts_in};
ghost use Rattle.back.specs.Loop.Pending.{Pending, rest_back};

use descent::Tree;

// The card in slot s goes back by the insert rule: it hangs on the tree, or is the root of an empty one, whose own root
// may be any number, where `placing::place` is told none. Returns the distances worked out.
fn put_one(t: &mut [u8], s: usize, tree: Tree, timestamp: u32) -> u32
    requires { Stands t.old s
        × ((tree.depth ≡ 0 → ⊥) → Hangable t.old tree.kind tree.arity s tree.root tree.depth) }
    ensures { leaves t.new result
        ≡ puts_in t.old tree.kind tree.arity s tree.root tree.depth timestamp }
{
    if tree.depth == 0 {
        newcomer::seat(t, s, timestamp, None);
        return 0;
    }
    placing::hang(t, s, tree, timestamp)
}

// The slots in these keys wait: they hold what they held, but the tree has other records alone, as many as its depth,
// and `last` is the largest timestamp there. They go back in the keys' order. At each turn those in the keys before are
// back, and what is left to do leads to the same end. Returns the distances worked out.
pub fn put_back(t: &mut [u8], keys: &[u64], mut tree: Tree, last: u32) -> u32
    requires { Pending t.old (map slot_in keys.now) tree.kind tree.arity tree.root tree.depth last }
    ensures { leaves t.new result
        ≡ rest_back tree.kind tree.arity t.old (map slot_in keys.now) 0 }
{
    let mut clock = last;
    let mut count: u32 = 0;
    for key in keys {
        let s = age::slot_of_key(*key);
        clock += 1;
        count += put_one(t, s, tree, clock);
        tree = tree.with_record(s);
    }
    count
}
