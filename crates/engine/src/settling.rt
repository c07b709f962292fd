// Looking at steps out of a tile: each may lower the total of the tile that it leads to.

ghost use Rattle.std.specs.Prelude.{◌≤◌};
ghost use Rattle.storage.specs.Leaves.{number_or_none};
ghost use Rattle.engine.specs.Leaves.{largest_total};
ghost use Rattle.engine.specs.Settling.{Small, Kept, Looked, LookedAround};

use crate::trees::Tree;
use storage::Index;

// Looks at a step into a tile, at cost w, from a tile whose total is base. There may be no such tile, and a cost of 0 says that the step is barred.
fn look(tree: &mut Tree, base: u64, to: Option<Index>, w: u64, budget: u64)
    requires base_le_largest_total { base ≤ largest_total }
    requires w_le_largest_total { w ≤ largest_total }
    requires budget_le_largest_total { budget ≤ largest_total }
    ensures kept { Kept base tree.old tree.new }
    ensures looked { Looked base budget (number_or_none to) w tree.old tree.new }
{
    let Some(index) = to else {
        return;
    };
    let t = index.0 as usize;
    let x = base + w;
    if t < tree.tiles && 0 < w && x <= budget && x < tree.total(t) {
        tree.lower(t, x);
    }
}

// Looks at the six steps out of a tile whose total is base: each has the tile that it leads to and what it costs.
pub(crate) fn look_around(tree: &mut Tree, base: u64, steps: [(Option<Index>, u64); 6], budget: u64)
    requires base_le_largest_total { base ≤ largest_total }
    requires small { Small steps }
    requires budget_le_largest_total { budget ≤ largest_total }
    ensures kept { Kept base tree.old tree.new }
    ensures looked { LookedAround base budget steps 6 tree.old tree.new }
{
    for (to, w) in steps {
        look(tree, base, to, w, budget);
    }
}
