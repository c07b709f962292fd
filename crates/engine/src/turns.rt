// Turn by turn the open tile with the smallest total is settled, until no tile is open.

ghost use Rattle.std.specs.Prelude.{◌≡◌, ◌<◌, length, get_or};
ghost use Rattle.engine.specs.Leaves.{shut};
ghost use Rattle.engine.specs.Steps.{to_of, cost_of};
ghost use Rattle.engine.specs.Turns.{Turned, Finished};

use crate::land::Land;
use crate::leaves::{SHUT, index_of, total_of};
use crate::settling::look_around;
use crate::trees::Tree;

// Settles the tile at the root, which is open: looks at the steps out of it, and closes it.
fn turn(tree: &mut Tree, land: &Land)
    requires tiles { tree.old.tiles ≡ length land.now.efforts.now }
    requires tree_bound { get_or tree.old.nodes 1 0 < shut }
    ensures { Turned (to_of land.now.table land.now.map) (cost_of land.now.table land.now.map land.now.efforts.now) land.now.budget tree.old tree.new }
{
    let top = tree.root();
    let u = index_of(top);
    let base = total_of(top);
    look_around(tree, base, land.steps_out(u), land.budget);
    tree.close(u, base);
}

// Takes turns while the root is open.
pub(crate) fn turns(tree: &mut Tree, land: &Land)
    requires tiles { tree.old.tiles ≡ length land.now.efforts.now }
    ensures { Finished (to_of land.now.table land.now.map) (cost_of land.now.table land.now.map land.now.efforts.now) land.now.budget tree.old tree.new }
{
    while tree.root() < SHUT {
        turn(tree, land);
    }
}
