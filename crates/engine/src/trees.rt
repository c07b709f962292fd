// A winner tree over some tiles: the leaves stand from node `tiles` on, and each node below that holds the smaller of its two, so that the root, node 1, is the smallest of all.

ghost use Rattle.std.specs.Prelude.{◌≡◌, ◌<◌, ◌≤◌, get_or};
ghost use Rattle.engine.specs.Leaves.{largest_area, largest_total, no_total, open_leaf, closed_leaf};
ghost use Rattle.engine.specs.Trees.{Winners, Put, Heap};

use crate::leaves::{ROOM, UNREACHED, closed_leaf, open_leaf, total_of};

// The one array that an engine works on.
#[derive(Drop)]
pub(crate) struct Tree {
    nodes: [u64; ROOM],
    pub(crate) tiles: usize,
    ghost heap: { Heap tiles nodes },
}

impl Tree {
    ghost use Rattle.engine.specs.Settling.{totals, Blank, Sets};

    // The tree over some tiles of which none has been reached.
    pub(crate) fn blank(tiles: usize) -> Tree
        requires some { 0 < tiles }
        requires few { tiles ≤ largest_area }
        ensures tiles { result.tiles ≡ tiles }
        ensures blank { Blank result }
    {
        Tree {
            nodes: [UNREACHED; ROOM],
            tiles,
        }
    }

    // The smallest leaf.
    pub(crate) fn root(&self) -> u64
        ensures { result ≡ get_or self.now.nodes 1 0 }
    {
        self.nodes[1]
    }

    // The total of tile i.
    pub(crate) fn total(&self, i: usize) -> u64
        requires { i < self.now.tiles }
        ensures { result ≡ totals self.now i }
    {
        total_of(self.nodes[self.tiles + i])
    }

    // Tells tile i a total, and opens it.
    pub(crate) fn lower(&mut self, i: usize, total: u64)
        requires on { i < self.old.tiles }
        requires total_le_largest_total { total ≤ largest_total }
        ensures { Sets i (open_leaf total i) self.old self.new }
    {
        set_leaf(&mut self.nodes, self.tiles, i, open_leaf(total, i));
    }

    // Tells tile i a total, and closes it.
    pub(crate) fn close(&mut self, i: usize, total: u64)
        requires on { i < self.old.tiles }
        requires total_le_no_total { total ≤ no_total }
        ensures { Sets i (closed_leaf total) self.old self.new }
    {
        set_leaf(&mut self.nodes, self.tiles, i, closed_leaf(total));
    }
}

// Sets the leaf of tile i, and the nodes above it anew, up to the first that is right already. On the way up `winner` is what node k holds, so only the node beside k is read.
// It takes the nodes and not the tree, whose invariant does not hold on the way.
fn set_leaf(nodes: &mut [u64], a: usize, i: usize, v: u64)
    requires winners { Winners a nodes.old }
    requires i_lt_a { i < a }
    ensures { Put a i v nodes.old nodes.new }
{
    let mut k = a + i;
    let mut winner = v;
    nodes[k] = v;
    while k > 1 {
        let p = k / 2;
        winner = winner.min(nodes[4 * p + 1 - k]);
        if nodes[p] == winner {
            return;
        }
        nodes[p] = winner;
        k = p;
    }
}
