// A tile's leaf tells the tile's total and whether the tile is open, that is, still to be settled. `specs/Leaves` names the same numbers for the promises.
// It is one number and no enum, so that a tree that fits its memory holds nothing else, and the order of numbers is all that the tree compares.

ghost use Rattle.std.specs.Prelude.{◌≡◌, ◌%◌, ◌<◌, ◌≤◌};
ghost use Rattle.engine.specs.Leaves.{indices, no_total, largest_total, total_of, open_leaf, closed_leaf};

use hexes::limits;

// An open leaf is its total times this, and the tile's index.
const INDICES: u64 = 65_536;

// A closed leaf is this and its total, so that every closed leaf is above every open one.
pub(crate) const SHUT: u64 = 18_446_462_598_732_840_960;

// The total of a tile to which no way leads.
pub(crate) const NO_TOTAL: u64 = 281_474_976_710_655;

// The largest total that an open leaf can tell, whatever the index, and stay below `SHUT`.
pub(crate) const LARGEST_TOTAL: u64 = SHUT / INDICES - 1;

// The leaf of a tile to which no way has been found.
pub(crate) const UNREACHED: u64 = SHUT + NO_TOTAL;

// A tree over the largest map has twice as many nodes as that map has tiles.
pub(crate) const ROOM: usize = 2 * limits::AREA;

// The total of the tile.
#[tactic(auto, unfolding(crate::specs::Leaves::total_of))]
pub(crate) fn total_of(leaf: u64) -> u64
    ensures { result ≡ total_of leaf }
{
    if leaf < SHUT {
        leaf / INDICES
    } else {
        leaf - SHUT
    }
}

// The index of the tile, which an open leaf tells.
pub(crate) fn index_of(leaf: u64) -> usize
    ensures { result ≡ leaf % indices }
{
    (leaf % INDICES) as usize
}

// The leaf of tile i while it is open.
pub(crate) fn open_leaf(total: u64, i: usize) -> u64
    requires total_le_largest_total { total ≤ largest_total }
    requires i_lt_indices { i < indices }
    ensures { result ≡ open_leaf total i }
{
    total * INDICES + i as u64
}

// The leaf of a tile that is settled.
pub(crate) fn closed_leaf(total: u64) -> u64
    requires { total ≤ no_total }
    ensures { result ≡ closed_leaf total }
{
    SHUT + total
}
