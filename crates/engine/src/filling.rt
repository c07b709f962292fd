// Filling a table: whether it fits, what its entries stand for, and the least sums told to it.

ghost use Rattle.std.specs.Prelude.{◌≡◌, ℕ, ◌<◌, min, length, IsTrue};
ghost use Rattle.hexes.specs.Limits.{no_way};
ghost use Rattle.engine.specs.Filling.{fits};
ghost use Rattle.engine.specs.Settling.{totals};
ghost use Rattle.engine.specs.Steps.{to_of, cost_of};
ghost use Rattle.engine.specs.Writing.{Fits, rank_of, Written, Filled};

use crate::land::Land;
use crate::leaves::NO_TOTAL;
use crate::trees::Tree;
use crate::turns::turns;
use hexes::limits;
use storage::{Index, Map};

// Is the tile that sums start from an index of the map, and has each table an entry for each of its tiles?
#[tactic(auto, unfolding(crate::specs::Filling::fits))]
pub(crate) fn fit(map: Map, start: Index, efforts: usize, table: usize) -> bool
    ensures value { result ≡ fits map start.0 efforts table }
    ensures known { IsTrue result → Fits map start.0 efforts table }
{
    start.0 < storage::area(map) && terrain::lengths_fit(map, efforts, table)
}

// An entry of a table, which stands for the total of a tile.
pub(crate) trait Entry: Copy {
    // The entry for a total.
    ghost of_total: { ℕ → Self };

    fn of_total(total: u64) -> Self
        ensures { result ≡ of_total total };
}

// In a table of totals the mark for no way is the largest that an entry can hold.
impl Entry for u32 {
    ghost of_total = { λ total. min total no_way };

    fn of_total(total: u64) -> u32 {
        total.min(limits::NO_WAY as u64) as u32
    }
}

// In a table of ranks the mark for no way is one of their own.
impl Entry for u64 {
    ghost of_total = { rank_of };

    #[tactic(auto, unfolding(crate::specs::Writing::rank_of))]
    fn of_total(total: u64) -> u64 {
        if total < NO_TOTAL {
            total
        } else {
            limits::NO_RANK
        }
    }
}

// Writes the entries for the totals that the leaves tell.
fn write<E: Entry>(tree: &Tree, table: &mut [E])
    requires { length table.old ≡ tree.now.tiles }
    ensures { Written (length table.old) (λ t. E.of_total (totals tree.now t)) (length table.old) table.new }
{
    for (t, entry) in table.iter_mut().enumerate() {
        *entry = E::of_total(tree.total(t));
    }
}

// Fills a table with the entries for the least sums from a start.
pub(crate) fn fill<E: Entry>(land: &Land, start: usize, table: &mut [E])
    requires start_in_bounds { start < length land.now.efforts.now }
    requires size { length table.old ≡ length land.now.efforts.now }
    ensures { Filled E.of_total (to_of land.now.table land.now.map) (cost_of land.now.table land.now.map land.now.efforts.now) (length land.now.efforts.now) land.now.budget start table.new }
{
    let mut tree = Tree::blank(land.efforts.len());
    tree.lower(start, 0);
    turns(&mut tree, land);
    write(&tree, table);
}
