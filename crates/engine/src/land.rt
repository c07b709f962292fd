// What least sums are told over: a map with its efforts, walked as a table asks.

ghost use Rattle.std.specs.Prelude.{◌≤◌};
ghost use Rattle.engine.specs.Leaves.{largest_total};
ghost use Rattle.engine.specs.Turns.{OfMap};

use crate::costs::cost_by;
use crate::steps::{Table, turned};
use hexes::limits;
use std::array;
use storage::{Index, Map};

// A map that is fine, and efforts with an entry for each of its tiles; and the budget within which sums are told, which no leaf is too small for.
#[derive(Clone, Copy)]
pub(crate) struct Land<'a> {
    pub(crate) table: Table,
    pub(crate) map: Map,
    pub(crate) efforts: &'a [u16],
    pub(crate) budget: u64,
    ghost of_map: { OfMap map efforts.now },
    ghost in_reach: { budget ≤ largest_total },
}

impl Land<'_> {
    ghost use Rattle.std.specs.Prelude.{◌≡◌, ℕ, ◌<◌, length, get_or, None};
    ghost use Rattle.storage.specs.Leaves.{number_or_none};
    ghost use Rattle.engine.specs.Steps.{effort_at, to_of, cost_by, cost_of, Steps};

    // The tiles that the six steps out of tile u lead to, by direction; none where there is none.
    fn tiles_out(&self, u: usize) -> [Option<Index>; 6]
        requires { u < length self.now.efforts.now }
        ensures { (d : ℕ) → d < 6 → number_or_none (get_or result d None) ≡ to_of self.now.table self.now.map u d }
    {
        let near = storage::all_neighbors(self.map, Index(u as u32));
        match self.table {
            Table::Totals => near,
            Table::Ranks => turned(near),
        }
    }

    // The effort of a tile. Where there is none, nobody may enter.
    fn effort_at(&self, to: Option<Index>) -> u16
        ensures { result ≡ effort_at self.now.efforts.now (number_or_none to) }
    {
        match to {
            Some(index) => self
                .efforts
                .get(index.0 as usize)
                .copied()
                .unwrap_or(limits::BARRED),
            None => limits::BARRED,
        }
    }

    // The six steps out of a tile with the effort `left`, by the tiles that they lead to.
    fn steps_to(&self, left: u16, to: [Option<Index>; 6]) -> [(Option<Index>, u64); 6]
        ensures { Steps (λ d. number_or_none (get_or to d None)) (λ d. cost_by self.now.table left (effort_at self.now.efforts.now (number_or_none (get_or to d None)))) result }
    {
        // The library's `map` of an array took longer here than `from_fn`.
        array::from_fn(|d| (to[d], cost_by(self.table, left, self.effort_at(to[d]))))
    }

    // The six steps out of tile u, by direction: each has the tile that it leads to and what it costs.
    pub(crate) fn steps_out(&self, u: usize) -> [(Option<Index>, u64); 6]
        requires { u < length self.now.efforts.now }
        ensures { Steps (to_of self.now.table self.now.map u) (cost_of self.now.table self.now.map self.now.efforts.now u) result }
    {
        self.steps_to(self.efforts[u], self.tiles_out(u))
    }
}
