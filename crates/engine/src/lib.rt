// Tables of totals and of ranks over a map with efforts. Both hold least sums, and one engine finds them: it always settles the open tile with the smallest sum.

#![tactic(auto)]

ghost use Rattle.engine.specs.Filling.{FillsTotals, FillsRanks};

mod costs;
mod filling;
mod land;
mod leaves;
mod settling;
mod steps;
mod trees;
mod turns;

use crate::land::Land;
use crate::leaves::LARGEST_TOTAL;
use crate::steps::Table;
use hexes::limits;
use storage::{Index, Map};

// Fills a table with the least sums from a start within a budget, by dense index. It is left as it is if the map is not fine, or the start or the length of a table is not the map's.
pub fn fill_totals(map: Map, efforts: &[u16], start: Index, budget: u32, totals: &mut [u32])
    ensures { FillsTotals map efforts.now start.0 budget totals.old totals.new }
{
    if filling::fit(map, start, efforts.len(), totals.len()) {
        let land = Land {
            table: Table::Totals,
            map,
            efforts,
            budget: budget as u64,
        };
        filling::fill(&land, start.0 as usize, totals);
    }
}

// Fills a table with the ranks for an end, by dense index. It is left as it is if the map is not fine, or the end or the length of a table is not the map's.
pub fn fill_ranks(map: Map, efforts: &[u16], end: Index, ranks: &mut [u64])
    ensures { FillsRanks map efforts.now end.0 ranks.old ranks.new }
{
    if filling::fit(map, end, efforts.len(), ranks.len()) {
        let e = end.0 as usize;
        if efforts[e] < limits::BARRED {
            let land = Land {
                table: Table::Ranks,
                map,
                efforts,
                budget: LARGEST_TOTAL,
            };
            filling::fill(&land, e, ranks);
        } else {
            // No tile has a route to a barred end.
            ranks.fill(limits::NO_RANK);
        }
    }
}
