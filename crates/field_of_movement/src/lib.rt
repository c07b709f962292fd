// The riding range and the totals check: what hexx has in src/algorithms/field_of_movement.rs, over lent tables by dense index, and a check for tables from anybody.

#![tactic(auto)]

ghost use Rattle.hexes.specs.Answers.{number_told};
ghost use Rattle.field_of_movement.specs.Calls.{Ranges, Checks, verdict_number, verdict_index};

mod fault;
mod rule;

pub use fault::Fault;
use hexes::{Refusal, Tile};
use rule::Check;
use storage::{Index, Map};

// The riding range: the least sum of effort + 1 to each tile within the budget, by dense index, written to `totals`. Refused, it leaves `totals` as they are.
pub fn riding_range(
    map: Map,
    efforts: &[u16],
    start: Tile,
    budget: u32,
    totals: &mut [u32],
) -> Result<(), Refusal>
    ensures { Ranges map efforts.now start budget totals.old totals.new (number_told result) }
{
    let index = terrain::judge(map, start, efforts.len(), totals.len())?;
    engine::fill_totals(map, efforts, index, budget, totals);
    Ok(())
}

// The totals check: is each entry of a table from anybody the least sum, or the mark?
pub fn check_totals(
    map: Map,
    efforts: &[u16],
    start: Tile,
    budget: u32,
    totals: &[u32],
) -> Result<(), Fault>
    ensures { Checks map efforts.now start budget totals.now (verdict_number result) (verdict_index result) }
{
    let index = terrain::judge(map, start, efforts.len(), totals.len())?;
    let check = Check {
        map,
        efforts,
        start: index.0 as usize,
        budget,
        totals,
    };
    match check.lowest_broken() {
        Some(lowest) => Err(Fault::NotRight(Index(lowest as u32))),
        None => Ok(()),
    }
}
