// What steps cost: for totals the price of the tile that is entered; for ranks the effort of the tile that is left, and one step.

ghost use Rattle.std.specs.Prelude.{◌≡◌, ◌≤◌};
ghost use Rattle.engine.specs.Leaves.{largest_total};
ghost use Rattle.engine.specs.Steps.{weight_by, cost_by};

use crate::steps::Table;
use hexes::limits;

// What a step weighs in a rank, by the efforts of the tile that is left and of the tile that is entered; 0, which bars the step, if either is barred.
#[tactic(auto, unfolding(crate::specs::Steps::weight_by))]
fn weight_by(left: u16, entered: u16) -> u64
    ensures value { result ≡ weight_by left entered }
    ensures upper_bound { result ≤ largest_total }
{
    if entered >= limits::BARRED || left >= limits::BARRED {
        0
    } else {
        left as u64 * limits::RANK_UNIT + 1
    }
}

// What a step costs, by the same efforts. That 0 bars the step is how the theory has it (`paths/specs/Lands`), so it is no `Option`.
pub(crate) fn cost_by(table: Table, left: u16, entered: u16) -> u64
    ensures value { result ≡ cost_by table left entered }
    ensures upper_bound { result ≤ largest_total }
{
    match table {
        Table::Totals => terrain::price_of(entered),
        Table::Ranks => weight_by(left, entered),
    }
}
