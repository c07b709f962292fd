// A map with its efforts. `specs/` has paths over its tiles, their sums, the table of least sums and the neighbour rule, and routes, the best of them and the ranks; `proofs/`
// shows that they are what the theories of `paths` and `routes` say of the map. The calls judge what every call over tables judges, and say what a step costs.

#![tactic(auto)]

ghost use Rattle.std.specs.Prelude.{◌≡◌, ◌≤◌};
ghost use Rattle.hexes.specs.Limits.{barred};
ghost use Rattle.terrain.specs.Judging.{lengths_fit, judged_start};
ghost use Rattle.storage.specs.Hexmod.{IndexTells};
ghost use Rattle.terrain.specs.LandOfMap.{price_of};

use hexes::{Refusal, Tile, limits};
use storage::{Index, Map};

// Has each of two tables, of these lengths, one entry for each tile of the map?
#[tactic(auto, unfolding(crate::specs::Judging::lengths_fit))]
pub fn lengths_fit(map: Map, efforts: usize, table: usize) -> bool
    ensures { result ≡ lengths_fit map efforts table }
{
    let area = storage::area(map) as usize;
    efforts == area && table == area
}

// The index of the start of a call that takes a map, a start, an effort table and another table, of these lengths; or why the call is refused.
#[tactic(auto, using(crate::proofs::Judging::judged_refused))]
pub fn judge(map: Map, start: Tile, efforts: usize, table: usize) -> Result<Index, Refusal>
    ensures { IndexTells result (λ told. told ≡ judged_start map start efforts table) }
{
    let index = storage::to_hexmod_coordinates(map, start)?;
    if !lengths_fit(map, efforts, table) {
        return Err(Refusal::WrongLength);
    }
    Ok(index)
}

// What it costs to enter a tile: one more than its effort, or 0 if it is barred. It is a number and no `Option`, since the theories of `paths` read a cost of 0 as a shut step.
#[tactic(auto, unfolding(crate::specs::LandOfMap::price_of))]
pub fn price_of(effort: u16) -> u64
    ensures value { result ≡ price_of effort }
    ensures upper_bound { result ≤ barred }
{
    if effort == limits::BARRED {
        0
    } else {
        effort as u64 + 1
    }
}
