// The best route between two tiles, and the ranks of all tiles: what hexx has in src/algorithms/pathfinding.rs, by the paper's definition in place of its heuristic.

#![tactic(auto)]

ghost use Rattle.pathfinding.specs.Calls.{Routes};

mod way;

use hexes::{Refusal, Tile};
use storage::Map;
use way::Way;

// The best route from start to end, its tiles written to `run`, both ends included; and in `ranks` the rank of every tile to the end, by dense index. It answers the number of tiles.
// A refusal of the arguments (1, 2, 5, 6) leaves both as they are; where no open path joins the two (8), or the run is too short (7), the ranks are there and the run is as it was.
pub fn route(
    map: Map,
    efforts: &[u16],
    start: Tile,
    end: Tile,
    ranks: &mut [u64],
    run: &mut [i32],
) -> Result<u32, Refusal>
    ensures { Routes map efforts.now start end ranks.old run.old result ranks.new run.new }
{
    let first = storage::to_hexmod_coordinates(map, start)?;
    let last = terrain::judge(map, end, efforts.len(), ranks.len())?;
    engine::fill_ranks(map, efforts, last, ranks);
    let way = Way {
        map,
        efforts,
        ranks,
        end: last.0 as usize,
    };
    way.led(first.0 as usize, run)
}
