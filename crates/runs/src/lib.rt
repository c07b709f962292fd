// A list of tiles in a lent run: the one function that writes a tile. What every call that lists promises, whatever it lists, stands in `specs/Runs`.

#![tactic(auto)]

ghost use Rattle.runs.specs.Runs.{Put};

use hexes::Tile;

// Writes a tile's x and y from place `at` on, and answers the place behind them. Where the run has no room for both it is left as it is, and so is the
// place. The place is handed on and not kept in a struct with the run: that would hold a `&mut`, and each promise would speak of what lies behind it.
pub fn put(run: &mut [i32], at: usize, tile: Tile) -> usize
    ensures { Put run.old at tile result run.new }
{
    if run.len() < 2 {
        return at;
    }
    if run.len() - 2 < at {
        return at;
    }
    let x = tile.x;
    let y = tile.y;
    run[at] = x;
    run[at + 1] = y;
    at + 2
}
