// Doubled width: the column is twice x and y more, so it and the row are both odd or both even.

ghost use Rattle.std.specs.Prelude.{◌≡◌, true};
ghost use Rattle.hexes.specs.Answers.{TileTells};
ghost use Rattle.hexes.specs.Tiles.{within_limit};
ghost use Rattle.conversions.specs.Doubled.{doubled_of};
ghost use Rattle.conversions.specs.Grid.{FromGrid};

use crate::GridPair;
use hexes::{Place, Refusal, Tile};

pub(crate) fn to_width(tile: Tile) -> GridPair
    requires { within_limit tile ≡ true }
    ensures { result ≡ doubled_of 0 tile }
{
    GridPair {
        column: 2 * tile.x + tile.y,
        row: tile.y,
    }
}

pub(crate) fn from_width(pair: GridPair) -> Result<Tile, Refusal>
    ensures { TileTells result (FromGrid true (doubled_of 0) pair) }
{
    let gap = whole::difference(pair.column, pair.row);
    if whole::wrapped(gap, 2) != 0 {
        return Err(Refusal::OddPair);
    }
    Tile::try_from(Place {
        x: whole::half(gap),
        y: pair.row as i64,
    })
}
