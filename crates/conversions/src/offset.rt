// Offset coordinates of a flat grid. A column slants: its rows differ from the tiles' y by half of the column's number.

ghost use Rattle.std.specs.Prelude.{◌≡◌, true};
ghost use Rattle.hexes.specs.Answers.{TileTells};
ghost use Rattle.hexes.specs.Tiles.{within_limit};
ghost use Rattle.conversions.specs.Grid.{known, FromGrid};
ghost use Rattle.conversions.specs.Leaves.{Chosen};
ghost use Rattle.conversions.specs.Offset.{slant_of, offset_of};

use crate::GridPair;
use hexes::{Place, Refusal, Tile};

// How far a column slants: half of z + p in mode Even and of z - p in mode Odd, with p 1 for an odd z, also a negative one, else 0. Both sums are even, so the halves are
// exact.
fn slant_of(z: i32, mode: u32) -> Result<i32, Refusal>
    ensures { Chosen mode (slant_of mode z) result }
{
    let wide = z as i64;
    let p = whole::wrapped(wide, 2) as i64;
    // The mode is a number of the public calls, and is matched here alone.
    match mode {
        0 => Ok(whole::half(wide + p) as i32),
        1 => Ok(whole::half(wide - p) as i32),
        _ => Err(Refusal::UnknownNumber),
    }
}

pub(crate) fn to_flat(tile: Tile, mode: u32) -> Result<GridPair, Refusal>
    requires { within_limit tile ≡ true }
    ensures { Chosen mode (offset_of mode 0 tile) result }
{
    let by = slant_of(tile.x, mode)?;
    Ok(GridPair {
        column: tile.x,
        row: tile.y + by,
    })
}

pub(crate) fn from_flat(pair: GridPair, mode: u32) -> Result<Tile, Refusal>
    ensures { TileTells result (FromGrid (known mode) (offset_of mode 0) pair) }
{
    let by = slant_of(pair.column, mode)?;
    Tile::try_from(Place {
        x: pair.column as i64,
        y: whole::difference(pair.row, by),
    })
}
