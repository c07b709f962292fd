// Offset and doubled coordinates, there and back: what hexx has in src/conversions.rs (its hexmod part belongs to the maps).
// On the way there a tile beyond the limit is judged first (1), then an unknown mode or orientation (3). On the way back an unknown number is judged first (3), then
// an odd doubled pair (4), then the limit of the tile (1).
// A pointy grid is a flat one, and doubled height is doubled width, with the two axes exchanged on both sides.

#![tactic(auto)]

mod doubled;
mod exchanged;
mod offset;

ghost use Rattle.std.specs.Prelude.{◌≡◌};
ghost use Rattle.hexes.specs.Answers.{TileTells};
ghost use Rattle.conversions.specs.Grid.{GridTells};
ghost use Rattle.conversions.specs.Leaves.{JudgedAs};
ghost use Rattle.conversions.specs.Offset.{to_offset, FromOffset};
ghost use Rattle.conversions.specs.Doubled.{to_doubled, FromDoubled};

use exchanged::Axes;
use hexes::{Refusal, Tile};

// A pair of a grid.
#[derive(Clone, Copy, Debug, PartialEq, Eq)]
pub struct GridPair {
    pub column: i32,
    pub row: i32,
}

// The offset coordinates of a tile. Mode: Even 0, Odd 1. Orientation: Flat 0, Pointy 1.
pub fn to_offset_coordinates(tile: Tile, mode: u32, orientation: u32) -> Result<GridPair, Refusal>
    ensures { GridTells result (λ told. told ≡ to_offset tile mode orientation) }
{
    let axes = judged(tile, orientation)?;
    let pair = offset::to_flat(axes.tile(tile), mode)?;
    Ok(axes.pair(pair))
}

// The one tile within the limit that has these offset coordinates.
pub fn from_offset_coordinates(pair: GridPair, mode: u32, orientation: u32) -> Result<Tile, Refusal>
    ensures { TileTells result (FromOffset pair mode orientation) }
{
    let axes = Axes::try_from(orientation)?;
    let tile = offset::from_flat(axes.pair(pair), mode)?;
    Ok(axes.tile(tile))
}

// The doubled coordinates of a tile. Mode: DoubledWidth 0, DoubledHeight 1.
pub fn to_doubled_coordinates(tile: Tile, mode: u32) -> Result<GridPair, Refusal>
    ensures { GridTells result (λ told. told ≡ to_doubled tile mode) }
{
    let axes = judged(tile, mode)?;
    let pair = doubled::to_width(axes.tile(tile));
    Ok(axes.pair(pair))
}

// The one tile within the limit that has these doubled coordinates.
pub fn from_doubled_coordinates(pair: GridPair, mode: u32) -> Result<Tile, Refusal>
    ensures { TileTells result (FromDoubled pair mode) }
{
    let axes = Axes::try_from(mode)?;
    let tile = doubled::from_width(axes.pair(pair))?;
    Ok(axes.tile(tile))
}

// The axes that a number chooses for a tile. A tile beyond the limit is refused before an unknown number.
fn judged(tile: Tile, number: u32) -> Result<Axes, Refusal>
    ensures { JudgedAs tile number result }
{
    if !hexes::within_limit(tile) {
        return Err(Refusal::BeyondLimit);
    }
    Axes::try_from(number)
}
