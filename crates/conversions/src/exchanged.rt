// The two axes of a grid, kept or exchanged. One number chooses: of flat and pointy grids the orientation, of doubled ones the mode.

ghost use Rattle.std.specs.Prelude.{◌≡◌};
ghost use Rattle.conversions.specs.Leaves.{axes_of, tile_by, pair_by, Chosen};

use crate::GridPair;
use hexes::{Refusal, Tile};

#[derive(Clone, Copy, Debug, PartialEq, Eq)]
pub(crate) enum Axes {
    Kept,
    Exchanged,
}

impl TryFrom<u32> for Axes {
    type Error = Refusal;

    ghost try_from_gives = { λ number answer. Chosen number (axes_of number) answer };

    fn try_from(number: u32) -> Result<Axes, Refusal> {
        match number {
            0 => Ok(Axes::Kept),
            1 => Ok(Axes::Exchanged),
            _ => Err(Refusal::UnknownNumber),
        }
    }
}

// A tile and a pair name their coordinates differently, so a trait over both would be longer than these two methods.
impl Axes {
    // A tile by these axes. The same axes lead back.
    pub(crate) fn tile(self, t: Tile) -> Tile
        ensures { result ≡ tile_by self t }
    {
        match self {
            Axes::Kept => t,
            Axes::Exchanged => Tile { x: t.y, y: t.x },
        }
    }

    // A pair by these axes.
    pub(crate) fn pair(self, p: GridPair) -> GridPair
        ensures { result ≡ pair_by self p }
    {
        match self {
            Axes::Kept => p,
            Axes::Exchanged => GridPair {
                column: p.row,
                row: p.column,
            },
        }
    }
}
