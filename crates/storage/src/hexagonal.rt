// The arithmetic of rows and columns, for maps that were judged.

ghost use Rattle.std.specs.Prelude.{◌≡◌, ◌-◌, ◌*◌, ◌≤◌};
ghost use Rattle.storage.specs.Hexagonal.{row_column_in};
ghost use Rattle.storage.specs.Leaves.{tile_at_row};

use crate::RowColumn;
use crate::around::{from_rim, moved};
use crate::fine::FineMap;
use crate::map_tile::MapTile;
use hexes::Tile;

// How many columns a row before the centre's lacks at its start: max(0, radius - row).
fn lacking(radius: u32, row: u32) -> u32
    ensures { result ≡ radius - row }
{
    radius.saturating_sub(row)
}

impl MapTile {
    // The row and column of the tile.
    pub(crate) fn row_column(self) -> RowColumn
        ensures { result ≡ row_column_in self.fine.map self.tile }
    {
        let centre = self.fine.map.centre;
        let radius = self.fine.map.radius;
        let row = from_rim(self.tile.y, centre.y, radius);
        let far = from_rim(self.tile.x, centre.x, radius);
        RowColumn {
            row,
            column: far - lacking(radius, row),
        }
    }
}

impl FineMap {
    // The tile of a row and column.
    pub(crate) fn tile_at_row(self, at: RowColumn) -> Tile
        requires row_bound { at.row ≤ 2 * self.map.radius }
        requires column_bound { at.column ≤ 2 * self.map.radius }
        ensures { result ≡ tile_at_row self.map at.row at.column }
    {
        let centre = self.map.centre;
        let radius = self.map.radius;
        let far = at.column + lacking(radius, at.row);
        Tile {
            x: moved(centre.x, far, radius),
            y: moved(centre.y, at.row, radius),
        }
    }
}
