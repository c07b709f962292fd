// The arithmetic of the dense index, for maps that were judged.

ghost use Rattle.std.specs.Prelude.{◌≡◌, ◌+◌, ◌*◌, ◌<◌, ◌≤◌};
ghost use Rattle.storage.specs.Hexmod.{shift_of, index_of};
ghost use Rattle.storage.specs.Leaves.{in_strip, tile_at_index};
ghost use Rattle.storage.specs.Maps.{area_of};

use crate::Index;
use crate::around::moved;
use crate::fine::FineMap;
use crate::map_tile::MapTile;
use hexes::Tile;

impl FineMap {
    // How many tiles the map has.
    pub(crate) fn area(self) -> u32
        ensures { result ≡ area_of self.map.radius }
    {
        let radius = self.map.radius;
        3 * radius * (radius + 1) + 1
    }

    // How many indices lie between a tile and the next one in x.
    pub(crate) fn shift(self) -> u32
        ensures { result ≡ shift_of self.map.radius }
    {
        3 * self.map.radius + 2
    }

    // The tile of the map that has an index.
    pub(crate) fn tile_at(self, index: Index) -> Tile
        requires { index.0 < area_of self.map.radius }
        ensures { result ≡ tile_at_index self.map index.0 }
    {
        let shift = self.shift();
        let shifted = index.0 + self.map.radius;
        self.in_strip(shifted / shift, shifted % shift)
    }

    // The tile at a place of a strip.
    #[tactic(auto, using(std::proofs::lemmas::Int::ints), unfolding(crate::specs::Leaves::strip_x, crate::specs::Leaves::strip_y))]
    fn in_strip(self, strip: u32, place: u32) -> Tile
        requires strip_le_radius { strip ≤ self.map.radius }
        requires place_bound { place < shift_of self.map.radius }
        ensures { result ≡ in_strip self.map strip place }
    {
        let centre = self.map.centre;
        let radius = self.map.radius;
        if strip + place <= 2 * radius {
            Tile {
                x: moved(centre.x, strip, 0),
                y: moved(centre.y, place, radius),
            }
        } else {
            Tile {
                x: moved(centre.x, strip, radius),
                y: moved(centre.y, place, 2 * radius + 1),
            }
        }
    }
}

impl MapTile {
    // The index of the tile.
    pub(crate) fn index(self) -> Index
        ensures { result ≡ index_of self.fine.map self.tile }
    {
        let centre = self.fine.map.centre;
        let dx = whole::difference(self.tile.x, centre.x);
        let dy = whole::difference(self.tile.y, centre.y);
        let along = dy + self.fine.shift() as i64 * dx;
        Index(whole::wrapped(along, self.fine.area()))
    }
}
