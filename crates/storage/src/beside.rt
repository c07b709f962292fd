// The indices beside a tile of a map that was judged. Neither a way back nor a division is needed: a step moves an index by the same number wherever it is made.
// What the six entries are made of becomes part of the caller (`inline(always)`, here and at `all_neighbors`): the totals check asks tile after tile, and takes nearly a third longer where
// each entry is stored with its mark and read again.

ghost use Rattle.std.specs.Prelude.{◌≡◌, true, ℕ, ◌<◌, ◌≤◌, length, get_or, pos, nat_abs, ◌+ℤ◌, None};
ghost use Rattle.whole.specs.Euclid.{remainder};
ghost use Rattle.hexes.specs.Tiles.{neighbor_of};
ghost use Rattle.storage.specs.Hexmod.{index_of};
ghost use Rattle.storage.specs.Leaves.{Inside, beside_at, stride_of};
ghost use Rattle.storage.specs.Maps.{area_of, of_map};

use crate::Index;
use crate::fine::FineMap;
use crate::map_tile::MapTile;
use hexes::{Direction, Tile};

impl MapTile {
    // The index of the neighbour in a direction, where that is of the map. `inside` spares the test of a tile that is known not to lie on the rim.
    #[inline(always)]
    pub(crate) fn beside(self, index: Index, direction: Direction, inside: bool) -> Option<Index>
        requires has { index ≡ index_of self.fine.map self.tile }
        requires inside { inside ≡ true → Inside self.fine.map self.tile }
        ensures { result ≡ beside_at self.fine.map self.tile direction.0 }
    {
        if !self.stays(direction, inside) {
            return None;
        }
        Some(Index(self.fine.moved_round(index.0, self.fine.stride(direction))))
    }

    // The entries of all six directions. The loop counts them, since the number of a direction is what a neighbour is asked by; `array::from_fn` would stay a call of its own.
    #[inline(always)]
    pub(crate) fn all_beside(self, index: Index) -> [Option<Index>; 6]
        requires { index ≡ index_of self.fine.map self.tile }
        ensures result_len { length result ≡ 6 }
        ensures by_index { (d : ℕ) → d < 6 → get_or result d None ≡ beside_at self.fine.map self.tile d }
    {
        let inside = hexes::distance(self.fine.map.centre, self.tile) < self.fine.map.radius as u64;
        let mut entries = [None; 6];
        for d in 0..6 {
            entries[d] = self.beside(index, Direction(d as u32), inside);
        }
        entries
    }

    // Does a step in a direction stay on the map?
    #[tactic(auto, using(crate::proofs::Besides::inside_stays))]
    fn stays(self, direction: Direction, inside: bool) -> bool
        requires { inside ≡ true → Inside self.fine.map self.tile }
        ensures { result ≡ of_map self.fine.map (neighbor_of self.tile direction.0) }
    {
        inside || crate::is_of_map(self.fine.map, self.next(direction))
    }

    // The neighbour in a direction, which 32 bits hold since the tile lies near the coordinate limit at most.
    fn next(self, direction: Direction) -> Tile
        ensures { result ≡ neighbor_of self.tile direction.0 }
    {
        let at = hexes::neighbor(self.tile, direction);
        Tile {
            x: at.x as i32,
            y: at.y as i32,
        }
    }
}

impl FineMap {
    // How far a step in a direction moves an index.
    fn stride(self, direction: Direction) -> i32
        ensures { result ≡ stride_of self.map.radius direction.0 }
    {
        let step = hexes::step_of(direction);
        step.1 + self.shift() as i32 * step.0
    }

    // An index moved by at most one turn, modulo the area.
    fn moved_round(self, index: u32, by: i32) -> u32
        requires index_lt_area { index < area_of self.map.radius }
        requires by_bound { nat_abs by ≤ area_of self.map.radius }
        ensures { result ≡ remainder (pos index +ℤ by) (area_of self.map.radius) }
    {
        let area = self.area();
        let sum = index as i32 + by;
        if sum < 0 {
            return (sum + area as i32) as u32;
        }
        if sum as u32 >= area {
            return sum as u32 - area;
        }
        sum as u32
    }
}
