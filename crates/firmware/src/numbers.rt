// The calls for C that answer one number and write nothing: a distance, an index, and the two counts.

ghost use Rattle.std.specs.Prelude.{◌≡◌, pos};
ghost use Rattle.hexes.specs.Tiles.{tile, distance_of};
ghost use Rattle.rings.specs.Counts.{ring_count, wedge_count};
ghost use Rattle.firmware.specs.Calls.{map_at};
ghost use Rattle.firmware.specs.Numbers.{index_answered};

use crate::{answer_told, map_at};
use hexes::Tile;
use storage::Index;

// The distance of any two tiles. It is never refused.
#[unsafe(no_mangle)]
pub extern "C" fn kyrla_distance(ax: i32, ay: i32, bx: i32, by: i32) -> i64
    ensures { result ≡ pos (distance_of (tile ax ay) (tile bx by)) }
{
    let a = Tile { x: ax, y: ay };
    let b = Tile { x: bx, y: by };
    hexes::distance(a, b) as i64
}

// The number of an index.
fn number(index: Index) -> u32
    ensures { result ≡ index.0 }
{
    index.0
}

// The dense index of a tile of a map.
#[unsafe(no_mangle)]
pub extern "C" fn kyrla_index(cx: i32, cy: i32, radius: u32, x: i32, y: i32) -> i64
    ensures { result ≡ index_answered (map_at cx cy radius) (tile x y) }
{
    let map = map_at(cx, cy, radius);
    let found = storage::to_hexmod_coordinates(map, Tile { x, y });
    answer_told(found.map(number))
}

// How many tiles a ring has.
#[unsafe(no_mangle)]
pub extern "C" fn kyrla_ring_count(range: u32) -> u64
    ensures { result ≡ ring_count range }
{
    rings::ring_count(range)
}

// How many tiles the wedge of ranges 0 to `range` has.
#[unsafe(no_mangle)]
pub extern "C" fn kyrla_wedge_count(range: u32) -> u64
    ensures { result ≡ wedge_count range }
{
    rings::wedge_count(range)
}
