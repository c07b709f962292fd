// Goes through every index of every map of a radius to 60 and back, by index and by row and column, and prints how many there were and how many were lost on the way.

#![tactic(auto)]

use hexes::{Refusal, Tile, limits};
use std::io;
use storage::{Index, Map};

// More indices than any map that is not refused has.
const MORE_THAN_ANY: u32 = 65_536;

// The tile that has the row and column of a tile: that tile again, unless it is lost on the way.
fn by_row_column(map: Map, tile: Tile) -> Result<Tile, Refusal> {
    storage::from_row_column(map, storage::to_row_column(map, tile)?)
}

// Is an index, which led to a tile, lost on the way back, or the tile on the way by row and column?
fn is_lost(map: Map, index: Index, tile: Tile) -> bool {
    storage::to_hexmod_coordinates(map, tile) != Ok(index) || by_row_column(map, tile) != Ok(tile)
}

// The number of indices of a map, and how many of them were lost.
#[derive(Clone, Copy)]
struct Tour {
    indices: u32,
    lost: u32,
}

// A map's indices from 0 on, as long as there is a tile.
fn toured(map: Map) -> Tour {
    let mut tour = Tour {
        indices: 0,
        lost: 0,
    };
    for i in 0..MORE_THAN_ANY {
        let Ok(tile) = storage::from_hexmod_coordinates(map, Index(i)) else {
            break;
        };
        tour.indices += 1;
        tour.lost += u32::from(is_lost(map, Index(i), tile));
    }
    tour
}

// One line of the report: the radius, its indices, and how many were lost.
fn report(rt: &impl Print, radius: u32, tour: Tour) -> io::Result<()> {
    println!(rt; "{radius}: {} indices, {} lost", tour.indices, tour.lost)
}

fn main(rt: HostRuntime) -> io::Result<()> {
    for radius in 0..=limits::RADIUS {
        let map = Map {
            centre: Tile {
                x: 1_000_000,
                y: -1_000_000,
            },
            radius,
        };
        report(&rt, radius, toured(map))?;
    }
    Ok(())
}
