// Maps, the dense index of their tiles, and rows and columns, both ways: the index arithmetic of hexx's src/storage/hexmod.rs, src/storage/hexagonal.rs and src/bounds.rs.

#![tactic(auto)]

ghost use Rattle.std.specs.Prelude.{◌≡◌};
ghost use Rattle.hexes.specs.Answers.{TileTells};
ghost use Rattle.hexes.specs.Refusals.{number_given};
ghost use Rattle.storage.specs.Maps.{map_refusal, of_map, tiles_of};
ghost use Rattle.storage.specs.Hexagonal.{RowColumnTells, to_row_column, FromRowColumn};
ghost use Rattle.storage.specs.Hexmod.{IndexTells, to_hexmod, FromHexmod};
ghost use Rattle.storage.specs.Neighbors.{Neighbor, SixNeighbors};

mod around;
mod beside;
mod fine;
mod hexagonal;
mod hexmod;
mod map_tile;

use fine::FineMap;
use hexes::{Direction, Refusal, Tile};
use map_tile::MapTile;

// A map: the tiles at most `radius` away from `centre`.
#[derive(Clone, Copy, Debug, PartialEq, Eq)]
pub struct Map {
    pub centre: Tile,
    pub radius: u32,
}

// A dense index. It is a type of its own, so that no direction is taken for one.
#[derive(Clone, Copy, Debug, PartialEq, Eq)]
pub struct Index(pub u32);

// A row of a map and a column in it, both from 0 on.
#[derive(Clone, Copy, Debug, PartialEq, Eq)]
pub struct RowColumn {
    pub row: u32,
    pub column: u32,
}

// The refusal of a map, or none for one that is fine.
pub fn refusal_of(map: Map) -> Option<Refusal>
    ensures { number_given result ≡ map_refusal map }
{
    FineMap::try_from(map).err()
}

// How many tiles a map has; 0 for a map that is not fine.
pub fn area(map: Map) -> u32
    ensures { result ≡ tiles_of map }
{
    match FineMap::try_from(map) {
        Ok(fine) => fine.area(),
        Err(_) => 0,
    }
}

// Is a tile of the map? Any map and any tile may be asked about.
#[tactic(auto, unfolding(crate::specs::Maps::of_map))]
pub fn is_of_map(map: Map, tile: Tile) -> bool
    ensures { result ≡ of_map map tile }
{
    hexes::distance(map.centre, tile) <= map.radius as u64
}

// The index of a tile of the map.
#[tactic(auto, using(crate::proofs::Ending::to_refused))]
pub fn to_hexmod_coordinates(map: Map, tile: Tile) -> Result<Index, Refusal>
    ensures { IndexTells result (λ told. told ≡ to_hexmod map tile) }
{
    let here = MapTile::new(map, tile)?;
    Ok(here.index())
}

// The one tile of the map that has an index.
pub fn from_hexmod_coordinates(map: Map, index: Index) -> Result<Tile, Refusal>
    ensures { TileTells result (FromHexmod map index) }
{
    let here = MapTile::at(map, index)?;
    Ok(here.tile)
}

// The index of the neighbour, in a direction, of the tile that has an index. Direction numbers are taken modulo 6.
pub fn neighbor(map: Map, index: Index, direction: Direction) -> Result<Index, Refusal>
    ensures { IndexTells result (Neighbor map index direction.0) }
{
    let here = MapTile::at(map, index)?;
    here.beside(index, direction, false)
        .ok_or(Refusal::NotOfMap)
}

// The indices of all six neighbours at once, for what asks for them tile after tile: none where a neighbour is not of the map, and six times none where the map or the index
// is refused.
#[inline(always)]
pub fn all_neighbors(map: Map, index: Index) -> [Option<Index>; 6]
    ensures { SixNeighbors map index result }
{
    match MapTile::at(map, index) {
        Ok(here) => here.all_beside(index),
        Err(_) => [None; 6],
    }
}

// The row and column of a tile of the map.
#[tactic(auto, using(crate::proofs::Ending::to_refused))]
pub fn to_row_column(map: Map, tile: Tile) -> Result<RowColumn, Refusal>
    ensures { RowColumnTells result (λ told. told ≡ to_row_column map tile) }
{
    let here = MapTile::new(map, tile)?;
    Ok(here.row_column())
}

// The one tile of the map that has a row and column.
pub fn from_row_column(map: Map, at: RowColumn) -> Result<Tile, Refusal>
    ensures { TileTells result (FromRowColumn map at) }
{
    let fine = FineMap::try_from(map)?;
    if at.row > 2 * map.radius {
        return Err(Refusal::NotOfMap);
    }
    if at.column > 2 * map.radius {
        return Err(Refusal::NotOfMap);
    }
    let tile = fine.tile_at_row(at);
    if !is_of_map(map, tile) {
        return Err(Refusal::NotOfMap);
    }
    Ok(tile)
}
