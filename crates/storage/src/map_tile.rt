// A tile of a map that was judged, found by its coordinates or by its index.

ghost use Rattle.std.specs.Prelude.{◌≡◌, true, MatchResult};
ghost use Rattle.hexes.specs.Answers.{refused_tile};
ghost use Rattle.hexes.specs.Refusals.{number_of};
ghost use Rattle.storage.specs.Hexmod.{index_of, FromHexmod};
ghost use Rattle.storage.specs.Leaves.{place_refusal};
ghost use Rattle.storage.specs.Maps.{of_map};

use crate::fine::FineMap;
use crate::{Index, Map};
use hexes::{Refusal, Tile};

#[derive(Clone, Copy)]
pub(crate) struct MapTile {
    pub(crate) fine: FineMap,
    pub(crate) tile: Tile,
    ghost of: { of_map fine.map tile ≡ true },
}

impl MapTile {
    // A tile of the map, or why it is refused: by the map's own refusal, or since it is not of the map.
    #[tactic(auto, using(crate::proofs::Ending::place_map_refused))]
    pub(crate) fn new(map: Map, tile: Tile) -> Result<MapTile, Refusal>
        ensures { MatchResult result (λ here. (here.fine.map ≡ map) × (here.tile ≡ tile)) (λ e. number_of e ≡ place_refusal map tile) }
    {
        let fine = FineMap::try_from(map)?;
        if !crate::is_of_map(map, tile) {
            return Err(Refusal::NotOfMap);
        }
        Ok(MapTile { fine, tile })
    }

    // The one tile of the map that has an index.
    pub(crate) fn at(map: Map, index: Index) -> Result<MapTile, Refusal>
        ensures { MatchResult result (λ here. (here.fine.map ≡ map) × (index ≡ index_of here.fine.map here.tile)) (λ e. FromHexmod map index (refused_tile (number_of e))) }
    {
        let fine = FineMap::try_from(map)?;
        if index.0 >= fine.area() {
            return Err(Refusal::NotOfMap);
        }
        Ok(MapTile {
            fine,
            tile: fine.tile_at(index),
        })
    }
}
