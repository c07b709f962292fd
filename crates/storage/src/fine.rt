// A map that was judged: its centre and its radius are within their limits. Nothing that this file cites names the struct, since a struct with ghost fields imports all that its
// file cites.

ghost use Rattle.std.specs.Prelude.{◌≡◌, ◌≤◌, nat_abs, MatchResult};
ghost use Rattle.hexes.specs.Limits.{coordinate_limit, radius_limit};
ghost use Rattle.hexes.specs.Refusals.{number_of};
ghost use Rattle.storage.specs.Maps.{map_refusal};

use crate::Map;
use hexes::{Refusal, limits};

#[derive(Clone, Copy)]
pub(crate) struct FineMap {
    pub(crate) map: Map,
    ghost near_x: { nat_abs map.centre.x ≤ coordinate_limit },
    ghost near_y: { nat_abs map.centre.y ≤ coordinate_limit },
    ghost small: { map.radius ≤ radius_limit },
}

// The map as one that was judged, or its refusal, the lowest number first.
impl TryFrom<Map> for FineMap {
    type Error = Refusal;

    ghost try_from_gives = { λ map answer. MatchResult answer (λ fine. fine.map ≡ map) (λ e. number_of e ≡ map_refusal map) };

    #[tactic(auto, unfolding(crate::specs::Maps::map_refusal))]
    fn try_from(map: Map) -> Result<FineMap, Refusal> {
        if !hexes::within_limit(map.centre) {
            return Err(Refusal::BeyondLimit);
        }
        if map.radius > limits::RADIUS {
            return Err(Refusal::TooLarge);
        }
        Ok(FineMap { map })
    }
}
