// The way itself: from the start down the ranks to the end, tile by tile.

ghost use Rattle.std.specs.Prelude.{◌≡◌, length};
ghost use Rattle.storage.specs.Maps.{map_refusal, area_of};

use hexes::{Refusal, Tile, limits};
use storage::{Index, Map};

// A map that is fine, its efforts, and a table with an entry for each tile that is to hold its rank to the end.
#[derive(Clone, Copy)]
pub(crate) struct Way<'a> {
    pub(crate) map: Map,
    pub(crate) efforts: &'a [u16],
    pub(crate) ranks: &'a [u64],
    pub(crate) end: usize,
    ghost fine: { map_refusal map ≡ 0 },
    ghost efforts_len: { length efforts.now ≡ area_of map.radius },
    ghost ranks_len: { length ranks.now ≡ area_of map.radius },
}

impl Way<'_> {
    ghost use Rattle.std.specs.Prelude.{ℕ, ◌+◌, ◌*◌, ◌%◌, ◌<◌, ◌≤◌, eqb, get_or};
    ghost use Rattle.paths.specs.Tables.{at};
    ghost use Rattle.routes.specs.Descents.{Taken};
    ghost use Rattle.routes.specs.Ranks.{multiplier, no_rank, Ranks};
    ghost use Rattle.routes.specs.Turned.{turned};
    ghost use Rattle.storage.specs.Leaves.{near_in, tile_at_index};
    ghost use Rattle.terrain.specs.GroundOfMap.{ground_of};
    ghost use Rattle.pathfinding.specs.Ways.{Ranked, offer_of, LaysDown, TellsWay};

    // The route from a tile: refused where it has no rank (8) or the run is too short (7).
    pub(crate) fn led(&self, start: usize, run: &mut [i32]) -> Result<u32, Refusal>
        requires start_bound { start < area_of self.now.map.radius }
        requires ranks { Ranks (ground_of self.now.map self.now.efforts.now) self.now.end (at self.now.ranks.now) }
        ensures { TellsWay self.now.map self.now.efforts.now self.now.ranks.now start self.now.end run.old result run.new }
    {
        let rank = self.ranks[start];
        if rank == limits::NO_RANK {
            return Err(Refusal::NoOpenPath);
        }
        let tiles = (rank % limits::RANK_UNIT) as u32 + 1;
        if run.len() < 2 * tiles as usize {
            return Err(Refusal::RunTooShort);
        }
        self.put(start, run);
        Ok(tiles)
    }

    // Writes the tiles from tile `start` down to the end.
    fn put(&self, start: usize, run: &mut [i32]) -> usize
        requires ranked { Ranked self.now.map self.now.efforts.now self.now.ranks.now start }
        requires ranks { Ranks (ground_of self.now.map self.now.efforts.now) self.now.end (at self.now.ranks.now) }
        requires multiplier_in_bounds { 2 * (get_or self.now.ranks.now start 0 % multiplier + 1) ≤ length run.old }
        ensures { LaysDown self.now.map self.now.efforts.now self.now.ranks.now start self.now.end run.old result run.new }
    {
        let mut u = start;
        let mut place: usize = 0;
        while u != self.end {
            place = runs::put(run, place, self.tile(u));
            u = self.next(u);
        }
        runs::put(run, place, self.tile(u))
    }

    // The tile of an index of the map.
    fn tile(&self, u: usize) -> Tile
        requires { u < area_of self.now.map.radius }
        ensures { result ≡ tile_at_index self.now.map u }
    {
        storage::from_hexmod_coordinates(self.map, Index(u as u32)).unwrap()
    }

    // The tile that the best route enters next from tile u. The loop counts directions, since the lowest number of one that makes up the rank is what the rule asks for.
    fn next(&self, u: usize) -> usize
        requires { Ranked self.now.map self.now.efforts.now self.now.ranks.now u }
        ensures { (d : ℕ) → Taken (turned (ground_of self.now.map self.now.efforts.now) multiplier) (at self.now.ranks.now) u d → result ≡ near_in self.now.map u d }
    {
        let rank = self.ranks[u];
        let beside = storage::all_neighbors(self.map, Index(u as u32));
        for d in 0..6 {
            let Some(next) = beside[d] else {
                continue;
            };
            if self.makes(next, rank) {
                return next.0 as usize;
            }
        }
        u
    }

    // Does the step from an open tile of a rank into a tile make up that rank?
    #[tactic(auto, using(crate::proofs::Stepping::no_tile, crate::proofs::Stepping::not_open, crate::proofs::Stepping::too_heavy, crate::proofs::Stepping::by_rest))]
    fn makes(&self, next: Index, rank: u64) -> bool
        requires { rank < no_rank }
        ensures { result ≡ eqb (offer_of self.now.efforts.now self.now.ranks.now next.0) rank }
    {
        let t = next.0 as usize;
        if t >= self.ranks.len() {
            return false;
        }
        let effort = self.efforts[t];
        if effort >= limits::BARRED {
            return false;
        }
        let weight = effort as u64 * limits::RANK_UNIT + 1;
        if rank < weight {
            return false;
        }
        self.ranks[t] == rank - weight
    }
}
