// The neighbour rule at each tile of a map, and the lowest index at which it is broken.

ghost use Rattle.std.specs.Prelude.{◌≡◌, length};
ghost use Rattle.storage.specs.Maps.{map_refusal, area_of};

use hexes::limits;
use storage::{Index, Map};

// What is checked: totals over a map that is fine with its efforts, from a start within a budget.
#[derive(Clone, Copy)]
pub(crate) struct Check<'a> {
    pub(crate) map: Map,
    pub(crate) efforts: &'a [u16],
    pub(crate) start: usize,
    pub(crate) budget: u32,
    pub(crate) totals: &'a [u32],
    ghost fine: { map_refusal map ≡ 0 },
    ghost efforts_len: { length efforts.now ≡ area_of map.radius },
    ghost totals_len: { length totals.now ≡ area_of map.radius },
}

impl Check<'_> {
    ghost use Rattle.std.specs.Prelude.{◌<◌, ◌≤◌, IfSome};
    ghost use Rattle.hexes.specs.Limits.{barred, no_way};
    ghost use Rattle.paths.specs.NeighborRule.{best, want};
    ghost use Rattle.paths.specs.Tables.{at};
    ghost use Rattle.storage.specs.Leaves.{number_or_none};
    ghost use Rattle.terrain.specs.LandOfMap.{land_of};
    ghost use Rattle.field_of_movement.specs.Scanning.{Scans, offered, tile_or};

    // The lowest index at which the rule is broken.
    pub(crate) fn lowest_broken(&self) -> Option<usize>
        ensures found { IfSome result (λ lowest. lowest < length self.now.totals.now) }
        ensures scans { Scans (land_of self.now.map self.now.efforts.now no_way) (at self.now.totals.now) self.now.start self.now.budget (tile_or (length self.now.totals.now) result) }
    {
        for (i, total) in self.totals.iter().enumerate() {
            if u64::from(*total) != self.wanted(i) {
                return Some(i);
            }
        }
        None
    }

    // What the rule wants at tile i: 0 at the start, elsewhere the best offer, where it is within the budget.
    fn wanted(&self, i: usize) -> u64
        requires { i < length self.now.totals.now }
        ensures { result ≡ want (land_of self.now.map self.now.efforts.now no_way) (at self.now.totals.now) self.now.start self.now.budget i }
    {
        if i == self.start {
            return 0;
        }
        let best = self.best(i);
        if best <= self.budget as u64 {
            best
        } else {
            limits::NO_WAY as u64
        }
    }

    // The best offer of the six steps into tile i, each from the tile in the opposite direction. The loop counts directions, since it is the number of one that is turned round.
    fn best(&self, i: usize) -> u64
        requires { i < length self.now.totals.now }
        ensures { result ≡ best (land_of self.now.map self.now.efforts.now no_way) (at self.now.totals.now) i 6 }
    {
        let price = terrain::price_of(self.efforts[i]);
        let beside = storage::all_neighbors(self.map, Index(i as u32));
        let mut best = limits::NO_WAY as u64;
        for d in 0..6 {
            best = best.min(self.offer(beside[(d + 3) % 6], price));
        }
        best
    }

    // What a step at a price, from a tile, offers: the mark for no way where there is no such tile, or the price is 0.
    fn offer(&self, from: Option<Index>, price: u64) -> u64
        requires { price ≤ barred }
        ensures { result ≡ offered self.now.totals.now (number_or_none from) price }
    {
        let Some(index) = from else {
            return limits::NO_WAY as u64;
        };
        let Some(total) = self.totals.get(index.0 as usize) else {
            return limits::NO_WAY as u64;
        };
        if price == 0 {
            return limits::NO_WAY as u64;
        }
        u64::from(*total) + price
    }
}
