// Where the six steps out of a tile lead, in the two lands whose least sums the engine tells.

ghost use Rattle.std.specs.Prelude.{◌≡◌, ℕ, ◌<◌, get_or, None};
ghost use Rattle.terrain.specs.LandOfMap.{against};

use storage::Index;

// Which table the sums are for. For totals a step is walked as it is, at the price of the tile that it enters. For ranks it is walked the other way, so that the sums are those of
// the routes to one end: it leaves the tile that the route enters, and weighs that tile's effort.
#[derive(Clone, Copy)]
pub(crate) enum Table {
    Totals,
    Ranks,
}

// The tiles beside a tile, each by the direction that leads from it back to that tile.
pub(crate) fn turned(near: [Option<Index>; 6]) -> [Option<Index>; 6]
    ensures { (d : ℕ) → d < 6 → get_or result d None ≡ get_or near (against d) None }
{
    [near[3], near[4], near[5], near[0], near[1], near[2]]
}
