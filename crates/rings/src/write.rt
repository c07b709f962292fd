// The writers: each lays its tiles into the run from a place on, and answers the place behind them.

ghost use Rattle.std.specs.Prelude.{◌≡◌, ◌+◌, ◌-◌, ◌*◌, ◌≤◌, pos, nat_abs, ◌+ℤ◌, ◌*ℤ◌, length};
ghost use Rattle.hexes.specs.Limits.{range_limit};
ghost use Rattle.runs.specs.Laid.{Laid};
ghost use Rattle.runs.specs.Runs.{Lists};
ghost use Rattle.rings.specs.Judged.{refusal_of};
ghost use Rattle.rings.specs.Rings.{along};
ghost use Rattle.rings.specs.Leaves.{Near, centre_reach, corner_reach, tiles_from, leg_tiles, figure_at, figures, LegFits, Fits};

use crate::figure::{Figure, Leg};
use crate::judge::judge;
use hexes::{Direction, Refusal, Tile};

// z + k·s in one coordinate. All of the signed arithmetic is here.
fn reached(z: i32, s: i32, k: u32) -> i32
    requires z_bound { nat_abs z ≤ corner_reach }
    requires s_bound { nat_abs s ≤ 1 }
    requires k_bound { k ≤ range_limit + 1 }
    ensures { result ≡ z +ℤ pos k *ℤ s }
{
    z + k as i32 * s
}

// The tile k steps along a direction.
fn moved(from: Tile, direction: u32, k: u32) -> Tile
    requires near { Near from corner_reach }
    requires k_bound { k ≤ range_limit + 1 }
    ensures { result ≡ along from direction k }
{
    let step = hexes::step_of(Direction(direction));
    Tile {
        x: reached(from.x, step.0, k),
        y: reached(from.y, step.1, k),
    }
}

// `count` tiles along a direction, after `skip` of them from a tile on.
fn put_tiles(run: &mut [i32], at: usize, from: Tile, direction: u32, skip: u32, count: u32) -> usize
    requires near { Near from corner_reach }
    requires count_bound { skip + count ≤ range_limit + 1 }
    requires count_in_bounds { at + 2 * length (tiles_from from direction skip count) ≤ length run.old }
    ensures { Laid run.old at (tiles_from from direction skip count) result run.new }
{
    let mut next = at;
    for k in 0..count {
        let tile = moved(from, direction, skip + k);
        next = runs::put(run, next, tile);
    }
    next
}

// A figure round a centre, both of them judged. What is written is lent, and a place in it is handed on: a struct of both would hold a `&mut`, and each promise would speak of what lies behind it.
#[derive(Clone, Copy)]
struct Placed {
    figure: Figure,
    centre: Tile,
    ghost near: { Near centre centre_reach },
    ghost fits: { Fits figure },
}

impl Placed {
    // Writes one leg of the figure at a range.
    fn put_leg(self, run: &mut [i32], at: usize, range: u32, leg: Leg) -> usize
        requires range_le_range_limit { range ≤ range_limit }
        requires leg_fits { LegFits leg }
        requires leg_in_bounds { at + 2 * length (leg_tiles self.centre range leg) ≤ length run.old }
        ensures { Laid run.old at (leg_tiles self.centre range leg) result run.new }
    {
        let corner = moved(self.centre, leg.out, range);
        put_tiles(
            run,
            at,
            corner,
            leg.out + 2 + 2 * leg.sense,
            leg.skip,
            leg.count,
        )
    }

    // Writes the figure at a range.
    fn put_at(self, run: &mut [i32], at: usize, range: u32) -> usize
        requires range_le_range_limit { range ≤ range_limit }
        requires range_in_bounds { at + 2 * length (figure_at self.figure self.centre range) ≤ length run.old }
        ensures { Laid run.old at (figure_at self.figure self.centre range) result run.new }
    {
        let figure = self.figure;
        let mut next = at;
        for i in 0..figure.shape.legs() {
            let leg = figure.leg_at(range, i);
            next = self.put_leg(run, next, range, leg);
        }
        next
    }

    // Writes the figure at `count` ranges from `first` on.
    fn put(self, run: &mut [i32], at: usize, first: u32, count: u32) -> usize
        requires count_bound { first + count ≤ range_limit + 1 }
        requires count_in_bounds { at + 2 * length (figures self.figure self.centre first count) ≤ length run.old }
        ensures { Laid run.old at (figures self.figure self.centre first count) result run.new }
    {
        let mut next = at;
        for k in 0..count {
            next = self.put_at(run, next, first + k);
        }
        next
    }
}

// How many ranges there are from first to last: none if first is above last.
fn ranges_of(first: u32, last: u32) -> u32
    requires { last ≤ range_limit }
    ensures { result ≡ last + 1 - first }
{
    (last + 1).saturating_sub(first)
}

// A figure at the ranges first to last, listed to a lent run.
pub(crate) fn listed(
    figure: Figure,
    centre: Tile,
    first: u32,
    last: u32,
    run: &mut [i32],
) -> Result<u32, Refusal>
    ensures { Lists (refusal_of centre first last figure.direction figure.sense) (figures figure centre first (last + 1 - first)) run.old result run.new }
{
    judge(centre, first, last, figure.direction, figure.sense)?;
    let count = ranges_of(first, last);
    let tiles = figure.shape.tiles_of(first, count);
    if run.len() < 2 * (tiles as usize) {
        return Err(Refusal::RunTooShort);
    }
    let placed = Placed { figure, centre };
    placed.put(run, 0, first, count);
    Ok(tiles)
}
