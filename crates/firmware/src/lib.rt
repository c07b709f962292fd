// The calls for a program in C, such as the firmware of a handheld: each takes plain numbers and lent runs, and answers its result, or minus the number of a refusal. C passes a
// run as two arguments, a pointer and a count of entries. The calls over tables stand here.

#![tactic(auto)]

mod lists;
mod numbers;
mod pairs;

ghost use Rattle.std.specs.Prelude.{◌≡◌, set};
ghost use Rattle.hexes.specs.Tiles.{tile};
ghost use Rattle.field_of_movement.specs.Calls.{verdict_number, verdict_index};
ghost use Rattle.firmware.specs.Calls.{minus, answer_told, map_at, noted, RangeCall, CheckCall, RouteCall};

use field_of_movement::Fault;
use hexes::{Refusal, Tile};
use storage::Map;

// Minus a number: how C is told a refusal.
fn minus(number: u32) -> i64
    ensures { result ≡ minus number }
{
    0 - number as i64
}

// What a call that answers a number has found, as C is told it.
fn answer_told(answer: Result<u32, Refusal>) -> i64
    ensures { result ≡ answer_told answer }
{
    match answer {
        Ok(number) => number as i64,
        Err(refusal) => minus(refusal.number()),
    }
}

// The map of a centre and a radius.
fn map_at(cx: i32, cy: i32, radius: u32) -> Map
    ensures { result ≡ map_at cx cy radius }
{
    Map {
        centre: Tile { x: cx, y: cy },
        radius,
    }
}

// What the totals check has answered, as C is told it, with a broken index written down.
fn verdict_told(verdict: Result<(), Fault>, broken: &mut [u32]) -> i64
    ensures value { result ≡ minus (verdict_number verdict) }
    ensures broken_after { broken.new ≡ noted (verdict_number verdict) (verdict_index verdict) broken.old }
{
    note(verdict, broken);
    match verdict {
        Ok(()) => 0,
        Err(fault) => minus(fault.number()),
    }
}

// Writes a broken index to the first entry of a run, where there is one and the run has an entry.
#[tactic(auto, using(crate::proofs::Noting::noted_refused), unfolding(crate::specs::Calls::noted))]
fn note(verdict: Result<(), Fault>, broken: &mut [u32])
    ensures { broken.new ≡ noted (verdict_number verdict) (verdict_index verdict) broken.old }
{
    if let Err(Fault::NotRight(index)) = verdict {
        if let Some(first) = broken.first_mut() {
            *first = index.0;
        }
    }
}

// The riding range, written to `totals` by dense index.
#[unsafe(no_mangle)]
pub extern "C" fn kyrla_range(
    cx: i32,
    cy: i32,
    radius: u32,
    efforts: &[u16],
    sx: i32,
    sy: i32,
    budget: u32,
    totals: &mut [u32],
) -> i64
    ensures { RangeCall (map_at cx cy radius) efforts.now (tile sx sy) budget totals.old totals.new result }
{
    let map = map_at(cx, cy, radius);
    let start = Tile { x: sx, y: sy };
    let written = field_of_movement::riding_range(map, efforts, start, budget, totals);
    answer_told(written.map(|()| 0))
}

// The totals check. With minus 9 the lowest broken index stands in the first entry of `broken`, where it has one; nothing else is ever written.
#[unsafe(no_mangle)]
pub extern "C" fn kyrla_check(
    cx: i32,
    cy: i32,
    radius: u32,
    efforts: &[u16],
    sx: i32,
    sy: i32,
    budget: u32,
    totals: &[u32],
    broken: &mut [u32],
) -> i64
    ensures { CheckCall (map_at cx cy radius) efforts.now (tile sx sy) budget totals.now broken.old broken.new result }
{
    let map = map_at(cx, cy, radius);
    let start = Tile { x: sx, y: sy };
    let verdict = field_of_movement::check_totals(map, efforts, start, budget, totals);
    verdict_told(verdict, broken)
}

// The best route, its tiles written to `run`, x then y, and the rank of every tile to the end written to `ranks` by dense index. It answers the number of tiles.
#[unsafe(no_mangle)]
pub extern "C" fn kyrla_route(
    cx: i32,
    cy: i32,
    radius: u32,
    efforts: &[u16],
    sx: i32,
    sy: i32,
    ex: i32,
    ey: i32,
    ranks: &mut [u64],
    run: &mut [i32],
) -> i64
    ensures { RouteCall (map_at cx cy radius) efforts.now (tile sx sy) (tile ex ey) ranks.old ranks.new run.old run.new result }
{
    let map = map_at(cx, cy, radius);
    let start = Tile { x: sx, y: sy };
    let end = Tile { x: ex, y: ey };
    answer_told(pathfinding::route(map, efforts, start, end, ranks, run))
}
