// The calls for C that list tiles, x then y, in a lent run. Each answers the number of tiles; refused, it leaves the run as it is. They are alike and stand apart, since C knows each by its
// name.

ghost use Rattle.hexes.specs.Tiles.{tile};
ghost use Rattle.rings.specs.Judged.{refusal_of};
ghost use Rattle.rings.specs.Rings.{ring, edge, spiral, wedge, corner_wedge};
ghost use Rattle.firmware.specs.Lists.{ListCall};

use crate::answer_told;
use hexes::{Direction, Tile};

// The ring of a range round a centre, from a direction on.
#[unsafe(no_mangle)]
pub extern "C" fn kyrla_ring(
    cx: i32,
    cy: i32,
    range: u32,
    direction: u32,
    sense: u32,
    run: &mut [i32],
) -> i64
    ensures { ListCall (refusal_of (tile cx cy) range range direction sense) (ring (tile cx cy) direction sense range) run.old run.new result }
{
    let centre = Tile { x: cx, y: cy };
    answer_told(rings::ring(centre, range, Direction(direction), sense, run))
}

// The edge of a range at a vertex.
#[unsafe(no_mangle)]
pub extern "C" fn kyrla_ring_edge(
    cx: i32,
    cy: i32,
    range: u32,
    vertex: u32,
    sense: u32,
    run: &mut [i32],
) -> i64
    ensures { ListCall (refusal_of (tile cx cy) range range vertex sense) (edge (tile cx cy) vertex sense range) run.old run.new result }
{
    let centre = Tile { x: cx, y: cy };
    answer_told(rings::ring_edge(centre, range, vertex, sense, run))
}

// The edges of ranges first to last at a vertex.
#[unsafe(no_mangle)]
pub extern "C" fn kyrla_wedge(
    cx: i32,
    cy: i32,
    first: u32,
    last: u32,
    vertex: u32,
    sense: u32,
    run: &mut [i32],
) -> i64
    ensures { ListCall (refusal_of (tile cx cy) first last vertex sense) (wedge (tile cx cy) first last vertex sense) run.old run.new result }
{
    let centre = Tile { x: cx, y: cy };
    answer_told(rings::wedge(centre, first, last, vertex, sense, run))
}

// The corners of ranges first to last in a direction.
#[unsafe(no_mangle)]
pub extern "C" fn kyrla_corner_wedge(
    cx: i32,
    cy: i32,
    first: u32,
    last: u32,
    direction: u32,
    run: &mut [i32],
) -> i64
    ensures { ListCall (refusal_of (tile cx cy) first last direction 0) (corner_wedge (tile cx cy) first last direction) run.old run.new result }
{
    let centre = Tile { x: cx, y: cy };
    answer_told(rings::corner_wedge(centre, first, last, Direction(direction), run))
}

// The rings of ranges first to last from a direction on.
#[unsafe(no_mangle)]
pub extern "C" fn kyrla_spiral(
    cx: i32,
    cy: i32,
    first: u32,
    last: u32,
    direction: u32,
    sense: u32,
    run: &mut [i32],
) -> i64
    ensures { ListCall (refusal_of (tile cx cy) first last direction sense) (spiral (tile cx cy) first last direction sense) run.old run.new result }
{
    let centre = Tile { x: cx, y: cy };
    answer_told(rings::spiral(centre, first, last, Direction(direction), sense, run))
}
