// Rings, ring edges, wedges, corner wedges and spirals, written to a lent run, and the counts: what hexx has in src/hex/rings.rs, without its cached arrays and `_to` forms.
// A call judges its centre first (1), then its ranges (2), then its direction or vertex and its sense (3), then the room in the run (7). Refused, it leaves the run as it is.

#![tactic(auto)]

mod figure;
mod judge;
mod write;

ghost use Rattle.std.specs.Prelude.{◌≡◌};
ghost use Rattle.runs.specs.Runs.{Lists};
ghost use Rattle.rings.specs.Counts.{ring_count, wedge_count};
ghost use Rattle.rings.specs.Judged.{refusal_of};
ghost use Rattle.rings.specs.Rings.{ring, edge, spiral, wedge, corner_wedge};

use figure::{Figure, Shape};
use hexes::{Direction, Refusal, Tile};

// The ring of a range round a centre, from a direction on.
pub fn ring(
    centre: Tile,
    range: u32,
    direction: Direction,
    sense: u32,
    run: &mut [i32],
) -> Result<u32, Refusal>
    ensures { Lists (refusal_of centre range range direction.0 sense) (ring centre direction.0 sense range) run.old result run.new }
{
    spiral(centre, range, range, direction, sense, run)
}

// The edge of a range at a vertex.
pub fn ring_edge(
    centre: Tile,
    range: u32,
    vertex: u32,
    sense: u32,
    run: &mut [i32],
) -> Result<u32, Refusal>
    ensures { Lists (refusal_of centre range range vertex sense) (edge centre vertex sense range) run.old result run.new }
{
    wedge(centre, range, range, vertex, sense, run)
}

// The edges of ranges first to last at a vertex.
pub fn wedge(
    centre: Tile,
    first: u32,
    last: u32,
    vertex: u32,
    sense: u32,
    run: &mut [i32],
) -> Result<u32, Refusal>
    ensures { Lists (refusal_of centre first last vertex sense) (wedge centre first last vertex sense) run.old result run.new }
{
    let figure = Figure {
        shape: Shape::Edge,
        direction: vertex,
        sense,
    };
    write::listed(figure, centre, first, last, run)
}

// The corners of ranges first to last in a direction. It has one sense only, so none is judged.
pub fn corner_wedge(
    centre: Tile,
    first: u32,
    last: u32,
    direction: Direction,
    run: &mut [i32],
) -> Result<u32, Refusal>
    ensures { Lists (refusal_of centre first last direction.0 0) (corner_wedge centre first last direction.0) run.old result run.new }
{
    let d = direction.0;
    let figure = Figure {
        shape: Shape::Corner,
        direction: d,
        sense: 0,
    };
    write::listed(figure, centre, first, last, run)
}

// The rings of ranges first to last from a direction on.
pub fn spiral(
    centre: Tile,
    first: u32,
    last: u32,
    direction: Direction,
    sense: u32,
    run: &mut [i32],
) -> Result<u32, Refusal>
    ensures { Lists (refusal_of centre first last direction.0 sense) (spiral centre first last direction.0 sense) run.old result run.new }
{
    let d = direction.0;
    let figure = Figure {
        shape: Shape::Ring,
        direction: d,
        sense,
    };
    write::listed(figure, centre, first, last, run)
}

// How many tiles a ring has.
pub fn ring_count(range: u32) -> u64
    ensures { result ≡ ring_count range }
{
    if range == 0 { 1 } else { 6 * (range as u64) }
}

// How many tiles the wedge of ranges 0 to `range` has. The half is taken before the product, which would pass 64 bits at the top.
pub fn wedge_count(range: u32) -> u64
    ensures { result ≡ wedge_count range }
{
    let n = range as u64;
    if n % 2 == 0 {
        n / 2 * (n + 3) + 1
    } else {
        n * ((n + 3) / 2) + 1
    }
}
