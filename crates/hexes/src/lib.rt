// Tiles, directions and distance: what hexx has in src/hex/mod.rs and src/direction/, in numbers that never wrap.

#![tactic(auto)]

pub mod limits;
mod refusal;

ghost use Rattle.std.specs.Prelude.{◌≡◌};
ghost use Rattle.hexes.specs.Tiles.{place, neighbor_of, distance_of, within_limit};
ghost use Rattle.hexes.specs.Directions.{step_of, turned_by};
ghost use Rattle.hexes.specs.Answers.{TileTells, judged_tile};

pub use refusal::Refusal;

// A tile by its axial coordinates.
#[derive(Clone, Copy, Debug, PartialEq, Eq)]
pub struct Tile {
    pub x: i32,
    pub y: i32,
}

// A pair of coordinates that a tile may not be able to hold: what a sum or a conversion gives before it is judged.
#[derive(Clone, Copy, Debug, PartialEq, Eq)]
pub struct Place {
    pub x: i64,
    pub y: i64,
}

// A direction number, 0 to 5 counter-clockwise from (1, 0). It is a type of its own, so that no index is taken for one. Numbers that differ by 6
// name one direction, so none is compared with another.
#[derive(Clone, Copy, Debug)]
pub struct Direction(pub u32);

// What a direction adds to a tile's x and y.
#[derive(Clone, Copy, Debug, PartialEq, Eq)]
pub struct Step(pub i32, pub i32);

// The six steps, in the order of their direction numbers.
const STEPS: [Step; 6] = [
    Step(1, 0),
    Step(1, -1),
    Step(0, -1),
    Step(-1, 0),
    Step(-1, 1),
    Step(0, 1),
];

// The step of a direction. Direction numbers are taken modulo 6.
pub fn step_of(direction: Direction) -> Step
    ensures { result ≡ step_of direction.0 }
{
    let k = direction.0 % 6;
    STEPS[k as usize]
}

// The direction that a number of sixth turns leads to: the sum modulo 6.
pub fn turned(direction: Direction, by: u32) -> Direction
    ensures { result ≡ turned_by direction.0 by }
{
    let sum = direction.0 % 6 + by % 6;
    Direction(sum % 6)
}

// The direction that leads back.
pub fn opposite(direction: Direction) -> Direction
    ensures { result ≡ turned_by direction.0 3 }
{
    turned(direction, 3)
}

// The place of a tile.
impl From<Tile> for Place {
    ghost from_gives = { λ tile at. at ≡ place tile };

    fn from(tile: Tile) -> Place {
        Place {
            x: tile.x as i64,
            y: tile.y as i64,
        }
    }
}

// The sum of a tile and the step of a direction, exact.
pub fn neighbor(tile: Tile, direction: Direction) -> Place
    ensures { result ≡ place (neighbor_of tile direction.0) }
{
    let step = step_of(direction);
    Place {
        x: whole::sum(tile.x, step.0),
        y: whole::sum(tile.y, step.1),
    }
}

// The distance of any two tiles, exact: differences are taken in whole numbers, so none is refused.
pub fn distance(a: Tile, b: Tile) -> u64
    ensures { result ≡ distance_of a b }
{
    let dx = whole::difference(b.x, a.x);
    let dy = whole::difference(b.y, a.y);
    let sides = whole::absolute(dx).max(whole::absolute(dy));
    sides.max(whole::absolute(dx + dy))
}

// The tile at a place, or refusal 1 where a coordinate is beyond the limit.
impl TryFrom<Place> for Tile {
    type Error = Refusal;

    ghost try_from_gives = { λ at answer. TileTells answer (λ told. told ≡ judged_tile at) };

    fn try_from(at: Place) -> Result<Tile, Refusal> {
        if whole::absolute(at.x) > limits::COORDINATE {
            return Err(Refusal::BeyondLimit);
        }
        if whole::absolute(at.y) > limits::COORDINATE {
            return Err(Refusal::BeyondLimit);
        }
        Ok(Tile {
            x: at.x as i32,
            y: at.y as i32,
        })
    }
}

// Is a tile within the coordinate limit?
pub fn within_limit(tile: Tile) -> bool
    ensures { result ≡ within_limit tile }
{
    Tile::try_from(Place::from(tile)).is_ok()
}
