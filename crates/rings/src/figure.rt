// The figures that are listed: at each range a figure is a few straight legs, and each leg is told by four numbers.

ghost use Rattle.std.specs.Prelude.{◌≡◌, ◌+◌, ◌<◌, ◌≤◌};
ghost use Rattle.hexes.specs.Limits.{range_limit};
ghost use Rattle.rings.specs.Leaves.{legs_of, ring_leg, leg_at, Fits, tiles_at, tiles_of};

// A ring, an edge between two corners, or the two halves of edges that meet in a corner.
#[derive(Clone, Copy, Debug, PartialEq, Eq)]
pub(crate) enum Shape {
    Ring,
    Edge,
    Corner,
}

// A shape with the direction, or vertex, and the sense in which it is listed.
#[derive(Clone, Copy, Debug, PartialEq, Eq)]
pub(crate) struct Figure {
    pub(crate) shape: Shape,
    pub(crate) direction: u32,
    pub(crate) sense: u32,
}

// A leg of `count` tiles: from the corner in direction `out`, as far out as the range, it goes along out + 2 in sense 0 and out + 4 in sense 1, with `skip` tiles left out first.
#[derive(Clone, Copy, Debug, PartialEq, Eq)]
pub(crate) struct Leg {
    pub(crate) out: u32,
    pub(crate) sense: u32,
    pub(crate) skip: u32,
    pub(crate) count: u32,
}

impl Shape {
    // How many legs the shape has.
    pub(crate) fn legs(self) -> u32
        ensures { result ≡ legs_of self }
    {
        match self {
            Shape::Ring => 6,
            Shape::Edge => 1,
            Shape::Corner => 2,
        }
    }

    // How many tiles it has at a range. The functions of a range ask for its limit one by one, and no type carries it, since each turn of a loop reckons a new one.
    fn tiles_at(self, range: u32) -> u32
        requires { range ≤ range_limit }
        ensures { result ≡ tiles_at self range }
    {
        match self {
            Shape::Ring => { if range == 0 { 1 } else { 6 * range } }
            Shape::Edge => range + 1,
            Shape::Corner => 2 * (range / 2) + 1,
        }
    }

    // How many it has at `count` ranges from `first` on.
    pub(crate) fn tiles_of(self, first: u32, count: u32) -> u32
        requires { first + count ≤ range_limit + 1 }
        ensures { result ≡ tiles_of self first count }
    {
        let mut sum: u32 = 0;
        for k in 0..count {
            sum += self.tiles_at(first + k);
        }
        sum
    }
}

// How many tiles leg i of a ring has: the centre alone is one leg of one tile.
fn ring_leg(range: u32, i: u32) -> u32
    ensures { result ≡ ring_leg range i }
{
    if range > 0 {
        return range;
    }
    if i == 0 { 1 } else { 0 }
}

impl Figure {
    // Leg i at a range. A ring passes its corners one direction on with each leg, or one back in sense 1, where five more is one less; an edge in sense 1 starts from its vertex's
    // other corner; a corner's two legs leave it in both senses.
    pub(crate) fn leg_at(self, range: u32, i: u32) -> Leg
        requires fits { Fits self }
        requires range_le_range_limit { range ≤ range_limit }
        requires i_bound { i < legs_of self.shape }
        ensures { result ≡ leg_at self.shape self.direction self.sense range i }
    {
        let Figure {
            shape,
            direction,
            sense,
        } = self;
        match shape {
            Shape::Ring => Leg {
                out: direction + (1 + 4 * sense) * i,
                sense,
                skip: 0,
                count: ring_leg(range, i),
            },
            Shape::Edge => Leg {
                out: direction + sense,
                sense,
                skip: 0,
                count: range + 1,
            },
            Shape::Corner => Leg {
                out: direction,
                sense: i,
                skip: i,
                count: range / 2 + 1 - i,
            },
        }
    }
}
