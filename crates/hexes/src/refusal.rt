// Why a call is refused. Each refusal has a number of its own, which C is told and which programs print; `specs/Refusals` names the same numbers for the promises. 0 is no refusal, and
// 9 is told of a totals table, with the index at which it is not right: `field_of_movement::Fault`.

ghost use Rattle.std.specs.Prelude.{◌≡◌, Some};
ghost use Rattle.hexes.specs.Refusals.{number_of, refusal_text};

use std::error::Error;
use std::fmt;

#[derive(Clone, Copy, Debug, PartialEq, Eq)]
pub enum Refusal {
    // A coordinate, or a centre, beyond the limit; or a pair whose tile is beyond it.
    BeyondLimit = 1,
    // A range or a radius beyond its limit.
    TooLarge = 2,
    // A direction or vertex that is not 0 to 5, or a mode, orientation or turning sense that is not 0 or 1.
    UnknownNumber = 3,
    // A doubled pair whose column and row have an odd sum.
    OddPair = 4,
    // A tile, start, end, index, or row and column that is not of the map.
    NotOfMap = 5,
    // An effort, totals or rank table whose length is not the map's area.
    WrongLength = 6,
    // A lent run with fewer entries than twice the tiles of the answer.
    RunTooShort = 7,
    // A route that no open path makes.
    NoOpenPath = 8,
}

impl Refusal {
    // The number of the refusal.
    pub fn number(self) -> u32
        ensures { result ≡ number_of self }
    {
        self as u32
    }
}

// A refusal is printed as its number.
impl fmt::Display for Refusal {
    ghost output = { λ refusal. Some (refusal_text refusal) };

    fn fmt<W: fmt::Write>(&self, f: &mut fmt::Formatter<W>) -> fmt::Result {
        write!(f, "{}", self.number())
    }
}

impl Error for Refusal {}
