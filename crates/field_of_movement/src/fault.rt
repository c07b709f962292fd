// What is wrong with a totals table: the call is refused, or the table is not right.

ghost use Rattle.std.specs.Prelude.{◌≡◌, Some};
ghost use Rattle.field_of_movement.specs.Calls.{fault_number, fault_text};
ghost use Rattle.field_of_movement.specs.declared.fault.Fault.TheVariants.{Refused};

use hexes::Refusal;
use std::error::Error;
use std::fmt;
use storage::Index;

#[derive(Clone, Copy, Debug, PartialEq, Eq)]
pub enum Fault {
    // The arguments are refused.
    Refused(Refusal),
    // The lowest index at which the neighbour rule is broken.
    NotRight(Index),
}

impl Fault {
    // The number that C is told and that programs print: a refusal's own, or 9.
    pub fn number(self) -> u32
        ensures { result ≡ fault_number self }
    {
        match self {
            Fault::Refused(refusal) => refusal.number(),
            Fault::NotRight(_) => 9,
        }
    }
}

// A refusal of the arguments is passed on by `?`.
impl From<Refusal> for Fault {
    ghost from_gives = { λ refusal fault. fault ≡ Refused refusal };

    fn from(refusal: Refusal) -> Fault {
        Fault::Refused(refusal)
    }
}

// A fault is printed as its number, and where the table is not right the index behind it.
impl fmt::Display for Fault {
    ghost output = { λ fault. Some (fault_text fault) };

    fn fmt<W: fmt::Write>(&self, f: &mut fmt::Formatter<W>) -> fmt::Result {
        match self {
            Fault::Refused(refusal) => write!(f, "{refusal}"),
            Fault::NotRight(index) => write!(f, "{} at {}", self.number(), index.0),
        }
    }
}

impl Error for Fault {}
