// A number that is read digit by digit.

ghost use Rattle.std.specs.Prelude.{◌≡◌};
ghost use Rattle.text.specs.Digits.{more_of, value_of};

// What is read so far: the sign, and the digits as a number.
#[derive(Clone, Copy, Debug, PartialEq, Eq)]
pub struct Digits {
    pub negative: bool,
    pub magnitude: u64,
}

impl Digits {
    // The same with one more digit, where 64 bits hold that.
    #[tactic(auto, unfolding(crate::specs::Digits::more_of))]
    pub fn more(self, digit: u8) -> Option<Digits>
        ensures { result ≡ more_of self digit }
    {
        let magnitude = self
            .magnitude
            .checked_mul(10)?
            .checked_add(u64::from(digit))?;
        Some(Digits {
            negative: self.negative,
            magnitude,
        })
    }

    // The number that was read, where 64 bits signed hold it.
    #[tactic(auto, unfolding(crate::specs::Digits::value_of))]
    pub fn value(self) -> Option<i64>
        ensures { result ≡ value_of self }
    {
        if self.negative {
            0i64.checked_sub_unsigned(self.magnitude)
        } else {
            i64::try_from(self.magnitude).ok()
        }
    }
}
