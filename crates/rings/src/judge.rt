// The judgement of a listing's arguments.

ghost use Rattle.std.specs.Prelude.{◌≡◌};
ghost use Rattle.hexes.specs.Answers.{number_told};
ghost use Rattle.rings.specs.Judged.{refusal_of};

use hexes::{Refusal, Tile, limits};

// The refusal with the lowest number that the arguments of a listing give. A direction is also a vertex, which has the same six numbers.
pub(crate) fn judge(
    centre: Tile,
    first: u32,
    last: u32,
    direction: u32,
    sense: u32,
) -> Result<(), Refusal>
    ensures { number_told result ≡ refusal_of centre first last direction sense }
{
    if !hexes::within_limit(centre) {
        return Err(Refusal::BeyondLimit);
    }
    if first > limits::RANGE {
        return Err(Refusal::TooLarge);
    }
    if last > limits::RANGE {
        return Err(Refusal::TooLarge);
    }
    if direction > 5 {
        return Err(Refusal::UnknownNumber);
    }
    if sense > 1 {
        return Err(Refusal::UnknownNumber);
    }
    Ok(())
}
