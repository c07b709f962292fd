// From words to arguments. Each word is checked against the range of the type that the question wants, so that no number is cut.

ghost use Rattle.std.specs.Prelude.{◌≡◌, ℤ, pos, Option};
ghost use Rattle.questions.specs.Arguments.{signed_of, unsigned_of, effort_of, argument_at, signed_at, tile_of};

use hexes::Tile;

// A number that one word of a line says.
pub trait Number: Copy {
    // What a word is read as, where it says such a number.
    ghost of_word: { ℤ → Option Self };

    // The word that says a number.
    ghost word: { Self → ℤ };

    fn of_word(said: i64) -> Option<Self>
        ensures { result ≡ of_word said };

    fn word(self) -> i64
        ensures { result ≡ word self };
}

// A signed number of 32 bits.
impl Number for i32 {
    ghost of_word = { signed_of };

    ghost word = { λ n. n };

    fn of_word(said: i64) -> Option<i32> {
        i32::try_from(said).ok()
    }

    fn word(self) -> i64 {
        i64::from(self)
    }
}

// An unsigned number of 32 bits.
impl Number for u32 {
    ghost of_word = { unsigned_of };

    ghost word = { pos };

    fn of_word(said: i64) -> Option<u32> {
        u32::try_from(said).ok()
    }

    fn word(self) -> i64 {
        i64::from(self)
    }
}

// An effort.
impl Number for u16 {
    ghost of_word = { effort_of };

    ghost word = { pos };

    fn of_word(said: i64) -> Option<u16> {
        u16::try_from(said).ok()
    }

    fn word(self) -> i64 {
        i64::from(self)
    }
}

// The word at a place as an argument, where there is such a word and it is one.
pub fn argument_at<T: Number>(words: &[i64], at: usize) -> Option<T>
    ensures { result ≡ argument_at T.of_word words.now at }
{
    T::of_word(*words.get(at)?)
}

// The words at two places as a tile.
pub fn tile_at(words: &[i64], x_at: usize, y_at: usize) -> Option<Tile>
    ensures { result ≡ tile_of (signed_at words.now x_at) (signed_at words.now y_at) }
{
    Some(Tile {
        x: argument_at(words, x_at)?,
        y: argument_at(words, y_at)?,
    })
}
