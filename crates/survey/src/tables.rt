// The arguments and the tables of a valley, read from its words.

ghost use Rattle.std.specs.Prelude.{◌≤◌};

use crate::report::Trouble;
use crate::words::Word;
use hexes::{Tile, limits};
use questions::arguments::Number;

// How many words stand before the tables.
pub(crate) const HEAD: usize = 8;

// An entry of a table, for which `-` may stand.
pub(crate) trait Entry: Number {
    // What `-` stands for.
    const MARK: Self;
}

// Of an effort `-` says that the tile is barred.
impl Entry for u16 {
    const MARK: u16 = limits::BARRED;
}

// Of a total `-` says that there is no way.
impl Entry for u32 {
    const MARK: u32 = limits::NO_WAY;
}

// The word at a place as an argument.
pub(crate) fn argument_at<T: Number>(words: &[Word], at: usize) -> Result<T, Trouble> {
    let number = match words.get(at) {
        Some(Word::Number(size)) => i64::from(*size),
        Some(Word::Negative(size)) => 0 - i64::from(*size),
        _ => return Err(Trouble::Unreadable(at)),
    };
    T::of_word(number).ok_or(Trouble::Unreadable(at))
}

// The words at a place and behind it as a tile.
pub(crate) fn tile_at(words: &[Word], at: usize) -> Result<Tile, Trouble>
    requires { at ≤ 8 }
{
    Ok(Tile {
        x: argument_at(words, at)?,
        y: argument_at(words, at + 1)?,
    })
}

// The word at a place as an entry of a table.
fn entry_at<T: Entry>(words: &[Word], at: usize) -> Result<T, Trouble> {
    if let Some(Word::Dash) = words.get(at) {
        return Ok(T::MARK);
    }
    argument_at(words, at)
}

// Reads the entries of a table from the words from a place on, and answers the place behind them.
pub(crate) fn read<T: Entry>(
    words: &[Word],
    from: usize,
    table: &mut [T],
) -> Result<usize, Trouble> {
    for (i, entry) in table.iter_mut().enumerate() {
        *entry = entry_at(words, from.saturating_add(i))?;
    }
    Ok(from.saturating_add(table.len()))
}

// Is there no word from a place on?
pub(crate) fn end(words: &[Word], at: usize) -> Result<(), Trouble> {
    if at < words.len() {
        Err(Trouble::Unreadable(at))
    } else {
        Ok(())
    }
}
