// The questions about tiles, directions, grids and counts: for each kind, which arguments its words are, which call it makes, and which numbers its answer is.

#![tactic(auto)]

ghost use Rattle.questions.specs.Answers.{Lays};

use conversions::GridPair;
use hexes::{Direction, Refusal};
use questions::answer::{Answer, Laid, lay, tile_answer, told, whole};
use questions::arguments::{argument_at, tile_at};

// Asks the question that the words begin with, and lays out its answer.
pub fn answered(kind: u32, words: &[i64], numbers: &mut [i64]) -> Option<Laid>
    ensures { Lays numbers.old result numbers.new }
{
    lay(asked(kind, words), numbers)
}

// The answer of each kind.
fn asked(kind: u32, words: &[i64]) -> Option<Answer> {
    // The kinds are numbers of the file format, and are matched here alone.
    match kind {
        1 => distance(words),
        2 => to_offset(words),
        3 => from_offset(words),
        4 => to_doubled(words),
        5 => from_doubled(words),
        6 => neighbor(words),
        7 => opposite(words),
        8 => turned(words),
        15 => ring_count(words),
        16 => wedge_count(words),
        _ => None,
    }
}

// 1 ax ay bx by | distance
fn distance(words: &[i64]) -> Option<Answer> {
    let a = tile_at(words, 1, 2)?;
    let b = tile_at(words, 3, 4)?;
    Some(Answer::one(5, whole(hexes::distance(a, b))))
}

// 2 x y mode orientation | refusal column row
fn to_offset(words: &[i64]) -> Option<Answer> {
    let tile = tile_at(words, 1, 2)?;
    let mode = argument_at(words, 3)?;
    let orientation = argument_at(words, 4)?;
    let pair = conversions::to_offset_coordinates(tile, mode, orientation);
    Some(grid_answer(5, pair))
}

// 3 column row mode orientation | refusal x y
fn from_offset(words: &[i64]) -> Option<Answer> {
    let pair = pair_at(words, 1, 2)?;
    let mode = argument_at(words, 3)?;
    let orientation = argument_at(words, 4)?;
    let tile = conversions::from_offset_coordinates(pair, mode, orientation);
    Some(tile_answer(5, tile))
}

// 4 x y mode | refusal column row
fn to_doubled(words: &[i64]) -> Option<Answer> {
    let tile = tile_at(words, 1, 2)?;
    let mode = argument_at(words, 3)?;
    Some(grid_answer(4, conversions::to_doubled_coordinates(tile, mode)))
}

// 5 column row mode | refusal x y
fn from_doubled(words: &[i64]) -> Option<Answer> {
    let pair = pair_at(words, 1, 2)?;
    let mode = argument_at(words, 3)?;
    Some(tile_answer(4, conversions::from_doubled_coordinates(pair, mode)))
}

// 6 x y direction | 0 x y
fn neighbor(words: &[i64]) -> Option<Answer> {
    let tile = tile_at(words, 1, 2)?;
    let direction = Direction(argument_at(words, 3)?);
    let place = hexes::neighbor(tile, direction);
    Some(Answer::three(4, 0, place.x, place.y))
}

// 7 direction | direction
fn opposite(words: &[i64]) -> Option<Answer> {
    let direction = Direction(argument_at(words, 1)?);
    let back = hexes::opposite(direction);
    Some(Answer::one(2, i64::from(back.0)))
}

// 8 direction by | direction
fn turned(words: &[i64]) -> Option<Answer> {
    let direction = Direction(argument_at(words, 1)?);
    let towards = hexes::turned(direction, argument_at(words, 2)?);
    Some(Answer::one(3, i64::from(towards.0)))
}

// 15 range | milliards rest
fn ring_count(words: &[i64]) -> Option<Answer> {
    Some(count(rings::ring_count(argument_at(words, 1)?)))
}

// 16 range | milliards rest
fn wedge_count(words: &[i64]) -> Option<Answer> {
    Some(count(rings::wedge_count(argument_at(words, 1)?)))
}

// A count of a range as two numbers, its milliards and the rest, since one word does not hold every count.
fn count(told: u64) -> Answer {
    Answer::two(2, whole(told / 1_000_000_000), whole(told % 1_000_000_000))
}

// A pair of a grid, or a refusal, as numbers.
fn grid_answer(took: usize, answer: Result<GridPair, Refusal>) -> Answer {
    let (number, pair) = told(answer, GridPair { column: 0, row: 0 });
    Answer::three(took, number, i64::from(pair.column), i64::from(pair.row))
}

// The words at two places as a pair of a grid.
fn pair_at(words: &[i64], column_at: usize, row_at: usize) -> Option<GridPair> {
    Some(GridPair {
        column: argument_at(words, column_at)?,
        row: argument_at(words, row_at)?,
    })
}
