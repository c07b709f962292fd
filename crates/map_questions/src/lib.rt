// The questions about maps: for each kind, which arguments its words are, which call of `storage` it makes, and which numbers its answer is.
// The three words after the kind are the map in every question: the x and y of its centre, and its radius.

#![tactic(auto)]

ghost use Rattle.questions.specs.Answers.{Lays};

use hexes::{Direction, Refusal};
use questions::answer::{Answer, Laid, lay, tile_answer, told};
use questions::arguments::{argument_at, tile_at};
use storage::{Index, Map, RowColumn};

// Asks the question of a map that the words begin with, and lays out its answer.
pub fn answered(kind: u32, words: &[i64], numbers: &mut [i64]) -> Option<Laid>
    ensures { Lays numbers.old result numbers.new }
{
    lay(asked(kind, words), numbers)
}

// The answer of each kind. The map of the question is read first: no kind goes without one.
fn asked(kind: u32, words: &[i64]) -> Option<Answer> {
    let map = map_of(words)?;
    // The kinds are numbers of the file format, and are matched here alone.
    match kind {
        20 => Some(refusal(map)),
        21 => is_of_map(map, words),
        22 => to_index(map, words),
        23 => from_index(map, words),
        24 => to_row_column(map, words),
        25 => from_row_column(map, words),
        26 => neighbor(map, words),
        27 => Some(Answer::one(4, i64::from(storage::area(map)))),
        28 => all_neighbors(map, words),
        _ => None,
    }
}

// The words after the kind as a map.
fn map_of(words: &[i64]) -> Option<Map> {
    Some(Map {
        centre: tile_at(words, 1, 2)?,
        radius: argument_at(words, 3)?,
    })
}

// 20 map | refusal, 0 for none
fn refusal(map: Map) -> Answer {
    let number = storage::refusal_of(map).map_or(0, |refusal| i64::from(refusal.number()));
    Answer::one(4, number)
}

// 21 map x y | 1 for a tile of the map, else 0
fn is_of_map(map: Map, words: &[i64]) -> Option<Answer> {
    let tile = tile_at(words, 4, 5)?;
    Some(Answer::one(6, i64::from(storage::is_of_map(map, tile))))
}

// 22 map x y | refusal index
fn to_index(map: Map, words: &[i64]) -> Option<Answer> {
    let tile = tile_at(words, 4, 5)?;
    Some(index_answer(storage::to_hexmod_coordinates(map, tile)))
}

// 23 map index | refusal x y
fn from_index(map: Map, words: &[i64]) -> Option<Answer> {
    let index = Index(argument_at(words, 4)?);
    Some(tile_answer(5, storage::from_hexmod_coordinates(map, index)))
}

// 24 map x y | refusal row column
fn to_row_column(map: Map, words: &[i64]) -> Option<Answer> {
    let tile = tile_at(words, 4, 5)?;
    let (number, at) = told(
        storage::to_row_column(map, tile),
        RowColumn { row: 0, column: 0 },
    );
    Some(Answer::three(6, number, i64::from(at.row), i64::from(at.column)))
}

// 25 map row column | refusal x y
fn from_row_column(map: Map, words: &[i64]) -> Option<Answer> {
    let at = RowColumn {
        row: argument_at(words, 4)?,
        column: argument_at(words, 5)?,
    };
    Some(tile_answer(6, storage::from_row_column(map, at)))
}

// 26 map index direction | refusal index
fn neighbor(map: Map, words: &[i64]) -> Option<Answer> {
    let index = Index(argument_at(words, 4)?);
    let direction = Direction(argument_at(words, 5)?);
    Some(index_answer(storage::neighbor(map, index, direction)))
}

// 28 map index direction | entry of the row of six, -1 for none
fn all_neighbors(map: Map, words: &[i64]) -> Option<Answer> {
    let index = Index(argument_at(words, 4)?);
    let direction: u32 = argument_at(words, 5)?;
    let entries = storage::all_neighbors(map, index);
    let entry = entries[(direction % 6) as usize].map_or(-1, |beside| i64::from(beside.0));
    Some(Answer::one(6, entry))
}

// An index, or a refusal, as numbers. Both questions that it answers take six words.
fn index_answer(answer: Result<Index, Refusal>) -> Answer {
    let (number, index) = told(answer, Index(0));
    Answer::two(6, number, i64::from(index.0))
}
