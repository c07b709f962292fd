// The questions about tables over a map: the riding range, which fills a table, and the totals check, which judges one.
// The words after the kind are the same in both: the map, which is x and y of its centre and its radius; x and y of the start; the budget; how many efforts and how many totals the
// tables have; and the efforts. The totals check has the totals too. The lengths are words of their own, so that tables of a wrong length can be asked about.

#![tactic(auto)]

ghost use Rattle.std.specs.Prelude.{◌+◌, length, Some};
ghost use Rattle.questions.specs.Answers.{Says};
ghost use Rattle.range_questions.specs.Taking.{TakesOf, TakesTables};

use field_of_movement::Fault;
use hexes::Tile;
use questions::answer::{Laid, lay_entries, put, told};
use questions::arguments::{argument_at, tile_at};
use questions::entries::read_entries;
use storage::{Index, Map};

// How many words stand before the efforts, the kind included.
const HEAD: usize = 9;

// How many entries a table has at most.
const ROOM: usize = 1024;

// What every entry of the totals holds before the riding range is asked for.
const UNTOUCHED: u32 = 7777;

// The arguments before the tables.
#[derive(Clone, Copy, Debug, PartialEq, Eq)]
struct TableQuestion {
    map: Map,
    start: Tile,
    budget: u32,
}

// Asks the question of a table that the words begin with, and lays out its answer.
// Tables of the lengths that it names are lent to it, unless one has more entries than there is room for.
pub fn answered(kind: u32, words: &[i64], numbers: &mut [i64]) -> Option<Laid>
    ensures { TakesTables kind words.now result }
{
    let effort_count = argument_at::<u32>(words, 7)? as usize;
    let total_count = argument_at::<u32>(words, 8)? as usize;
    let mut efforts = [0u16; ROOM];
    let mut totals = [UNTOUCHED; ROOM];
    laid(
        kind,
        words,
        efforts.get_mut(..effort_count)?,
        totals.get_mut(..total_count)?,
        numbers,
    )
}

// Reads the arguments and the efforts, and asks what the kind says: 30 the riding range, 31 the totals check.
fn laid(
    kind: u32,
    words: &[i64],
    efforts: &mut [u16],
    totals: &mut [u32],
    numbers: &mut [i64],
) -> Option<Laid>
    ensures { TakesOf kind (length efforts.old) (length totals.old) result }
{
    let question = arguments(words)?;
    if !read_entries(words, HEAD, efforts) {
        return None;
    }
    // The kinds are numbers of the file format, and are matched here alone.
    match kind {
        30 => Some(riding_range(question, efforts, totals, numbers)),
        31 => totals_check(question, words, efforts, totals, numbers),
        _ => None,
    }
}

// The words between the kind and the lengths of the tables. A map is read here as for each kind that has one: `questions` lies below `storage`, and cannot.
fn arguments(words: &[i64]) -> Option<TableQuestion> {
    Some(TableQuestion {
        map: Map {
            centre: tile_at(words, 1, 2)?,
            radius: argument_at(words, 3)?,
        },
        start: tile_at(words, 4, 5)?,
        budget: argument_at(words, 6)?,
    })
}

// 30 map x y budget efforts totals effort.. | refusal total..
fn riding_range(
    question: TableQuestion,
    efforts: &[u16],
    totals: &mut [u32],
    numbers: &mut [i64],
) -> Laid
    ensures { Says (9 + length efforts.now) (length totals.old + 1) (Some result) }
{
    let TableQuestion { map, start, budget } = question;
    let answer = field_of_movement::riding_range(map, efforts, start, budget, totals);
    let (number, ()) = told(answer, ());
    put(numbers, 0, number);
    lay_entries(totals, 1, numbers);
    Laid {
        took: HEAD + efforts.len(),
        length: totals.len() + 1,
    }
}

// 31 map x y budget efforts totals effort.. total.. | refusal index
fn totals_check(
    question: TableQuestion,
    words: &[i64],
    efforts: &[u16],
    totals: &mut [u32],
    numbers: &mut [i64],
) -> Option<Laid>
    ensures { Says (9 + length efforts.now + length totals.old) 2 result }
{
    if !read_entries(words, HEAD + efforts.len(), totals) {
        return None;
    }
    let TableQuestion { map, start, budget } = question;
    let verdict = field_of_movement::check_totals(map, efforts, start, budget, totals);
    let number = verdict.map_or_else(Fault::number, |()| 0);
    let broken = match verdict {
        Err(Fault::NotRight(index)) => index,
        _ => Index(0),
    };
    put(numbers, 0, i64::from(number));
    put(numbers, 1, i64::from(broken.0));
    Some(Laid {
        took: HEAD + efforts.len() + totals.len(),
        length: 2,
    })
}
