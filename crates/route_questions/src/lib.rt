// The question about routes: the best route between two tiles of a map, which lists tiles and fills a table of ranks.
// The words after the kind are the map, which is x and y of its centre and its radius; x and y of the start, and of the end; how many efforts and how many ranks the tables have,
// and how many entries the run; and the efforts. The lengths are words of their own, so that tables of a wrong length and runs that are too short can be asked about.

#![tactic(auto)]

mod laying;

ghost use Rattle.std.specs.Prelude.{◌+◌, ◌*◌, length, Some};
ghost use Rattle.questions.specs.Answers.{Says};
ghost use Rattle.route_questions.specs.Taking.{TakesOf, TakesRoute};

use hexes::Tile;
use questions::answer::{Laid, lay_entries, lay_head};
use questions::arguments::{argument_at, tile_at};
use questions::entries::read_entries;
use storage::Map;

// The kind of the question, a number of the file format.
const ROUTE: u32 = 40;

// How many words stand before the efforts, the kind included.
const HEAD: usize = 11;

// How many entries a table, or the run, has at most.
const ROOM: usize = 1024;

// What every entry of the ranks holds before the route is asked for.
const UNRANKED: u64 = 7777;

// What every entry of the run holds before the route is asked for.
const UNTOUCHED: i32 = -7;

// The arguments before the lengths.
#[derive(Clone, Copy, Debug, PartialEq, Eq)]
struct RouteQuestion {
    map: Map,
    start: Tile,
    end: Tile,
}

// Asks the route that the words begin with, and lays out its answer.
// Tables and a run of the lengths that it names are lent to it, unless one has more entries than there is room for.
pub fn answered(kind: u32, words: &[i64], numbers: &mut [i64]) -> Option<Laid>
    ensures { TakesRoute kind words.now result }
{
    if kind != ROUTE {
        return None;
    }
    let effort_count = argument_at::<u32>(words, 8)? as usize;
    let rank_count = argument_at::<u32>(words, 9)? as usize;
    let entry_count = argument_at::<u32>(words, 10)? as usize;
    let mut efforts = [0u16; ROOM];
    let mut ranks = [UNRANKED; ROOM];
    let mut run = [UNTOUCHED; ROOM];
    laid(
        words,
        efforts.get_mut(..effort_count)?,
        ranks.get_mut(..rank_count)?,
        run.get_mut(..entry_count)?,
        numbers,
    )
}

// Reads the arguments and the efforts, and asks.
fn laid(
    words: &[i64],
    efforts: &mut [u16],
    ranks: &mut [u64],
    run: &mut [i32],
    numbers: &mut [i64],
) -> Option<Laid>
    ensures { TakesOf (length efforts.old) (length ranks.old) (length run.old) result }
{
    let question = arguments(words)?;
    if !read_entries(words, HEAD, efforts) {
        return None;
    }
    Some(asked(question, efforts, ranks, run, numbers))
}

// The words between the kind and the lengths. A map is read here as for each kind that has one: `questions` lies below `storage`, and cannot.
fn arguments(words: &[i64]) -> Option<RouteQuestion> {
    Some(RouteQuestion {
        map: Map {
            centre: tile_at(words, 1, 2)?,
            radius: argument_at(words, 3)?,
        },
        start: tile_at(words, 4, 5)?,
        end: tile_at(words, 6, 7)?,
    })
}

// 40 map sx sy ex ey efforts ranks entries effort.. | refusal tiles entry.. rank..
fn asked(
    question: RouteQuestion,
    efforts: &[u16],
    ranks: &mut [u64],
    run: &mut [i32],
    numbers: &mut [i64],
) -> Laid
    ensures { Says (11 + length efforts.now) (2 + length run.old + 2 * length ranks.old) (Some result) }
{
    let RouteQuestion { map, start, end } = question;
    let answer = pathfinding::route(map, efforts, start, end, ranks, run);
    lay_head(answer, numbers);
    lay_entries(run, 2, numbers);
    laying::lay_ranks(ranks, 2 + run.len(), numbers);
    Laid {
        took: HEAD + efforts.len(),
        length: 2 + run.len() + 2 * ranks.len(),
    }
}
