// The questions about lists, which are answered by a list of tiles: one set of arguments for all of their kinds, a run that is lent to the call, and the answer laid out from the run.

#![tactic(auto)]

mod digest;

ghost use Rattle.std.specs.Prelude.{Some};
ghost use Rattle.questions.specs.Answers.{Takes};

use digest::digest_of;
use hexes::{Direction, Refusal, Tile};
use questions::answer::{Laid, lay_entries, lay_head, put, whole};
use questions::arguments::{argument_at, tile_at};

// How many words the question of a list takes, the kind included.
const TOOK: usize = 8;

// How many entries a run that is lent has at most.
const ROOM: usize = 65536;

// What every entry of a run holds before the call.
const UNTOUCHED: i32 = -7;

// How many entries a run has at most that is answered entry by entry; a longer one is answered by its digest.
const BY_ENTRY: usize = 400;

// The arguments: K x y first last direction sense room. `direction` is the vertex where the kind asks for one.
#[derive(Clone, Copy, Debug, PartialEq, Eq)]
struct ListQuestion {
    centre: Tile,
    first: u32,
    last: u32,
    direction: u32,
    sense: u32,
    room: u32,
}

// Asks the question of a list that the words begin with, and lays out its answer.
pub fn answered(kind: u32, words: &[i64], numbers: &mut [i64]) -> Option<Laid>
    ensures { Takes 8 result }
{
    let question = arguments(words)?;
    let mut run = [UNTOUCHED; ROOM];
    let lent = run.get_mut(..question.room as usize)?;
    let answer = listed(kind, question, lent)?;
    Some(laid(answer, lent, numbers))
}

// The seven words after the kind.
fn arguments(words: &[i64]) -> Option<ListQuestion> {
    Some(ListQuestion {
        centre: tile_at(words, 1, 2)?,
        first: argument_at(words, 3)?,
        last: argument_at(words, 4)?,
        direction: argument_at(words, 5)?,
        sense: argument_at(words, 6)?,
        room: argument_at(words, 7)?,
    })
}

// The call of each kind: 10 ring, 11 edge of a ring, 12 wedge, 13 corner wedge, 14 spiral.
// An argument that the kind does not hand on must be written as it must be: a ring and an edge have one range, and a corner wedge has no sense.
fn listed(kind: u32, question: ListQuestion, run: &mut [i32]) -> Option<Result<u32, Refusal>> {
    let ListQuestion {
        centre,
        first,
        last,
        direction,
        sense,
        room: _,
    } = question;
    // The kinds are numbers of the file format, and are matched here alone.
    match kind {
        10 | 11 if first != last => None,
        13 if sense != 0 => None,
        10 => Some(rings::ring(centre, first, Direction(direction), sense, run)),
        11 => Some(rings::ring_edge(centre, first, direction, sense, run)),
        12 => Some(rings::wedge(centre, first, last, direction, sense, run)),
        13 => Some(rings::corner_wedge(centre, first, last, Direction(direction), run)),
        _ => Some(rings::spiral(centre, first, last, Direction(direction), sense, run)),
    }
}

// Lays out the answer: the refusal number, the number of tiles, and the run, or its digest where the run is long.
fn laid(answer: Result<u32, Refusal>, run: &[i32], numbers: &mut [i64]) -> Laid
    ensures { Takes 8 (Some result) }
{
    lay_head(answer, numbers);
    if run.len() > BY_ENTRY {
        put(numbers, 2, whole(digest_of(run)));
        return Laid {
            took: TOOK,
            length: 3,
        };
    }
    lay_entries(run, 2, numbers);
    Laid {
        took: TOOK,
        length: run.len() + 2,
    }
}
