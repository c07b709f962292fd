// What a valley's words ask for, from the first word to the last thing told.
// The map is judged as soon as its three words are read: a map that is refused has no number of tiles, so that nothing after it can be read. Everything else is judged once all words are read.

ghost use Rattle.std.specs.Prelude.{◌≤◌, length};
ghost use Rattle.hexes.specs.Limits.{radius_limit};
ghost use Rattle.storage.specs.Maps.{area_of};

use crate::report::Trouble;
use crate::tables::{HEAD, argument_at, tile_at};
use crate::words::Word;
use crate::{report, tables};
use hexes::{Tile, limits};
use std::io;
use storage::Map;

// What is asked: the plan, or the verdict on totals that stand behind the efforts.
#[derive(Clone, Copy, PartialEq, Eq)]
pub(crate) enum Asked {
    Plan,
    Check,
}

// A ride on a map, that begins and ends somewhere and may take so much.
#[derive(Clone, Copy)]
struct Ride {
    map: Map,
    start: Tile,
    end: Tile,
    budget: u32,
}

// Tells what is asked of the words.
pub(crate) fn tell(rt: &impl Print, asked: Asked, words: &[Word]) -> io::Result<()> {
    match head(words) {
        Ok(ride) => with_tables(rt, asked, words, ride),
        Err(trouble) => report::untold(rt, trouble),
    }
}

// Reads what stands before the tables.
fn head(words: &[Word]) -> Result<Ride, Trouble> {
    let map = Map {
        centre: tile_at(words, 0)?,
        radius: argument_at(words, 2)?,
    };
    if let Some(refusal) = storage::refusal_of(map) {
        return Err(Trouble::Refused(refusal));
    }
    Ok(Ride {
        map,
        start: tile_at(words, 3)?,
        end: tile_at(words, 5)?,
        budget: argument_at(words, 7)?,
    })
}

// Lends tables with an entry for each tile, has them read, and tells what is asked.
fn with_tables(rt: &impl Print, asked: Asked, words: &[Word], ride: Ride) -> io::Result<()> {
    let area = storage::area(ride.map) as usize;
    // No map has more tiles, but the area alone does not say so.
    if area > limits::AREA {
        return Ok(());
    }
    let mut efforts = [0u16; limits::AREA];
    let mut totals = [0u32; limits::AREA];
    let efforts = &mut efforts[..area];
    let totals = &mut totals[..area];
    if let Err(trouble) = read(asked, words, efforts, totals) {
        return report::untold(rt, trouble);
    }
    match asked {
        Asked::Plan => planned(rt, ride, efforts, totals),
        Asked::Check => verdict_told(rt, ride, efforts, totals),
    }
}

// Reads the efforts, and of a check the totals too. No word may follow.
fn read(
    asked: Asked,
    words: &[Word],
    efforts: &mut [u16],
    totals: &mut [u32],
) -> Result<(), Trouble> {
    let mut end = tables::read(words, HEAD, efforts)?;
    if asked == Asked::Check {
        end = tables::read(words, end, totals)?;
    }
    tables::end(words, end)
}

// Tells the verdict of the totals check.
fn verdict_told(rt: &impl Print, ride: Ride, efforts: &[u16], totals: &[u32]) -> io::Result<()> {
    let Ride {
        map,
        start,
        budget,
        ..
    } = ride;
    report::verdict(
        rt,
        field_of_movement::check_totals(map, efforts, start, budget, totals),
    )
}

// Tells the plan: the riding range, which is written over the totals, the verdict on it, and the route.
fn planned(rt: &impl Print, ride: Ride, efforts: &[u16], totals: &mut [u32]) -> io::Result<()>
    requires { length efforts.now ≤ area_of radius_limit }
{
    let Ride {
        map,
        start,
        budget,
        ..
    } = ride;
    if let Err(refusal) = field_of_movement::riding_range(map, efforts, start, budget, totals) {
        return report::refused(rt, refusal);
    }
    report::totals(rt, totals)?;
    verdict_told(rt, ride, efforts, totals)?;
    route_told(rt, ride, efforts)
}

// Tells the route. The run that it is written to has room for every tile of the largest map.
fn route_told(rt: &impl Print, ride: Ride, efforts: &[u16]) -> io::Result<()>
    requires { length efforts.now ≤ area_of radius_limit }
{
    let mut ranks = [0u64; limits::AREA];
    let mut run = [0i32; 2 * limits::AREA];
    let answer = pathfinding::route(
        ride.map,
        efforts,
        ride.start,
        ride.end,
        &mut ranks[..efforts.len()],
        &mut run,
    );
    match answer {
        Ok(tiles) => report::route(rt, tiles, &run),
        Err(refusal) => report::refused(rt, refusal),
    }
}
