// What is printed: answers, refusals, and what could not be read.

use field_of_movement::Fault;
use hexes::{Refusal, limits};
use std::io;

// How the program is called.
pub(crate) fn usage(rt: &impl Print) -> io::Result<()> {
    println!(rt; "usage: valley [check], with the valley on standard input")
}

// Why a valley is not told: a word that cannot be read, by its place from 0 on, or a refusal.
#[derive(Clone, Copy)]
pub(crate) enum Trouble {
    Unreadable(usize),
    Refused(Refusal),
}

// `unreadable` and the number of the word, from 1 on; or `refused` and the number of the refusal.
pub(crate) fn untold(rt: &impl Print, trouble: Trouble) -> io::Result<()> {
    match trouble {
        Trouble::Unreadable(at) => println!(rt; "unreadable {}", at.saturating_add(1)),
        Trouble::Refused(refusal) => refused(rt, refusal),
    }
}

// `refused` and the number of the refusal.
pub(crate) fn refused(rt: &impl Print, refusal: Refusal) -> io::Result<()> {
    println!(rt; "refused {refusal}")
}

// The verdict of the totals check: `check accepted`; or the refusal, with the index at which the neighbour rule is broken where it is one of the totals.
pub(crate) fn verdict(rt: &impl Print, verdict: Result<(), Fault>) -> io::Result<()> {
    match verdict {
        Ok(()) => println!(rt; "check accepted"),
        Err(fault) => println!(rt; "refused {fault}"),
    }
}

// `totals`, and each of them on its own line.
pub(crate) fn totals(rt: &impl Print, totals: &[u32]) -> io::Result<()> {
    println!(rt; "totals")?;
    for it in totals {
        total(rt, *it)?;
    }
    Ok(())
}

// One total, `-` for no way.
fn total(rt: &impl Print, total: u32) -> io::Result<()> {
    if total == limits::NO_WAY {
        println!(rt; "-")
    } else {
        println!(rt; "{total}")
    }
}

// `route` and its number of tiles, and x and y of each on its own line, from the run that holds them.
pub(crate) fn route(rt: &impl Print, tiles: u32, run: &[i32]) -> io::Result<()> {
    println!(rt; "route {tiles}")?;
    for tile in run.chunks_exact(2).take(tiles as usize) {
        println!(rt; "{} {}", tile[0], tile[1])?;
    }
    Ok(())
}
