// A valley as a person writes it down: a map with the efforts of its tiles, and what the library tells of it. A program over this reads standard input and prints.
// The input has decimal numbers between white space: x and y of the centre and the radius; x and y of the start; x and y of the end; the budget; and the effort of every tile in
// dense-index order, `-` for a tile that is barred. Told is, one item a line, `totals` and the total of every tile, `-` where there is no way; `check accepted`, which the totals
// check says of these totals; and `route` with its number of tiles, and x and y of each.
// With the argument `check` the input goes on with a total of every tile, `-` for no way, and the verdict on them alone is told: `check accepted`, or `refused 9 at` an index.
// What a call refuses is told in place of its answer, as `refused` and the number. What cannot be read is told as `unreadable` and the number of the word, from 1: a word that is no
// number or too large for its field, the first word that is missing, or the first word too many.

#![tactic(auto)]

mod report;
mod ride;
mod tables;
mod words;

use ride::Asked;
use std::env::FillError;
use std::io;
use std::rt::Env;
use words::{Reading, Word, Words};

// Does what the arguments of the program ask for: without one the plan, and with `check` alone the check.
// It takes the runtime itself: a bound on the arguments would bring in all that the toolchain assumes of the environment too, which nothing here asks for.
pub fn run(rt: &HostRuntime) -> io::Result<()> {
    match asked(rt) {
        Some(asked) => told(rt, asked),
        None => report::usage(rt),
    }
}

// What the arguments ask for, if it is anything.
fn asked(rt: &HostRuntime) -> Option<Asked> {
    if !is_given(rt, 1) {
        return Some(Asked::Plan);
    }
    if !is_given(rt, 2) && is_check(rt) {
        return Some(Asked::Check);
    }
    None
}

// Is there an argument with this number?
fn is_given(rt: &HostRuntime, number: usize) -> bool {
    let mut word = [0u8; 8];
    !matches!(rt.arg(number, &mut word), Err(FillError::NotPresent))
}

// Is the first argument `check`?
fn is_check(rt: &HostRuntime) -> bool {
    let mut word = [0u8; 8];
    match rt.arg(1, &mut word) {
        Ok(length) => &word[..length] == b"check".as_slice(),
        Err(_) => false,
    }
}

// Reads standard input to its end, and tells what is asked of it.
fn told(rt: &(impl Input + Print), asked: Asked) -> io::Result<()> {
    // Zeros are the blank that costs least.
    let mut words = Words::new(Word::Number(0));
    let mut reading = Reading::new();
    text::input::each_byte(rt, |byte| {
        reading.take(byte, &mut words);
        Ok(())
    })?;
    reading.end(&mut words);
    ride::tell(rt, asked, words.as_slice())
}
