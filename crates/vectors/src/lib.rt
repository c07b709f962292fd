// Runs vectors of numbers against the crates: each line of standard input asks one question and says the answer that is expected.
// A line holds a kind, the arguments and the answer as whole numbers; `#` opens a comment, and an empty line is skipped.
// A line whose answer is another one is told with the answer that the crates give, so that a question can be asked by leaving the answer out.

#![tactic(auto)]

mod answer;
mod report;
mod verdict;
mod words;

use report::Counts;
use std::io;
use verdict::Verdict;
use words::{Line, Reading};

// How many numbers an answer may have.
const NUMBERS: usize = 2048;

// Reads standard input to its end, runs every vector, and prints the report. A line feed is added, so that a last line without one counts too.
pub fn run(rt: &(impl Input + Print)) -> io::Result<()> {
    let mut reading = Reading::new();
    let mut counts = Counts::new();
    text::input::each_byte(rt, |byte| take(rt, byte, &mut reading, &mut counts))?;
    take(rt, b'\n', &mut reading, &mut counts)?;
    counts.print(rt)
}

// Takes in one byte. A line feed ends a line, whose vector is run there.
fn take(rt: &impl Print, byte: u8, reading: &mut Reading, counts: &mut Counts) -> io::Result<()> {
    reading.take(byte);
    if byte == b'\n' {
        line(rt, reading.line(), counts)?;
        reading.begin_line();
    }
    Ok(())
}

// A line that has ended: its vector is run, unless it has none.
fn line(rt: &impl Print, line: Line<'_>, counts: &mut Counts) -> io::Result<()> {
    counts.next_line();
    match line {
        Line::Skipped => Ok(()),
        Line::Spoilt => counts.unreadable(rt),
        Line::Words(words) => vector(rt, words, counts),
    }
}

// Runs the vector that a line's words are, and counts what it showed.
fn vector(rt: &impl Print, words: &[i64], counts: &mut Counts) -> io::Result<()> {
    let mut answer = [0i64; NUMBERS];
    match verdict::judged(words, &mut answer) {
        Some(Verdict::Agrees(kind)) => {
            counts.agrees(kind);
            Ok(())
        }
        Some(Verdict::Differs(kind, numbers)) => counts.differs(rt, kind, numbers),
        None => counts.unreadable(rt),
    }
}
