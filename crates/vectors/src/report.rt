// The counts of a run, and the report that it prints.

use crate::answer;
use std::io;

// Every kind has a number below this: as many kinds are counted.
const KINDS: usize = 64;

// How many lines are told one by one: a run that fails everywhere must not bury its totals.
const TELLS: u64 = 10;

// How many vectors of a kind were run, and how many of them differ.
#[derive(Clone, Copy)]
struct Kind {
    ran: u64,
    differed: u64,
}

// What is counted: the lines that have ended, those that were told one by one, those that could not be read, and the vectors of each kind.
#[derive(Drop)]
pub(crate) struct Counts {
    lines: u64,
    told: u64,
    unreadable: u64,
    kinds: [Kind; KINDS],
}

impl Counts {
    // Nothing is counted yet.
    pub(crate) fn new() -> Self {
        Counts {
            lines: 0,
            told: 0,
            unreadable: 0,
            kinds: [Kind {
                ran: 0,
                differed: 0,
            }; KINDS],
        }
    }

    // Counts a line, whatever it holds.
    pub(crate) fn next_line(&mut self) {
        self.lines = self.lines.saturating_add(1);
    }

    // Counts a vector whose answer is the one expected. A kind past the last is not counted.
    pub(crate) fn agrees(&mut self, kind: u32) {
        if let Some(count) = self.kinds.get_mut(kind as usize) {
            count.ran = count.ran.saturating_add(1);
        }
    }

    // Counts a vector whose answer is another one, and tells that answer.
    pub(crate) fn differs(
        &mut self,
        rt: &impl Print,
        kind: u32,
        numbers: &[i64],
    ) -> io::Result<()> {
        self.agrees(kind);
        if let Some(count) = self.kinds.get_mut(kind as usize) {
            count.differed = count.differed.saturating_add(1);
        }
        if self.tells(rt, " differs:")? {
            answer::print(rt, numbers)?;
        }
        Ok(())
    }

    // Counts a line that could not be read.
    pub(crate) fn unreadable(&mut self, rt: &impl Print) -> io::Result<()> {
        self.unreadable = self.unreadable.saturating_add(1);
        self.tells(rt, " unreadable\n")?;
        Ok(())
    }

    // Prints a line for each kind that occurred, in rising order, and the count of what could not be read.
    pub(crate) fn print(&self, rt: &impl Print) -> io::Result<()> {
        for (number, kind) in self.kinds.iter().enumerate() {
            if kind.ran > 0 {
                println!(rt; "kind {number}: {} run, {} differ", kind.ran, kind.differed)?;
            }
        }
        println!(rt; "{} unreadable", self.unreadable)
    }

    // Tells what is wrong with the line, unless enough lines were told, and says whether it did.
    fn tells(&mut self, rt: &impl Print, what: &str) -> io::Result<bool> {
        if self.told >= TELLS {
            return Ok(false);
        }
        self.told += 1;
        print!(rt; "line {}{what}", self.lines)?;
        Ok(true)
    }
}
