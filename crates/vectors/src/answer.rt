// An answer as a person reads it: its numbers, printed.

use std::io;

// How many numbers of an answer are told: a long one must not bury the report.
const SHOWN: usize = 12;

// Prints the numbers, each after a space, two dots in place of those past the twelfth, and the end of the line.
pub(crate) fn print(rt: &impl Print, numbers: &[i64]) -> io::Result<()> {
    for number in numbers.iter().take(SHOWN) {
        print!(rt; " {number}")?;
    }
    if numbers.len() > SHOWN {
        print!(rt; " ..")?;
    }
    println!(rt; "")
}
