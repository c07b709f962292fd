// From bytes to words. What stands between white space is a word, read one byte at a time, so that a word may lie across two blocks of input. The reader of vectors is another one: it reads
// lines, has comments, and gives a line up where this one keeps an odd word; what both need is in `text`.

use crate::tables::HEAD;
use hexes::limits;
use text::{Digits, Row};

// How many words there is room for: as many as the longest input has, and one more, so that a word too many is seen.
const ROOM: usize = HEAD + 2 * limits::AREA + 1;

// A word: a number, the size of one behind a minus, `-` alone, or anything else. No field takes a number that 32 bits do not hold, so that such a one is odd, and a word takes eight bytes.
#[derive(Clone, Copy)]
pub(crate) enum Word {
    Number(u32),
    Negative(u32),
    Dash,
    Odd,
}

// What the bytes of the word in progress make so far.
#[derive(Clone, Copy)]
enum Stage {
    // No word is in progress.
    Between,
    // A minus was read, and nothing else.
    Minus,
    // A minus or none, and at least one digit.
    Digits(Digits),
    // What is no number, whatever follows.
    Odd,
}

// The words that are done.
pub(crate) type Words = Row<Word, ROOM>;

// What is kept from byte to byte: the word in progress. The words that are done are lent to it and not kept in it, so that it is small, and what is done with a byte moves nothing else.
#[derive(Clone, Copy)]
pub(crate) struct Reading {
    stage: Stage,
}

impl Reading {
    // No word is in progress.
    pub(crate) fn new() -> Self {
        Reading {
            stage: Stage::Between,
        }
    }

    // Takes in one more byte. Most bytes are digits, so they are asked for first. Both kinds of line end are white space.
    pub(crate) fn take(&mut self, byte: u8, words: &mut Words) {
        if byte.is_ascii_digit() {
            self.stage = after_digit(self.stage, byte - b'0');
            return;
        }
        match byte {
            b' ' | b'\t' | b'\r' | b'\n' => self.end(words),
            b'-' => self.stage = after_minus(self.stage),
            _ => self.stage = Stage::Odd,
        }
    }

    // White space and the end of the input end the word in progress, where there is one. Where there is no room for it, it is dropped: a full row has a word too many already.
    pub(crate) fn end(&mut self, words: &mut Words) {
        if let Some(word) = word_of(self.stage) {
            words.push(word);
            self.stage = Stage::Between;
        }
    }
}

// The word that has been in progress.
fn word_of(stage: Stage) -> Option<Word> {
    match stage {
        Stage::Between => None,
        Stage::Minus => Some(Word::Dash),
        Stage::Digits(digits) => Some(read_number(digits)),
        Stage::Odd => Some(Word::Odd),
    }
}

// The word that digits make: their number, or an odd one where 32 bits do not hold it.
fn read_number(digits: Digits) -> Word {
    match u32::try_from(digits.magnitude) {
        Ok(size) if digits.negative => Word::Negative(size),
        Ok(size) => Word::Number(size),
        Err(_) => Word::Odd,
    }
}

// A digit goes on with the word in progress, or begins one. A number that 64 bits do not hold is beyond every field.
fn after_digit(stage: Stage, digit: u8) -> Stage {
    let before = match stage {
        Stage::Between => Digits {
            negative: false,
            magnitude: 0,
        },
        Stage::Minus => Digits {
            negative: true,
            magnitude: 0,
        },
        Stage::Digits(digits) => digits,
        Stage::Odd => return Stage::Odd,
    };
    before.more(digit).map_or(Stage::Odd, Stage::Digits)
}

// A minus opens a word. Inside one it makes the word no number.
fn after_minus(stage: Stage) -> Stage {
    match stage {
        Stage::Between => Stage::Minus,
        _ => Stage::Odd,
    }
}
