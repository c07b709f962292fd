// From bytes to words. A line of text becomes whole numbers, one byte at a time, so that a word or a line may lie across two blocks of input. The reader of valleys is another
// one: it knows no lines and no comments, and `-` alone is a word of its own; what both need is in `text`.

use text::{Digits, Row};

// How many numbers a line may have.
const WORDS: usize = 2048;

// How far a line has been read.
#[derive(Clone, Copy)]
enum Stage {
    // No byte of the line was read yet: only here does `#` open a comment.
    LineStart,
    // The line is a comment.
    Comment,
    // Something on the line is no number, or does not fit.
    Spoilt,
    // The last byte was white space, or ended a word.
    Between,
    // A minus was read, and its digits are still to come.
    Sign,
    // At least one digit of a word was read.
    Number(Digits),
}

// What a line turned out to be.
pub(crate) enum Line<'a> {
    Skipped,
    Spoilt,
    Words(&'a [i64]),
}

// What is kept from byte to byte: how far the line has been read, and the words of it that are done.
#[derive(Drop)]
pub(crate) struct Reading {
    stage: Stage,
    words: Row<i64, WORDS>,
}

impl Reading {
    // A line of which nothing was read.
    pub(crate) fn new() -> Self {
        Reading {
            stage: Stage::LineStart,
            words: Row::new(0),
        }
    }

    // Begins the next line.
    pub(crate) fn begin_line(&mut self) {
        self.stage = Stage::LineStart;
        self.words.clear();
    }

    // Takes in one more byte. A line feed ends a word as any white space does: what becomes of the line is the caller's.
    pub(crate) fn take(&mut self, byte: u8) {
        let stage = self.stage;
        self.stage = match stage {
            Stage::Comment | Stage::Spoilt => stage,
            _ => self.after(stage, byte),
        };
    }

    // What the line was, once its line feed was taken in. No word is in progress then. A line of white space alone says nothing, as an empty one does.
    pub(crate) fn line(&self) -> Line<'_> {
        match self.stage {
            Stage::Spoilt => Line::Spoilt,
            Stage::Between => of_words(self.words.as_slice()),
            _ => Line::Skipped,
        }
    }

    // How far the line is read with one more byte, unless it is a comment or spoilt. A carriage return is white space, so that both kinds of line end are read.
    fn after(&mut self, stage: Stage, byte: u8) -> Stage {
        match byte {
            b' ' | b'\r' | b'\n' => self.after_space(stage),
            b'0'..=b'9' => after_digit(stage, byte - b'0'),
            b'-' => after_minus(stage),
            b'#' => after_hash(stage),
            _ => Stage::Spoilt,
        }
    }

    // White space ends the word in progress, where there is one. A minus alone is no number.
    fn after_space(&mut self, stage: Stage) -> Stage {
        match stage {
            Stage::Sign => Stage::Spoilt,
            Stage::Number(digits) => self.after_word(digits.value()),
            _ => Stage::Between,
        }
    }

    // Stores the word that has ended. A word that is too large or for which there is no room spoils its line.
    fn after_word(&mut self, word: Option<i64>) -> Stage {
        let Some(number) = word else {
            return Stage::Spoilt;
        };
        if self.words.push(number) {
            Stage::Between
        } else {
            Stage::Spoilt
        }
    }
}

// A line of no words is skipped.
fn of_words(words: &[i64]) -> Line<'_> {
    if words.is_empty() {
        Line::Skipped
    } else {
        Line::Words(words)
    }
}

// A digit goes on with the word in progress, or begins one. A number that 64 bits do not hold spoils the line.
fn after_digit(stage: Stage, digit: u8) -> Stage {
    let before = match stage {
        Stage::Number(digits) => digits,
        Stage::Sign => Digits {
            negative: true,
            magnitude: 0,
        },
        _ => Digits {
            negative: false,
            magnitude: 0,
        },
    };
    before.more(digit).map_or(Stage::Spoilt, Stage::Number)
}

// A minus opens a word. Inside one it spoils the line.
fn after_minus(stage: Stage) -> Stage {
    match stage {
        Stage::LineStart | Stage::Between => Stage::Sign,
        _ => Stage::Spoilt,
    }
}

// `#` opens a comment, at the start of the line alone.
fn after_hash(stage: Stage) -> Stage {
    match stage {
        Stage::LineStart => Stage::Comment,
        _ => Stage::Spoilt,
    }
}
