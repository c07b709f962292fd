// One vector against the crates: its question is asked, and the answer is compared with the one that the line expects.

use questions::answer::Laid;
use questions::arguments::argument_at;

// What a vector showed, with its kind, and where it differs the answer.
pub(crate) enum Verdict<'a> {
    Agrees(u32),
    Differs(u32, &'a [i64]),
}

// Runs the vector that a line's words are, and lays out the library's answer; none if the line cannot be read.
pub(crate) fn judged<'a>(words: &[i64], numbers: &'a mut [i64]) -> Option<Verdict<'a>> {
    let kind = argument_at(words, 0)?;
    let Laid { took, length } = laid(kind, words, numbers)?;
    let expected = words.get(took..)?;
    let answer = &numbers[..length.min(numbers.len())];
    // An answer that has more numbers than there is room for differs from every one that a line expects.
    if expected.len() == length && expected == answer {
        Some(Verdict::Agrees(kind))
    } else {
        Some(Verdict::Differs(kind, answer))
    }
}

// Asks the question, and lays out its answer: of a list, of a map, of a table over a map, of a route, or of any other kind. The kinds are numbers of the file format.
fn laid(kind: u32, words: &[i64], numbers: &mut [i64]) -> Option<Laid> {
    match kind {
        10..=14 => list_questions::answered(kind, words, numbers),
        20..=29 => map_questions::answered(kind, words, numbers),
        30..=39 => range_questions::answered(kind, words, numbers),
        40..=49 => route_questions::answered(kind, words, numbers),
        _ => tile_questions::answered(kind, words, numbers),
    }
}
