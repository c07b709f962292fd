// An answer as numbers: what each answer of the library becomes, and how the numbers are laid out in a lent array.

ghost use Rattle.std.specs.Prelude.{◌≡◌, pos, set};
ghost use Rattle.hexes.specs.Answers.{Tells};
ghost use Rattle.questions.specs.Answers.{answered, count, padded, told_of, of_tile, word_of, laid_of, laid_out, laid_from};
ghost use Rattle.questions.specs.declared.answer.Numbers.TheVariants.{One, Two, Three};

use crate::arguments::Number;
use hexes::{Refusal, Tile};

// The numbers of an answer that has at most three.
#[derive(Clone, Copy, Debug, PartialEq, Eq)]
pub enum Numbers {
    One(i64),
    Two(i64, i64),
    Three(i64, i64, i64),
}

// An answer of at most three numbers, with how many words its question took, the kind included.
#[derive(Clone, Copy, Debug, PartialEq, Eq)]
pub struct Answer {
    pub took: usize,
    pub numbers: Numbers,
}

// What is said of an answer that is laid out: how many words its question took, the kind included, and how many numbers it has, also where
// the array has not room for all of them.
#[derive(Clone, Copy, Debug, PartialEq, Eq)]
pub struct Laid {
    pub took: usize,
    pub length: usize,
}

impl Numbers {
    // How many numbers there are.
    fn count(self) -> usize
        ensures { result ≡ count self }
    {
        match self {
            Numbers::One(_) => 1,
            Numbers::Two(_, _) => 2,
            Numbers::Three(_, _, _) => 3,
        }
    }

    // The numbers, and zeros in the places of those that there are not.
    fn padded(self) -> [i64; 3]
        ensures { result ≡ padded self }
    {
        match self {
            Numbers::One(first) => [first, 0, 0],
            Numbers::Two(first, second) => [first, second, 0],
            Numbers::Three(first, second, third) => [first, second, third],
        }
    }
}

impl Answer {
    // An answer of one number.
    pub fn one(took: usize, first: i64) -> Answer
        ensures { result ≡ answered took (One first) }
    {
        Answer {
            took,
            numbers: Numbers::One(first),
        }
    }

    // An answer of two numbers.
    pub fn two(took: usize, first: i64, second: i64) -> Answer
        ensures { result ≡ answered took (Two first second) }
    {
        Answer {
            took,
            numbers: Numbers::Two(first, second),
        }
    }

    // An answer of three numbers.
    pub fn three(took: usize, first: i64, second: i64, third: i64) -> Answer
        ensures { result ≡ answered took (Three first second third) }
    {
        Answer {
            took,
            numbers: Numbers::Three(first, second, third),
        }
    }
}

// The number and the value that an answer tells: 0 and what was found, or the refusal's number and zeros.
pub fn told<T: Copy>(answer: Result<T, Refusal>, zeros: T) -> (i64, T)
    ensures { result ≡ told_of zeros answer }
{
    match answer {
        Ok(value) => (0, value),
        Err(refusal) => (i64::from(refusal.number()), zeros),
    }
}

// A tile, or a refusal, as numbers.
pub fn tile_answer(took: usize, answer: Result<Tile, Refusal>) -> Answer
    ensures { result ≡ of_tile took answer }
{
    let (number, tile) = told(answer, Tile { x: 0, y: 0 });
    Answer::three(took, number, i64::from(tile.x), i64::from(tile.y))
}

// A number that is never negative as a word. One that no word holds becomes -1, which no vector expects, so it is no conversion of the language's.
pub fn whole(number: u64) -> i64
    ensures { result ≡ word_of number }
{
    i64::try_from(number).unwrap_or(-1)
}

// Puts a number at a place of the answer. An answer that has no room for all its numbers differs from every one that a line expects.
pub fn put(numbers: &mut [i64], at: usize, number: i64)
    ensures { numbers.new ≡ set numbers.old at number }
{
    if at < numbers.len() {
        numbers[at] = number;
    }
}

// Lays out an answer: as many of the three numbers as it has are its own.
pub fn lay(asked: Option<Answer>, numbers: &mut [i64]) -> Option<Laid>
    ensures value { result ≡ laid_of asked }
    ensures numbers_after { numbers.new ≡ laid_out asked numbers.old }
{
    let Answer { took, numbers: own } = asked?;
    let [first, second, third] = own.padded();
    put(numbers, 0, first);
    put(numbers, 1, second);
    put(numbers, 2, third);
    Some(Laid {
        took,
        length: own.count(),
    })
}

// Lays out the head of a list's answer: the refusal number and the number of tiles, which is 0 where the list is refused.
pub fn lay_head(answer: Result<u32, Refusal>, numbers: &mut [i64])
    ensures { Tells 0 answer (λ told. numbers.new ≡ set (set numbers.old 0 (pos told.number)) 1 (pos told.value)) }
{
    let (number, tiles) = told(answer, 0);
    put(numbers, 0, number);
    put(numbers, 1, i64::from(tiles));
}

// Lays out every entry of a table or a run, beginning at a place of the answer.
pub fn lay_entries<T: Number>(entries: &[T], from: usize, numbers: &mut [i64])
    ensures { numbers.new ≡ laid_from T.word entries.now from numbers.old }
{
    for (i, entry) in entries.iter().enumerate() {
        put(numbers, from.saturating_add(i), entry.word());
    }
}
