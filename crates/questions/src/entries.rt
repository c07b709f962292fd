// The entries of a question's table, read from the words of its line into a lent table.

ghost use Rattle.std.specs.Prelude.{◌≡◌, length};
ghost use Rattle.questions.specs.Entries.{all_entries, with_entries};

use crate::arguments::{Number, argument_at};

// Reads an entry for each place of the table, beginning at a place of the line. It says whether every word is there and is an entry.
pub fn read_entries<T: Number>(words: &[i64], from: usize, entries: &mut [T]) -> bool
    ensures value { result ≡ all_entries T.of_word words.now from (length entries.old) }
    ensures entries_after { entries.new ≡ with_entries T.of_word words.now from 0 (length entries.old) entries.old }
{
    for (i, entry) in entries.iter_mut().enumerate() {
        let Some(read) = argument_at(words, from.saturating_add(i)) else {
            return false;
        };
        *entry = read;
    }
    true
}
