// Things one behind the other, in room of a fixed size.

ghost use Rattle.std.specs.Prelude.{◌≡◌, ◌≤◌, List, [], take};
ghost use Rattle.text.specs.Rows.{Pushed};

use std::marker::Model;

// A row is seen as the list of the things in it: the first `count` of `items`.
#[derive(Drop)]
pub struct Row<T, const N: usize> {
    items: [T; N],
    count: usize,
}

impl<T, const N: usize> Model for Row<T, N> {
    ghost Value = { List T };

    ghost view = { λ row. take row.count row.items };

    ghost invariant = { λ row. row.count ≤ N };
}

impl<T: Copy, const N: usize> Row<T, N> {
    // An empty row. The room behind the things that are in it holds `blank`.
    pub fn new(blank: T) -> Self
        ensures { result ≡ [] }
    {
        Row {
            items: [blank; N],
            count: 0,
        }
    }

    // Puts a thing behind the others, where there is room for it, and says whether there was.
    pub fn push(&mut self, item: T) -> bool
        ensures { Pushed N item self.old result self.new }
    {
        if self.count >= N {
            return false;
        }
        self.items[self.count] = item;
        self.count += 1;
        true
    }

    // Takes everything out.
    pub fn clear(&mut self)
        ensures { self.new ≡ [] }
    {
        self.count = 0;
    }

    // What is in the row.
    pub fn as_slice(&self) -> &[T]
        ensures { result.now ≡ self.now }
    {
        &self.items[..self.count]
    }
}
