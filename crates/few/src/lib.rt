// Lists of at most eight items.
#![tactic(auto)]

ghost use Rattle.std.specs.Prelude.{◌≡◌, ◌<◌, [], ◌∷◌, ◌++◌, ◌≤◌, length};

use std::marker::Model;

// A list of at most eight items: so many of the array's, from its start.
#[derive(Drop)]
pub struct Few<T> {
    items: [T; 8],
    count: usize,
}

impl<T> Model for Few<T> {
    ghost use Rattle.std.specs.Prelude.{◌≤◌, List, take};

    ghost Value = { List T };

    ghost view = { λ l. take l.count l.items };

    ghost invariant = { λ l. l.count ≤ 8 };
}

impl<T: Copy> Few<T> {
    // The empty list. The array is filled with an item that is never read.
    pub fn new(filler: T) -> Few<T>
        ensures { result ≡ [] }
    {
        Few {
            items: [filler; 8],
            count: 0,
        }
    }

    // Adds an item at the end.
    pub fn push(&mut self, item: T)
        requires { length self.old < 8 }
        ensures { self.new ≡ self.old ++ item ∷ [] }
    {
        self.items[self.count] = item;
        self.count += 1;
    }

    // The items of the list.
    pub fn as_slice(&self) -> &[T]
        ensures are { result.now ≡ self.now }
        ensures few { length self.now ≤ 8 }
    {
        &self.items[..self.count]
    }
}
