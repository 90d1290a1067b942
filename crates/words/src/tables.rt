// Words that are known to be a table.

ghost use Rattle.std.specs.Prelude.{◌≡◌, true, ◌≤◌};
ghost use Rattle.words.specs.Places.{most};
ghost use Rattle.words.specs.View.{view};
ghost use Rattle.words.specs.WellFormed.{well_formed};

use crate::{Words, benches};

// A table in words that the caller lends, to be read: what has one needs no scan.
#[derive(Clone, Copy)]
pub struct Table<'a> {
    pub words: &'a Words,
    ghost formed: { well_formed words.now ≡ true },
}

impl Table<'_> {
    pub fn benches(&self) -> usize
        ensures number { result ≡ (view self.now.words.now).benches }
        ensures few { result ≤ most }
    {
        benches(self.words)
    }
}
