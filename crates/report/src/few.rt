// Words that name no more benches than a table has room for: all that a line of the listing asks of them. A words::tables::Table would ask more.

ghost use Rattle.std.specs.Prelude.{◌≡◌, ◌≤◌};
ghost use Rattle.words.specs.Places.{most};
ghost use Rattle.words.specs.View.{view};

use words::Words;

#[derive(Clone, Copy)]
pub struct Few<'a> {
    pub words: &'a Words,
    ghost few: { (view words.now).benches ≤ most },
}

impl Few<'_> {
    pub fn benches(&self) -> usize
        ensures value { result ≡ (view self.now.words.now).benches }
        ensures room { result ≤ most }
    {
        words::benches(self.words)
    }
}
