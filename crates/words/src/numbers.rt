// Bench numbers and channel numbers, which a table has words for: two types, so that none is taken for the other. Two benches stay two arguments: at each function the pair means something else.

ghost use Rattle.std.specs.Prelude.{◌≡◌, ◌<◌, ◌*◌};
ghost use Rattle.words.specs.Places.{most, chan};

use crate::MOST;

// A bench number that a table has room for, whether or not there is such a bench in it.
#[derive(Clone, Copy, PartialEq, Eq)]
pub struct Bench {
    pub number: usize,
    ghost low: { number < most },
}

impl Bench {
    pub fn new(number: usize) -> Bench
        requires { number < most }
        ensures { result.number ≡ number }
    {
        Bench { number }
    }
}

// The channel from one bench to another, by its place among all of them.
#[derive(Clone, Copy)]
pub struct Channel {
    pub number: usize,
    ghost low: { number < most * most },
}

impl Channel {
    pub fn new(number: usize) -> Channel
        requires { number < most * most }
        ensures { result.number ≡ number }
    {
        Channel { number }
    }

    pub fn between(p: Bench, q: Bench) -> Channel
        ensures { result.number ≡ chan p.number q.number }
    {
        Channel {
            number: p.number * MOST + q.number,
        }
    }
}
