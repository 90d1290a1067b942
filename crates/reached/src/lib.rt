// A table that was reached from a fresh one, which its owner steps: nothing is scanned, and counts never decide.
#![tactic(auto)]

ghost use Rattle.std.specs.Prelude.{◌≡◌, true};
ghost use Rattle.lamport.specs.Counted.{counted_fresh};
ghost use Rattle.lamport.specs.Refusals.{answer_number};
ghost use Rattle.lamport.specs.Table.{sizes_ok};
ghost use Rattle.ahead.specs.Ahead.{Ahead};
ghost use Rattle.counted.specs.Post.{read, lent_ok};
ghost use Rattle.reached.specs.Advanced.{Advanced};

use counted::{Lent, step_formed};
use lamport::{Refusal, Setup, Step};
use stamps::MOST;
use vectors::ROWS;
use words::WORDS;

// What owns its table knows of it between two steps that it is well formed, and that each bench's own count is at most its clock.
#[derive(Drop)]
pub struct Reached {
    pub lent: Lent,
    ghost formed: { lent_ok lent ≡ true },
    ghost ahead: { Ahead (read lent) },
}

// A fresh table, for sizes that are good.
pub fn fresh(setup: Setup) -> Reached
    requires sizes { sizes_ok setup.benches setup.capacity ≡ true }
    ensures { read result.lent ≡ counted_fresh setup.benches setup.capacity setup.start }
{
    let mut lent = Lent {
        words: [0; WORDS],
        counts: [[0; MOST]; ROWS],
    };
    let _ = counted::fresh(&mut lent, setup);
    Reached { lent }
}

pub fn step(t: &mut Reached, s: Step) -> Result<(), Refusal>
    ensures { Advanced t.old.lent s (answer_number result) t.new.lent }
{
    step_formed(&mut t.lent, s)
}
