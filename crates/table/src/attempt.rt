// A step that is tried on a table which has its benches: whether the rules refuse it.

ghost use Rattle.std.specs.Prelude.{◌≡◌, false, length};
ghost use Rattle.lamport.specs.Steps.{actor as actor_of};
ghost use Rattle.lamport.specs.Refusals.{outside, not_admitted, nothing_there, not_yet, no_room, clock_then};
ghost use Rattle.words.specs.View.{view};

use crate::{any_full, may_enter, no_reply};
use lamport::{Step, actor, admits, clock_after, lc1};
use words::numbers::Bench;
use words::tables::Table;
use words::{clock, count, oldest, phase};

#[derive(Clone, Copy)]
pub struct Attempt<'a> {
    pub table: Table<'a>,
    pub step: Step,
    ghost inside: { outside (view table.words.now) step ≡ false },
}

impl Attempt<'_> {
    // The bench that the step is an event of.
    fn bench(&self) -> Bench
        ensures { result.number ≡ actor_of self.now.step }
    {
        Bench::new(actor(self.step))
    }

    // 4: the phase doesn't admit the step.
    pub fn is_not_admitted(&self) -> bool
        ensures { result ≡ not_admitted (view self.now.table.words.now) self.now.step }
    {
        !admits(self.step, phase(&self.table, self.bench()))
    }

    // 5: carry on an empty channel.
    pub fn has_nothing(&self) -> bool
        ensures { result ≡ nothing_there (view self.now.table.words.now) self.now.step }
    {
        match self.step {
            Step::Carry(p, _) => count(self.table.words, Bench::new(p), self.bench()) == 0,
            Step::Ask(_) | Step::Enter(_) | Step::Leave(_) | Step::Mark(_) => false,
        }
    }

    // 6: enter, and the entry rule isn't met.
    pub fn is_not_yet(&self) -> bool
        ensures { result ≡ not_yet (view self.now.table.words.now) self.now.step }
    {
        match self.step {
            Step::Enter(_) => !may_enter(&self.table, self.bench()),
            Step::Ask(_) | Step::Carry(_, _) | Step::Leave(_) | Step::Mark(_) => false,
        }
    }

    // 7: a message must be sent on a channel already at capacity.
    pub fn has_no_room(&self) -> bool
        requires something { nothing_there (view self.now.table.words.now) self.now.step ≡ false }
        ensures { result ≡ no_room (view self.now.table.words.now) self.now.step }
    {
        match self.step {
            Step::Ask(_) | Step::Leave(_) => any_full(&self.table, self.bench()),
            Step::Carry(p, _) => no_reply(&self.table, Bench::new(p), self.bench()),
            Step::Enter(_) | Step::Mark(_) => false,
        }
    }

    // What the clock of the step's bench would be, were the step done.
    pub fn clock_then(&self) -> usize
        requires something { nothing_there (view self.now.table.words.now) self.now.step ≡ false }
        ensures { result ≡ clock_then (view self.now.table.words.now) self.now.step }
    {
        let t = self.table.words;
        let bench = self.bench();
        let clock = clock(t, bench);
        match self.step {
            Step::Carry(p, _) => clock_after(clock, oldest(t, Bench::new(p), bench)),
            Step::Ask(_) | Step::Enter(_) | Step::Leave(_) | Step::Mark(_) => lc1(clock),
        }
    }
}
