// The engine: make a fresh table, take a step on it, and hand out a bench's counts, in the words that the caller lends.
#![tactic(auto)]

ghost use Rattle.std.specs.Prelude.{ℕ, ◌≡◌, ◌≤◌, true};
ghost use Rattle.lamport.specs.Order.{limit};
ghost use Rattle.lamport.specs.Counted.{counts_then};
ghost use Rattle.lamport.specs.Vectors.{counts_after};
ghost use Rattle.lamport.specs.Refusals.{answer, answer_number};
ghost use Rattle.lamport.specs.Steps.{actor as actor_of};
ghost use Rattle.words.specs.View.{view};
ghost use Rattle.words.specs.WellFormed.{well_formed};
ghost use Rattle.vectors.specs.Rows.{counted};
ghost use Rattle.vectors.specs.Stores.{stored_counts};
ghost use Rattle.counted.specs.Post.{lent_ok, Stepped, Made, Handed};
ghost use Rattle.counted.specs.One.{OneOutcome, OneFresh, OneStamp, ZeroIsNone};

use lamport::{Kind, Refusal, Setup, Step, actor, wide};
use stamps::{MOST, Stamp};
use table::{apply, check};
use vectors::{ROWS, Rows, counts_ok, own_count, stamp_of};
use words::numbers::Bench;
use words::tables::Table;
use words::{Words, benches, oldest, well_formed};

// The largest count.
const LIMIT: usize = u32::MAX as usize;

// A table as its caller lends it: its words, and its rows of counts behind them.
#[repr(C)]
#[derive(Clone, Copy)]
pub struct Lent {
    pub words: Words,
    pub counts: Rows,
}

// ---- 8 by a count

// The receiver's own count after a message, whatever the others are: a request's acknowledgement is a second event.
#[tactic(auto, using(crate::proofs::Own::once, crate::proofs::Own::twice))]
fn raised(own: u32, kind: Kind) -> usize
    ensures { (q : ℕ) (v w : ℕ → ℕ) → v q ≡ own → result ≡ counts_after kind q v w q }
{
    let received = wide(own) + 1;
    match kind {
        Kind::Request => received + 1,
        Kind::Ack => received,
        Kind::Release => received,
    }
}

// What the own count of the step's bench would be, were the step done.
fn own_then(t: &Table, counts: &Rows, s: Step) -> usize
    requires done { answer (view t.now.words.now) s ≡ 0 }
    ensures { result ≡ counts_then (counted t.now.words.now counts.now) s (actor_of s) }
{
    let bench = Bench::new(actor(s));
    let own = own_count(counts, bench);
    match s {
        Step::Carry(p, _) => raised(own, oldest(t.words, Bench::new(p), bench).kind),
        Step::Ask(_) | Step::Enter(_) | Step::Leave(_) | Step::Mark(_) => wide(own) + 1,
    }
}

// ---- the step

// Counts the events of the step: as the words stand before it, so before they are changed.
fn count(t: &Words, counts: &mut Rows, s: Step)
    requires formed { well_formed t.now ≡ true }
    requires done { answer (view t.now) s ≡ 0 }
    requires fits { counts_then (counted t.now counts.old) s (actor_of s) ≤ limit }
    ensures { counts.new ≡ stored_counts t.now counts.old s }
{
    let bench = Bench::new(actor(s));
    match s {
        Step::Ask(_) => vectors::send(t, counts, bench),
        Step::Carry(p, _) => vectors::carry(t, counts, Bench::new(p), bench),
        Step::Enter(_) => vectors::tick(counts, bench),
        Step::Leave(_) => vectors::send(t, counts, bench),
        Step::Mark(_) => vectors::tick(counts, bench),
    }
}

// A step on what is known to be a table: nothing is scanned. Nothing is written before the last test has passed.
pub fn step_formed(lent: &mut Lent, s: Step) -> Result<(), Refusal>
    requires { lent_ok lent.old ≡ true }
    ensures { Stepped lent.old s (answer_number result) lent.new }
{
    let table = Table { words: &lent.words };
    check(&table, s)?;
    if LIMIT < own_then(&table, &lent.counts, s) {
        return Err(Refusal::ClockSpent);
    }
    count(&lent.words, &mut lent.counts, s);
    apply(&mut lent.words, s);
    Ok(())
}

// ---- the entry points

// Whether what is lent is a table.
#[tactic(auto, unfolding(crate::specs::Post::lent_ok))]
pub fn is_table(lent: &Lent) -> bool
    ensures { result ≡ lent_ok lent.now }
{
    well_formed(&lent.words) && counts_ok(&lent.words, &lent.counts)
}

// A step on whatever is lent.
#[tactic(auto, using(crate::proofs::Stepping::no_table))]
pub fn step(lent: &mut Lent, s: Step) -> Result<(), Refusal>
    ensures { Stepped lent.old s (answer_number result) lent.new }
{
    if !is_table(&*lent) {
        return Err(Refusal::Malformed);
    }
    step_formed(lent, s)
}

// A fresh table of so many benches; bad sizes leave one that is all zero.
pub fn fresh(lent: &mut Lent, setup: Setup) -> Result<(), Refusal>
    ensures { Made setup.benches setup.capacity setup.start (answer_number result) lent.new }
{
    lent.counts = [[0; MOST]; ROWS];
    table::fresh(&mut lent.words, setup)
}

// The counts of bench p, over the words lent for them: the stamp of its last event, for a host to keep.
#[tactic(auto, using(crate::proofs::Stepping::handed_no_table, crate::proofs::Stepping::handed_outside))]
pub fn counts_of(lent: &Lent, p: usize, stamp: &mut Stamp) -> Result<(), Refusal>
    ensures { Handed lent.now p (answer_number result) stamp.old stamp.new }
{
    if !is_table(lent) {
        return Err(Refusal::Malformed);
    }
    if benches(&lent.words) <= p {
        return Err(Refusal::NoSuchBench);
    }
    *stamp = stamp_of(&lent.counts, Bench::new(p));
    Ok(())
}

// ---- what holds of these promises: the functions do nothing, and each has a theorem for its own

pub fn one_outcome()
    ensures { OneOutcome }
{}

pub fn one_fresh()
    ensures { OneFresh }
{}

pub fn one_stamp()
    ensures { OneStamp }
{}

pub fn zero_is_no_table()
    ensures { ZeroIsNone }
{}
