// The words of a table: a fresh one, whether a step is refused, and what a step stores.
#![tactic(auto)]

ghost use Rattle.std.specs.Prelude.{◌≡◌, true, ◌<◌, length};
ghost use Rattle.lamport.specs.Refusals.{outside, may_enter, full, any_full, no_room, answer, answer_number};
ghost use Rattle.words.specs.View.{view};
ghost use Rattle.words.specs.WellFormed.{well_formed};
ghost use Rattle.table.specs.Post.{stored, Made};
ghost use Rattle.table.specs.One.{OneFresh};

mod attempt;

use attempt::Attempt;
use lamport::{Refusal, Setup, Step, actor, is_request, is_to_itself, sizes_ok};
use store::{ask, carry, enter, leave, mark};
use words::numbers::Bench;
use words::tables::Table;
use words::{BENCHES, CAPACITY, WORDS, Words, capacity, count, hearing, oldest, queue};

// The largest clock.
const LIMIT: usize = u32::MAX as usize;

// ---- the numbers for no

// 2: a bench number is n or more.
fn is_outside(t: &Table, s: Step) -> bool
    ensures { result ≡ outside (view t.now.words.now) s }
{
    let n = t.benches();
    match s {
        Step::Carry(p, q) => n <= p || n <= q,
        Step::Ask(p) | Step::Enter(p) | Step::Leave(p) | Step::Mark(p) => n <= p,
    }
}

// The entry rule, for bench p of the table.
fn may_enter(t: &Table, p: Bench) -> bool
    requires present { p.number < (view t.now.words.now).benches }
    ensures { result ≡ may_enter (view t.now.words.now) p.number }
{
    lamport::may_enter(
        t.benches(),
        p.number,
        queue(t.words, p),
        hearing(t.words, p),
    )
}

fn is_full(t: &Table, p: Bench, q: Bench) -> bool
    ensures { result ≡ full (view t.now.words.now) p.number q.number }
{
    capacity(t.words) <= count(t.words, p, q)
}

// One of p's channels is full. All are looked at before anything is sent.
fn any_full(t: &Table, p: Bench) -> bool
    ensures { result ≡ any_full (view t.now.words.now) p.number }
{
    (0..t.benches()).any(|q| q != p.number && is_full(t, p, Bench::new(q)))
}

// q must acknowledge p's request, and its channel to p is full.
fn no_reply(t: &Table, p: Bench, q: Bench) -> bool
    requires something { 0 < length ((view t.now.words.now).messages p.number q.number) }
    ensures { result ≡ no_room (view t.now.words.now) (Step.Carry p.number q.number) }
{
    is_request(oldest(t.words, p, q).kind) && is_full(t, q, p)
}

// The first refusal that applies, in the order of the numbers, or that the step can be done. It only reads.
#[tactic(auto, unfolding(lamport::specs::Refusals::answer))]
pub fn check(t: &Table, s: Step) -> Result<(), Refusal>
    ensures { answer_number result ≡ answer (view t.now.words.now) s }
{
    if is_outside(t, s) {
        return Err(Refusal::NoSuchBench);
    }
    if is_to_itself(s) {
        return Err(Refusal::ToItself);
    }
    let attempt = Attempt { table: *t, step: s };
    if attempt.is_not_admitted() {
        return Err(Refusal::NotAdmitted);
    }
    if attempt.has_nothing() {
        return Err(Refusal::NothingThere);
    }
    if attempt.is_not_yet() {
        return Err(Refusal::NotYet);
    }
    if attempt.has_no_room() {
        return Err(Refusal::ChannelFull);
    }
    // 8: a clock would pass the limit.
    if LIMIT < attempt.clock_then() {
        return Err(Refusal::ClockSpent);
    }
    Ok(())
}

// ---- the step

// Stores what the rules say; between its writes the words are no table. The match names each step, which a table of functions would not.
pub fn apply(words: &mut Words, s: Step)
    requires formed { well_formed words.old ≡ true }
    requires done { answer (view words.old) s ≡ 0 }
    ensures { words.new ≡ stored words.old s }
{
    let bench = Bench::new(actor(s));
    match s {
        Step::Ask(_) => ask(words, bench),
        Step::Carry(p, _) => carry(words, Bench::new(p), bench),
        Step::Enter(_) => enter(words, bench),
        Step::Leave(_) => leave(words, bench),
        Step::Mark(_) => mark(words, bench),
    }
}

// ---- a fresh table

// A fresh table of so many benches; bad sizes leave words that are all zero.
pub fn fresh(words: &mut Words, setup: Setup) -> Result<(), Refusal>
    ensures { Made setup.benches setup.capacity setup.start (answer_number result) words.new }
{
    *words = [0; WORDS];
    if !sizes_ok(setup.benches, setup.capacity) {
        return Err(Refusal::BadSizes);
    }
    words[BENCHES] = setup.benches;
    words[CAPACITY] = setup.capacity;
    store::start(words, setup.benches as usize, setup.start);
    Ok(())
}

// Two outcomes that meet the promise of `fresh` are the same: this does nothing, and has that theorem for its own.
pub fn one_fresh()
    ensures { OneFresh }
{}
