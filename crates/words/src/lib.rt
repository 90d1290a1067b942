// A table of benches in 32-bit words that the caller lends: where each reading stands, and whether the words are well formed.
#![tactic(auto)]

ghost use Rattle.std.specs.Prelude.{◌≡◌, ◌&&◌, ◌+◌, ◌*◌, ◌<◌, ◌≤◌, length, get_or};
ghost use Rattle.lamport.specs.Each.{all_below};
ghost use Rattle.lamport.specs.Steps.{first};
ghost use Rattle.lamport.specs.Table.{phase_number};
ghost use Rattle.words.specs.Places.{most, slots, size, kind_of, count as count_of, kind as kind_in, stamp as stamp_in};
ghost use Rattle.words.specs.View.{view, Row};
ghost use Rattle.words.specs.WellFormed.{phase_ok, own_ok, joined, own_entry, bench_ok, link_ok, slot_ok, pair_ok, row_ok, well_formed};

pub mod numbers;
pub mod tables;

use lamport::{Kind, Message, Phase, sizes_ok, wide};
use numbers::{Bench, Channel};
use tables::Table;

// Room for so many benches, for so many messages in a channel, and words for a message and for a channel.
pub const MOST: usize = 8;

pub const SLOTS: usize = 16;

pub const LAST: usize = SLOTS - 1;

pub const SLOT: usize = 2;

pub const CHANNEL: usize = SLOTS * SLOT;

// Where each block of words begins. Bench p has its clock at CLOCKS + p; a pair of benches p, q its words at p * MOST + q.
pub const BENCHES: usize = 0;

pub const CAPACITY: usize = 1;

pub const CLOCKS: usize = 2;

pub const PHASES: usize = CLOCKS + MOST;

pub const ENTRIES: usize = PHASES + MOST;

pub const HEARD: usize = ENTRIES + MOST * MOST;

pub const COUNTS: usize = HEARD + MOST * MOST;

pub const KINDS: usize = COUNTS + MOST * MOST;

pub const STAMPS: usize = KINDS + 1;

pub const WORDS: usize = KINDS + MOST * MOST * CHANNEL;

// The caller lends a table as plain words. Words that are known to be a table, and are only read, are a tables::Table.
pub type Words = [u32; WORDS];

// ---- what a table reads

#[tactic(auto, unfolding(crate::specs::View::view))]
pub fn benches(t: &Words) -> usize
    ensures { result ≡ (view t.now).benches }
{
    wide(t[BENCHES])
}

#[tactic(auto, unfolding(crate::specs::View::view))]
pub fn capacity(t: &Words) -> u32
    ensures { result ≡ (view t.now).capacity }
{
    t[CAPACITY]
}

// The clock of p.
pub fn clock(t: &Words, p: Bench) -> u32
    ensures { result ≡ (view t.now).clock p.number }
{
    t[CLOCKS + p.number]
}

// The phase as its number, also of words that are not well formed.
pub fn phase_word(t: &Words, p: Bench) -> u32
    ensures { result ≡ (view t.now).phase p.number }
{
    t[PHASES + p.number]
}

#[tactic(auto, using(crate::proofs::Named::phase_is_named))]
pub fn phase(t: &Table, p: Bench) -> Phase
    ensures { phase_number result ≡ (view t.now.words.now).phase p.number }
{
    Phase::try_from(phase_word(t.words, p)).unwrap()
}

// The words of p in a block that has a word for each pair of benches.
fn row(t: &Words, block: usize, p: Bench) -> &[u32]
    requires fits { block + most * most ≤ size }
    ensures { Row result.now (λ q. get_or t.now (block + p.number * most + q) 0) }
{
    let words = &t[..];
    let at = block + p.number * MOST;
    &words[at..at + MOST]
}

// p's own queue, and all that p has heard, as rows of the table's own words.
pub fn queue(t: &Words, p: Bench) -> &[u32]
    ensures { Row result.now ((view t.now).entry p.number) }
{
    row(t, ENTRIES, p)
}

pub fn hearing(t: &Words, p: Bench) -> &[u32]
    ensures { Row result.now ((view t.now).heard p.number) }
{
    row(t, HEARD, p)
}

// p's own queue: its entry for q.
pub fn entry(t: &Words, p: Bench, q: Bench) -> u32
    ensures { result ≡ (view t.now).entry p.number q.number }
{
    queue(t, p)[q.number]
}

// The largest stamp that p has heard from q.
pub fn heard(t: &Words, p: Bench, q: Bench) -> u32
    ensures { result ≡ (view t.now).heard p.number q.number }
{
    hearing(t, p)[q.number]
}

// How many messages are on channel c.
pub fn channel_count(t: &Words, c: Channel) -> u32
    ensures { result ≡ count_of t.now c.number }
{
    t[COUNTS + c.number]
}

// How many messages are on p's channel to q.
pub fn count(t: &Words, p: Bench, q: Bench) -> u32
    ensures { result ≡ length ((view t.now).messages p.number q.number) }
{
    channel_count(t, Channel::between(p, q))
}

// A message slot as it stands, well formed or not: so its kind is a word still, which may name none.
#[derive(Clone, Copy)]
struct SlotWords {
    kind: u32,
    stamp: u32,
}

fn slot_at(t: &Words, c: Channel, i: usize) -> SlotWords
    requires { i < slots }
    ensures kind { result.kind ≡ kind_in t.now c.number i }
    ensures stamp { result.stamp ≡ stamp_in t.now c.number i }
{
    SlotWords {
        kind: t[KINDS + c.number * CHANNEL + i * SLOT],
        stamp: t[STAMPS + c.number * CHANNEL + i * SLOT],
    }
}

// The kind that a word reads as, well formed or not.
fn kind_of(code: u32) -> Kind
    ensures { result ≡ kind_of code }
{
    Kind::try_from(code).unwrap_or(Kind::Release)
}

// The oldest message on p's channel to q, which the caller has found not empty: an Option would be tested once more.
pub fn oldest(t: &Words, p: Bench, q: Bench) -> Message
    requires something { 0 < length ((view t.now).messages p.number q.number) }
    ensures { result ≡ first ((view t.now).messages p.number q.number) }
{
    let slot = slot_at(t, Channel::between(p, q), 0);
    Message {
        kind: kind_of(slot.kind),
        stamp: slot.stamp,
    }
}

// ---- well formed

// A slot in use has a kind that is named and a stamp; any other is zero.
fn slot_ok(t: &Words, c: Channel, i: usize) -> bool
    requires { i < slots }
    ensures { result ≡ slot_ok t.now c.number i }
{
    let slot = slot_at(t, c, i);
    if i < channel_count(t, c) as usize {
        return Kind::try_from(slot.kind).is_ok() && 1 <= slot.stamp;
    }
    slot.kind == 0 && slot.stamp == 0
}

fn slots_ok(t: &Words, c: Channel) -> bool
    ensures { result ≡ all_below (slot_ok t.now c.number) slots }
{
    (0..SLOTS).all(|i| slot_ok(t, c, i))
}

// Two different benches, which have a channel and hear each other.
fn are_joined(t: &Words, p: Bench, q: Bench) -> bool
    ensures { result ≡ joined (view t.now) p.number q.number }
{
    let n = benches(t);
    p.number < n && (q.number < n && p != q)
}

fn is_own_entry(t: &Words, p: Bench, q: Bench) -> bool
    ensures { result ≡ own_entry (view t.now) p.number q.number }
{
    p == q && p.number < benches(t)
}

// Between two benches there are no more messages than the capacity; elsewhere there is nothing but a bench's own entry.
#[tactic(auto, unfolding(crate::specs::WellFormed::link_ok))]
fn link_ok(t: &Words, p: Bench, q: Bench) -> bool
    ensures { result ≡ link_ok (view t.now) p.number q.number }
{
    let waiting = count(t, p, q);
    if are_joined(t, p, q) {
        return waiting <= capacity(t);
    }
    waiting == 0 && (heard(t, p, q) == 0 && (is_own_entry(t, p, q) || entry(t, p, q) == 0))
}

#[tactic(auto, unfolding(crate::specs::WellFormed::pair_ok))]
fn pair_ok(t: &Words, p: Bench, q: Bench) -> bool
    ensures { result ≡ pair_ok t.now p.number q.number }
{
    link_ok(t, p, q) && slots_ok(t, Channel::between(p, q))
}

fn pairs_ok(t: &Words, p: Bench) -> bool
    ensures { result ≡ all_below (pair_ok t.now p.number) most }
{
    (0..MOST).all(|q| pair_ok(t, p, Bench::new(q)))
}

// A bench has one of the three phases, and an entry for itself exactly if it isn't idle.
fn present_ok(t: &Words, p: Bench) -> bool
    ensures { result ≡ (phase_ok (view t.now) p.number && own_ok (view t.now) p.number) }
{
    let own = entry(t, p, p);
    match Phase::try_from(phase_word(t, p)) {
        Ok(Phase::Idle) => own == 0,
        Ok(_) => 1 <= own,
        Err(_) => false,
    }
}

#[tactic(auto, unfolding(crate::specs::WellFormed::bench_ok))]
fn bench_ok(t: &Words, p: Bench) -> bool
    ensures { result ≡ bench_ok (view t.now) p.number }
{
    if p.number < benches(t) {
        return present_ok(t, p);
    }
    clock(t, p) == 0 && phase_word(t, p) == 0
}

#[tactic(auto, unfolding(crate::specs::WellFormed::row_ok))]
fn row_ok(t: &Words, p: Bench) -> bool
    ensures { result ≡ row_ok t.now p.number }
{
    bench_ok(t, p) && pairs_ok(t, p)
}

fn rows_ok(t: &Words) -> bool
    ensures { result ≡ all_below (row_ok t.now) most }
{
    (0..MOST).all(|p| row_ok(t, Bench::new(p)))
}

#[tactic(auto, unfolding(crate::specs::WellFormed::well_formed, crate::specs::View::view))]
pub fn well_formed(t: &Words) -> bool
    ensures { result ≡ well_formed t.now }
{
    sizes_ok(t[BENCHES], t[CAPACITY]) && rows_ok(t)
}
