// The changes that the five steps make, in place. Each asks for what the refusals have shown before, in clauses: a type that holds it would be false after the first write.
#![tactic(auto)]

ghost use Rattle.std.specs.Prelude.{◌≡◌, ◌<◌, ◌≤◌};
ghost use Rattle.lamport.specs.Each.{up_to};
ghost use Rattle.lamport.specs.Order.{limit};
ghost use Rattle.lamport.specs.Steps.{first};
ghost use Rattle.lamport.specs.Table.{phase_number};
ghost use Rattle.words.specs.Places.{most, slots, last_slot, clock as clock_of, count as count_of, chan};
ghost use Rattle.words.specs.View.{view};
ghost use Rattle.store.specs.Stores.{pushed, sent_to, sent, moved, popped, Room, Carries, acted, asked, left, entered, marked, received, carried, started};

use lamport::{Kind, Message, Phase, clock_after, entry_after, larger};
use words::numbers::{Bench, Channel};
use words::{
    BENCHES, CHANNEL, CLOCKS, COUNTS, ENTRIES, HEARD, KINDS, LAST, MOST, PHASES, SLOT, STAMPS,
    Words, oldest,
};

// ---- channels

// Puts a message on channel c, behind the others.
#[tactic(auto, unfolding(crate::specs::Stores::pushed))]
fn push(t: &mut Words, c: Channel, m: Message)
    requires room { count_of t.old c.number < slots }
    ensures { t.new ≡ pushed t.old c.number m }
{
    let n = t[COUNTS + c.number];
    let slot = c.number * CHANNEL + n as usize * SLOT;
    t[KINDS + slot] = m.kind as u32;
    t[STAMPS + slot] = m.stamp;
    t[COUNTS + c.number] = n + 1;
}

#[tactic(auto, unfolding(crate::specs::Stores::sent_to))]
fn send(t: &mut Words, p: Bench, q: Bench, m: Message)
    requires room { (q.number ≡ p.number → ⊥) → count_of t.old (chan p.number q.number) < slots }
    ensures { t.new ≡ sent_to p.number m q.number t.old }
{
    if q != p {
        push(t, Channel::between(p, q), m);
    }
}

// The same message, with its one stamp, to every other bench.
fn broadcast(t: &mut Words, p: Bench, m: Message)
    requires room { Room t.old p.number }
    ensures { t.new ≡ sent t.old p.number m }
{
    let n = t[BENCHES] as usize;
    for q in 0..n {
        send(t, p, Bench::new(q), m);
    }
}

fn move_up(t: &mut Words, c: Channel, i: usize)
    requires { i < last_slot }
    ensures { t.new ≡ moved c.number i t.old }
{
    let slot = c.number * CHANNEL + i * SLOT;
    let k = t[KINDS + slot + SLOT];
    let s = t[STAMPS + slot + SLOT];
    t[KINDS + slot] = k;
    t[STAMPS + slot] = s;
}

// Takes the oldest message off channel c: all those behind it move up.
fn pop(t: &mut Words, c: Channel)
    requires something { 0 < count_of t.old c.number }
    ensures { t.new ≡ popped t.old c.number }
{
    let n = t[COUNTS + c.number];
    for i in 0..LAST {
        move_up(t, c, i);
    }
    let last = c.number * CHANNEL + LAST * SLOT;
    t[KINDS + last] = 0;
    t[STAMPS + last] = 0;
    t[COUNTS + c.number] = n - 1;
}

// ---- a bench by itself

// An event of p alone: its clock goes up by one, and its phase and its own entry are as given.
#[tactic(auto, unfolding(crate::specs::Stores::acted))]
fn act(t: &mut Words, p: Bench, phase: Phase, own: u32)
    requires not_spent { clock_of t.old p.number < limit }
    ensures { t.new ≡ acted t.old p.number (phase_number phase) own }
{
    t[CLOCKS + p.number] += 1;
    t[PHASES + p.number] = phase as u32;
    t[ENTRIES + p.number * MOST + p.number] = own;
}

// p asks: the clock after the step is the stamp of its request.
pub fn ask(t: &mut Words, p: Bench)
    requires room { Room t.old p.number }
    requires not_spent { clock_of t.old p.number < limit }
    ensures { t.new ≡ asked t.old p.number }
{
    let stamp = t[CLOCKS + p.number] + 1;
    act(t, p, Phase::Waiting, stamp);
    let kind = Kind::Request;
    broadcast(t, p, Message { kind, stamp });
}

pub fn enter(t: &mut Words, p: Bench)
    requires not_spent { clock_of t.old p.number < limit }
    ensures { t.new ≡ entered t.old p.number }
{
    let own = t[ENTRIES + p.number * MOST + p.number];
    act(t, p, Phase::Holding, own);
}

pub fn leave(t: &mut Words, p: Bench)
    requires room { Room t.old p.number }
    requires not_spent { clock_of t.old p.number < limit }
    ensures { t.new ≡ left t.old p.number }
{
    let stamp = t[CLOCKS + p.number] + 1;
    act(t, p, Phase::Idle, 0);
    let kind = Kind::Release;
    broadcast(t, p, Message { kind, stamp });
}

pub fn mark(t: &mut Words, p: Bench)
    requires not_spent { clock_of t.old p.number < limit }
    ensures { t.new ≡ marked t.old p.number }
{
    t[CLOCKS + p.number] += 1;
}

// ---- a message is carried

// q takes m, the oldest message from p: q's clock becomes c, and q has heard and noted m.
#[tactic(auto, unfolding(crate::specs::Stores::received))]
fn receive(t: &mut Words, p: Bench, q: Bench, m: Message, c: u32)
    requires something { 0 < count_of t.old (chan p.number q.number) }
    ensures { t.new ≡ received t.old p.number q.number m c }
{
    let pair = q.number * MOST + p.number;
    let heard = larger(t[HEARD + pair], m.stamp);
    let noted = entry_after(m, t[ENTRIES + pair]);
    pop(t, Channel::between(p, q));
    t[CLOCKS + q.number] = c;
    t[HEARD + pair] = heard;
    t[ENTRIES + pair] = noted;
}

pub fn carry(t: &mut Words, p: Bench, q: Bench)
    requires { Carries t.old p.number q.number }
    ensures { t.new ≡ carried t.old p.number q.number (first ((view t.old).messages p.number q.number)) }
{
    let m = oldest(&*t, p, q);
    let clock = clock_after(t[CLOCKS + q.number], m) as u32;
    receive(t, p, q, m, clock);
    match m.kind {
        // The acknowledgement is an event of its own: its stamp is the clock after both.
        Kind::Request => {
            let kind = Kind::Ack;
            push(t, Channel::between(q, p), Message { kind, stamp: clock });
        }
        Kind::Ack | Kind::Release => {}
    }
}

// ---- a fresh table

pub fn start(t: &mut Words, n: usize, clock: u32)
    requires { n ≤ most }
    ensures { t.new ≡ up_to (started clock) n t.old }
{
    for p in 0..n {
        t[CLOCKS + p] = clock;
    }
}
