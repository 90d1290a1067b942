// The counts of a table, in rows that the caller lends: where each stands, whether they are well formed, and what a step makes of them.
#![tactic(auto)]

ghost use Rattle.std.specs.Prelude.{◌≡◌, ◌≤◌, ◌<◌, ◌+◌, ◌*◌};
ghost use Rattle.lamport.specs.declared.Step.TheVariants.{Carry};
ghost use Rattle.lamport.specs.Order.{limit};
ghost use Rattle.lamport.specs.Each.{all_below};
ghost use Rattle.lamport.specs.Counted.{counts_then};
ghost use Rattle.lamport.specs.Vectors.{vc1 as vc1_of, vc2 as vc2_of, counts_in};
ghost use Rattle.words.specs.Places.{most, slots, chan, count as count_of};
ghost use Rattle.store.specs.Stores.{Room, Carries};
ghost use Rattle.vectors.specs.Rows.{row, row_of, counts, counted};
ghost use Rattle.vectors.specs.Formed.{zero_from, own_ok, slot_ok, slots_ok, counts_ok};
ghost use Rattle.vectors.specs.Stores.{ticked, merged, attached, attached_to, sent_counts, moved_row, taken_off, answered, carried_counts};

use lamport::{Kind, larger};
use stamps::{MOST, Stamp};
use words::numbers::{Bench, Channel};
use words::{SLOTS, Words, benches, channel_count, count, oldest};

// A row for each bench, then one for each message slot.
pub const FIRST_SLOT: usize = MOST;

pub const ROWS: usize = FIRST_SLOT + MOST * MOST * SLOTS;

pub type Rows = [Stamp; ROWS];

// ---- the two rules

// VC1, of an event of p that is no receipt: its own count goes up by 1.
#[tactic(auto, using(crate::proofs::Row::vc1_row))]
fn vc1(v: &Stamp, p: Bench) -> Stamp
    requires not_spent { counts_in v.now p.number < limit }
    ensures { result ≡ row_of (vc1_of p.number (counts_in v.now)) }
{
    let mut counts = *v;
    counts[p.number] += 1;
    counts
}

// VC2, of the receipt at q of a message that brings w: the maximum of each, but q's own count only goes up by 1.
fn vc2(v: &Stamp, q: Bench, w: &Stamp) -> Stamp
    requires not_spent { counts_in v.now q.number < limit }
    ensures { result ≡ row_of (vc2_of q.number (counts_in v.now) (counts_in w.now)) }
{
    let mut counts = *v;
    for a in 0..MOST {
        counts[a] = larger(counts[a], w[a]);
    }
    counts[q.number] = v[q.number] + 1;
    counts
}

// ---- what stands in the rows

// What p has counted of itself.
#[tactic(auto, using(crate::proofs::Row::counts_at))]
pub fn own_count(rows: &Rows, p: Bench) -> u32
    ensures { result ≡ counts rows.now p.number p.number }
{
    rows[p.number][p.number]
}

// A row has a count for each bench number.
#[tactic(auto, using(crate::proofs::Row::is_its_row))]
fn copied(v: &Stamp) -> Stamp
    ensures { result ≡ row_of (counts_in v.now) }
{
    *v
}

// p's counts.
#[tactic(auto, using(crate::proofs::Row::bench_row))]
pub fn stamp_of(rows: &Rows, p: Bench) -> Stamp
    ensures { result ≡ row_of (counts rows.now p.number) }
{
    copied(&rows[p.number])
}

// ---- an event of one bench

pub fn tick(rows: &mut Rows, p: Bench)
    requires not_spent { counts_in (row rows.old p.number) p.number < limit }
    ensures { rows.new ≡ ticked rows.old p.number }
{
    rows[p.number] = vc1(&rows[p.number], p);
}

// ---- messages are sent

// The message in slot i of channel c brings p's counts.
#[tactic(auto, unfolding(crate::specs::Stores::attached))]
fn attach(rows: &mut Rows, p: Bench, c: Channel, i: usize)
    requires { i < slots }
    ensures { rows.new ≡ attached rows.old p.number c.number i }
{
    rows[FIRST_SLOT + c.number * SLOTS + i] = rows[p.number];
}

// The message that is to join p's channel to q brings p's counts.
#[tactic(auto, unfolding(crate::specs::Stores::attached_to))]
fn attach_to(t: &Words, rows: &mut Rows, p: Bench, q: Bench)
    requires room { (q.number ≡ p.number → ⊥) → count_of t.now (chan p.number q.number) < slots }
    ensures { rows.new ≡ attached_to t.now p.number q.number rows.old }
{
    if q != p {
        let c = Channel::between(p, q);
        attach(rows, p, c, channel_count(t, c) as usize);
    }
}

// An event of p that sends a message to every other bench, as the words stand before it.
pub fn send(t: &Words, rows: &mut Rows, p: Bench)
    requires room { Room t.now p.number }
    requires not_spent { counts_in (row rows.old p.number) p.number < limit }
    ensures { rows.new ≡ sent_counts t.now rows.old p.number }
{
    tick(rows, p);
    for q in 0..benches(t) {
        attach_to(t, rows, p, Bench::new(q));
    }
}

// ---- a message is carried

// The event that q receives the oldest message on channel c.
#[tactic(auto, unfolding(crate::specs::Stores::merged))]
fn merge(rows: &mut Rows, q: Bench, c: Channel)
    requires not_spent { counts_in (row rows.old q.number) q.number < limit }
    ensures { rows.new ≡ merged rows.old q.number c.number }
{
    let brought = &rows[FIRST_SLOT + c.number * SLOTS];
    rows[q.number] = vc2(&rows[q.number], q, brought);
}

#[tactic(auto, unfolding(crate::specs::Stores::moved_row))]
fn move_up(rows: &mut Rows, c: Channel, i: usize)
    requires { i + 1 < slots }
    ensures { rows.new ≡ moved_row c.number i rows.old }
{
    let slot = FIRST_SLOT + c.number * SLOTS + i;
    rows[slot] = rows[slot + 1];
}

// The counts of the oldest of k messages are taken off channel c: the others move up with their messages.
fn take_off(rows: &mut Rows, c: Channel, k: usize)
    requires some { 0 < k }
    requires few { k ≤ slots }
    ensures { rows.new ≡ taken_off rows.old c.number k }
{
    let last = k - 1;
    for i in 0..last {
        move_up(rows, c, i);
    }
    rows[FIRST_SLOT + c.number * SLOTS + last] = [0; MOST];
}

// q takes the oldest message from p, as the words stand before it.
pub fn carry(t: &Words, rows: &mut Rows, p: Bench, q: Bench)
    requires carries { Carries t.now p.number q.number }
    requires few { count_of t.now (chan p.number q.number) ≤ slots }
    requires fits { counts_then (counted t.now rows.old) (Carry p.number q.number) q.number ≤ limit }
    ensures { rows.new ≡ carried_counts t.now rows.old p.number q.number }
{
    let c = Channel::between(p, q);
    merge(rows, q, c);
    take_off(rows, c, channel_count(t, c) as usize);
    match oldest(t, p, q).kind {
        // The acknowledgement is an event of its own, and brings the counts after both.
        Kind::Request => {
            tick(rows, q);
            attach_to(t, rows, q, p);
        }
        Kind::Ack | Kind::Release => {}
    }
}

// ---- well formed

// Whether all counts of a row are zero but those of the first n benches.
fn zero_from(v: &Stamp, n: usize) -> bool
    ensures { result ≡ zero_from n v.now }
{
    (0..MOST).all(|a| a < n || v[a] == 0)
}

// Whether all counts of a row are zero.
fn is_zero(v: &Stamp) -> bool
    ensures { result ≡ zero_from 0 v.now }
{
    *v == [0; MOST]
}

// The row of p: an absent bench has counted nothing.
#[tactic(auto, using(crate::proofs::Formed::own_present, crate::proofs::Formed::own_absent))]
fn own_ok(t: &Words, rows: &Rows, p: Bench) -> bool
    ensures { result ≡ own_ok t.now rows.now p.number }
{
    let n = benches(t);
    if p.number < n {
        return zero_from(&rows[p.number], n);
    }
    is_zero(&rows[p.number])
}

fn owns_ok(t: &Words, rows: &Rows) -> bool
    ensures { result ≡ all_below (own_ok t.now rows.now) most }
{
    (0..MOST).all(|p| own_ok(t, rows, Bench::new(p)))
}

// Slot i of channel c: one that is unused brings nothing.
#[tactic(auto, using(crate::proofs::Formed::slot_used, crate::proofs::Formed::slot_unused))]
fn slot_ok(t: &Words, rows: &Rows, c: Channel, i: usize) -> bool
    requires { i < slots }
    ensures { result ≡ slot_ok t.now rows.now c.number i }
{
    let slot = &rows[FIRST_SLOT + c.number * SLOTS + i];
    if i < channel_count(t, c) as usize {
        return zero_from(slot, benches(t));
    }
    is_zero(slot)
}

fn slots_ok(t: &Words, rows: &Rows, c: Channel) -> bool
    ensures { result ≡ slots_ok t.now rows.now c.number }
{
    (0..SLOTS).all(|i| slot_ok(t, rows, c, i))
}

fn channels_ok(t: &Words, rows: &Rows) -> bool
    ensures { result ≡ all_below (slots_ok t.now rows.now) (most * most) }
{
    (0..MOST * MOST).all(|c| slots_ok(t, rows, Channel::new(c)))
}

// The counts of absent benches and of unused slots are zero.
#[tactic(auto, unfolding(crate::specs::Formed::counts_ok))]
pub fn counts_ok(t: &Words, rows: &Rows) -> bool
    ensures { result ≡ counts_ok t.now rows.now }
{
    owns_ok(t, rows) && channels_ok(t, rows)
}
