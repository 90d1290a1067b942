// Executes step cases at the limits of each rule, and steps on damaged tables, and prints each answer with a digest of the words and one of the counts after it.
#![tactic(auto)]

use counted::{Lent, counts_of, step};
use lamport::{Setup, Step, answer_number};
use std::io;
use vectors::{FIRST_SLOT, ROWS, Rows};
use words::{
    BENCHES, CAPACITY, CHANNEL, CLOCKS, COUNTS, ENTRIES, HEARD, KINDS, LAST, MOST, PHASES, SLOT,
    SLOTS, STAMPS, WORDS, Words,
};

const LIMIT: u32 = u32::MAX;

// ---- a digest of all words, so that a change of any one of them shows

fn mixed(digest: u64, word: u32) -> u64 {
    (digest % 4294967291 * 31 + word as u64) % 4294967291
}

fn digest(words: &Words) -> u64 {
    words.iter().fold(7, |d, word| mixed(d, *word))
}

fn row_digest(digest: u64, row: &[u32]) -> u64 {
    row.iter().fold(digest, |d, count| mixed(d, *count))
}

fn counts_digest(counts: &Rows) -> u64 {
    counts.iter().fold(7, |d, row| row_digest(d, row))
}

// ---- cases from a fresh table

fn setup(benches: u32, capacity: u32, start: u32) -> Setup {
    Setup {
        benches,
        capacity,
        start,
    }
}

// The answer to the sizes, the answers to the steps, bench 0's clock and the digest.
fn case(rt: &impl Print, name: &str, setup: Setup, steps: &[Step]) -> io::Result<()> {
    let mut lent = Lent {
        words: [1; WORDS],
        counts: [[1; MOST]; ROWS],
    };
    let made = answer_number(counted::fresh(&mut lent, setup));
    print!(rt; "{name}: {made}")?;
    for s in steps {
        let answer = answer_number(step(&mut lent, *s));
        print!(rt; " {answer}")?;
    }
    let clock = lent.words[CLOCKS];
    let d = digest(&lent.words);
    let e = counts_digest(&lent.counts);
    println!(rt; "  clock {clock}  words {d}  counts {e}")
}

fn sizes(rt: &impl Print) -> io::Result<()> {
    case(rt, "n = 0", setup(0, 4, 0), &[Step::Mark(0)])?;
    case(rt, "n = 9", setup(9, 4, 0), &[Step::Mark(0)])?;
    case(rt, "n = 8, capacity 16", setup(8, 16, 0), &[Step::Mark(7)])?;
    case(
        rt,
        "n = 8, capacity 16, mark 8",
        setup(8, 16, 0),
        &[Step::Mark(8)],
    )?;
    case(rt, "capacity 17", setup(2, 17, 0), &[Step::Mark(0)])?;
    case(rt, "capacity 0", setup(2, 0, 0), &[Step::Mark(0)])?;
    case(rt, "start 4294967295", setup(1, 1, LIMIT), &[Step::Ask(0)])
}

fn steps(rt: &impl Print) -> io::Result<()> {
    case(
        rt,
        "n = 1: ask 0, enter 0",
        setup(1, 4, 0),
        &[Step::Ask(0), Step::Enter(0)],
    )?;
    case(
        rt,
        "capacity 1: ask 0, ask 1, carry 0 1",
        setup(2, 1, 0),
        &[Step::Ask(0), Step::Ask(1), Step::Carry(0, 1)],
    )?;
    case(
        rt,
        "capacity 1: ask, carry, carry, enter, leave, ask",
        setup(2, 1, 0),
        &[
            Step::Ask(0),
            Step::Carry(0, 1),
            Step::Carry(1, 0),
            Step::Enter(0),
            Step::Leave(0),
            Step::Ask(0),
        ],
    )?;
    case(
        rt,
        "start 4294967294: mark 0 twice",
        setup(2, 4, LIMIT - 1),
        &[Step::Mark(0), Step::Mark(0)],
    )?;
    case(
        rt,
        "start 4294967293: ask 0, carry 0 1",
        setup(2, 4, LIMIT - 2),
        &[Step::Ask(0), Step::Carry(0, 1)],
    )?;
    case(
        rt,
        "start 4294967292: ask 0, carry 0 1",
        setup(2, 4, LIMIT - 3),
        &[Step::Ask(0), Step::Carry(0, 1)],
    )?;
    case(rt, "carry 2 2", setup(2, 4, 0), &[Step::Carry(2, 2)])?;
    case(rt, "carry 0 2", setup(2, 4, 0), &[Step::Carry(0, 2)])?;
    case(rt, "carry 0 0", setup(2, 4, 0), &[Step::Carry(0, 0)])?;
    case(rt, "carry 0 1", setup(2, 4, 0), &[Step::Carry(0, 1)])?;
    case(
        rt,
        "start 4294967294: ask 0 twice",
        setup(2, 4, LIMIT - 1),
        &[Step::Ask(0), Step::Ask(0)],
    )?;
    case(
        rt,
        "enter 0, leave 0 from idle",
        setup(2, 4, 0),
        &[Step::Enter(0), Step::Leave(0)],
    )
}

// A whole run of two benches.
fn whole_run(rt: &impl Print) -> io::Result<()> {
    case(
        rt,
        "the whole run",
        setup(2, 4, 0),
        &[
            Step::Ask(0),
            Step::Ask(1),
            Step::Enter(0),
            Step::Carry(0, 1),
            Step::Carry(1, 0),
            Step::Enter(0),
            Step::Carry(1, 0),
            Step::Enter(0),
            Step::Enter(1),
            Step::Leave(0),
            Step::Carry(0, 1),
            Step::Carry(0, 1),
            Step::Enter(1),
            Step::Ask(2),
            Step::Leave(1),
        ],
    )
}

// ---- damaged tables

fn zero() -> Lent {
    Lent {
        words: [0; WORDS],
        counts: [[0; MOST]; ROWS],
    }
}

fn fresh(benches: u32, capacity: u32, start: u32) -> Lent {
    let mut lent = zero();
    let _ = counted::fresh(&mut lent, setup(benches, capacity, start));
    lent
}

// A table of 3 benches, capacity 2: bench 0 holds, bench 1 waits and bench 2 is idle. A request is on the way from 1 to 2, an acknowledgement from 0 to 1.
fn reached() -> Lent {
    let mut lent = fresh(3, 2, 5);
    for s in [
        Step::Ask(0),
        Step::Carry(0, 1),
        Step::Carry(0, 2),
        Step::Carry(1, 0),
        Step::Carry(2, 0),
        Step::Enter(0),
        Step::Ask(1),
        Step::Carry(1, 0),
    ] {
        let _ = step(&mut lent, s);
    }
    lent
}

// A word of the table, and what is put there.
#[derive(Clone, Copy)]
struct Change {
    place: usize,
    word: u32,
}

fn put(place: usize, word: u32) -> Change {
    Change { place, word }
}

// Whether a step of each kind leaves every word and every count as it was.
fn tried(rt: &impl Print, name: &str, lent: &mut Lent) -> io::Result<()> {
    print!(rt; "{name}:")?;
    let before = (digest(&lent.words), counts_digest(&lent.counts));
    for s in [
        Step::Ask(2),
        Step::Carry(1, 2),
        Step::Enter(1),
        Step::Leave(0),
        Step::Mark(0),
    ] {
        let answer = answer_number(step(lent, s));
        print!(rt; " {answer}")?;
    }
    let after = (digest(&lent.words), counts_digest(&lent.counts));
    let left = if after == before {
        "as it was"
    } else {
        "changed"
    };
    println!(rt; "  {left}  words {}  counts {}", after.0, after.1)
}

fn damaged(rt: &impl Print, name: &str, table: &Lent, changes: &[Change]) -> io::Result<()> {
    let mut lent = *table;
    for change in changes {
        if let Some(word) = lent.words.get_mut(change.place) {
            *word = change.word;
        }
    }
    tried(rt, name, &mut lent)
}

// Each table below that is answered 1 breaks one clause of "well formed" and no other.
fn damaged_sizes(rt: &impl Print) -> io::Result<()> {
    let zero = zero();
    let fresh = fresh(8, 4, 0);
    damaged(
        rt,
        "one bench, all else zero",
        &zero,
        &[put(BENCHES, 1), put(CAPACITY, 1)],
    )?;
    damaged(rt, "no bench", &zero, &[put(CAPACITY, 1)])?;
    damaged(rt, "nine benches", &fresh, &[put(BENCHES, 9)])?;
    damaged(rt, "capacity 0", &fresh, &[put(CAPACITY, 0)])?;
    damaged(rt, "capacity 17", &fresh, &[put(CAPACITY, 17)])
}

fn damaged_benches(rt: &impl Print) -> io::Result<()> {
    let table = reached();
    let (own_0, own_1, own_2) = (ENTRIES, ENTRIES + MOST + 1, ENTRIES + 2 * MOST + 2);
    damaged(rt, "not damaged", &table, &[])?;
    damaged(rt, "phase 3", &table, &[put(PHASES, 3)])?;
    damaged(
        rt,
        "own entry missing at a holder",
        &table,
        &[put(own_0, 0)],
    )?;
    damaged(
        rt,
        "own entry missing at a waiter",
        &table,
        &[put(own_1, 0)],
    )?;
    damaged(rt, "own entry of an idle bench", &table, &[put(own_2, 9)])?;
    damaged(
        rt,
        "a waiting bench made idle",
        &table,
        &[put(PHASES + 1, 0)],
    )?;
    damaged(
        rt,
        "clock at an absent bench",
        &table,
        &[put(CLOCKS + 3, 1)],
    )?;
    damaged(
        rt,
        "phase at an absent bench",
        &table,
        &[put(PHASES + 7, 1)],
    )
}

fn damaged_pairs(rt: &impl Print) -> io::Result<()> {
    let table = reached();
    let absent = 3;
    damaged(
        rt,
        "entry at an absent bench",
        &table,
        &[put(ENTRIES + absent * MOST, 1)],
    )?;
    damaged(
        rt,
        "entry for an absent bench",
        &table,
        &[put(ENTRIES + absent, 1)],
    )?;
    damaged(
        rt,
        "entry of an absent bench for itself",
        &table,
        &[put(ENTRIES + absent * MOST + absent, 1)],
    )?;
    damaged(
        rt,
        "heard at an absent bench",
        &table,
        &[put(HEARD + absent * MOST, 1)],
    )?;
    damaged(
        rt,
        "heard from an absent bench",
        &table,
        &[put(HEARD + absent, 1)],
    )?;
    damaged(rt, "heard from itself", &table, &[put(HEARD + MOST + 1, 1)])
}

fn damaged_channels(rt: &impl Print) -> io::Result<()> {
    let table = reached();
    let mut two_sent = table;
    let _ = step(&mut two_sent, Step::Leave(0));
    let absent = 3;
    damaged(rt, "two messages, capacity 2", &two_sent, &[])?;
    damaged(
        rt,
        "two messages, capacity 1",
        &two_sent,
        &[put(CAPACITY, 1)],
    )?;
    damaged(
        rt,
        "three messages, capacity 2",
        &two_sent,
        &[put(COUNTS + 1, 3), put(STAMPS + CHANNEL + 2 * SLOT, 9)],
    )?;
    damaged(rt, "one message, capacity 1", &table, &[put(CAPACITY, 1)])?;
    damaged(
        rt,
        "message from an absent bench",
        &table,
        &[
            put(COUNTS + absent * MOST, 1),
            put(STAMPS + absent * MOST * CHANNEL, 5),
        ],
    )?;
    damaged(
        rt,
        "message to an absent bench",
        &table,
        &[put(COUNTS + absent, 1), put(STAMPS + absent * CHANNEL, 5)],
    )?;
    damaged(
        rt,
        "message to itself",
        &table,
        &[put(COUNTS, 1), put(STAMPS, 5)],
    )
}

fn damaged_slots(rt: &impl Print) -> io::Result<()> {
    let table = reached();
    let from_1_to_2 = (MOST + 2) * CHANNEL;
    damaged(
        rt,
        "a kind that is not named",
        &table,
        &[put(KINDS + from_1_to_2, 3)],
    )?;
    damaged(
        rt,
        "another kind that is named",
        &table,
        &[put(KINDS + from_1_to_2, 2)],
    )?;
    damaged(
        rt,
        "a message with stamp 0",
        &table,
        &[put(STAMPS + from_1_to_2, 0)],
    )?;
    damaged(
        rt,
        "a kind in an unused slot",
        &table,
        &[put(KINDS + from_1_to_2 + SLOT, 1)],
    )?;
    damaged(
        rt,
        "a stamp in an unused slot",
        &table,
        &[put(STAMPS + from_1_to_2 + SLOT, 1)],
    )?;
    damaged(
        rt,
        "a stamp in the last slot",
        &table,
        &[put(STAMPS + from_1_to_2 + LAST * SLOT, 1)],
    )?;
    damaged(
        rt,
        "a channel shorter than its messages",
        &table,
        &[put(COUNTS + MOST + 2, 0)],
    )?;
    damaged(
        rt,
        "a stamp in a bench's channel to itself",
        &table,
        &[put(STAMPS, 1)],
    )?;
    damaged(
        rt,
        "a stamp in an absent bench's channel",
        &table,
        &[put(WORDS - 1, 1)],
    )
}

// ---- damaged counts

// A count of the table, and what is put there.
fn damaged_count(rt: &impl Print, name: &str, row: usize, bench: usize) -> io::Result<()> {
    let mut lent = reached();
    if let Some(counts) = lent.counts.get_mut(row) {
        counts[bench % MOST] = 1;
    }
    tried(rt, name, &mut lent)
}

fn damaged_counts(rt: &impl Print) -> io::Result<()> {
    let absent = 3;
    let from_1_to_2 = FIRST_SLOT + (MOST + 2) * SLOTS;
    damaged_count(rt, "a count of a bench that is there", 0, 2)?;
    damaged_count(rt, "a count at an absent bench", absent, 0)?;
    damaged_count(rt, "a count for an absent bench", 0, absent)?;
    damaged_count(rt, "a message brings a count", from_1_to_2, 0)?;
    damaged_count(
        rt,
        "a message brings one for an absent bench",
        from_1_to_2,
        7,
    )?;
    damaged_count(rt, "a count in an unused slot", from_1_to_2 + 1, 0)?;
    damaged_count(rt, "a count in the last slot", from_1_to_2 + LAST, 0)?;
    damaged_count(rt, "a count in a bench's channel to itself", FIRST_SLOT, 0)?;
    damaged_count(rt, "a count in an absent bench's channel", ROWS - 1, 7)
}

// ---- 8 by a count: a table set by hand, since none that is reached has such a count

// Two benches; bench 1 has asked, and the own count of bench 0 is as given. A mark of bench 0, the carry of the request to it, and a mark again.
fn spent(rt: &impl Print, name: &str, own: u32) -> io::Result<()> {
    let mut lent = fresh(2, 4, 0);
    let _ = step(&mut lent, Step::Ask(1));
    lent.counts[0][0] = own;
    print!(rt; "{name}:")?;
    for s in [Step::Mark(0), Step::Carry(1, 0), Step::Mark(0)] {
        let answer = answer_number(step(&mut lent, s));
        let count = lent.counts[0][0];
        print!(rt; " {answer} {count}")?;
    }
    let e = counts_digest(&lent.counts);
    println!(rt; "  counts {e}")
}

fn spent_counts(rt: &impl Print) -> io::Result<()> {
    spent(rt, "own count 4294967291", LIMIT - 4)?;
    spent(rt, "own count 4294967292", LIMIT - 3)?;
    spent(rt, "own count 4294967293", LIMIT - 2)?;
    spent(rt, "own count 4294967294", LIMIT - 1)?;
    spent(rt, "own count 4294967295", LIMIT)
}

// ---- a bench's counts are handed out

fn handed(rt: &impl Print, name: &str, lent: &Lent, bench: usize) -> io::Result<()> {
    let mut stamp = [9; MOST];
    let answer = answer_number(counts_of(lent, bench, &mut stamp));
    print!(rt; "{name}: {answer} ")?;
    for count in stamp {
        print!(rt; " {count}")?;
    }
    println!(rt; "")
}

fn handed_counts(rt: &impl Print) -> io::Result<()> {
    let table = reached();
    let mut broken = table;
    broken.counts[ROWS - 1][7] = 1;
    handed(rt, "counts of bench 0", &table, 0)?;
    handed(rt, "counts of bench 1", &table, 1)?;
    handed(rt, "counts of bench 2", &table, 2)?;
    handed(rt, "counts of bench 3 of 3", &table, 3)?;
    handed(rt, "counts of bench 0, a damaged table", &broken, 0)?;
    handed(rt, "counts of bench 3, a damaged table", &broken, 3)?;
    handed(
        rt,
        "counts of bench 18446744073709551615",
        &table,
        usize::MAX,
    )
}

fn main(rt: HostRuntime) -> io::Result<()> {
    sizes(&rt)?;
    steps(&rt)?;
    whole_run(&rt)?;
    damaged_sizes(&rt)?;
    damaged_benches(&rt)?;
    damaged_pairs(&rt)?;
    damaged_channels(&rt)?;
    damaged_slots(&rt)?;
    damaged_counts(&rt)?;
    spent_counts(&rt)?;
    handed_counts(&rt)
}
