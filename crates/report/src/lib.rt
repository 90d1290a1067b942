// What the listing says of a step: its bench with clock, phase and place, and who holds.
#![tactic(auto)]

ghost use Rattle.std.specs.Prelude.{◌≡◌, true, eqb, ◌<◌, ◌≤◌, length, Some};
ghost use Rattle.std.specs.Option.{option_map, IfSome};
ghost use Rattle.lamport.specs.Steps.{actor as actor_of};
ghost use Rattle.lamport.specs.Table.{phase_number};
ghost use Rattle.words.specs.Places.{most};
ghost use Rattle.words.specs.View.{view};
ghost use Rattle.words.specs.WellFormed.{well_formed};
ghost use Rattle.listing.specs.Write.{five_digits};
ghost use Rattle.listing.specs.Record.{record_text};
ghost use Rattle.report.specs.Report.{earlier, place_of, place_cell, holder_cell, unless_two, record_of};

mod few;

use few::Few;
use lamport::{Phase, Refusal, Step, actor, comes_before, request_of};
use listing::Record;
use words::numbers::Bench;
use words::{Words, clock, phase_word, queue};

// q has an entry in p's queue, and it comes before p's own.
fn is_earlier(t: &Few, p: Bench, q: Bench) -> bool
    ensures { result ≡ earlier (view t.now.words.now) p.number q.number }
{
    let queue = queue(t.words, p);
    let other = request_of(queue, q.number);
    other.stamp != 0 && comes_before(other, request_of(queue, p.number))
}

// One plus the number of entries in p's queue before its own.
fn place(t: &Few, p: Bench) -> usize
    ensures value { result ≡ place_of (view t.now.words.now) p.number }
    ensures digit { result ≤ 9 }
{
    1 + (0..t.benches())
        .filter(|q| is_earlier(t, p, Bench::new(*q)))
        .count()
}

// p is in that phase.
fn is_in(t: &Few, p: Bench, phase: Phase) -> bool
    ensures { result ≡ eqb ((view t.now.words.now).phase p.number) (phase_number phase) }
{
    phase_word(t.words, p) == phase as u32
}

// The place of a bench that waits.
#[tactic(auto, unfolding(crate::specs::Report::place_cell))]
fn place_cell(t: &Few, p: Bench) -> Option<usize>
    ensures value { result ≡ place_cell (view t.now.words.now) p.number }
    ensures digit { IfSome result (λ x. x ≤ 9) }
{
    if is_in(t, p, Phase::Waiting) {
        Some(place(t, p))
    } else {
        None
    }
}

// The lowest bench that holds.
fn holder(t: &Few) -> Option<usize>
    ensures value { result ≡ holder_cell (view t.now.words.now) }
    ensures digit { IfSome result (λ x. x ≤ 9) }
{
    (0..t.benches()).find(|q| is_in(t, Bench::new(*q), Phase::Holding))
}

// The bench that the line is about, unless the answer, given by its number, is that there is none.
fn bench_shown(no: u32, s: Step) -> Option<Bench>
    requires present { (no ≡ 2 → ⊥) → actor_of s < most }
    ensures { option_map (λ p. p.number) result ≡ unless_two no (Some (actor_of s)) }
{
    (no != Refusal::NoSuchBench as u32).then(|| Bench::new(actor(s)))
}

// The line for the k-th step, s, from the table after it. Its answer is given by its number, and the words need not be well formed: so `exact` promises.
#[tactic(auto, unfolding(crate::specs::Report::record_of))]
pub fn record_of(words: &Words, k: usize, no: u32, s: Step) -> Record
    requires few { (view words.now).benches ≤ most }
    requires present { (no ≡ 2 → ⊥) → actor_of s < most }
    ensures exact { result ≡ record_of k no s (view words.now) }
    ensures short { well_formed words.now ≡ true → ((no ≡ 2 → ⊥) → actor_of s < (view words.now).benches) → k < five_digits → no < 10 → length (record_text result) ≤ 32 }
{
    let t = &Few { words };
    let holder = holder(t);
    let Some(p) = bench_shown(no, s) else {
        return Record {
            step: k,
            answer: no as usize,
            bench: None,
            clock: None,
            phase: None,
            place: None,
            holder,
        };
    };
    Record {
        step: k,
        answer: no as usize,
        bench: Some(p.number),
        clock: Some(clock(words, p) as usize),
        phase: Some(phase_word(words, p) as usize),
        place: place_cell(t, p),
        holder,
    }
}
