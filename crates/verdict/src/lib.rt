// Two lines of readings as text: whether the event of the first could have influenced that of the second.
#![tactic(auto)]

ghost use Rattle.std.specs.Prelude.{◌≡◌, ◌≤◌, length};
ghost use Rattle.std.specs.Option.{option_map, option_and_then};
ghost use Rattle.listing.specs.Write.{Wrote};
ghost use Rattle.schedule.specs.Number.{number_of};
ghost use Rattle.schedule.specs.Parts.{lf, tab, parts};
ghost use Rattle.schedule.specs.Schedule.{bad_line};
ghost use Rattle.verdict.specs.Reading.{numbers_of, counts_of, reading_of, with_number, numbers_kept, reading_kept};
ghost use Rattle.verdict.specs.Shown.{shown};
ghost use Rattle.verdict.specs.Verdict.{on_reading, reading_then, reading_in, verdict_of};

use lamport::answer_number;
use schedule::{Refused, bad_line};
use stamps::{Comparison, MOST, Stamp};

// The step number, the bench and its clock come before the counts.
const BEFORE_COUNTS: usize = 3;

const MOST_FIELDS: usize = BEFORE_COUNTS + MOST;

// A number has ten digits at most, and each has a tab or the LF behind it.
pub const LONGEST_LINE: usize = MOST_FIELDS * 11;

// ---- a line

// The numbers that the fields of a line are, with zeros behind them.
#[derive(Clone, Copy)]
struct Numbers {
    many: usize,
    all: [u32; MOST_FIELDS],
}

// The numbers, and that of one field more. `None` where the field is no number, or there is no room.
#[tactic(auto, unfolding(crate::specs::Reading::with_number))]
fn with_field(numbers: Numbers, field: &[u8]) -> Option<Numbers>
    ensures { result ≡ with_number numbers (number_of field.now) }
{
    let x = schedule::number_of(field)?;
    if numbers.many >= MOST_FIELDS {
        return None;
    }
    let mut all = numbers.all;
    all[numbers.many] = x;
    Some(Numbers {
        many: numbers.many + 1,
        all,
    })
}

// The numbers that the fields of a line are. `None` where one is no number, and where they are too many.
#[tactic(auto, using(crate::proofs::Fields::gathering, crate::proofs::Fields::gathered_all, schedule::proofs::PartsLaws::length_cut))]
fn numbers_of(line: &[u8]) -> Option<Numbers>
    ensures { result ≡ option_and_then numbers_kept (numbers_of (parts tab line.now)) }
{
    let mut numbers = Numbers {
        many: 0,
        all: [0; MOST_FIELDS],
    };
    let mut rest = line;
    while let Some((field, after)) = schedule::cut_field(rest) {
        numbers = with_field(numbers, field)?;
        rest = after;
    }
    with_field(numbers, rest)
}

// What a line of readings says of its event: how many benches the table has, and a count for each.
#[derive(Clone, Copy)]
struct Reading {
    benches: usize,
    counts: Stamp,
}

// What the numbers of a line say of its event.
fn counts_of(numbers: &[u32]) -> Option<Reading>
    ensures { result ≡ option_map reading_kept (counts_of numbers.now) }
{
    let [step, bench, _clock, counts @ ..] = numbers else {
        return None;
    };
    if *step == 0 || counts.len() <= *bench as usize || counts.len() > MOST {
        return None;
    }
    let mut stamp = [0; MOST];
    stamp[..counts.len()].copy_from_slice(counts);
    Some(Reading {
        benches: counts.len(),
        counts: stamp,
    })
}

// What a line says, its LF taken off.
fn reading_of(line: &[u8]) -> Option<Reading>
    ensures { result ≡ option_map reading_kept (reading_of line.now) }
{
    let Numbers { many, all } = numbers_of(line)?;
    counts_of(&all[..many])
}

// ---- two lines

// What the first line of a text says, and what follows its LF. Where it is bad, it is line `number`.
#[tactic(auto, using(crate::proofs::Opened::opening))]
fn first_reading(text: &[u8], number: usize) -> Result<(Reading, &[u8]), Refused>
    ensures { reading_in result ≡ on_reading (parts lf text.now) reading_then (bad_line number) }
{
    let Some((line, rest)) = schedule::cut_line(text) else {
        return Err(bad_line(number));
    };
    let Some(reading) = reading_of(line) else {
        return Err(bad_line(number));
    };
    Ok((reading, rest))
}

// What is said of the event of the first line, or the earliest line that is bad.
pub fn judge(text: &[u8]) -> Result<Comparison, Refused>
    ensures { result ≡ verdict_of text.now }
{
    let (first, rest) = first_reading(text, 1)?;
    let (second, rest) = first_reading(rest, 2)?;
    if second.benches != first.benches {
        return Err(bad_line(2));
    }
    if !rest.is_empty() {
        return Err(bad_line(3));
    }
    Ok(stamps::compare(&first.counts, &second.counts))
}

// ---- what is printed

// Room for what is printed, whichever line is bad.
pub const ROOM: usize = 50;

// Writes what is printed of a verdict over the front of `out`.
#[tactic(auto, unfolding(crate::specs::Shown::shown))]
pub fn put_verdict(out: &mut [u8], verdict: Result<Comparison, Refused>) -> usize
    requires room { ROOM ≤ length out.old }
    ensures text { Wrote (shown verdict) result out.old out.new }
    ensures within { result ≤ length out.new }
{
    match verdict {
        Ok(Comparison::Before) => listing::put_word(out, b"before\n"),
        Ok(Comparison::After) => listing::put_word(out, b"after\n"),
        Ok(Comparison::Same) => listing::put_word(out, b"same\n"),
        Ok(Comparison::Neither) => listing::put_word(out, b"neither\n"),
        Err(r) => listing::put_refused(out, answer_number(Err(r.refusal)) as usize, r.line),
    }
}
