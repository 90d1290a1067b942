// The schedule as text: its lines and their fields, what each line says, and whether the whole can be run.
#![tactic(auto)]

ghost use Rattle.std.specs.Prelude.{◌≡◌, ◌+◌, [], ◌∷◌, Some, Ok, true, MatchOption, IfOk};
ghost use Rattle.lamport.specs.declared.Refusal.TheVariants.{BadLine};
ghost use Rattle.lamport.specs.Table.{sizes_ok};
ghost use Rattle.schedule.specs.Parts.{lf, tab, parts, IsCut, count as count_of};
ghost use Rattle.schedule.specs.Number.{digit_on, begins_ill, number_of};
ghost use Rattle.schedule.specs.Lines.{one_bench, two_benches, header as header_of, reading, line_of};
ghost use Rattle.schedule.specs.Schedule.{SixBytes, check_steps, check_of, setup_in};

use lamport::{Refusal, Setup, Step};

// ---- parts of a text

// A text cut at its first b: what stands before it, and what follows. `None` where the text has no b.
fn cut(text: &[u8], b: u8) -> Option<(&[u8], &[u8])>
    ensures { MatchOption result (parts b text.now ≡ text.now ∷ []) (λ x. IsCut b text.now x.0.now x.1.now) }
{
    let end = text.iter().position(|x| *x == b)?;
    Some((&text[..end], &text[end + 1..]))
}

// The first line of a text without its LF, and what follows the LF. `None` where no LF ends it.
pub fn cut_line(text: &[u8]) -> Option<(&[u8], &[u8])>
    ensures { MatchOption result (parts lf text.now ≡ text.now ∷ []) (λ x. IsCut lf text.now x.0.now x.1.now) }
{
    cut(text, b'\n')
}

// The first field of a line, and what follows its tab: parts of the schedule's own bytes. `None` where no tab ends it.
pub fn cut_field(line: &[u8]) -> Option<(&[u8], &[u8])>
    ensures { MatchOption result (parts tab line.now ≡ line.now ∷ []) (λ x. IsCut tab line.now x.0.now x.1.now) }
{
    cut(line, b'\t')
}

// ---- numbers

// x with the digit b behind it, where it is one and the number still fits.
#[tactic(auto, unfolding(crate::specs::Number::digit_on))]
fn digit_on(x: u32, b: u8) -> Option<u32>
    ensures { result ≡ digit_on (Some x) b }
{
    if !b.is_ascii_digit() {
        return None;
    }
    let y = u64::from(x) * 10 + u64::from(b - b'0');
    u32::try_from(y).ok()
}

// Whether a field begins as no number does: it is empty, or a zero in front is needless.
#[tactic(auto, unfolding(crate::specs::Number::begins_ill))]
fn begins_ill(field: &[u8]) -> bool
    ensures { result ≡ begins_ill field.now }
{
    matches!(field, [] | [b'0', _, ..])
}

// The number that a field is.
#[tactic(auto, using(crate::proofs::NumberLaws::growing), unfolding(crate::specs::Number::number_of))]
pub fn number_of(field: &[u8]) -> Option<u32>
    ensures { result ≡ number_of field.now }
{
    if begins_ill(field) {
        return None;
    }
    let mut x = 0;
    for b in field {
        x = digit_on(x, *b)?;
    }
    Some(x)
}

// ---- lines

// What a line of the schedule says: the header's sizes and start clock, or a step.
#[derive(Clone, Copy)]
pub enum Line {
    Header(Setup),
    Step(Step),
}

#[tactic(auto, using(crate::proofs::WordLaws::same_tells), unfolding(crate::specs::Lines::header))]
fn header(word: &[u8], n: u32, capacity: u32, start: u32) -> Option<Line>
    ensures { result ≡ header_of word.now n capacity start }
{
    match word {
        b"table" => Some(Line::Header(Setup {
            benches: n,
            capacity,
            start,
        })),
        _ => None,
    }
}

#[tactic(auto, using(crate::proofs::WordLaws::same_tells), unfolding(crate::specs::Lines::one_bench))]
fn one_bench(word: &[u8], p: u32) -> Option<Line>
    ensures { result ≡ one_bench word.now p }
{
    let bench = p as usize;
    match word {
        b"ask" => Some(Line::Step(Step::Ask(bench))),
        b"enter" => Some(Line::Step(Step::Enter(bench))),
        b"leave" => Some(Line::Step(Step::Leave(bench))),
        b"mark" => Some(Line::Step(Step::Mark(bench))),
        _ => None,
    }
}

#[tactic(auto, using(crate::proofs::WordLaws::same_tells), unfolding(crate::specs::Lines::two_benches))]
fn two_benches(word: &[u8], p: u32, q: u32) -> Option<Line>
    ensures { result ≡ two_benches word.now p q }
{
    match word {
        b"carry" => Some(Line::Step(Step::Carry(p as usize, q as usize))),
        _ => None,
    }
}

// The line's word is read; `rest` is what follows its tab. The next two go on where more numbers follow.
#[tactic(auto, using(crate::proofs::LineLaws::reading_laws), unfolding(crate::specs::Lines::line_for))]
fn first_number(word: &[u8], rest: &[u8]) -> Option<Line>
    ensures { result ≡ reading word.now [] (parts tab rest.now) }
{
    match cut_field(rest) {
        Some((next, rest)) => second_number(word, number_of(next)?, rest),
        None => one_bench(word, number_of(rest)?),
    }
}

// The line's word and a number are read; `rest` is what follows their tab.
#[tactic(auto, using(crate::proofs::LineLaws::reading_laws), unfolding(crate::specs::Lines::line_for))]
fn second_number(word: &[u8], x: u32, rest: &[u8]) -> Option<Line>
    ensures { result ≡ reading word.now (x ∷ []) (parts tab rest.now) }
{
    match cut_field(rest) {
        Some((next, rest)) => third_number(word, x, number_of(next)?, rest),
        None => two_benches(word, x, number_of(rest)?),
    }
}

// The line's word and two numbers are read: with one number more it can be the header.
#[tactic(auto, using(crate::proofs::LineLaws::reading_laws), unfolding(crate::specs::Lines::line_for))]
fn third_number(word: &[u8], x: u32, y: u32, rest: &[u8]) -> Option<Line>
    ensures { result ≡ reading word.now (x ∷ y ∷ []) (parts tab rest.now) }
{
    match cut_field(rest) {
        Some(_) => None,
        None => header(word, x, y, number_of(rest)?),
    }
}

// What a line says, its LF taken off.
#[tactic(auto, using(crate::proofs::LineLaws::line_laws))]
pub fn line_of(line: &[u8]) -> Option<Line>
    ensures { result ≡ line_of line.now }
{
    let (word, rest) = cut_field(line)?;
    first_number(word, rest)
}

// ---- the schedule

// Why a schedule cannot be run, and the line that is to blame, from 1.
#[derive(Clone, Copy, Debug, PartialEq, Eq)]
pub struct Refused {
    pub refusal: Refusal,
    pub line: usize,
}

pub fn bad_line(line: usize) -> Refused
    ensures refusal { result.refusal ≡ BadLine }
    ensures line { result.line ≡ line }
{
    Refused {
        refusal: Refusal::BadLine,
        line,
    }
}

// The lines after the header, the first of which has the number 2: how many lines there are with the header, or the first that is no step.
#[tactic(auto, using(crate::proofs::ScheduleLaws::checking))]
fn check_steps(text: &[u8]) -> Result<usize, Refused>
    ensures { result ≡ check_steps (Ok (count_of lf text.now + 1)) 2 (parts lf text.now) }
{
    let mut rest = text;
    // No iterator over lines: the loop must know whether an LF ended the last, and the number that it counts is what a refusal gives.
    let mut number = 2;
    while let Some((line, after)) = cut_line(rest) {
        let Some(Line::Step(_)) = line_of(line) else {
            return Err(bad_line(number));
        };
        rest = after;
        number += 1;
    }
    // No LF ends the last line.
    if !rest.is_empty() {
        return Err(bad_line(number));
    }
    Ok(number - 1)
}

// A schedule that can be run: the table that it asks for, and how many lines it has.
#[derive(Clone, Copy)]
pub struct Checked {
    pub setup: Setup,
    pub lines: usize,
}

// Whether the schedule can be run. All that is refused here is found before the first step.
#[tactic(auto, using(crate::proofs::ScheduleLaws::heading, crate::proofs::ScheduleLaws::same_good, crate::proofs::PartsLaws::count_cut))]
pub fn check(schedule: &[u8]) -> Result<Checked, Refused>
    ensures exact { setup_in result ≡ check_of schedule.now }
    ensures sizes { IfOk result (λ c. sizes_ok c.setup.benches c.setup.capacity ≡ true) }
    ensures lines { IfOk result (λ c. c.lines ≡ count_of lf schedule.now) }
{
    // No LF ends the line, as in an empty file.
    let Some((line, rest)) = cut_line(schedule) else {
        return Err(bad_line(1));
    };
    let Some(Line::Header(setup)) = line_of(line) else {
        return Err(bad_line(1));
    };
    if !lamport::sizes_ok(setup.benches, setup.capacity) {
        return Err(Refused {
            refusal: Refusal::BadSizes,
            line: 1,
        });
    }
    let lines = check_steps(rest)?;
    Ok(Checked { setup, lines })
}

// Each line of a good schedule has six bytes at least: this does nothing, and has that theorem for its promise.
pub fn six_bytes_a_line()
    ensures { SixBytes }
{}
