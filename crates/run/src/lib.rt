// A run: reads a schedule of steps, takes them on a fresh table, and writes the listing into the output that is lent.
#![tactic(auto)]

ghost use Rattle.std.specs.Prelude.{◌≡◌, true, ℕ, ◌≤◌, ◌<◌, ◌+◌, ◌*◌, ◌^◌, List, length, IfOk, MatchResult};
ghost use Rattle.lamport.specs.Refusals.{answer_number};
ghost use Rattle.lamport.specs.Table.{sizes_ok, fresh as fresh_of};
ghost use Rattle.words.specs.View.{view};
ghost use Rattle.schedule.specs.Parts.{lf, count as count_of};
ghost use Rattle.listing.specs.Write.{five_digits, Wrote};
ghost use Rattle.run.specs.Listing.{refused_one, records, listing};
ghost use Rattle.run.specs.One.{OneRun, StepsTaken};
ghost use Rattle.run.specs.Run.{Outcome, longest, line_room, run_of, Answers, shown, steps_in, Refuses, Admits, Turned, RanAs};

use lamport::{Refusal, Setup, Step, answer_number};
use reached::Reached;
use schedule::{Line, Refused};

// The longest schedule.
pub const LONGEST: usize = 12288;

// A run's room for each line of the schedule.
pub const LINE_ROOM: usize = 32;

// ---- before the first step

// The setup of a schedule that can be done, and its lines after the header. All refusals are found here.
#[tactic(auto, using(crate::proofs::Whole::admitting))]
pub fn admit(schedule: &[u8], line_room: usize, room: usize) -> Result<(Setup, &[u8]), Refused>
    requires { line_room < 2 ^ 32 }
    ensures { MatchResult result (λ x. Admits line_room schedule.now room x.0 x.1.now) (Refuses line_room schedule.now room) }
{
    if LONGEST < schedule.len() {
        return Err(Refused {
            refusal: Refusal::TooLong,
            line: 0,
        });
    }
    let checked = schedule::check(schedule)?;
    if room < line_room * checked.lines {
        return Err(Refused {
            refusal: Refusal::NoRoom,
            line: 0,
        });
    }
    let Some((_, lines)) = schedule::cut_line(schedule) else {
        unreachable!();
    };
    Ok((checked.setup, lines))
}

// ---- one step

// What a step was answered, and how long its line is.
#[derive(Clone, Copy)]
pub struct Turn {
    pub answer: Result<(), Refusal>,
    pub bytes: usize,
}

// Takes the k-th step, and writes its record over the front of `out`.
fn take_step(t: &mut Reached, k: usize, x: Step, out: &mut [u8]) -> Turn
    requires number { k < five_digits }
    requires room { line_room ≤ length out.old }
    ensures { Turned t.old.lent.words k x result t.new.lent.words out.old out.new }
{
    let answer = reached::step(t, x);
    let r = report::record_of(&t.lent.words, k, answer_number(answer), x);
    Turn {
        answer,
        bytes: listing::put_record(out, r),
    }
}

fn refused_one(answer: Result<(), Refusal>) -> usize
    ensures value { result ≡ refused_one (answer_number answer) }
    ensures digit { result ≤ 1 }
{
    answer.is_err() as usize
}

// ---- the steps of a schedule

// The steps taken, those of them refused, and the bytes written.
#[derive(Clone, Copy)]
pub struct Ran {
    pub taken: usize,
    pub refused: usize,
    pub bytes: usize,
}

// Takes the steps of the lines of the text, at most `budget` of them. Each record goes into the rest that the one before has left.
fn run_lines(text: &[u8], budget: usize, t: &mut Reached, out: &mut [u8]) -> Ran
    requires short { length text.now ≤ longest }
    requires room { line_room * count_of lf text.now ≤ length out.old }
    ensures exact { RanAs (records 1 budget (view t.old.lent.words) (steps_in text.now)) result out.old out.new }
    ensures small { (result.bytes ≤ line_room * count_of lf text.now) × ((result.taken < five_digits) × (result.refused < five_digits)) }
{
    let mut rest = text;
    let mut ran = Ran {
        taken: 0,
        refused: 0,
        bytes: 0,
    };
    // A `for` would count the steps once more: those taken are in the answer.
    while ran.taken < budget {
        let Some((line, after)) = schedule::cut_line(rest) else {
            return ran;
        };
        let Some(Line::Step(x)) = schedule::line_of(line) else {
            return ran;
        };
        let turn = take_step(t, ran.taken + 1, x, &mut out[ran.bytes..]);
        ran.bytes += turn.bytes;
        ran.refused += refused_one(turn.answer);
        ran.taken += 1;
        rest = after;
    }
    ran
}

// ---- the run

// Writes the listing of a run of these lines on a fresh table, with its last line.
fn put_listing(setup: Setup, lines: &[u8], budget: usize, out: &mut [u8]) -> usize
    requires sizes { sizes_ok setup.benches setup.capacity ≡ true }
    requires short { length lines.now ≤ longest }
    requires room { line_room * (count_of lf lines.now + 1) ≤ length out.old }
    ensures { Wrote (listing (records 1 budget (fresh_of setup.benches setup.capacity setup.start) (steps_in lines.now))) result out.old out.new }
{
    let mut t = reached::fresh(setup);
    let ran = run_lines(lines, budget, &mut t, out);
    ran.bytes + listing::put_end(&mut out[ran.bytes..], ran.taken, ran.refused)
}

// Runs the schedule for at most `budget` steps, and writes the listing over the front of `out`. All refusals are found before the first step.
#[tactic(auto, using(crate::proofs::Whole::refused_so))]
pub fn run(schedule: &[u8], budget: usize, out: &mut [u8]) -> Result<usize, Refused>
    ensures { Answers (run_of schedule.now budget (length out.old)) result out.old out.new }
{
    let (setup, lines) = admit(schedule, LINE_ROOM, out.len())?;
    Ok(put_listing(setup, lines, budget, out))
}

// ---- what is printed of an answer

// Leaves the text of what is done, and writes the line that says why over the front of `out` where it is refused.
pub fn put_answer(out: &mut [u8], answer: Result<usize, Refused>) -> usize
    requires room { 50 ≤ length out.old }
    requires done { IfOk answer (λ bytes. bytes ≤ length out.old) }
    ensures text { (o : Outcome) (before : List ℕ) → Answers o answer before out.old → Wrote (shown o) result before out.new }
    ensures within { result ≤ length out.new }
{
    match answer {
        Ok(bytes) => bytes,
        Err(r) => listing::put_refused(out, answer_number(Err(r.refusal)) as usize, r.line),
    }
}

// ---- what holds of this promise: the functions do nothing, and each has a theorem for its own

pub fn one_run()
    ensures { OneRun }
{}

pub fn steps_taken()
    ensures { StepsTaken }
{}
