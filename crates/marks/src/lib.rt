// The readings of a schedule: takes its steps on a fresh table with counts, and writes a line for each mark that is done.
#![tactic(auto)]

ghost use Rattle.std.specs.Prelude.{◌≡◌, true, ℕ, ◌≤◌, ◌<◌, ◌+◌, ◌*◌, length};
ghost use Rattle.lamport.specs.Counted.{counted_next};
ghost use Rattle.lamport.specs.Refusals.{answer_number};
ghost use Rattle.lamport.specs.Vectors.{counts_in};
ghost use Rattle.words.specs.Places.{most};
ghost use Rattle.counted.specs.Post.{read};
ghost use Rattle.schedule.specs.Parts.{lf, count as count_of};
ghost use Rattle.listing.specs.Record.{fields};
ghost use Rattle.listing.specs.Write.{five_digits, Wrote};
ghost use Rattle.run.specs.Run.{longest, Answers, steps_in};
ghost use Rattle.marks.specs.Reading.{cells as cells_of, reading_text, marked, reading_of, readings_of};
ghost use Rattle.marks.specs.Marks.{line_room, marks_of};

use lamport::{Refusal, Step, wide};
use reached::Reached;
use run::admit;
use schedule::{Line, Refused};
use stamps::{MOST, Stamp};
use vectors::stamp_of;
use words::numbers::Bench;
use words::{benches, clock};

// The room for each line of the schedule.
pub const LINE_ROOM: usize = 128;

// The fields of a line before the counts.
const FRONT: usize = 3;

// ---- one step

// The fields of a line, with a count for each bench that there can be. With no more counts than that the line is within its room.
fn cells(k: usize, p: Bench, clock: u32, counts: &Stamp) -> [Option<usize>; FRONT + MOST]
    requires number { k < five_digits }
    ensures exact { result ≡ cells_of k p.number clock (counts_in counts.now) most }
    ensures short { (n : ℕ) → n ≤ most → length (fields (cells_of k p.number clock (counts_in counts.now) n) lf) ≤ line_room }
{
    let mut cells = [None; FRONT + MOST];
    cells[0] = Some(k);
    cells[1] = Some(p.number);
    cells[2] = Some(wide(clock));
    for q in 0..MOST {
        cells[FRONT + q] = Some(wide(counts[q]));
    }
    cells
}

// The line of p after the k-th step.
fn put_reading(t: &Reached, k: usize, p: Bench, out: &mut [u8]) -> usize
    requires number { k < five_digits }
    requires room { line_room ≤ length out.old }
    ensures wrote { Wrote (reading_text k p.number (read t.now.lent)) result out.old out.new }
    ensures short { result ≤ line_room }
{
    let words = &t.lent.words;
    let counts = stamp_of(&t.lent.counts, p);
    let cells = cells(k, p, clock(words, p), &counts);
    listing::put_fields(out, &cells[..FRONT + benches(words)], b'\n')
}

// The bench of a mark that is done.
fn marked(answer: Result<(), Refusal>, x: Step) -> Option<usize>
    ensures { result ≡ marked (answer_number answer) x }
{
    match (answer, x) {
        (Ok(()), Step::Mark(p)) => Some(p),
        _ => None,
    }
}

// Takes the k-th step, and writes what it adds over the front of `out`.
fn take_step(t: &mut Reached, k: usize, x: Step, out: &mut [u8]) -> usize
    requires number { k < five_digits }
    requires room { line_room ≤ length out.old }
    ensures next { read t.new.lent ≡ counted_next (read t.old.lent) x }
    ensures wrote { Wrote (reading_of k (read t.old.lent) x) result out.old out.new }
    ensures short { result ≤ line_room }
{
    let answer = reached::step(t, x);
    match marked(answer, x) {
        Some(p) => put_reading(&*t, k, Bench::new(p), out),
        None => 0,
    }
}

// ---- the steps of a schedule

// Takes the steps of the lines of the text. Each reading goes into the rest that the one before has left.
fn put_readings(text: &[u8], t: &mut Reached, out: &mut [u8]) -> usize
    requires short { length text.now ≤ longest }
    requires room { line_room * count_of lf text.now ≤ length out.old }
    ensures { Wrote (readings_of 1 (read t.old.lent) (steps_in text.now)) result out.old out.new }
{
    let mut rest = text;
    let mut k = 1;
    let mut bytes = 0;
    while let Some((line, after)) = schedule::cut_line(rest) {
        let Some(Line::Step(x)) = schedule::line_of(line) else {
            return bytes;
        };
        bytes += take_step(t, k, x, &mut out[bytes..]);
        k += 1;
        rest = after;
    }
    bytes
}

// Takes all steps of the schedule on a fresh table, and writes their readings over the front of `out`. All refusals are found before the first step.
#[tactic(auto, using(run::proofs::Whole::refused_so))]
pub fn marks(schedule: &[u8], out: &mut [u8]) -> Result<usize, Refused>
    ensures { Answers (marks_of schedule.now (length out.old)) result out.old out.new }
{
    let (setup, lines) = admit(schedule, LINE_ROOM, out.len())?;
    let mut t = reached::fresh(setup);
    Ok(put_readings(lines, &mut t, out))
}
