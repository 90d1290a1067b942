// What a host links: the engine and the run, as C functions on numbers and lent buffers.
#![tactic(auto)]

ghost use Rattle.std.specs.Prelude.{◌≡◌, length};
ghost use Rattle.lamport.specs.declared.Step.TheVariants.{Ask, Carry, Enter, Leave, Mark};
ghost use Rattle.lamport.specs.Vectors.{counts_in};
ghost use Rattle.listing.specs.Write.{Wrote};
ghost use Rattle.stamps.specs.Compare.{comparison, comparison_number};
ghost use Rattle.counted.specs.Post.{lent_ok, Stepped, Made, Handed};
ghost use Rattle.run.specs.Run.{run_of};

use counted::Lent;
use lamport::{Setup, Step, answer_number, wide};
use stamps::Stamp;

// ---- a table

#[unsafe(no_mangle)]
pub extern "C" fn rybostan_fresh(table: &mut Lent, benches: u32, capacity: u32, start: u32) -> u32
    ensures { Made benches capacity start result table.new }
{
    let setup = Setup {
        benches,
        capacity,
        start,
    };
    answer_number(counted::fresh(table, setup))
}

#[unsafe(no_mangle)]
pub extern "C" fn rybostan_well_formed(table: &Lent) -> bool
    ensures { result ≡ lent_ok table.now }
{
    counted::is_table(table)
}

// ---- the five steps

// Takes a step on the table lent, and answers its number for no, or 0.
fn step(table: &mut Lent, s: Step) -> u32
    ensures { Stepped table.old s result table.new }
{
    answer_number(counted::step(table, s))
}

#[unsafe(no_mangle)]
pub extern "C" fn rybostan_ask(table: &mut Lent, bench: u32) -> u32
    ensures { Stepped table.old (Ask bench) result table.new }
{
    step(table, Step::Ask(wide(bench)))
}

#[unsafe(no_mangle)]
pub extern "C" fn rybostan_carry(table: &mut Lent, sender: u32, receiver: u32) -> u32
    ensures { Stepped table.old (Carry sender receiver) result table.new }
{
    step(table, Step::Carry(wide(sender), wide(receiver)))
}

#[unsafe(no_mangle)]
pub extern "C" fn rybostan_enter(table: &mut Lent, bench: u32) -> u32
    ensures { Stepped table.old (Enter bench) result table.new }
{
    step(table, Step::Enter(wide(bench)))
}

#[unsafe(no_mangle)]
pub extern "C" fn rybostan_leave(table: &mut Lent, bench: u32) -> u32
    ensures { Stepped table.old (Leave bench) result table.new }
{
    step(table, Step::Leave(wide(bench)))
}

#[unsafe(no_mangle)]
pub extern "C" fn rybostan_mark(table: &mut Lent, bench: u32) -> u32
    ensures { Stepped table.old (Mark bench) result table.new }
{
    step(table, Step::Mark(wide(bench)))
}

// ---- vector stamps

// A bench's counts, over the words lent for them: the stamp of its last event.
#[unsafe(no_mangle)]
pub extern "C" fn rybostan_counts(table: &Lent, bench: u32, stamp: &mut Stamp) -> u32
    ensures { Handed table.now bench result stamp.old stamp.new }
{
    answer_number(counted::counts_of(table, wide(bench), stamp))
}

// Whether the event of the first stamp happened before that of the second, after it, is the same, or none of these: 0 to 3.
#[unsafe(no_mangle)]
pub extern "C" fn rybostan_compare(a: &Stamp, b: &Stamp) -> u32
    ensures { result ≡ comparison_number (comparison (counts_in a.now) (counts_in b.now)) }
{
    stamps::comparison_number(stamps::compare(a, b))
}

// ---- a run

// 0 and the bytes written; or the refusal, with its line.
#[repr(C)]
pub struct RunAnswer {
    pub answer: u32,
    pub line: usize,
    pub bytes: usize,
}

// Runs the schedule for at most `budget` steps, and writes the listing over the front of `out`.
#[unsafe(no_mangle)]
pub extern "C" fn rybostan_run(schedule: &[u8], budget: usize, out: &mut [u8]) -> RunAnswer
    ensures answer { result.answer ≡ (run_of schedule.now budget (length out.old)).no }
    ensures line { result.line ≡ (run_of schedule.now budget (length out.old)).line }
    ensures text { Wrote (run_of schedule.now budget (length out.old)).text result.bytes out.old out.new }
{
    match run::run(schedule, budget, out) {
        Ok(bytes) => RunAnswer {
            answer: 0,
            line: 0,
            bytes,
        },
        Err(refused) => RunAnswer {
            answer: answer_number(Err(refused.refusal)),
            line: refused.line,
            bytes: 0,
        },
    }
}
