// Reads a schedule from standard input, runs it, and prints its listing, or one line that says why it was refused.
#![tactic(auto)]

ghost use Rattle.std.specs.Prelude.{OnOk, IfSome};
ghost use Rattle.std.specs.Io.KnownBytes.{Appends};
ghost use Rattle.turns.specs.Shown.{printed, GoodIsRun};

use run::{LINE_ROOM, LONGEST};
use std::io;
use std::io::{Read, Write};

// A byte more than the longest schedule, so that a longer one shows.
const INPUT: usize = LONGEST + 1;

// Room for as many lines as the longest schedule can have: one that is good has six bytes a line at least.
const OUTPUT: usize = LINE_ROOM * 2048;

const BUDGET: usize = 65535;

// Reads a schedule, runs it, and writes what is printed of it and nothing else.
fn run_all<R: Read, W: Write>(reader: &mut R, writer: &mut W) -> io::Result<()>
    ensures { OnOk result (IfSome (R.remaining reader.old) (λ input.
        Appends (W.contents writer.old) (W.contents writer.new) (printed input))) }
{
    let mut schedule = [0; INPUT];
    let n = input::fill(reader, &mut schedule)?;
    let mut out = [0; OUTPUT];
    let answer = run::run(&schedule[..n], BUDGET, &mut out);
    let bytes = run::put_answer(&mut out, answer);
    writer.write_all(&out[..bytes])
}

// A good schedule never lacks room: this does nothing, and has that theorem for its promise.
pub fn good_is_run()
    ensures { GoodIsRun }
{}

fn main(rt: HostRuntime) -> io::Result<()> {
    run_all(&mut rt.reader(), &mut io::writer(&rt))
}
