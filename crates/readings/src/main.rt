// Reads a schedule from standard input, takes all its steps, and prints a line for each mark that is done, or one line that says why the schedule was refused.
#![tactic(auto)]

ghost use Rattle.std.specs.Prelude.{OnOk, IfSome};
ghost use Rattle.std.specs.Io.KnownBytes.{Appends};
ghost use Rattle.readings.specs.Shown.{printed, GoodIsRead};

use marks::LINE_ROOM;
use run::LONGEST;
use std::io;
use std::io::{Read, Write};

// A byte more than the longest schedule, so that a longer one shows.
const INPUT: usize = LONGEST + 1;

// Room for as many lines as the longest schedule can have: one that is good has six bytes a line at least.
const OUTPUT: usize = LINE_ROOM * 2048;

// Reads a schedule, takes its steps, and writes what is printed of it and nothing else.
fn run_all<R: Read, W: Write>(reader: &mut R, writer: &mut W) -> io::Result<()>
    ensures { OnOk result (IfSome (R.remaining reader.old) (λ input.
        Appends (W.contents writer.old) (W.contents writer.new) (printed input))) }
{
    let mut schedule = [0; INPUT];
    let n = input::fill(reader, &mut schedule)?;
    let mut out = [0; OUTPUT];
    let answer = marks::marks(&schedule[..n], &mut out);
    let bytes = run::put_answer(&mut out, answer);
    writer.write_all(&out[..bytes])
}

// A good schedule never lacks room: this does nothing, and has that theorem for its promise.
pub fn good_is_read()
    ensures { GoodIsRead }
{}

fn main(rt: HostRuntime) -> io::Result<()> {
    run_all(&mut rt.reader(), &mut io::writer(&rt))
}
