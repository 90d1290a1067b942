// Reads two lines of readings from standard input, and prints whether the event of the first could have influenced that of the second, or one line that says which line is bad.
#![tactic(auto)]

ghost use Rattle.std.specs.Prelude.{OnOk, IfSome};
ghost use Rattle.std.specs.Io.KnownBytes.{Appends};
ghost use Rattle.verdict.specs.Shown.{printed};

use std::io;
use std::io::{Read, Write};
use verdict::{LONGEST_LINE, ROOM};

// A byte more than the two longest lines, so that what follows them shows.
const INPUT: usize = 2 * LONGEST_LINE + 1;

// Reads two lines, and writes what is said of them and nothing else.
fn run_all<R: Read, W: Write>(reader: &mut R, writer: &mut W) -> io::Result<()>
    ensures { OnOk result (IfSome (R.remaining reader.old) (λ input.
        Appends (W.contents writer.old) (W.contents writer.new) (printed input))) }
{
    let mut text = [0; INPUT];
    let n = input::fill(reader, &mut text)?;
    let mut out = [0; ROOM];
    let bytes = verdict::put_verdict(&mut out, verdict::judge(&text[..n]));
    writer.write_all(&out[..bytes])
}

fn main(rt: HostRuntime) -> io::Result<()> {
    run_all(&mut rt.reader(), &mut io::writer(&rt))
}
