// Judges texts of two lines of readings at the limits of each rule, and prints what is printed of each.
#![tactic(auto)]

use std::io;
use std::io::Write;
use verdict::ROOM;

fn case(rt: &impl Print, name: &str, text: &[u8]) -> io::Result<()> {
    let mut out = [b'.'; ROOM];
    let bytes = verdict::put_verdict(&mut out, verdict::judge(text));
    print!(rt; "{name}: ")?;
    io::writer(rt).write_all(&out[..bytes])
}

// ---- the cases

fn answers(rt: &impl Print) -> io::Result<()> {
    case(
        rt,
        "a count is smaller, and none larger",
        b"2\t0\t3\t2\t0\t0\n7\t2\t9\t2\t1\t4\n",
    )?;
    case(
        rt,
        "a count is larger, and none smaller",
        b"7\t2\t9\t2\t1\t4\n2\t0\t3\t2\t0\t0\n",
    )?;
    case(
        rt,
        "the same counts, of other steps and benches",
        b"3\t0\t1\t1\t1\n5\t1\t4\t1\t1\n",
    )?;
    case(
        rt,
        "one count is smaller, and one larger",
        b"1\t0\t1\t1\t0\n2\t1\t1\t0\t1\n",
    )?;
    case(rt, "one bench", b"1\t0\t1\t1\n2\t0\t2\t2\n")?;
    case(
        rt,
        "eight benches, the last count is smaller",
        b"9\t0\t9\t1\t2\t3\t4\t5\t6\t7\t8\n9\t7\t9\t1\t2\t3\t4\t5\t6\t7\t9\n",
    )?;
    case(
        rt,
        "eight benches, the last count is larger",
        b"9\t0\t9\t1\t2\t3\t4\t5\t6\t7\t9\n9\t7\t9\t1\t2\t3\t4\t5\t6\t7\t8\n",
    )?;
    case(
        rt,
        "eight benches, the first and the last",
        b"9\t0\t9\t1\t2\t3\t4\t5\t6\t7\t9\n9\t7\t9\t2\t2\t3\t4\t5\t6\t7\t8\n",
    )?;
    case(
        rt,
        "counts of ten digits",
        b"1\t0\t0\t4294967295\t0\n1\t0\t0\t4294967294\t0\n",
    )
}

fn ends(rt: &impl Print) -> io::Result<()> {
    case(rt, "nothing", b"")?;
    case(rt, "an LF alone", b"\n")?;
    case(rt, "two LFs", b"\n\n")?;
    case(rt, "no LF ends the first line", b"1\t0\t1\t1")?;
    case(rt, "one line", b"1\t0\t1\t1\n")?;
    case(rt, "an empty second line", b"1\t0\t1\t1\n\n")?;
    case(rt, "no LF ends the second line", b"1\t0\t1\t1\n2\t0\t2\t2")?;
    case(rt, "a third line", b"1\t0\t1\t1\n2\t0\t2\t2\n3\t0\t3\t3\n")?;
    case(
        rt,
        "an LF behind the second line",
        b"1\t0\t1\t1\n2\t0\t2\t2\n\n",
    )?;
    case(
        rt,
        "a byte behind the second line",
        b"1\t0\t1\t1\n2\t0\t2\t2\n3",
    )?;
    case(rt, "CR LF", b"1\t0\t1\t1\r\n2\t0\t2\t2\r\n")
}

fn fields(rt: &impl Print) -> io::Result<()> {
    case(rt, "no count", b"1\t0\t1\n2\t0\t2\n")?;
    case(rt, "no count in the second line", b"1\t0\t1\t1\n2\t0\t2\n")?;
    case(
        rt,
        "nine counts",
        b"1\t0\t1\t1\t2\t3\t4\t5\t6\t7\t8\t9\n1\t0\t1\t1\t2\t3\t4\t5\t6\t7\t8\t9\n",
    )?;
    case(
        rt,
        "nine counts in the second line",
        b"1\t0\t1\t1\t2\t3\t4\t5\t6\t7\t8\n1\t0\t1\t1\t2\t3\t4\t5\t6\t7\t8\t9\n",
    )?;
    case(
        rt,
        "another number of benches",
        b"1\t0\t1\t1\t1\n1\t0\t1\t1\t1\t1\n",
    )?;
    case(rt, "step 0", b"0\t0\t1\t1\n2\t0\t2\t2\n")?;
    case(rt, "step 0 in the second line", b"1\t0\t1\t1\n0\t0\t2\t2\n")?;
    case(rt, "clock 0", b"1\t0\t0\t1\n2\t0\t0\t2\n")?;
    case(rt, "the last bench", b"1\t1\t1\t1\t1\n2\t0\t2\t2\t1\n")?;
    case(rt, "no such bench", b"1\t2\t1\t1\t1\n2\t0\t2\t2\t1\n")?;
    case(
        rt,
        "no such bench in the second line",
        b"1\t1\t1\t1\t1\n2\t2\t2\t2\t1\n",
    )?;
    case(rt, "4294967296", b"1\t0\t1\t4294967296\n2\t0\t2\t2\n")?;
    case(rt, "a needless zero", b"1\t0\t1\t01\n2\t0\t2\t2\n")?;
    case(rt, "a sign", b"1\t0\t1\t1\n2\t0\t2\t+2\n")?;
    case(rt, "an empty field", b"1\t0\t1\t1\n2\t0\t2\t\n")?;
    case(rt, "a space for a tab", b"1 0 1 1\n2 0 2 2\n")?;
    case(rt, "the listing's dash", b"1\t0\t1\t-\n2\t0\t2\t2\n")
}

// The earliest bad line is the one that is named, and a line is as long as its numbers can make it.
fn earliest(rt: &impl Print) -> io::Result<()> {
    case(rt, "both lines are bad", b"0\t0\t1\t1\n0\t0\t2\t2\n")?;
    case(
        rt,
        "a bad second line, and a third",
        b"1\t0\t1\t1\nx\n3\t0\t3\t3\n",
    )?;
    case(
        rt,
        "another number of benches, and a third line",
        b"1\t0\t1\t1\n2\t0\t2\t2\t2\n3\t0\t3\t3\n",
    )?;
    case(rt, "300 bytes of one field", &[b'1'; 300])?;
    case(
        rt,
        "the longest lines",
        b"4294967295\t7\t4294967295\t4294967295\t4294967295\t4294967295\t4294967295\t4294967295\t4294967295\t4294967295\t4294967295\n4294967295\t7\t4294967295\t4294967295\t4294967295\t4294967295\t4294967295\t4294967295\t4294967295\t4294967295\t4294967295\n",
    )
}

fn main(rt: HostRuntime) -> io::Result<()> {
    answers(&rt)?;
    ends(&rt)?;
    fields(&rt)?;
    earliest(&rt)
}
